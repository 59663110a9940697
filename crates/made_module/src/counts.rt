//! The lines that tell how large a made module is.

ghost use Rattle.std.specs.Prelude.{◌≡◌, IfOk};
ghost use Rattle.make_module.specs.Big.{counted_text};

use std::alloc::{AllocError, Global};

/// A line each for so many labels, names of variables and bytes.
///
/// # Errors
///
/// Only for want of memory.
pub fn count_lines(
    alloc: Global,
    labels: usize,
    variables: usize,
    bytes: usize,
) -> Result<Vec<u8>, AllocError>
    ensures { IfOk result (λ w. w.items ≡ counted_text labels variables bytes) }
{
    let lines = format!(in alloc; "labels {labels}\nvariables {variables}\nbytes {bytes}\n")?;
    Ok(lines.into_bytes())
}
