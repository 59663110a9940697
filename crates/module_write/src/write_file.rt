//! A file with another translation.

ghost use Rattle.std.specs.Prelude.{◌≡◌, ◌++◌, [], cond, codes, length, not, is_some, Some, IfOk, OnOk};
ghost use Rattle.module_tree.specs.Walk.{walk};
ghost use Rattle.module_tree.specs.FileParts.{region_of, spot};
ghost use Rattle.module_tree.specs.WithTranslation.{WithTranslation};
ghost use Rattle.module_tree.specs.Around.{Around};
ghost use Rattle.module_write.specs.InMemory.{module_at, RegionIn};

use crate::lines::{begin_text, end_text};
use crate::module::Module;
use crate::write_units::write_region;
use module_tree::Parts;
use std::alloc::{AllocError, Global};
use tla_pool::Pool;
use tla_tree::Text;

fn end_line_if(is_new: bool, out: &mut Vec<u8>) -> Result<(), AllocError>
    ensures { OnOk result (out.new.items ≡ out.old.items ++ cond is_new (codes "\n") []) }
{
    if is_new {
        out.push(b'\n')?;
    }
    Ok(())
}

/// The file with this text between the two lines of its translation; all other bytes are as they were.
///
/// # Errors
///
/// Only for want of memory.
pub fn with_translation(
    alloc: Global,
    parts: &Parts<'_>,
    translation: &[u8],
) -> Result<Vec<u8>, AllocError>
    requires spot { spot (walk parts.now.text.now) ≡ Some (record { from = parts.now.spot.from; to = parts.now.spot.to }) }
    requires is_new { is_some (region_of (walk parts.now.text.now)) ≡ not parts.now.is_new }
    ensures { IfOk result (λ w. WithTranslation parts.now.text.now translation.now w.items) }
{
    let file = parts.text;
    let mut out = Vec::new(alloc);
    out.extend_from_slice(&file[..parts.spot.from])?;
    out.extend_from_slice(begin_text().as_bytes())?;
    out.extend_from_slice(translation)?;
    out.extend_from_slice(end_text().as_bytes())?;
    end_line_if(parts.is_new, &mut out)?;
    out.extend_from_slice(&file[parts.spot.to..])?;
    Ok(out)
}

/// The file with the translation of this module ("A PlusCal User's Manual", section 2.2).
///
/// # Errors
///
/// Only for want of memory.
pub fn write_module(
    alloc: Global,
    pool: &Pool,
    parts: &Parts<'_>,
    written: &Module,
) -> Result<Vec<u8>, AllocError>
    requires spot { spot (walk parts.now.text.now) ≡ Some (record { from = parts.now.spot.from; to = parts.now.spot.to }) }
    requires is_new { is_some (region_of (walk parts.now.text.now)) ≡ not parts.now.is_new }
    requires numbers { RegionIn (length pool.now) written.now.region }
    ensures { IfOk result (λ w. Around parts.now.text.now (module_at pool.now written.now) w.items) }
{
    let mut translation = Text::new(Vec::new(alloc));
    write_region(alloc, pool, &written.region, &mut translation)?;
    with_translation(alloc, parts, translation.bytes())
}
