//! Numbers and places in a text.

ghost use Rattle.std.specs.Prelude.{◌≡◌, ◌++◌, OnOk};
ghost use Rattle.std.specs.Fmt.{decimal};
ghost use Rattle.source_map.specs.Lines.{place_text};

use std::alloc::{AllocError, Global};
use tla_token::Place;
use tla_tree::Text;

/// Adds a number in decimal.
///
/// # Errors
///
/// Only for want of memory.
pub fn add_number(alloc: Global, out: &mut Text, number: usize) -> Result<(), AllocError>
    ensures { OnOk result (out.new ≡ out.old ++ decimal number) }
{
    let digits = format!(in alloc; "{number}")?;
    out.extend(digits.as_bytes())
}

/// Adds a place: its line and its column.
///
/// # Errors
///
/// Only for want of memory.
pub fn add_place(alloc: Global, out: &mut Text, place: Place) -> Result<(), AllocError>
    ensures { OnOk result (out.new ≡ out.old ++ place_text place) }
{
    let Place { line, col } = place;
    let text = format!(in alloc; "{line}:{col}")?;
    out.extend(text.as_bytes())
}
