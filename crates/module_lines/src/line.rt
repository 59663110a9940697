//! Lines of a translation: blanks, names with commas.

ghost use Rattle.std.specs.Prelude.{◌≡◌, ◌++◌, ◌+◌, [], cond, OnOk, IfOk};
ghost use Rattle.module_tree.specs.ExprText.{joined};
ghost use Rattle.module_tree.specs.Layout.{blanks, line, tuple_of};

use std::alloc::AllocError;
use tla_tree::{Name, Text};

/// The indentation that is further right by so much. An indentation past the largest number is more blanks than memory has.
///
/// # Errors
///
/// Only for want of memory.
pub fn deeper(k: usize, by: usize) -> Result<usize, AllocError>
    ensures { IfOk result (λ n. n ≡ k + by) }
{
    k.checked_add(by).ok_or(AllocError)
}

/// Appends so many blanks.
///
/// # Errors
///
/// Only for want of memory.
pub fn write_blanks(k: usize, into: &mut Text) -> Result<(), AllocError>
    ensures { OnOk result (into.new ≡ into.old ++ blanks k) }
{
    for _i in 0..k {
        into.push(b' ')?;
    }
    Ok(())
}

/// Appends a line with this text, indented by `k`.
///
/// # Errors
///
/// Only for want of memory.
pub fn write_line(k: usize, text: &[u8], into: &mut Text) -> Result<(), AllocError>
    ensures { OnOk result (into.new ≡ into.old ++ line k text.now) }
{
    write_blanks(k, into)?;
    into.extend(text)?;
    into.push(b'\n')
}

/// Appends the beginning of a line, indented by `k`.
///
/// # Errors
///
/// Only for want of memory.
pub fn begin_line(k: usize, text: &[u8], into: &mut Text) -> Result<(), AllocError>
    ensures { OnOk result (into.new ≡ into.old ++ (blanks k ++ text.now)) }
{
    write_blanks(k, into)?;
    into.extend(text)
}

/// Appends a text where this holds.
///
/// # Errors
///
/// Only for want of memory.
pub fn write_where(holds: bool, text: &[u8], into: &mut Text) -> Result<(), AllocError>
    ensures { OnOk result (into.new ≡ into.old ++ cond holds text.now []) }
{
    if holds {
        into.extend(text)?;
    }
    Ok(())
}

/// Appends names with commas between them.
///
/// # Errors
///
/// Only for want of memory.
pub fn write_joined(names: &[Name], into: &mut Text) -> Result<(), AllocError>
    ensures { OnOk result (into.new ≡ into.old ++ joined names.now) }
{
    for i in 0..names.len() {
        write_where(i > 0, b", ", into)?;
        into.extend(names[i].bytes())?;
    }
    Ok(())
}

/// Appends `<<x, y>>`.
///
/// # Errors
///
/// Only for want of memory.
pub fn write_tuple(names: &[Name], into: &mut Text) -> Result<(), AllocError>
    ensures { OnOk result (into.new ≡ into.old ++ tuple_of names.now) }
{
    into.extend(b"<<")?;
    write_joined(names, into)?;
    into.extend(b">>")
}
