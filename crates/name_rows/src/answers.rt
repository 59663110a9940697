//! The rows of a file, and what is told of each.

ghost use Rattle.std.specs.Prelude.{◌<◌, ◌^◌, length};

use crate::naming::naming_of;
use row_text::lines_of;
use std::alloc::{AllocError, Global};
use tla_token::Stop;
use tla_tree::Name;
use written_names::naming::Naming;

// A text of a row is shorter; so it can be looked at.
const MOST: usize = 1_000_000;

/// Appends the name of each row, and what is told of it.
pub fn put_rows(alloc: Global, told: &mut Vec<u8>, text: &str) -> Result<(), AllocError> {
    let lines = text.strip_suffix('\n').unwrap_or(text);
    for row in lines.split("\n=== ").skip(1) {
        put_row(alloc, told, row)?;
    }
    Ok(())
}

// Appends a row's name, and what is told of its module.
fn put_row(alloc: Global, told: &mut Vec<u8>, row: &str) -> Result<(), AllocError> {
    let (title, rest) = row.split_once("\n--- file M.tla\n").unwrap_or((row, ""));
    let (lines, asked) = rest.split_once("\n--- names\n").unwrap_or((rest, ""));
    put_line(told, "=== ", title)?;
    let text = lines_of(alloc, Some(lines))?;
    if text.len() < MOST {
        put_answer(alloc, told, &text, asked)?;
    }
    Ok(())
}

fn put_line(told: &mut Vec<u8>, before: &str, line: &str) -> Result<(), AllocError> {
    told.extend_from_slice(before.as_bytes())?;
    told.extend_from_slice(line.as_bytes())?;
    told.push(b'\n').map_err(AllocError::from)
}

// Appends the written names that are asked for, or the refusal.
fn put_answer(alloc: Global, told: &mut Vec<u8>, text: &[u8], asked: &str) -> Result<(), AllocError>
    requires { length text.now < 2 ^ 29 }
{
    match naming_of(alloc, text) {
        Ok(naming) => put_names(alloc, told, &naming, asked),
        Err(Stop::Refused(refusal)) => put_line(told, "", &format!(in alloc; "{refusal}")?),
        Err(Stop::Memory) => put_line(told, "", "no memory"),
    }
}

// Appends what each line asks for, with its written name.
fn put_names(
    alloc: Global,
    told: &mut Vec<u8>,
    naming: &Naming,
    asked: &str,
) -> Result<(), AllocError> {
    put_line(told, "", "ok")?;
    for line in asked.split('\n') {
        if !line.is_empty() {
            put_name(alloc, told, naming, line)?;
        }
    }
    Ok(())
}

// Appends a line, which is `title`, `variable` or `label`, a unit's number, and a name; and behind it the written name.
fn put_name(
    alloc: Global,
    told: &mut Vec<u8>,
    naming: &Naming,
    line: &str,
) -> Result<(), AllocError> {
    let (kind, rest) = line.split_once(' ').unwrap_or((line, ""));
    let (number, word) = rest.split_once(' ').unwrap_or((rest, ""));
    let unit = number.parse().unwrap_or(0);
    let name = Name::new(Vec::from_slice(alloc, word.as_bytes())?);
    told.extend_from_slice(line.as_bytes())?;
    told.extend_from_slice(b": ")?;
    told.extend_from_slice(match kind {
        "title" => naming.title(unit),
        "label" => naming.label(unit, &name).bytes(),
        _ => naming.local(unit, &name).bytes(),
    })?;
    told.push(b'\n').map_err(AllocError::from)
}
