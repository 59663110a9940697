//! The rows of a file, and what is written of each.

ghost use Rattle.std.specs.Prelude.{◌<◌, ◌^◌, length};

use crate::written::{Options, written_text};
use row_text::lines_of;
use std::alloc::{AllocError, Global};
use tla_token::Stop;

// A text of a row is shorter; so it can be looked at.
const MOST: usize = 1_000_000;

/// Appends the name of each row, and what is written of it.
pub fn put_rows(alloc: Global, told: &mut Vec<u8>, text: &str) -> Result<(), AllocError> {
    let lines = text.strip_suffix('\n').unwrap_or(text);
    for row in lines.split("\n=== ").skip(1) {
        put_row(alloc, told, row)?;
    }
    Ok(())
}

// Appends a row's name, and its module with the translation.
fn put_row(alloc: Global, told: &mut Vec<u8>, row: &str) -> Result<(), AllocError> {
    let (head, lines) = row.split_once("\n--- file M.tla\n").unwrap_or((row, ""));
    let (title, words) = head.split_once("\n--- words ").unwrap_or((head, ""));
    put_line(told, "=== ", title)?;
    let text = lines_of(alloc, Some(lines))?;
    if text.len() < MOST {
        put_answer(alloc, told, &text, words)?;
    }
    Ok(())
}

fn put_line(told: &mut Vec<u8>, before: &str, line: &str) -> Result<(), AllocError> {
    told.extend_from_slice(before.as_bytes())?;
    told.extend_from_slice(line.as_bytes())?;
    told.push(b'\n').map_err(AllocError::from)
}

// The options among the words of a row.
fn options_of(words: &str) -> Options {
    let mut options = Options {
        label: false,
        no_terminating: false,
    };
    for word in words.split(' ') {
        match word {
            "--label" => options.label = true,
            "--no-terminating" => options.no_terminating = true,
            _ => {}
        }
    }
    options
}

// Appends a module with its translation, or the refusal.
fn put_answer(alloc: Global, told: &mut Vec<u8>, text: &[u8], words: &str) -> Result<(), AllocError>
    requires { length text.now < 2 ^ 29 }
{
    match written_text(alloc, text, &options_of(words)) {
        Ok(file) => told.extend_from_slice(&file),
        Err(Stop::Refused(refusal)) => put_line(told, "", &format!(in alloc; "{refusal}")?),
        Err(Stop::Memory) => put_line(told, "", "no memory"),
    }
}
