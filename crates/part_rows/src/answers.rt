//! The rows of a file, and each row's parts: what is told of them.

use crate::kinds::put_answer;
use row_text::{bytes_of, lines_of, put_shown};
use std::alloc::{AllocError, Global};

/// Appends the name of each row with the answers to its parts.
pub fn put_rows(alloc: Global, told: &mut Vec<u8>, text: &str) -> Result<(), AllocError> {
    let lines = text.strip_suffix('\n').unwrap_or(text);
    for row in lines.split("\n=== ").skip(1) {
        put_row(alloc, told, row)?;
    }
    Ok(())
}

// Appends a row's name, and for each part its head and the answer.
fn put_row(alloc: Global, told: &mut Vec<u8>, row: &str) -> Result<(), AllocError> {
    for (i, part) in row.split("\n--- ").enumerate() {
        let (head, text) = match part.split_once('\n') {
            Some((head, lines)) => (head, Some(lines)),
            None => (part, None),
        };
        put_line(told, if i == 0 { "=== " } else { "--- " }, head)?;
        match head.strip_prefix("each ") {
            _ if i == 0 => {}
            Some(kind) => put_each(alloc, told, kind, text.unwrap_or(""))?,
            None => put_one(alloc, told, head, text)?,
        }
    }
    Ok(())
}

fn put_line(told: &mut Vec<u8>, before: &str, line: &str) -> Result<(), AllocError> {
    told.extend_from_slice(before.as_bytes())?;
    told.extend_from_slice(line.as_bytes())?;
    told.push(b'\n').map_err(AllocError::from)
}

// Appends what is answered to a text of lines.
fn put_one(
    alloc: Global,
    told: &mut Vec<u8>,
    kind: &str,
    text: Option<&str>,
) -> Result<(), AllocError> {
    let mut answer = Vec::new(alloc);
    put_answer(alloc, &mut answer, kind, &lines_of(alloc, text)?)?;
    answer.push(b'\n')?;
    put_shown(told, &answer)
}

// Appends each line, and below it what is answered to the text that it spells.
fn put_each(alloc: Global, told: &mut Vec<u8>, kind: &str, lines: &str) -> Result<(), AllocError> {
    for line in lines.split('\n') {
        put_line(told, "", line)?;
        let mut answer = Vec::from_slice(alloc, b"    ")?;
        put_answer(alloc, &mut answer, kind, &bytes_of(alloc, line)?)?;
        answer.push(b'\n')?;
        put_shown(told, &answer)?;
    }
    Ok(())
}
