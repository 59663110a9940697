//! The rows of a file, and what is told of each expression.

use crate::reading::{Why, state, value};
use row_text::bytes_of;
use std::alloc::{AllocError, Global};
use tla_token::{Place, Stop};
use tla_tree::Text;
use tla_value::fault::FaultKind;
use tla_value::state::State;
use tla_value::stop::EvalStop;
use value_text::write_value;

/// Appends the name of each row, and what is told of its expressions.
pub fn put_rows(alloc: Global, told: &mut Vec<u8>, text: &str) -> Result<(), AllocError> {
    let lines = text.strip_suffix('\n').unwrap_or(text);
    for row in lines.split("\n=== ").skip(1) {
        put_row(alloc, told, row)?;
    }
    Ok(())
}

// Appends a row's name, and a line for each of its expressions.
fn put_row(alloc: Global, told: &mut Vec<u8>, row: &str) -> Result<(), AllocError> {
    let (front, lines) = row.split_once("\n--- values\n").unwrap_or((row, ""));
    let (front, definitions) = front
        .split_once("\n--- definitions\n")
        .unwrap_or((front, ""));
    let (title, names) = front.split_once("\n--- names\n").unwrap_or((front, ""));
    told.extend_from_slice(b"=== ")?;
    told.extend_from_slice(title.as_bytes())?;
    told.push(b'\n')?;
    let state = state(alloc, names)?;
    let definitions = String::from_utf8_lossy(alloc, &bytes_of(alloc, definitions)?)?;
    for line in lines.split('\n') {
        put_line(alloc, told, &state, definitions.as_str(), line)?;
    }
    Ok(())
}

// Appends what is told of an expression.
fn put_line(
    alloc: Global,
    told: &mut Vec<u8>,
    state: &State,
    definitions: &str,
    line: &str,
) -> Result<(), AllocError> {
    let spelled = String::from_utf8_lossy(alloc, &bytes_of(alloc, line)?)?;
    match value(alloc, state, definitions, spelled.as_str()) {
        Ok(v) => {
            let mut text = Text::new(Vec::new(alloc));
            write_value(alloc, &v, &mut text)?;
            told.extend_from_slice(text.bytes())?;
        }
        Err(why) => put_why(alloc, told, why)?,
    }
    told.push(b'\n').map_err(AllocError::from)
}

fn put_why(alloc: Global, told: &mut Vec<u8>, why: Why) -> Result<(), AllocError> {
    match why {
        Why::Refused(Stop::Refused(refusal)) => put_text(told, format!(in alloc; "{refusal}")?),
        Why::Refused(Stop::Memory) | Why::Stopped(EvalStop::Memory) => {
            told.extend_from_slice(b"no memory")
        }
        Why::Stopped(EvalStop::Fault(kind, at)) => {
            told.extend_from_slice(b"fault ")?;
            told.extend_from_slice(kind_word(kind))?;
            put_place(alloc, told, at)
        }
        Why::Stopped(EvalStop::Limit(at)) => {
            told.extend_from_slice(b"limit")?;
            put_place(alloc, told, at)
        }
    }
}

fn put_text(told: &mut Vec<u8>, text: String) -> Result<(), AllocError> {
    told.extend_from_slice(text.as_bytes())
}

fn put_place(alloc: Global, told: &mut Vec<u8>, at: Place) -> Result<(), AllocError> {
    put_text(told, format!(in alloc; " {}:{}", at.line, at.col)?)
}

// The word of a kind of fault.
fn kind_word(kind: FaultKind) -> &'static [u8] {
    match kind {
        FaultKind::NotBoolean => b"NotBoolean",
        FaultKind::NotInteger => b"NotInteger",
        FaultKind::NotSet => b"NotSet",
        FaultKind::NotFunction => b"NotFunction",
        FaultKind::NotSequence => b"NotSequence",
        FaultKind::EmptySequence => b"EmptySequence",
        FaultKind::NotInDomain => b"NotInDomain",
        FaultKind::BadDivisor => b"BadDivisor",
        FaultKind::NoCase => b"NoCase",
        FaultKind::AssertFailed => b"AssertFailed",
        FaultKind::SameIdentifier => b"SameIdentifier",
    }
}
