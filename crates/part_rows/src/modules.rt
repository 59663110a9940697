//! Files in their parts, and a file with a translation put in its place.

ghost use Rattle.std.specs.Prelude.{◌<◌, ◌^◌, length};

use crate::scanning::{put_stop, put_text};
use module_text::{Parts, split, with_translation};
use std::alloc::{AllocError, Global};
use tla_token::Span;

fn stretch(text: &[u8], span: Span) -> &[u8] {
    text.get(span.from..span.to).unwrap_or(b"-")
}

/// Appends the parts of a file: the module's name, the place of the translation and whether it is new, the syntax, the algorithm, and how many tokens are
/// before that place and after it.
pub fn put_parts(alloc: Global, told: &mut Vec<u8>, text: &[u8]) -> Result<(), AllocError>
    requires { length text.now < 2 ^ 29 }
{
    match split(alloc, text) {
        Ok(parts) => put_split(alloc, told, &parts),
        Err(stop) => put_stop(alloc, told, stop),
    }
}

fn put_split(alloc: Global, told: &mut Vec<u8>, parts: &Parts) -> Result<(), AllocError> {
    let (from, to) = (parts.spot.from, parts.spot.to);
    let age = if parts.is_new { "new" } else { "old" };
    let syntax = if parts.is_c { "C" } else { "P" };
    told.extend_from_slice(stretch(parts.text, parts.title))?;
    put_text(told, format!(in alloc; " {from}-{to} {age} {syntax} ")?)?;
    told.extend_from_slice(stretch(parts.text, parts.algorithm))?;
    let (before, after) = (parts.before.items.len(), parts.after.items.len());
    put_text(told, format!(in alloc; " {before} {after}")?)
}

/// Appends a file with a line as its translation.
pub fn put_translated(
    alloc: Global,
    told: &mut Vec<u8>,
    text: &[u8],
    line: &str,
) -> Result<(), AllocError>
    requires { length text.now < 2 ^ 29 }
{
    match split(alloc, text) {
        Ok(parts) => {
            let region = format!(in alloc; "{line}\n")?;
            let written = with_translation(alloc, &parts, region.as_bytes())?;
            told.extend_from_slice(&written)
        }
        Err(stop) => put_stop(alloc, told, stop),
    }
}
