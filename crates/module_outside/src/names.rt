//! Names with commas between them, and parameters.

ghost use Rattle.std.specs.Prelude.{◌≡◌, ◌<◌, ◌≤◌, ◌&&◌, length, IfOk, IfSome, IsTrue, Some, None, List};
ghost use Rattle.tla_tree.specs.Lexical as tk;
ghost use Rattle.expr_nodes.specs.Ahead.{ahead};
ghost use Rattle.outside_reading.specs.PlainUnits.{names_in, named_in, modules_in, constants_in, parameters_in, head_in};
ghost use Rattle.module_outside.specs.Fronts.{names_and_rest, items_of, front_right, front_placed};

use crate::front::{is_keyword_at, is_mark_at, is_placed_at, is_right_at, name_at};
use expr_nodes::view::Mark;
use std::alloc::{AllocError, Global};
use tla_token::Tokens;
use tla_tree::PlacedName;

/// The names from a token on, and the number of the token after them.
///
/// # Errors
///
/// Only for want of memory.
pub fn names_at(
    alloc: Global,
    tokens: &Tokens,
    from: usize,
) -> Result<Option<(Vec<PlacedName>, usize)>, AllocError>
    requires there { from ≤ length tokens.now.items.items }
    ensures value { IfOk result (λ r. names_and_rest tokens.now r ≡ names_in (ahead tokens.now from)) }
    ensures within { IfOk result (λ r. IfSome r (λ x. x.1 ≤ length tokens.now.items.items)) }
{
    let mut names = Vec::new(alloc);
    let mut at = from;
    while at < tokens.items.len() {
        match name_at(alloc, tokens, at)? {
            Some(name) => {
                names.push(name)?;
            }
            None => {
                return Ok(None);
            }
        }
        if !is_mark_at(tokens, at + 1, Mark::Comma) {
            return Ok(Some((names, at + 1)));
        }
        if !is_right_at(tokens, at + 1) {
            return Ok(None);
        }
        at += 2;
    }
    Ok(None)
}

/// The names after this word, where a unit is that word and names.
///
/// # Errors
///
/// Only for want of memory.
pub fn named(
    alloc: Global,
    unit: &Tokens,
    word: &[u8],
) -> Result<Option<Vec<PlacedName>>, AllocError>
    ensures { IfOk result (λ r. items_of r ≡ named_in word.now (ahead unit.now 0)) }
{
    if unit.items.is_empty() {
        return Ok(None);
    }
    if !is_keyword_at(unit, 0, word) {
        return Ok(None);
    }
    match names_at(alloc, unit, 1)? {
        Some((names, end)) => {
            if end == unit.items.len() {
                Ok(Some(names))
            } else {
                Ok(None)
            }
        }
        None => Ok(None),
    }
}

/// The modules that a unit extends, if it does.
///
/// # Errors
///
/// Only for want of memory.
pub fn modules(alloc: Global, unit: &Tokens) -> Result<Option<Vec<PlacedName>>, AllocError>
    ensures { IfOk result (λ r. items_of r ≡ modules_in (ahead unit.now 0)) }
{
    named(alloc, unit, b"EXTENDS")
}

/// The constants that a unit declares, if it does.
///
/// # Errors
///
/// Only for want of memory.
pub fn constants(alloc: Global, unit: &Tokens) -> Result<Option<Vec<PlacedName>>, AllocError>
    ensures { IfOk result (λ r. items_of r ≡ constants_in (ahead unit.now 0)) }
{
    match named(alloc, unit, b"CONSTANT")? {
        Some(names) => Ok(Some(names)),
        None => named(alloc, unit, b"CONSTANTS"),
    }
}

// Whether brackets from a token on, before another, are closed.
fn is_closed(tokens: &Tokens, from: usize, end: usize) -> bool
    ensures value { result ≡ (front_right (ahead tokens.now from) && front_placed tk.close_bracket (ahead tokens.now end)) }
    ensures there { IsTrue result → end < length tokens.now.items.items }
{
    is_right_at(tokens, from) && is_placed_at(tokens, end, Mark::CloseBracket)
}

// The parameters from a token on, if there are any, and the number of the token after them.
fn parameters_at(
    alloc: Global,
    tokens: &Tokens,
    from: usize,
) -> Result<Option<(Vec<PlacedName>, usize)>, AllocError>
    requires there { from < length tokens.now.items.items }
    ensures value { IfOk result (λ r. names_and_rest tokens.now r ≡ parameters_in (ahead tokens.now from)) }
    ensures within { IfOk result (λ r. IfSome r (λ x. x.1 ≤ length tokens.now.items.items)) }
{
    if !is_mark_at(tokens, from, Mark::OpenBracket) {
        return Ok(Some((Vec::new(alloc), from)));
    }
    match names_at(alloc, tokens, from + 1)? {
        Some((names, end)) => {
            if is_closed(tokens, from, end) {
                Ok(Some((names, end + 1)))
            } else {
                Ok(None)
            }
        }
        None => Ok(None),
    }
}

/// The parameters of a definition, from the token after its name on, and the number of the first token of its body.
///
/// # Errors
///
/// Only for want of memory.
pub fn head_at(
    alloc: Global,
    tokens: &Tokens,
    from: usize,
) -> Result<Option<(Vec<PlacedName>, usize)>, AllocError>
    requires there { from < length tokens.now.items.items }
    ensures value { IfOk result (λ r. names_and_rest tokens.now r ≡ head_in (ahead tokens.now from)) }
    ensures within { IfOk result (λ r. IfSome r (λ x. x.1 ≤ length tokens.now.items.items)) }
{
    match parameters_at(alloc, tokens, from)? {
        Some((params, at)) => {
            if is_placed_at(tokens, at, Mark::Defines) {
                Ok(Some((params, at + 1)))
            } else {
                Ok(None)
            }
        }
        None => Ok(None),
    }
}
