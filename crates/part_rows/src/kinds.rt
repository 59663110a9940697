//! What a part asks, by its words: the call that is made on its text.

use crate::algorithms::put_algorithm;
use crate::expressions::{Told, put_expression, put_sets, put_unquoted};
use crate::made::put_made;
use crate::modules::{put_parts, put_translated};
use crate::reads::{put_module_read, put_written};
use crate::scanning::{put_pieces, put_places, put_tokens, put_views};
use crate::wording::put_command;
use std::alloc::{AllocError, Global};

// A text of a row is shorter; so the calls may be made on it.
const MOST: usize = 1_000_000;

/// Appends what is answered to a text.
pub fn put_answer(
    alloc: Global,
    told: &mut Vec<u8>,
    words: &str,
    text: &[u8],
) -> Result<(), AllocError> {
    if text.len() > MOST {
        return told.extend_from_slice(b"the text is too long");
    }
    let (kind, rest) = words.split_once(' ').unwrap_or((words, ""));
    match kind {
        "tokens" => put_tokens(alloc, told, text),
        "views" => put_views(alloc, told, text, edge(rest)),
        "pieces" => put_pieces(alloc, told, text),
        "places" => put_places(alloc, told, text, rest),
        "unquoted" => put_unquoted(alloc, told, text),
        "expression" => put_expression(alloc, told, text, number(rest), Told::Written),
        "length" => put_expression(alloc, told, text, number(rest), Told::Length),
        "operand" => put_expression(alloc, told, text, number(rest), Told::Operand),
        "algorithm" => put_algorithm(alloc, told, text, rest == "c"),
        "words" => put_command(alloc, told, text),
        "parts" => put_parts(alloc, told, text),
        "module" => put_module_read(alloc, told, text),
        "sets" => put_sets(alloc, told, text, number(rest)),
        "translated" => put_translated(alloc, told, text, rest),
        "written" => put_written(alloc, told, text),
        "made" => put_made(alloc, told, rest),
        _ => told.extend_from_slice(b"there is no such kind"),
    }
}

// A column; 0 where none stands there.
fn edge(word: &str) -> u32 {
    word.parse().unwrap_or(0)
}

// The number of a token or of processes; 0 where none stands there.
fn number(word: &str) -> usize {
    word.parse().unwrap_or(0)
}
