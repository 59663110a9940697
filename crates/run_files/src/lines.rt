//! The lines of a script, and the choices that stand on one.

ghost use Rattle.std.specs.Prelude.{◌≡◌, ◌<◌, ◌≤◌, length, option_and_then, if◌then◌else◌, Some, None, nat_le, IfOk};
ghost use Rattle.tla_token.specs.Lexemes.{number_of};
ghost use Rattle.tla_token.specs.Limits.{past_text};
ghost use Rattle.step_runner.specs.Fronts.{past as past_of, choices_from as choices_of_line, next_at as next_of, largest_choice};
ghost use Rattle.run_files.specs.Fronts.{Stops};
ghost use Rattle.run_files.specs.Lines.{IsLine, ToldAnswer, ChoiceAnswer, listed};

use crate::scan::{next_at, part_from, past};
use std::alloc::{AllocError, Global};
use tla_token::Class;
use tla_token::bytes::{line_len, number_value};

/// A line that isn't passed over.
#[derive(Clone, Copy)]
pub struct Line {
    /// Where it begins.
    pub from: usize,
    /// How many of its bytes are passed over at first.
    pub begin: usize,
    /// Where it ends, with the byte that ends it.
    pub to: usize,
}

/// Where the line ends that begins at a place.
pub fn line_end(text: &[u8], from: usize) -> usize
    requires within { from < length text.now }
    requires small { length text.now < past_text }
    ensures { IsLine text.now from result }
{
    let end = from + line_len(&text[from..]);
    if end < text.len() {
        return end + 1;
    }
    end
}

/// The first line from a place on that isn't passed over.
pub fn told_line(text: &[u8], start: usize) -> Option<Line>
    requires within { start ≤ length text.now }
    requires small { length text.now < past_text }
    ensures { ToldAnswer text.now start result }
{
    let mut from = start;
    while from < text.len() {
        let to = line_end(text, from);
        let begin = next_at(&text[from..to], 0);
        if begin < to - from {
            return Some(Line { from, begin, to });
        }
        from = to;
    }
    None
}

// The choice that digits are.
fn choice(digits: &[u8]) -> Option<u32>
    ensures { result ≡ (if nat_le (number_of digits.now) largest_choice then Some (number_of digits.now) else None) }
{
    match number_value(digits) {
        Some(n) => {
            if n <= u32::MAX as u128 {
                Some(n as u32)
            } else {
                None
            }
        }
        None => None,
    }
}

// The choice at a place, and where it ends.
fn choice_at(text: &[u8], at: usize) -> Option<(u32, usize)>
    requires within { at < length text.now }
    requires small { length text.now < past_text }
    requires stops { Stops text.now at }
    ensures { ChoiceAnswer text.now at result }
{
    match part_from(text, at) {
        Some(part) => match part.class {
            Class::Number => {
                let to = at + part.len;
                match choice(&text[at..to]) {
                    Some(n) => Some((n, to)),
                    None => None,
                }
            }
            _ => None,
        },
        None => None,
    }
}

/// The choices from a place to the text's end; none where there is something else.
///
/// # Errors
///
/// Only for want of memory.
pub fn choices_from(alloc: Global, text: &[u8], at: usize) -> Result<Option<Vec<u32>>, AllocError>
    requires within { at ≤ length text.now }
    requires small { length text.now < past_text }
    ensures { IfOk result (λ o. listed o ≡ choices_of_line text.now at) }
{
    let mut choices = Vec::new(alloc);
    let mut from = next_at(text, at);
    while from < text.len() {
        match choice_at(text, from) {
            Some((n, to)) => {
                choices.push(n)?;
                from = next_at(text, to);
            }
            None => return Ok(None),
        }
    }
    Ok(Some(choices))
}

/// The choices behind a word that is next; none where the word isn't, or something else is.
///
/// # Errors
///
/// Only for want of memory.
pub fn choices_behind(
    alloc: Global,
    text: &[u8],
    at: usize,
    word: &[u8],
) -> Result<Option<Vec<u32>>, AllocError>
    requires within { at ≤ length text.now }
    requires small { length text.now < past_text }
    ensures { IfOk result (λ o. listed o ≡ option_and_then (choices_of_line text.now) (past_of word.now text.now (next_of text.now at))) }
{
    match past(word, text, next_at(text, at)) {
        Some(to) => choices_from(alloc, text, to),
        None => Ok(None),
    }
}
