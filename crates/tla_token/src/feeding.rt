//! The parts in front of a text of which more may come.

ghost use Rattle.std.specs.Prelude.{◌≡◌, ℕ, ◌++◌, ◌^◌, ◌<◌, ◌≤◌, ◌||◌, nat_eq, length, drop, map, List, Some, None, IfSome, IfOk};
ghost use Rattle.std.specs.List.{slice_get};
ghost use Rattle.tla_token.specs.Lexemes.{is_word};
ghost use Rattle.tla_token.specs.Cut.{run, parts as parts_of};
ghost use Rattle.tla_token.specs.Scan.{front, outline, IsWordless};
ghost use Rattle.tla_token.specs.Feeding.{is_settled, stays_by, decided, undecided, IsKept, AreDecided};

use crate::bytes::{is_word, word_len};
use crate::part::{Class, Part, part_at};
use std::alloc::AllocError;

/// The part in front, just where it stays whatever comes behind this text. Where there is none, these are
/// fewer than three bytes, or a word, comment or string that goes on to the end: they wait for more.
/// What is known of words is as for `part_at`, and of this text alone: with more of it, it is 0 again.
#[tactic(auto, using(crate::proofs::Decided::decided_front, crate::proofs::Scans::part_within, crate::proofs::Scans::part_some, crate::proofs::Decided::waiting_front, crate::proofs::Decided::empty_front, crate::proofs::Decided::first_stays, crate::proofs::Decided::first_waits, crate::proofs::Decided::first_missing))]
pub fn decided_at(text: &[u8], wordless: &mut usize) -> Option<Part>
    requires small { length text.now < 2 ^ 29 }
    requires known { IsWordless wordless.old text.now }
    ensures first { result ≡ slice_get (map outline (decided (parts_of text.now))) 0 }
    ensures decided { IfSome result (λ p. (more : List ℕ) → front (text.now ++ more) ≡ Some p) }
    ensures some { IfSome result (λ p. 0 < p.len) }
    ensures within { IfSome result (λ p. p.len ≤ length text.now) }
    ensures kept { result ≡ None → IsKept text.now }
    ensures known { IsWordless wordless.new text.now }
{
    match part_at(text, wordless) {
        Some(part) => { if stays(part, text) { Some(part) } else { None } }
        None => None,
    }
}

/// Adds all parts that are decided, whatever comes behind this text, and tells how many bytes they
/// have. The bytes behind these wait, and go before the next piece.
///
/// # Errors
///
/// Want of memory.
#[tactic(auto, using(crate::proofs::Decided::none_decided, crate::proofs::Decided::one_decided))]
pub fn decided_parts(text: &[u8], parts: &mut Vec<Part>) -> Result<usize, AllocError>
    requires small { length text.now < 2 ^ 29 }
    ensures all { IfOk result (λ n. parts.new.items ≡ parts.old.items ++ map outline (decided (parts_of text.now))) }
    ensures rest { IfOk result (λ n. drop n text.now ≡ undecided (parts_of text.now)) }
    ensures decided { IfOk result (λ n. AreDecided text.now parts.old.items parts.new.items n) }
    ensures kept { IfOk result (λ n. IsKept (drop n text.now)) }
{
    let mut at = 0;
    let mut wordless = 0;
    'parts: while let Some(part) = decided_at(&text[at..], &mut wordless) {
        parts.push(part)?;
        at += part.len;
        wordless = wordless.saturating_sub(part.len);
    }
    Ok(at)
}

// Whether the part that is in front stays.
fn stays(part: Part, text: &[u8]) -> bool
    ensures { result ≡ stays_by part.class part.len text.now }
{
    match part.class {
        Class::Blank | Class::Block | Class::Text | Class::BadText | Class::Stray => true,
        Class::Line | Class::OpenText => part.len < text.len(),
        Class::OpenBlock => false,
        Class::Name | Class::Number | Class::Sign(_) | Class::Other => is_settled(text),
    }
}

// Whether no lexeme in front goes past these bytes, whatever comes.
#[tactic(auto, using(crate::proofs::Decided::settled_word, crate::proofs::Decided::settled_mark, crate::proofs::Decided::settled_none))]
fn is_settled(text: &[u8]) -> bool
    ensures { result ≡ is_settled text.now }
{
    if text.is_empty() {
        false
    } else if may_begin_word(text[0]) {
        1 + len_behind(text) < text.len()
    } else {
        2 < text.len()
    }
}

// How many bytes of a word there are behind the first byte.
fn len_behind(text: &[u8]) -> usize
    requires { 0 < length text.now }
    ensures value { result ≡ length (run is_word (drop 1 text.now)) }
    ensures bound { result < length text.now }
{
    word_len(&text[1..])
}

// A byte of a word, or a backslash.
fn may_begin_word(b: u8) -> bool
    ensures { result ≡ (is_word b || nat_eq b 92) }
{
    is_word(b) || b == b'\\'
}
