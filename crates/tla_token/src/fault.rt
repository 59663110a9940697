//! What is wrong with a stretch of a text: the least rule that it offends, at its first place.

ghost use Rattle.std.specs.Prelude.{◌≡◌, ℕ, List, ◌+◌, ◌^◌, ◌<◌, ◌≤◌, nat_le, ◌||◌, ◌&&◌, [], ◌∷◌, length, is_some, true, Some};
ghost use Rattle.tla_token.specs.declared.part.Class.TheVariants as class;
ghost use Rattle.tla_token.specs.declared.fault.Reading as code;
ghost use Rattle.tla_token.specs.Lexemes.{number_of, unquoted};
ghost use Rattle.tla_token.specs.Limits.{past_numbers};
ghost use Rattle.tla_token.specs.Tokens.{holds_mark};
ghost use Rattle.tla_token.specs.Offences.{byte_offences, has_bad_escape, earlier, least};
ghost use Rattle.tla_token.specs.Scan.{inner, is_quoted, part_of};
ghost use Rattle.tla_token.specs.Readings.{is_algorithm, part_offences_in, joined};

use crate::bytes::{has_bad_escape, has_break, has_mark, is_blank, is_printed, number_value};
use crate::part::Class;
use crate::rule::{Rule, number};

/// How a stretch of a text is looked at.
#[derive(Clone, Copy)]
pub enum Reading {
    /// Outside algorithms, where it may be passed on unread.
    Unread,
    /// Outside algorithms, where it is read: a number that is too big is an offence.
    Read,
    /// In an algorithm: so is a string that holds a mark of a comment.
    Algorithm,
}

/// Of two offences that may be the one that counts, that which does: a rule, and the index of a byte.
pub fn sooner(a: Option<(Rule, usize)>, b: Option<(Rule, usize)>) -> Option<(Rule, usize)>
    ensures { result ≡ joined a b }
{
    match a {
        None => b,
        Some(first) => match b {
            None => Some(first),
            Some(second) => Some(earlier(first, second)),
        },
    }
}

fn earlier(a: (Rule, usize), b: (Rule, usize)) -> (Rule, usize)
    ensures { result ≡ earlier a b }
{
    let m = number(a.0);
    let n = number(b.0);
    if n < m || (n == m && b.1 < a.1) { b } else { a }
}

/// Whether nothing is wrong with a part of this class, whatever its bytes are.
pub fn is_sound(class: Class) -> bool
    ensures { result ≡ true → (reading : code.Reading) (at : ℕ) (bytes : List ℕ) → part_offences_in reading at (part_of class bytes) ≡ [] }
{
    match class {
        Class::Blank | Class::Block | Class::Line | Class::Name | Class::Sign(_) => true,
        _ => false,
    }
}

/// Takes what is wrong with one more part to the offence that counts.
#[tactic(auto, using(crate::proofs::Faults::joined_none))]
pub fn note(
    fault: &mut Option<(Rule, usize)>,
    class: Class,
    bytes: &[u8],
    at: usize,
    reading: Reading,
)
    requires some { 0 < length bytes.now }
    requires small { at + length bytes.now < 2 ^ 32 }
    requires quoted { is_quoted class ≡ true → 2 ≤ length bytes.now }
    requires text { class ≡ Class.Text → is_some (unquoted (inner bytes.now)) ≡ true }
    ensures { fault.new ≡ joined fault.old (least (part_offences_in reading at (part_of class bytes.now))) }
{
    if is_sound(class) {
        return;
    }
    if let Some(more) = part_fault(class, bytes, at, reading) {
        *fault = sooner(*fault, Some(more));
    }
}

// What is wrong with a byte.
fn stray_fault(b: u8, at: usize) -> Option<(Rule, usize)>
    ensures { result ≡ least (byte_offences at (b ∷ [])) }
{
    if is_blank(b) || is_printed(b) {
        None
    } else if b >= 128 {
        Some((Rule::NotAscii, at))
    } else {
        Some((Rule::BadToken, at))
    }
}

/// The first byte past 127, or else the first control byte.
#[tactic(auto, using(crate::proofs::Faults::byte_step, crate::proofs::Faults::bytes_done))]
pub fn byte_fault(bytes: &[u8], at: usize) -> Option<(Rule, usize)>
    requires { at + length bytes.now < 2 ^ 32 }
    ensures { result ≡ least (byte_offences at bytes.now) }
{
    let mut fault = None;
    'bytes: for (i, b) in bytes.iter().enumerate() {
        fault = sooner(fault, stray_fault(*b, at + i));
    }
    fault
}

fn is_too_big(digits: &[u8]) -> bool
    ensures { result ≡ nat_le past_numbers (number_of digits.now) }
{
    match number_value(digits) {
        Some(n) => n >= 1 << 127,
        None => true,
    }
}

fn number_fault(digits: &[u8], at: usize, reading: Reading) -> Option<(Rule, usize)>
    ensures { result ≡ least (part_offences_in reading at (part_of class.Number digits.now)) }
{
    match reading {
        Reading::Unread => None,
        _ => {
            if is_too_big(digits) {
                Some((Rule::NumberTooBig, at))
            } else {
                None
            }
        }
    }
}

// What is between the quotes of a string.
fn raw_of(bytes: &[u8]) -> &[u8]
    requires { 2 ≤ length bytes.now }
    ensures { result.now ≡ inner bytes.now }
{
    let rest = &bytes[1..];
    &rest[..bytes.len() - 2]
}

fn text_fault(bytes: &[u8], at: usize, reading: Reading) -> Option<(Rule, usize)>
    requires quoted { 2 ≤ length bytes.now }
    requires text { is_some (unquoted (inner bytes.now)) ≡ true }
    ensures { result ≡ least (part_offences_in reading at (part_of class.Text bytes.now)) }
{
    match reading {
        Reading::Algorithm => {
            if has_mark(raw_of(bytes)) {
                Some((Rule::BadToken, at))
            } else {
                None
            }
        }
        _ => None,
    }
}

// Whether a string's bytes are no token, whatever bytes they are.
fn is_bad(raw: &[u8], reading: Reading) -> bool
    ensures { result ≡ (has_bad_escape raw.now || (is_algorithm reading && holds_mark raw.now)) }
{
    has_bad_escape(raw)
        || match reading {
            Reading::Algorithm => has_mark(raw),
            _ => false,
        }
}

fn bad_text_fault(bytes: &[u8], at: usize, reading: Reading) -> Option<(Rule, usize)>
    requires quoted { 2 ≤ length bytes.now }
    requires small { at + length bytes.now < 2 ^ 32 }
    ensures { result ≡ least (part_offences_in reading at (part_of class.BadText bytes.now)) }
{
    let raw = raw_of(bytes);
    let bad = if is_bad(raw, reading) {
        Some((Rule::BadToken, at))
    } else {
        None
    };
    let open = if has_break(raw) {
        Some((Rule::OpenString, at))
    } else {
        None
    };
    sooner(bad, sooner(open, byte_fault(raw, at + 1)))
}

// It is the same in all readings.
fn open_text_fault(bytes: &[u8], at: usize) -> (Rule, usize)
    requires some { 0 < length bytes.now }
    requires small { at + length bytes.now < 2 ^ 32 }
    ensures { (reading : code.Reading) → Some result ≡ least (part_offences_in reading at (part_of class.OpenText bytes.now)) }
{
    let open = (Rule::OpenString, at);
    match byte_fault(&bytes[1..], at + 1) {
        None => open,
        Some(other) => earlier(open, other),
    }
}

/// What is wrong with a part that these bytes make up.
pub fn part_fault(class: Class, bytes: &[u8], at: usize, reading: Reading) -> Option<(Rule, usize)>
    requires some { 0 < length bytes.now }
    requires small { at + length bytes.now < 2 ^ 32 }
    requires quoted { is_quoted class ≡ true → 2 ≤ length bytes.now }
    requires text { class ≡ Class.Text → is_some (unquoted (inner bytes.now)) ≡ true }
    ensures { result ≡ least (part_offences_in reading at (part_of class bytes.now)) }
{
    match class {
        Class::Number => number_fault(bytes, at, reading),
        Class::Text => text_fault(bytes, at, reading),
        Class::Stray => stray_fault(bytes[0], at),
        Class::BadText => bad_text_fault(bytes, at, reading),
        Class::OpenText => Some(open_text_fault(bytes, at)),
        Class::OpenBlock => Some((Rule::OpenComment, at)),
        _ => None,
    }
}
