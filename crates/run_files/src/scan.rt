//! What is at a place of a text: what is passed over, and single tokens.

ghost use Rattle.std.specs.Prelude.{◌≡◌, ◌≤◌, ◌+◌, ◌<◌, length, drop, IfSome, option_map, bytes_eq};
ghost use Rattle.tla_token.specs.Limits.{past_text};
ghost use Rattle.tla_token.specs.Scan.{front};
ghost use Rattle.tla_token.specs.Tokens.{stretch};
ghost use Rattle.step_runner.specs.Fronts.{name_at, past};
ghost use Rattle.run_files.specs.Fronts.{is_passed, is_token, Next};

use tla_token::{Class, Part, part_at};

fn is_passed(class: Class) -> bool
    ensures { result ≡ is_passed class }
{
    match class {
        Class::Blank | Class::Line => true,
        _ => false,
    }
}

fn is_token(class: Class) -> bool
    ensures { result ≡ is_token class }
{
    match class {
        Class::Name | Class::Number | Class::Text | Class::Sign(_) | Class::Other => true,
        _ => false,
    }
}

/// The part of a text that begins at a place, if there is one.
#[tactic(auto, using(crate::proofs::Scanned::there, crate::proofs::Scanned::inside, crate::proofs::Scanned::some))]
pub fn part_from(text: &[u8], at: usize) -> Option<Part>
    requires within { at ≤ length text.now }
    requires small { length text.now < past_text }
    ensures part { result ≡ front (drop at text.now) }
    ensures inside { IfSome result (λ p. at + p.len ≤ length text.now) }
    ensures some { IfSome result (λ p. 0 < p.len) }
{
    let mut wordless = 0;
    part_at(&text[at..], &mut wordless)
}

/// The first place from a place on that isn't passed over.
pub fn next_at(text: &[u8], at: usize) -> usize
    requires within { at ≤ length text.now }
    requires small { length text.now < past_text }
    ensures { Next text.now at result }
{
    let mut from = at;
    while from < text.len() {
        match part_from(text, from) {
            Some(part) => {
                if !is_passed(part.class) {
                    return from;
                }
                from += part.len;
            }
            None => return from,
        }
    }
    from
}

/// Where the name at a place ends, if there is one.
pub fn name_end(text: &[u8], at: usize) -> Option<usize>
    requires within { at ≤ length text.now }
    requires small { length text.now < past_text }
    ensures value { option_map (λ to. (stretch text.now at to, to)) result ≡ name_at text.now at }
    ensures inside { IfSome result (λ to. (at ≤ to) × (to ≤ length text.now)) }
{
    match part_from(text, at) {
        Some(part) => match part.class {
            Class::Name => Some(at + part.len),
            _ => None,
        },
        None => None,
    }
}

fn is(bytes: &[u8], word: &[u8]) -> bool
    ensures { result ≡ bytes_eq bytes.now word.now }
{
    bytes == word
}

/// Where the token at a place ends, if it is written so.
pub fn past(word: &[u8], text: &[u8], at: usize) -> Option<usize>
    requires within { at ≤ length text.now }
    requires small { length text.now < past_text }
    ensures value { result ≡ past word.now text.now at }
    ensures inside { IfSome result (λ to. (at ≤ to) × (to ≤ length text.now)) }
{
    match part_from(text, at) {
        Some(part) => {
            if !is_token(part.class) {
                return None;
            }
            let to = at + part.len;
            if is(&text[at..to], word) {
                Some(to)
            } else {
                None
            }
        }
        None => None,
    }
}
