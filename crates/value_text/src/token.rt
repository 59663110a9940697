//! The tokens of a value: the first one in sight, and whether it is a sign.

ghost use Rattle.std.specs.Prelude.{◌≡◌, ◌↔◌, true, Some, ◌<◌, ◌≤◌, length};
ghost use Rattle.tla_token.specs.declared.sign.Sign as sign;
ghost use Rattle.tla_token.specs.Limits.{past_text};
ghost use Rattle.value_text.specs.Puncts.{punct_of};
ghost use Rattle.value_text.specs.InSight.{is_passed, is_token, Next, Passes};

use tla_token::{Class, Sign, part_at};

/// A token of a text, by the index of its first byte and of the one behind the last.
#[derive(Clone, Copy)]
pub struct Token {
    /// What it is.
    pub class: Class,
    /// The index of its first byte.
    pub from: usize,
    /// The index behind its last byte.
    pub to: usize,
}

/// A sign of which values are spelled.
#[derive(Clone, Copy, PartialEq, Eq)]
pub enum Punct {
    /// `-`
    Minus,
    /// `{`
    OpenSet,
    /// `}`
    CloseSet,
    /// `<<`
    OpenTuple,
    /// `>>`
    CloseTuple,
    /// `[`
    OpenRecord,
    /// `]`
    CloseRecord,
    /// `(`
    OpenPairs,
    /// `)`
    ClosePairs,
    /// `|->`
    Maps,
    /// `:>`
    Pair,
    /// `@@`
    Override,
    /// `,`
    Comma,
}

/// Which sign of values a sign is.
pub fn punct_of(sign: Sign) -> Option<Punct>
    ensures { result ≡ punct_of sign }
{
    match sign {
        Sign::Minus => Some(Punct::Minus),
        Sign::OpenCurly => Some(Punct::OpenSet),
        Sign::CloseCurly => Some(Punct::CloseSet),
        Sign::OpenTuple => Some(Punct::OpenTuple),
        Sign::CloseTuple => Some(Punct::CloseTuple),
        Sign::OpenSquare => Some(Punct::OpenRecord),
        Sign::CloseSquare => Some(Punct::CloseRecord),
        Sign::OpenRound => Some(Punct::OpenPairs),
        Sign::CloseRound => Some(Punct::ClosePairs),
        Sign::MapsTo => Some(Punct::Maps),
        Sign::Pair => Some(Punct::Pair),
        Sign::Override => Some(Punct::Override),
        Sign::Comma => Some(Punct::Comma),
        _ => None,
    }
}

// Whether a token of this class is the sign.
fn is_punct(class: Class, punct: Punct) -> bool
    ensures { result ≡ true ↔ (s : sign.Sign) × (class ≡ Class.Sign s) × (punct_of s ≡ Some punct) }
{
    match class {
        Class::Sign(sign) => match punct_of(sign) {
            Some(other) => other == punct,
            None => false,
        },
        _ => false,
    }
}

fn is_passed(class: Class) -> bool
    ensures { result ≡ is_passed class }
{
    match class {
        Class::Blank | Class::Line => true,
        _ => false,
    }
}

fn is_token(class: Class) -> bool
    ensures { result ≡ is_token class }
{
    match class {
        Class::Name | Class::Number | Class::Text | Class::Sign(_) | Class::Other => true,
        _ => false,
    }
}

/// The first token in sight: blanks and comments to the line's end are passed.
#[tactic(auto, using(crate::proofs::Tokens::skip_none))]
pub fn next_token(text: &[u8], at: usize) -> Option<Token>
    requires within { at ≤ length text.now }
    requires small { length text.now < past_text }
    ensures { Next text.now at result }
{
    let mut from = at;
    while from < text.len() {
        let mut wordless = 0;
        let part = match part_at(&text[from..], &mut wordless) {
            Some(part) => part,
            None => return None,
        };
        let to = from + part.len;
        if is_token(part.class) {
            let class = part.class;
            return Some(Token { class, from, to });
        }
        if !is_passed(part.class) {
            return None;
        }
        from = to;
    }
    None
}

/// Whether the first token in sight is this sign; then it is passed.
pub fn passes(text: &[u8], at: &mut usize, punct: Punct) -> bool
    requires within { at.old ≤ length text.now }
    requires small { length text.now < past_text }
    ensures { Passes text.now punct at.old at.new result }
{
    match next_token(text, *at) {
        Some(token) => {
            let same = is_punct(token.class, punct);
            if same {
                *at = token.to;
            }
            same
        }
        None => false,
    }
}
