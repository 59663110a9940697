//! Tokens of a text.

ghost use Rattle.std.specs.Prelude.{◌≡◌, true, take, drop};
ghost use Rattle.tla_token.specs.KeptWords.{are_kept};

use crate::place::Place;
use crate::sign::Sign;
use crate::word::{PluscalWord, TlaWord};

/// Bytes of a stretch, by the index of the first one and of the one behind the last.
#[derive(Clone, Copy)]
pub struct Span {
    /// The index of the first byte.
    pub from: usize,
    /// The index behind the last byte.
    pub to: usize,
}

/// What a token is. Its words are bytes of the tokens' stretch.
#[derive(Clone, Copy)]
pub enum Kind {
    /// A name, which is no reserved word.
    Name(Span),
    /// A reserved word of PlusCal.
    PluscalWord(Span, PluscalWord),
    /// A reserved word of TLA+.
    TlaWord(Span, TlaWord),
    /// A word that begins a fairness formula.
    Fairness(Span),
    /// A number that fits in 128 bits.
    Number(u128),
    /// A larger number, by its digits.
    BigNumber(Span),
    /// A string, by what is between its quotes.
    Text(Span),
    /// A sign, however it is spelled.
    Sign(Sign),
    /// A sign that this profile leaves out.
    Other(Span),
}

/// A token, with the index of its first byte in the text, and its place.
#[derive(Clone, Copy)]
pub struct Token {
    /// What it is.
    pub kind: Kind,
    /// The index of its first byte in the text.
    pub at: usize,
    /// The place of its first byte.
    pub place: Place,
}

/// The tokens of a stretch of a text, with the bytes of their words and the place of the stretch's end.
#[derive(Drop)]
pub struct Tokens {
    /// The bytes of the stretch.
    pub bytes: Vec<u8>,
    /// The tokens, from left to right.
    pub items: Vec<Token>,
    /// The place of the stretch's end.
    pub end: Place,
    // Which words are reserved is as their bytes say.
    pub ghost kept: { are_kept bytes.items items.items ≡ true },
}

impl Tokens {
    ghost use Rattle.tla_token.specs.TokensSeen.{span_bytes};

    /// The bytes of a word.
    pub fn word(&self, span: Span) -> &[u8]
        ensures { result.now ≡ span_bytes self.now.bytes.items span }
    {
        let rest = tail(&self.bytes, span.from);
        head(rest, span.to.saturating_sub(span.from))
    }
}

/// The bytes from an index on, if there are any.
pub fn tail(bytes: &[u8], at: usize) -> &[u8]
    ensures { result.now ≡ drop at bytes.now }
{
    if at <= bytes.len() { &bytes[at..] } else { &[] }
}

/// So many bytes in front, or all.
pub fn head(bytes: &[u8], n: usize) -> &[u8]
    ensures { result.now ≡ take n bytes.now }
{
    if n <= bytes.len() { &bytes[..n] } else { bytes }
}
