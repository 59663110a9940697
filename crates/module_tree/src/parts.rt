//! What a module's text consists of.

use tla_token::{Span, Tokens};

/// What a module's text consists of, where it breaks none of the rules 1 to 10 ("A PlusCal User's Manual", sections 2.1 and 2.2).
/// Spans are of bytes of the text.
#[derive(Drop)]
pub struct Parts<'a> {
    /// The whole text.
    pub text: &'a [u8],
    /// The module's name.
    pub title: Span,
    /// What a translation takes the place of: the old one, or an empty stretch at the beginning of a line.
    pub spot: Span,
    /// No translation is there yet: one ends its line.
    pub is_new: bool,
    /// The algorithm, from its first word to its end.
    pub algorithm: Span,
    /// The algorithm is in C-syntax.
    pub is_c: bool,
    /// The module's tokens before the place of the translation, up to which they go.
    pub before: Tokens,
    /// The module's tokens after it, up to the module's end.
    pub after: Tokens,
}
