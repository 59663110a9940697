//! The two syntaxes of PlusCal.

/// A syntax of PlusCal ("A PlusCal User's Manual", its two versions).
#[derive(Clone, Copy)]
pub enum Syntax {
    /// With `begin` and `end`.
    P,
    /// With braces.
    C,
}
