//! Why an expression or a statement has no value.

/// Why an expression or a statement has no value.
#[derive(Clone, Copy, Debug)]
pub enum FaultKind {
    /// A truth value is needed and there is another.
    NotBoolean,
    /// An integer is needed.
    NotInteger,
    /// A set is needed, also for members of `UNION`.
    NotSet,
    /// An application, field, `DOMAIN`, `EXCEPT` or `@@` on no function.
    NotFunction,
    /// `Len`, `Append`, `Head`, `Tail`, `SubSeq` or `\o` on no sequence.
    NotSequence,
    /// `Head` or `Tail` of `<<>>`.
    EmptySequence,
    /// An application or field outside the domain.
    NotInDomain,
    /// `\div` or `%` by a number that isn't above 0.
    BadDivisor,
    /// No arm of a `CASE` is true.
    NoCase,
    /// `Assert` or `assert` on FALSE.
    AssertFailed,
    /// Two processes share an identifier.
    SameIdentifier,
}
