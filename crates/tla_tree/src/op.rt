//! Operators that are written as signs or reserved words, and the forms that bind names.

ghost use Rattle.std.specs.Prelude.{◌≡◌};
ghost use Rattle.tla_tree.specs.Rank.{rank as rank_of};

/// A prefix or infix operator of TLA+ ("Specifying Systems", Table 6). `\in` and `\notin` are
/// infix operators here as well.
#[derive(Clone, Copy, PartialEq, Eq)]
pub enum Op {
    Implies,
    Equivalent,
    And,
    Or,
    Not,
    Equal,
    NotEqual,
    Less,
    Greater,
    AtMost,
    AtLeast,
    In,
    NotIn,
    SubsetEq,
    Override,
    MapsTo,
    Cup,
    Cap,
    Without,
    Subset,
    Union,
    Range,
    Domain,
    Plus,
    Modulo,
    Minus,
    Negate,
    Times,
    Concat,
    Divide,
}

/// A form that binds names over sets: the set of each name, and then a body.
#[derive(Clone, Copy, PartialEq, Eq)]
pub enum Binder {
    /// `\A x \in S : p`
    ForAll,
    /// `\E x \in S : p`
    Exists,
    /// `{x \in S : p}`, of one name
    Filter,
    /// `{e : x \in S}`
    Image,
    /// `[x \in S |-> e]`
    Function,
}

/// The range of ranks of an operator, the least and the greatest; of two operators the one with the higher range binds
/// the tighter.
pub fn rank(op: Op) -> (u8, u8)
    ensures { result ≡ rank_of op }
{
    match op {
        Op::Implies => (1, 1),
        Op::Equivalent => (2, 2),
        Op::And | Op::Or => (3, 3),
        Op::Not => (4, 4),
        Op::Equal | Op::NotEqual | Op::Less | Op::Greater | Op::AtMost | Op::AtLeast => (5, 5),
        Op::In | Op::NotIn | Op::SubsetEq => (5, 5),
        Op::Override => (6, 6),
        Op::MapsTo => (7, 7),
        Op::Cup | Op::Cap | Op::Without | Op::Subset | Op::Union => (8, 8),
        Op::Range | Op::Domain => (9, 9),
        Op::Plus => (10, 10),
        Op::Modulo => (10, 11),
        Op::Minus => (11, 11),
        Op::Negate => (12, 12),
        Op::Times | Op::Concat | Op::Divide => (13, 13),
    }
}
