//! The next token to the right of an edge, and why reading stops.

ghost use Rattle.std.specs.Prelude.{◌≡◌, ℕ, List};
ghost use Rattle.tla_tree.specs.Lexical.{token};
ghost use Rattle.tla_tree.specs.Reader as reader;
ghost use Rattle.expr_nodes.specs.ViewSeen.{mark_seen, key_seen, view_seen};
ghost use Rattle.expr_nodes.specs.ReadIn.{seen};
ghost use Rattle.expr_nodes.specs.declared.cursor.Halt.TheVariants as halt;

use crate::shape::same_op;
use crate::view::{Key, Mark, View};
use std::alloc::{AllocError, AllocFailed};
use tla_token::{Place, Rule, Span};
use tla_tree::Op;

/// Why reading stopped.
#[derive(Drop)]
pub enum Halt {
    /// There was no memory.
    Memory,
    /// The rule, and how many tokens are left from the refused one on.
    Refused(Rule, usize),
}

impl From<AllocError> for Halt {
    ghost use Rattle.expr_nodes.specs.declared.cursor.Halt.TheVariants as halt;
    ghost use Rattle.std.specs.Prelude.{◌≡◌};

    ghost from_gives = { λ _ e. e ≡ halt.Memory };

    fn from(_: AllocError) -> Self {
        Halt::Memory
    }
}

impl<T: Drop> From<AllocFailed<T>> for Halt {
    ghost use Rattle.expr_nodes.specs.declared.cursor.Halt.TheVariants as halt;
    ghost use Rattle.std.specs.Prelude.{◌≡◌};

    ghost from_gives = { λ _ e. e ≡ halt.Memory };

    fn from(_: AllocFailed<T>) -> Self {
        Self::Memory
    }
}

/// A token where it is, as the grammars see it.
#[derive(Clone, Copy)]
pub struct Next {
    pub place: Place,
    pub view: View,
}

/// A word where it is.
#[derive(Clone, Copy)]
pub struct Word {
    pub place: Place,
    pub span: Span,
}

/// The name of a field where it is; it alone may be a reserved word of PlusCal.
#[derive(Clone, Copy)]
pub struct FieldName {
    pub place: Place,
    pub reserved: bool,
    pub span: Span,
}

/// What is seen at the end, and where the next token is not to the right of the edge.
pub fn at_end() -> Next
    ensures { (bytes : List ℕ) → token result.place (view_seen bytes result.view) ≡ reader.end }
{
    Next {
        place: Place { line: 0, col: 0 },
        view: View::Other(Span { from: 0, to: 0 }),
    }
}

fn mark_number(mark: Mark) -> u8
    ensures { result ≡ reader.mark_number (mark_seen mark) }
{
    match mark {
        Mark::OpenBracket => 0,
        Mark::CloseBracket => 1,
        Mark::OpenSquare => 2,
        Mark::CloseSquare => 3,
        Mark::OpenBrace => 4,
        Mark::CloseBrace => 5,
        Mark::OpenTuple => 6,
        Mark::CloseTuple => 7,
        Mark::Comma => 8,
        Mark::Colon => 9,
        Mark::Dot => 10,
        Mark::Bang => 11,
        Mark::Arrow => 12,
        Mark::Maps => 13,
        Mark::Defines => 14,
        Mark::Box => 15,
        Mark::Prime => 16,
        Mark::Assigns => 17,
        Mark::Beside => 18,
        Mark::Semicolon => 19,
    }
}

fn key_number(key: Key) -> u8
    ensures { result ≡ reader.key_number (key_seen key) }
{
    match key {
        Key::If => 0,
        Key::Then => 1,
        Key::Else => 2,
        Key::Case => 3,
        Key::Other => 4,
        Key::Let => 5,
        Key::In => 6,
        Key::Except => 7,
        Key::ForAll => 8,
        Key::Exists => 9,
    }
}

/// Whether this is the mark.
pub fn is_mark(mark: Mark, view: View) -> bool
    ensures { (bytes : List ℕ) → result ≡ reader.is_mark (mark_seen mark) (view_seen bytes view) }
{
    match view {
        View::Mark(m) => mark_number(mark) == mark_number(m),
        _ => false,
    }
}

/// Whether this is the key.
pub fn is_key(key: Key, view: View) -> bool
    ensures { (bytes : List ℕ) → result ≡ reader.is_key (key_seen key) (view_seen bytes view) }
{
    match view {
        View::Key(k) => key_number(key) == key_number(k),
        _ => false,
    }
}

/// Whether this is the sign of the operator.
pub fn is_sign(op: Op, view: View) -> bool
    ensures { (bytes : List ℕ) → result ≡ reader.is_sign op (view_seen bytes view) }
{
    match view {
        View::Sign(q) => same_op(op, q),
        _ => false,
    }
}
