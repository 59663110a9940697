//! What stands open while lists of statements are read.

ghost use Rattle.std.specs.Prelude.{◌≡◌, IfOk, [], ◌∷◌, ◌++◌};
ghost use Rattle.c_syntax.specs.declared.open.Point.TheVariants as point;
ghost use Rattle.c_syntax.specs.declared.open.Frame.TheVariants as frame;

use pcal_tree::algorithm::{Bind, Stmt};
use std::alloc::{AllocError, Global};
use tla_token::Place;
use tla_tree::NodeId;

/// A statement that has begun, with the list that it stands in.
#[derive(Drop)]
pub struct Begun {
    /// The labels and statements of the list before it, and its own labels.
    pub list: Vec<Stmt>,
    /// The place of its first word.
    pub first: Place,
}

/// A statement that stands open: its next part is a statement.
#[derive(Drop)]
pub enum Frame {
    /// `{ ..`: its statements stand in the list round it.
    Block,
    /// `if (e) ..`
    Then(Begun, NodeId),
    /// `if (e) s else ..`, with the list of its `then`.
    Else(Begun, NodeId, Vec<Stmt>),
    /// `with (x \in e) ..`
    With(Begun, Vec<Bind>),
    /// `while (e) ..`
    While(Begun, NodeId),
    /// `either s or ..`, with the lists of the branches before.
    Either(Begun, Vec<Vec<Stmt>>),
}

/// A statement that stands open, in the forms round it.
#[derive(Drop)]
pub struct Open {
    /// What it is.
    pub frame: Frame,
    /// How many forms are open round it.
    pub depth: usize,
}

/// How a statement ended.
#[derive(Clone, Copy)]
pub struct End {
    /// Where its last token stands.
    pub last: Place,
    /// Its last part is a `{..}`.
    pub block: bool,
    /// The `;` after it was passed.
    pub divided: bool,
}

/// Where in its list reading stands.
#[derive(Clone, Copy)]
pub enum Point {
    /// A statement comes.
    Begins,
    /// After a statement.
    Ended(End),
}

/// The state of reading a list of statements.
#[derive(Drop)]
pub struct State {
    /// The labels and statements of the innermost list so far; those of a `{..}` stand in the list round it.
    pub list: Vec<Stmt>,
    /// Where in it reading stands.
    pub point: Point,
    /// What stands open, the innermost last.
    pub stack: Vec<Open>,
    /// How many forms are open.
    pub depth: usize,
}

/// Where a step goes.
#[derive(Drop)]
pub enum Turn {
    /// To the next state.
    On(State),
    /// To the end, with the list.
    Done(Vec<Stmt>),
}

/// Before the first statement of a list in which nothing stands open.
pub fn start(alloc: Global) -> State
    ensures list { result.list.items ≡ [] }
    ensures point { result.point ≡ point.Begins }
    ensures stack { result.stack.items ≡ [] }
    ensures depth { result.depth ≡ 0 }
{
    State {
        list: Vec::new(alloc),
        point: Point::Begins,
        stack: Vec::new(alloc),
        depth: 0,
    }
}

/// Before the statement of one that opens, in a list of its own.
///
/// # Errors
///
/// For want of memory.
pub fn opened(alloc: Global, stack: Vec<Open>, top: Open, depth: usize) -> Result<State, AllocError>
    ensures list { IfOk result (λ s. s.list.items ≡ []) }
    ensures point { IfOk result (λ s. s.point ≡ point.Begins) }
    ensures stack { IfOk result (λ s. s.stack.items ≡ stack.items ++ top ∷ []) }
    ensures depth { IfOk result (λ s. s.depth ≡ depth) }
{
    let mut stack = stack;
    stack.push(top)?;
    Ok(State {
        list: Vec::new(alloc),
        point: Point::Begins,
        stack,
        depth,
    })
}

/// Before the first statement of a `{..}`, in the list that it stands in.
///
/// # Errors
///
/// For want of memory.
pub fn opened_block(state: State, depth: usize) -> Result<State, AllocError>
    ensures list { IfOk result (λ s. s.list.items ≡ state.list.items) }
    ensures point { IfOk result (λ s. s.point ≡ point.Begins) }
    ensures stack { IfOk result (λ s. s.stack.items ≡ state.stack.items ++ record { frame = frame.Block; depth = state.depth } ∷ []) }
    ensures depth { IfOk result (λ s. s.depth ≡ depth) }
{
    let mut stack = state.stack;
    stack.push(Open {
        frame: Frame::Block,
        depth: state.depth,
    })?;
    Ok(State {
        list: state.list,
        point: Point::Begins,
        stack,
        depth,
    })
}

/// After one statement or label more.
///
/// # Errors
///
/// For want of memory.
pub fn extended(state: State, statement: Stmt, point: Point) -> Result<State, AllocError>
    ensures list { IfOk result (λ s. s.list.items ≡ state.list.items ++ statement ∷ []) }
    ensures point { IfOk result (λ s. s.point ≡ point) }
    ensures stack { IfOk result (λ s. s.stack ≡ state.stack) }
    ensures depth { IfOk result (λ s. s.depth ≡ state.depth) }
{
    let mut list = state.list;
    list.push(statement)?;
    Ok(State {
        list,
        point,
        stack: state.stack,
        depth: state.depth,
    })
}

/// The same state at another point.
pub fn at_point(state: State, point: Point) -> State
    ensures list { result.list ≡ state.list }
    ensures point { result.point ≡ point }
    ensures stack { result.stack ≡ state.stack }
    ensures depth { result.depth ≡ state.depth }
{
    State { point, ..state }
}
