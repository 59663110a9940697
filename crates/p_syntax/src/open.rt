//! What stands open while lists of statements are read.

ghost use Rattle.std.specs.Prelude.{◌≡◌, IfOk, IfSome, IfNone, [], ◌∷◌, ◌++◌};
ghost use Rattle.p_syntax.specs.declared.open.Point.TheVariants as point;

use pcal_tree::algorithm::{Bind, Stmt};
use std::alloc::{AllocError, Global};
use tla_token::Place;
use tla_tree::NodeId;

/// A test of an `if` with its list.
#[derive(Drop)]
pub struct Test {
    /// Where its `if` or `elsif` is.
    pub place: Place,
    /// The test.
    pub test: NodeId,
    /// The list of its `then`.
    pub then: Vec<Stmt>,
}

/// A statement that stands open: its next part is a list.
#[derive(Drop)]
pub enum Frame {
    /// In a `then`: the tests before with their lists, and the place of the `if` or `elsif` and its test.
    Then(Vec<Test>, Place, NodeId),
    /// In the `else`: the tests before with their lists, the last one apart.
    Else(Vec<Test>, Test),
    /// In a branch of an `either`: its place, and the branches before.
    Either(Place, Vec<Vec<Stmt>>),
    /// In a `with`: its place, and what it names.
    With(Place, Vec<Bind>),
    /// In a `while`: its place, and its test.
    While(Place, NodeId),
}

/// A statement that stands open, in its list.
#[derive(Drop)]
pub struct Open {
    /// What it is.
    pub frame: Frame,
    /// The labels and statements of its list before it, and its own labels.
    pub before: Vec<Stmt>,
    /// How many forms are open around it.
    pub depth: usize,
}

/// Where in its list reading stands.
#[derive(Clone, Copy)]
pub enum Point {
    /// A statement comes.
    Begins,
    /// After a statement.
    Ended,
    /// After the `;` of a statement.
    Separated,
}

/// The state of reading a list of statements.
#[derive(Drop)]
pub struct State {
    /// The labels and statements of the innermost list so far.
    pub list: Vec<Stmt>,
    /// Where in it reading stands.
    pub point: Point,
    /// What stands open, the innermost last.
    pub stack: Vec<Open>,
    /// How many forms are open.
    pub depth: usize,
}

/// Where a step goes.
#[derive(Drop)]
pub enum Turn {
    /// To the next state.
    On(State),
    /// To the end, with the list.
    Done(Vec<Stmt>),
}

/// Before the first statement of a list in which nothing stands open.
pub fn start(alloc: Global) -> State
    ensures list { result.list.items ≡ [] }
    ensures stack { result.stack.items ≡ [] }
    ensures point { result.point ≡ point.Begins }
    ensures depth { result.depth ≡ 0 }
{
    State {
        list: Vec::new(alloc),
        point: Point::Begins,
        stack: Vec::new(alloc),
        depth: 0,
    }
}

/// Before the first statement of a list in a statement that opens.
///
/// # Errors
///
/// For want of memory.
pub fn opened(alloc: Global, state: State, frame: Frame, depth: usize) -> Result<State, AllocError>
    ensures list { IfOk result (λ s. s.list.items ≡ []) }
    ensures stack { IfOk result (λ s. s.stack.items ≡ state.stack.items ++ record { frame = frame; before = state.list; depth = state.depth } ∷ []) }
    ensures point { IfOk result (λ s. s.point ≡ point.Begins) }
    ensures depth { IfOk result (λ s. s.depth ≡ depth) }
{
    let mut stack = state.stack;
    stack.push(Open {
        frame,
        before: state.list,
        depth: state.depth,
    })?;
    Ok(State {
        list: Vec::new(alloc),
        point: Point::Begins,
        stack,
        depth,
    })
}

/// After one statement or label more.
///
/// # Errors
///
/// For want of memory.
pub fn extended(state: State, statement: Stmt, point: Point) -> Result<State, AllocError>
    ensures list { IfOk result (λ s. s.list.items ≡ state.list.items ++ statement ∷ []) }
    ensures stack { IfOk result (λ s. s.stack ≡ state.stack) }
    ensures point { IfOk result (λ s. s.point ≡ point) }
    ensures depth { IfOk result (λ s. s.depth ≡ state.depth) }
{
    let mut list = state.list;
    list.push(statement)?;
    Ok(State {
        list,
        point,
        stack: state.stack,
        depth: state.depth,
    })
}

/// The innermost of what stands open, with the state around it; none where nothing does.
pub fn innermost(stack: Vec<Open>) -> Option<(Frame, State)>
    ensures some { IfSome result (λ x. stack.items ≡ x.1.stack.items ++ record { frame = x.0; before = x.1.list; depth = x.1.depth } ∷ []) }
    ensures none { IfNone result (stack.items ≡ []) }
{
    let mut stack = stack;
    match stack.pop() {
        None => None,
        Some(open) => Some((
            open.frame,
            State {
                list: open.before,
                point: Point::Begins,
                stack,
                depth: open.depth,
            },
        )),
    }
}
