//! Algorithms in memory, the same for both syntaxes: expressions are numbers of a pool.

use crate::mark::{Fairness, Mark};
use tla_token::Place;
use tla_tree::{Name, NodeId, PlacedName};

// ---- statements

/// Where a statement is: its first token after its labels, and its last.
#[derive(Clone, Copy)]
pub struct Span {
    /// The place of the statement.
    pub first: Place,
    /// Where its last token stands.
    pub last: Place,
}

/// `x[i].f := e`
#[derive(Drop)]
pub struct Assignment {
    /// A name, or a subscript or field of a left side.
    pub left: NodeId,
    /// The new value.
    pub right: NodeId,
}

/// What a `with` names.
#[derive(Drop)]
pub enum Bind {
    /// `x \in S`
    Among(PlacedName, NodeId),
    /// `x = e`
    Is(PlacedName, NodeId),
}

/// A statement that has no statements in it ("A PlusCal User's Manual", section 3.2).
#[derive(Drop)]
pub enum Simple {
    /// `l := e || m := f`
    Assign(Vec<Assignment>),
    /// `await e`, also `when e`
    Await(NodeId),
    /// `print e`
    Print(NodeId),
    /// `assert e`
    Assert(NodeId),
    /// `skip`
    Skip,
    /// `goto A`
    Goto(Name),
    /// `M(a, b)`
    Macro(Name, Vec<NodeId>),
    /// `call P(a, b)`
    Call(PlacedName, Vec<NodeId>),
    /// `return`
    Return,
}

/// A label or a statement. Those of one list stand in a `Vec`, each label before what it labels.
#[derive(Drop)]
pub enum Stmt {
    /// `A:`
    Label(PlacedName, Mark),
    /// One with no statements in it.
    Simple(Span, Simple),
    /// `if e` with its two lists; a missing `else` is an empty one.
    If(Span, NodeId, Vec<Stmt>, Vec<Stmt>),
    /// `either`, with a list for each branch.
    Either(Span, Vec<Vec<Stmt>>),
    /// `with x \in S, y = e`
    With(Span, Vec<Bind>, Vec<Stmt>),
    /// `while e`
    While(Span, NodeId, Vec<Stmt>),
}

// ---- declarations

/// The first value of a variable or parameter.
#[derive(Drop)]
pub enum Start {
    /// None is given.
    Unset,
    /// `= e`
    Equals(NodeId),
    /// `\in S`
    Among(NodeId),
}

/// A variable, or a procedure's parameter.
#[derive(Drop)]
pub struct Declaration {
    /// Its name.
    pub name: PlacedName,
    /// Its first value.
    pub start: Start,
}

/// `N == e` or `N(a, b) == e` in the `define` block.
#[derive(Drop)]
pub struct Definition {
    /// The name that is defined.
    pub name: PlacedName,
    /// The names in brackets after it.
    pub params: Vec<PlacedName>,
    /// What stands after `==`.
    pub body: NodeId,
}

/// `macro M(a, b)`
#[derive(Drop)]
pub struct Macro {
    /// Its name.
    pub name: PlacedName,
    /// Its parameters.
    pub params: Vec<PlacedName>,
    /// Its statements.
    pub body: Vec<Stmt>,
}

/// `procedure P(a, b = e)`
#[derive(Drop)]
pub struct Procedure {
    /// Its name.
    pub name: PlacedName,
    /// Its parameters.
    pub params: Vec<Declaration>,
    /// Its own variables.
    pub variables: Vec<Declaration>,
    /// Its labels and statements.
    pub body: Vec<Stmt>,
}

/// `process P = e` or `process P \in S`
#[derive(Drop)]
pub struct Process {
    /// Its name.
    pub name: PlacedName,
    /// The fairness that is asked of it.
    pub fairness: Fairness,
    /// One for each member of a set, and not a single one.
    pub several: bool,
    /// The set, or the one identifier.
    pub identity: NodeId,
    /// Its own variables.
    pub variables: Vec<Declaration>,
    /// Its labels and statements.
    pub body: Vec<Stmt>,
}

/// What runs.
#[derive(Drop)]
pub enum Main {
    /// The one body of a uniprocess algorithm.
    Alone(Vec<Stmt>),
    /// Processes, in the order of the text.
    Processes(Vec<Process>),
}

/// An algorithm ("A PlusCal User's Manual", section 3).
#[derive(Drop)]
pub struct Algorithm {
    /// Its name.
    pub name: PlacedName,
    /// `--fair algorithm`
    pub fair: bool,
    /// The variables of all its processes.
    pub globals: Vec<Declaration>,
    /// Those of the `define` block.
    pub definitions: Vec<Definition>,
    /// Its macros, in the order of the text.
    pub macros: Vec<Macro>,
    /// Its procedures, in the order of the text.
    pub procedures: Vec<Procedure>,
    /// Its body or its processes.
    pub main: Main,
}
