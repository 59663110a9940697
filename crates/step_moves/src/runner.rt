//! A process that runs, with what its steps are taken from.

use crate::Program;
use pcal_tree::algorithm::{Procedure, Span};
use step_spots::Routine;
use tla_token::Place;
use tla_tree::Name;
use tla_value::value::Value;

/// A process in a routine, with what its steps are taken from.
#[derive(Clone, Copy)]
pub struct Runner<'a> {
    /// The algorithm.
    pub program: Program<'a>,
    /// Its procedures, prepared: statements and first values by their written names.
    pub procedures: &'a [Procedure],
    /// The name `pc`.
    pub pc: &'a Name,
    /// The name `stack`.
    pub stack: &'a Name,
    /// The name `self`.
    pub this: &'a Name,
    /// Where the process's name is.
    pub place: Place,
    /// The process's identifier, where there are processes.
    pub identifier: Option<&'a Value>,
    /// What the process is in; prepared.
    pub routine: Routine<'a>,
}

/// What a call is one statement with.
#[derive(Clone, Copy)]
pub enum Partner<'a> {
    /// Nothing.
    None,
    /// A `goto` to a label.
    Goto(&'a Name),
    /// A `return`.
    Return(Span),
}
