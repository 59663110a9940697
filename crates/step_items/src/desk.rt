//! What the items of a routine's steps are written from, and how far a list of statements got.

use draft::Draft;
use name_bits::{Bits, Order};
use tla_tree::{Name, NodeId};

/// What the items of a routine's steps are written from.
#[derive(Clone, Copy)]
pub struct Desk<'a> {
    /// The algorithm with its written names.
    pub draft: &'a Draft<'a>,
    /// The routine's number.
    pub unit: usize,
    /// Its own variables and parameters, as they stand in the text.
    pub locals: &'a Order,
    /// The same as a list: the parameters, and then the variables.
    pub names: &'a [Name],
    /// The names of the procedures.
    pub procedures: &'a Order,
    /// The empty name, for where there is no label.
    pub unlabelled: &'a Name,
    /// The expression of a single process, which stands for `self`.
    pub single: Option<NodeId>,
}

/// Where a statement stands.
#[derive(Clone, Copy)]
pub struct Around<'a> {
    /// The label at which it is; empty where it has none.
    pub here: &'a Name,
    /// The label of what follows its list.
    pub exit: &'a Name,
    /// The variables that are assigned before it in its step.
    pub before: &'a Bits,
}

/// How far statements got.
#[derive(Clone, Copy)]
pub struct Reach {
    /// The variables that they assign.
    pub assigned: Bits,
    /// Whether they end their step.
    pub ends: bool,
}
