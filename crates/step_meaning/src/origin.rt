//! What a start is made from, and what it gives.

use pcal_tree::algorithm::{Main, Procedure};
use step_moves::Program;
use tla_tree::Name;
use tla_value::state::State;

/// What a start is made from.
#[derive(Clone, Copy)]
pub struct Origin<'a> {
    /// The algorithm.
    pub program: Program<'a>,
    /// Its procedures, prepared: statements and first values by their written names.
    pub procedures: &'a [Procedure],
    /// What runs, prepared.
    pub main: &'a Main,
    /// The variables of the translation, in their order.
    pub variables: &'a [Name],
    /// The name `self`.
    pub this: &'a Name,
}

/// A start.
#[derive(Drop)]
pub struct Start {
    /// The state.
    pub state: State,
    /// How many choices are used.
    pub used: usize,
}
