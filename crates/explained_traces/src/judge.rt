//! What the states of a trace are judged by, and pairs of them.

use action_truth::Asked;
use followed_runs::party::Party;
use tla_value::state::State;

/// What the states of a trace are judged by: the module that is asked, and the processes with what their steps are taken from.
#[derive(Clone, Copy)]
pub struct Judge<'a> {
    /// The processes.
    pub party: Party<'a>,
    /// The module.
    pub asked: Asked<'a>,
}

/// A state of a trace with the one before it.
#[derive(Clone, Copy)]
pub struct Pair<'a> {
    /// Its number.
    pub number: usize,
    /// The one before it.
    pub from: &'a State,
    /// The state.
    pub to: &'a State,
}
