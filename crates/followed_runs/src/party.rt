//! The processes of a run, with what their steps are taken from.

use step_meaning::Stage;
use step_moves::Actor;
use tla_tree::Name;

/// The processes of a run, with what their steps are taken from.
#[derive(Clone, Copy)]
pub struct Party<'a> {
    /// What steps are taken from.
    pub stage: Stage<'a>,
    /// The variables of the translation, in their order.
    pub variables: &'a [Name],
    /// The processes in canonical order, or the one body.
    pub actors: &'a [Actor<'a>],
}
