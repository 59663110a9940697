//! Processes with their identifiers.

use step_spots::Routine;
use tla_value::value::Value;

/// A process: its identifier, which the one body of a uniprocess algorithm lacks, and what it runs but for procedures.
#[derive(Drop)]
pub struct Actor<'a> {
    /// The identifier.
    pub identifier: Option<Value>,
    /// What it runs but for procedures.
    pub own: Routine<'a>,
}

/// A process that has an identifier, where other processes may have the same.
#[derive(Drop)]
pub struct Named<'a> {
    /// The identifier.
    pub identifier: Value,
    /// What it runs but for procedures.
    pub own: Routine<'a>,
}
