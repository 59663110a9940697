//! What operators make of functions, records and sequences, within the limits of a run.
#![tactic(auto)]

pub mod functions;
pub mod joining;
pub mod parts;
pub mod records;
pub mod sequences;
