//! What operators make of values, within the limits of a run.
#![tactic(auto)]

pub mod kinds;
pub mod made;
pub mod numbers;
pub mod ranges;
pub mod sets;
pub mod truths;
pub mod unions;
