//! The trouble that is met while it is looked whether a state is initial.
#![tactic(auto)]

mod locals;
mod plain;
mod routines;
mod spread;
mod trouble;

pub use trouble::start_trouble;
