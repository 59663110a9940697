//! The choices of members that a binder visits, in order, what it gathers at them, and the value of that.
#![tactic(auto)]

pub mod gathered;
mod keys;
pub mod visits;
pub mod walk;
