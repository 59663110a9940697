//! The whole written module of an algorithm, as one function.
#![tactic(auto)]

pub mod laws;
