//! Runs and the first trouble by the written names: they are those of the meaning, for accepted algorithms.
#![tactic(auto)]

pub mod laws;
