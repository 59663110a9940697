//! Traces explained by the written names: laws.
#![tactic(auto)]

pub mod laws;
