//! The module that `make` writes.
#![tactic(auto)]

pub mod laws;
