//! The promise of `translate`: what the written text is to the module that was read.
#![tactic(auto)]

pub mod laws;
