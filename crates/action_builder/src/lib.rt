//! The actions that are written for the steps of an algorithm.
#![tactic(auto)]

pub mod label_laws;
pub mod laws;
