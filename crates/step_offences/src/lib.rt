//! Labels that are missing, and variables that are assigned twice, all of them.
#![tactic(auto)]

pub mod offence;
pub mod steps;
