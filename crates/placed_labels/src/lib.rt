//! Labels put in where it was decided: plans of them, and the names that are left.
#![tactic(auto)]

pub mod names;
pub mod place;
