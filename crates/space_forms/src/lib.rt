//! Sets of sets and of functions, which are counted before they are listed.
#![tactic(auto)]

pub mod members;
pub mod record_sets;
mod rows;
pub mod spaces;
pub mod subsets;
