//! Labels, jumps and calls where none may be, and second labels: where an algorithm is refused by them.
#![tactic(auto)]

mod bodies;
pub mod jumps;
pub mod labels;
pub mod laws;

pub use bodies::misplaced_refusal;
