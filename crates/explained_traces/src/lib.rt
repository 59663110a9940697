//! Traces explained: the text of their states, and why one stops before its end.
#![tactic(auto)]

mod befores;
mod explaining;
mod judge;
mod pairs;
mod verdicts;

pub use explaining::{Explained, Halt, explain};
