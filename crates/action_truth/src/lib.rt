//! What a module says of states: its Next of a pair, its Init of one, and what Next says of one process.
#![tactic(auto)]

mod actions;
mod asked;
mod formulas;
mod items;
mod processes;
mod truth;

pub use asked::{Asked, titles};
pub use truth::{by_process, holds, starts};
