//! Algorithms with their macro calls written out.
#![tactic(auto)]

mod algorithm;
pub mod bodies;
mod macros;
mod parts;

pub use algorithm::expand;
