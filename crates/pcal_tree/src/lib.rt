//! Algorithms of PlusCal: their trees, their names, and what they mean.
#![tactic(auto)]

pub mod algorithm;
pub mod laws;
pub mod mark;
mod syntax;

pub use syntax::Syntax;
