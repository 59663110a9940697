//! Modules of TLA+ as trees, what they say of states, their written text, how a file is cut into its parts, and the laws of these.
#![tactic(auto)]

pub mod laws;
pub mod parts;

pub use parts::Parts;
