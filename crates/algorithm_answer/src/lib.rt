//! The one refusal by which the tokens of an algorithm are answered, of all that is wrong with them, and the laws of it.
#![tactic(auto)]

pub mod laws;
