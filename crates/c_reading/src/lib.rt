//! Reading algorithms in C-syntax, as functions of tokens, and the laws of it.
#![tactic(auto)]

pub mod laws;
