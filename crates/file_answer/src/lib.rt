//! What a rewriting of a file is answered, the one algorithm that a text has, and the laws of both.
#![tactic(auto)]

pub mod laws;
mod one_tree;
