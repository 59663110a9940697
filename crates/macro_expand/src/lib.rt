//! Algorithms with their macro calls written out, and how large they are.
#![tactic(auto)]

pub mod laws;
