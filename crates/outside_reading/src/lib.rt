//! What a module has outside its algorithm and translation, read from tokens as code reads it; and that this is exact.
#![tactic(auto)]

pub mod laws;
