//! The units of a translation, and a module with its translation, read from left to right; and that this is exact.
#![tactic(auto)]

pub mod laws;
