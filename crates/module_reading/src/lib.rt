//! A module with its translation, read back from its text into memory.
#![tactic(auto)]

pub mod laws;
mod outside;
pub mod read;
mod refusal;
mod translation;
mod units;
