//! The units of a translation, each read by its first token.
#![tactic(auto)]

mod defined;
mod own;
pub mod units;
mod words;
