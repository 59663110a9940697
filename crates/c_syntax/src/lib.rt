//! Algorithms in C-syntax, read from tokens.
#![tactic(auto)]

mod after;
mod algorithm;
mod close;
mod open;
mod opening;
mod read;
mod sequence;
mod statements;
mod take;
mod ways;

pub use read::read_c;
