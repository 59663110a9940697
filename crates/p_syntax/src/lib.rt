//! Algorithms in P-syntax, read from tokens.
#![tactic(auto)]

mod algorithm;
mod close;
mod ending;
mod open;
mod opening;
mod read;
mod sequence;
mod statements;
mod ways;

pub use read::read_p;
