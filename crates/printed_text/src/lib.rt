//! The laws of printed algorithms, and of files with a printed algorithm in the place of theirs.
#![tactic(auto)]

pub mod laws;
