//! Expressions with their variables primed; and with names as they are written, and what a process has for itself as its own.
#![tactic(auto)]

pub mod localising;
mod priming;

pub use localising::{Local, Own, localise, with_names, with_own};
pub use priming::prime;
