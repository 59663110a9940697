//! Names of an algorithm: the first that is wrong, or the names that all is written with.
#![tactic(auto)]

mod bodies;
mod calls;
mod found;
mod macros;
mod names;
mod refusal;
mod routines;
mod uses;

pub use names::name_all;
