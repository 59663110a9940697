//! Expressions of TLA+ as trees: their names and operators, how they are spelled and read, their written text, and the laws of these.
#![tactic(auto)]

pub mod laws;
mod name;
mod op;

pub use name::{Name, NameList, PlacedName, Text};
pub use op::{Binder, Op, rank};

/// The number of an expression in the pool that holds it.
pub type NodeId = usize;
