//! What operators make of the values of their operands, and how it is told whether a value is a member of an expression's set.
#![tactic(auto)]

pub mod member;
mod operands;
pub mod standard;
pub mod strict;
pub mod tests;
