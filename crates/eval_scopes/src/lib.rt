//! What names stand for where an expression is evaluated, and values that are at hand.
#![tactic(auto)]

pub mod context;
pub mod got;
pub mod scope;
