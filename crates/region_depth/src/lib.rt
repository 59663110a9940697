//! How deep a translation in memory nests on its tree: whether it is within what a module may.
#![tactic(auto)]

mod actions;
mod definitions;
mod expression;
pub mod region;
