//! Labels that are added where they are missing.
#![tactic(auto)]

pub mod add;
mod bodies;
mod choose;
pub mod seen;
mod typed;
mod within;
