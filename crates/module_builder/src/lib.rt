//! The translation of an accepted algorithm, and the module that has it.
#![tactic(auto)]

mod build;
mod definitions;
mod open;
mod region;

pub use build::{built_module, built_region};
