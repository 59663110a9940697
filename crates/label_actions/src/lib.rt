//! The actions of a translation: one for each label, and those of procedures and processes.
#![tactic(auto)]

mod program;
mod unit;
mod walk;

pub use program::actions;
