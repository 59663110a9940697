//! Modules of TLA+ in memory: their formulas as numbers of a pool, the text of a translation, and a file with a translation put in.
#![tactic(auto)]

pub mod formulas;
mod lines;
pub mod module;
pub mod ways;
mod write_action;
pub mod write_file;
pub mod write_units;
