//! A translation in memory, put together from its units.
#![tactic(auto)]

pub mod made;
pub mod unit;
