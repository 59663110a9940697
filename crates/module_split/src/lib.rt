//! A file in its parts: the walk over its bytes, what is read off it, and the rule by which a file is refused before its algorithm is read.
#![tactic(auto)]

mod algorithm;
mod bars;
mod beginning;
pub mod line;
pub mod offence;
pub mod seek;
pub mod split;
pub mod stand;
pub mod unit_start;
pub mod walk;
