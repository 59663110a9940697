//! Lines of a translation: blanks, names with commas, and the units that say of an algorithm's end one expression.
#![tactic(auto)]

pub mod ended;
pub mod line;
