//! What is wrong with a module and its algorithm, by all rules; and where the labels of one are with which nothing is.
#![tactic(auto)]

pub mod check;
mod labels;
mod map;

pub use check::check_text;
pub use map::map_text;
