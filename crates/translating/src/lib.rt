//! A module with the translation of its algorithm.
#![tactic(auto)]

mod counts;
pub mod options;
mod placed;
mod region_text;
mod text;

pub use counts::{Counts, counts_of};
pub use options::Options;
pub use text::translate_text;
