//! Texts of values, in code: the one text that is written for a value, and the value that is in a text at a place.
#![tactic(auto)]

mod make;
mod read;
mod token;
mod write;

pub use read::read_value;
pub use write::write_value;
