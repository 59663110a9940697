//! The printed text of algorithms in both syntaxes.
#![tactic(auto)]

mod syntax;
mod write_algorithm;
mod write_part;
mod write_statement;
mod write_unit;

pub use write_algorithm::{write_c, write_in, write_p};
