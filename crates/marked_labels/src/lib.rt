//! The labels of statements that are wanted by their marks, under their written names.
#![tactic(auto)]

pub mod labels;

pub use labels::Wanted;
