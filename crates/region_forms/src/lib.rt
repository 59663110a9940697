//! The translation of an algorithm, as code makes it of the algorithm with its macro calls written out, step by step.
#![tactic(auto)]

pub mod laws;
