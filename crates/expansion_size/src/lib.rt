//! How large an algorithm is with its macro calls written out, counted without writing anything out.
#![tactic(auto)]

mod algorithm;
mod bodies;
mod expressions;
pub mod frames;
mod left;
mod macros;

pub use algorithm::{size_of_expansion, too_large};
