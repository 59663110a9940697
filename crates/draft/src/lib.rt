//! An algorithm in memory with all that its translation is written from.
#![tactic(auto)]

mod draft;
pub mod variables;

pub use draft::Draft;
