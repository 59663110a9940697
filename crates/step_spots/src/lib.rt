//! Where the steps of a routine begin: its labels, each with the statements after it and the label to which their end goes.
#![tactic(auto)]

pub mod laws;
mod routine;
pub mod target;
pub mod walk;

pub use routine::Routine;
pub use target::Target;
pub use walk::{Spot, spot_of, spots};
