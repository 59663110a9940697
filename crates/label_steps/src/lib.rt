//! Labels that are missing in an algorithm, and variables that are assigned twice in a step: where an algorithm is refused by them.
#![tactic(auto)]

pub mod around;
pub mod due;
mod gathered;
mod general;
pub mod known;
pub mod labels;
pub mod laws;
pub mod macros;
mod params;
pub mod path;
mod put;
pub mod sides;
mod steps;
pub mod truths;
pub mod twice;
pub mod walk;
pub mod ways;

pub use due::due_refusal;
pub use labels::label_refusal;
pub use steps::steps_refusal;
