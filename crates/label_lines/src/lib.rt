//! The lines of labels: where each label of an algorithm is, and where what is done from it ends in the text.
#![tactic(auto)]

pub mod line;
pub mod lines;
mod walk;

pub use line::Line;
pub use lines::map;
