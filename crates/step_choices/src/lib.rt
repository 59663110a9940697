//! Choices of a run: why a part of a step or of a start doesn't go on, and what the next choice takes.
#![tactic(auto)]

mod pause;
mod picking;

pub use pause::Pause;
pub use picking::picked;
