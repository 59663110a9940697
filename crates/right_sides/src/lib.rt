//! Expressions as they are written in a step, the settings that are written for the assignments of one statement, and lists of items.
#![tactic(auto)]

mod after;
mod groups;
pub mod items;
mod keys;
mod sides;
mod statement;

pub use after::{After, written};
pub use statement::settings;
