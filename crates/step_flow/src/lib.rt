//! The statements of one step, by a list of choices.
#![tactic(auto)]

mod binds;
pub mod going;
mod simple;
mod statements;

pub use going::{End, Going};
pub use statements::statements as flow;
