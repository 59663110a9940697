//! What the words of a command line mean.
#![tactic(auto)]

mod command;
mod read;
mod table;

pub use command::{Command, Options};
pub use read::command_of;
