//! The command `trace`: its files are read, its trace is explained, and the states are written.
#![tactic(auto)]

mod answer;
mod command;
mod writing;

pub use answer::{Ended, TraceAnswer};
pub use command::trace_out;
