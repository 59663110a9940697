//! Traces of whole files: a module, the values of its constants, and a trace.
#![tactic(auto)]

mod beside;
mod explaining;
mod translated;
mod whole;

pub use whole::trace_of_files;
