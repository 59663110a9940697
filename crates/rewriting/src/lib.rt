//! Rewriting a file's algorithm in the other syntax: the algorithm read of its file, and the file that a rewriting gives.
#![tactic(auto)]

mod read_file;
mod write_file;

pub use read_file::{read_parts, rewrite_text};
pub use write_file::rewritten;
