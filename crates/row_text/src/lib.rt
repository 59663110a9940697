//! What the texts in a file of rows spell, and how the bytes of an answer are shown: what can't be printed stands between two backticks.
#![tactic(auto)]

mod shown;
mod spelled;

pub use shown::put_shown;
pub use spelled::{bytes_of, lines_of, word_of};
