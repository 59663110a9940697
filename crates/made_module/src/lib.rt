//! The module that `make` writes, and the counts that it tells, in code.
#![tactic(auto)]

mod counts;
mod labels;
mod text;

pub use counts::count_lines;
pub use labels::labels_in;
pub use text::make_module;
