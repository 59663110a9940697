//! Rows of expressions, what is next in lists, and what the reader of a form is given and tells.
#![tactic(auto)]

pub mod on_next;
pub mod read_row;
