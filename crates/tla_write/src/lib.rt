//! The text of expressions, written from a pool.
#![tactic(auto)]

mod write;

pub use write::{append_expr, append_operand, write_expr, write_operand};
