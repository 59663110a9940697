//! Expressions of TLA+: reading them from tokens, and writing their text.
#![tactic(auto)]

pub mod laws;
mod read_braces;
mod read_expression;
mod read_first;
mod read_knot;
mod read_listed;
mod read_member;
pub mod read_parts;
mod read_squares;

pub use read_expression::read_expr;
pub use read_parts::{read_expression_at, read_expressions_at};
pub use tla_write::{write_expr, write_operand};
