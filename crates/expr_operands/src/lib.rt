//! Reading operands with what comes after them, prefix operators, short forms, and the operators after an expression.
#![tactic(auto)]

pub mod read_climb;
pub mod read_element;
pub mod read_link;
pub mod read_name;
mod read_open;
mod read_plain;
pub mod read_primary;
pub mod read_short;
pub mod read_token;
