//! Reading names with their sets and the forms over them, sets in braces and of functions, and `IF`.
#![tactic(auto)]

mod read_bind;
pub mod read_brace;
pub mod read_choice;
pub mod read_function;
pub mod read_image;
pub mod read_quantifier;
pub mod read_set;
pub mod read_square;
