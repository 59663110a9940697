//! The limits of algorithms, and words and signs that are left out: where an algorithm is refused by them.
#![tactic(auto)]

pub mod bound;
mod chains;
mod count;
pub mod labels;
mod limits;
pub mod literal;
mod names;
mod nesting;
pub mod order;
pub mod table;
mod tokens;

pub use limits::{count_refusal, within_limits};
pub use order::least;
pub use tokens::{left_out_refusal, past_tokens_refusal, tokens_refusal};
