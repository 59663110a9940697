//! Sets of names as bits: the names of a fixed order, of which each has a number, and the numbers that are in.
#![tactic(auto)]

mod bits;
mod order;

pub use bits::Bits;
pub use order::Order;
