//! What two functions give that are taken together, the first one before the second.
#![tactic(auto)]

mod overriding;

pub use overriding::overridden;
