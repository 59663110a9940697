//! Expressions in memory: a pool of nodes, each node once, whose numbers stand for trees; and trees that are put in for names there.
#![tactic(auto)]

mod done;
pub mod form;
pub mod graft;
mod node;
mod pool;
mod seen;

pub use node::Node;
pub use pool::Pool;
pub use seen::Seen;
