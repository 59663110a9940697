//! The assignments of jumps, calls and returns, put in a pool.
#![tactic(auto)]

mod callee;
mod calls;
mod frame;
mod moves;
mod pieces;
mod saving;

pub use callee::{Callee, local_names};
pub use calls::{call_moves, call_return_moves};
pub use frame::frame_of;
pub use moves::{jump_move, return_moves, to_label};
