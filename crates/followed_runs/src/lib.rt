//! Following a script: states as text, and why it stops; and the trouble that is met first from a state.
#![tactic(auto)]

mod adding;
mod cause;
mod copying;
mod following;
pub mod party;
mod searching;
mod taking;
mod troubles;
mod trying;

pub use cause::{Cause, Stop};
pub use following::{Followed, follow};
pub use troubles::first_trouble;
