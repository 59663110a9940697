//! All offences of an algorithm against the rules on labels.
#![tactic(auto)]

mod all;
mod bodies;
mod check;
mod jumps;
mod labels;

pub use all::offences;
pub use bodies::misplaced_offences;
pub use check::check_labels;
