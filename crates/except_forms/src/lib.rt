//! `EXCEPT`: a value is taken once and changed along the path of each slot.
#![tactic(auto)]

pub mod changes;
pub mod slots;
