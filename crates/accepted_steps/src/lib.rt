//! Steps and starts of accepted algorithms by their choices, and that starts end in initial states.
#![tactic(auto)]

pub mod laws;
