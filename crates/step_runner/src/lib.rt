//! Constants, scripts and traces as files spell them, and the text that is written for states.
#![tactic(auto)]

pub mod laws;
