//! What is answered to a module, a file of constants and a trace: laws.
#![tactic(auto)]

pub mod laws;
