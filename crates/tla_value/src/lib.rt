//! Values of TLA+ expressions: their order, states, and evaluation.
#![tactic(auto)]

pub mod build;
pub mod compare;
pub mod fault;
pub mod laws;
pub mod meaning_laws;
pub mod names;
pub mod state;
pub mod stop;
pub mod value;
