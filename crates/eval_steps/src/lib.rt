//! What an order of evaluation rests on: which part of a form comes first, what it decides, and that each answer of a binder's body counts.
#![tactic(auto)]

pub mod answers;
pub mod forms;
