//! Reading calls of actions, ways of a step, and the conjuncts of Spec.
#![tactic(auto)]

pub mod bulleted;
mod calls;
mod fairness;
pub mod order;
pub mod titles;
