//! Values of expressions of a pool, exact to the kind and place of each fault.
#![tactic(auto)]

pub mod eval;
