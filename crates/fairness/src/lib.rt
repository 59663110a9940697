//! What a translation demands of fair steps: the obligations of Spec, and a formula for each.
#![tactic(auto)]

pub mod laws;
