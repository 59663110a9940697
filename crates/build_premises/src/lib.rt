//! What builders of written steps are given of an accepted algorithm.
#![tactic(auto)]

pub mod laws;
