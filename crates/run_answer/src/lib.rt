//! What the limits of a run change, what three files of a run are answered, and what a run promises.
#![tactic(auto)]

pub mod laws;
