//! What Spec demands of fair steps: a formula for each demand, and its obligations.
#![tactic(auto)]

mod calls;
mod demands;
mod lines;
mod numbers;
mod obligations;
mod reach;
mod table;

pub use lines::spec_of;
pub use obligations::Obligation;
