//! The items that are written for one step of an algorithm whose macro calls are written out.
#![tactic(auto)]

pub mod desk;
mod expressions;
mod moves;
pub mod partner;
mod simple;
mod statements;
pub mod step;

pub use desk::Desk;
