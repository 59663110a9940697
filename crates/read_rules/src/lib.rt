//! Refusals for variables read too early, definitions used too late, and `self` where no process is.
#![tactic(auto)]

mod assigned;
mod bodies;
mod calls;
pub mod declared;
mod definitions;
mod identities;
mod jumps;
mod known;
pub mod laws;
mod levels;
mod locals;
mod macros;
mod names;
mod once;
mod order;
mod own;
mod put;
mod reads;
mod refusals;
mod routines;
mod seen_bodies;
mod selves;
pub mod stale;
mod steps;
mod used;
mod uses;
mod walk;
mod wanted;
mod ways;

pub use reads::read_refusal;
pub use selves::self_refusal;
