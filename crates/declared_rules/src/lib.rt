//! Refusals for names declared twice or bound again, reserved names, and what needs a module; names that are taken, and what
//! names may be used as.
#![tactic(auto)]

mod bind_walk;
mod binding;
pub mod bodies;
mod exprs;
mod found;
mod kept;
pub mod macros;
mod met;
mod names;
mod outside;
mod outside_words;
mod own;
mod pieces;
mod processes;
mod put;
mod rebinds;
pub mod refusal;
mod sight;
mod sweep;
mod units;
pub mod use_sight;
pub mod using;
mod walk;

pub use rebinds::rebind_refusal;
