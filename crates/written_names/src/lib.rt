//! Written names: those of variables, routines and labels, told apart from all that are taken.
#![tactic(auto)]

pub mod give;
mod giver;
pub mod naming;
mod units;
mod words;
