//! Expressions of macros' bodies, with what stands for their names where the macros are called.
#![tactic(auto)]

pub mod expressions;
