//! Algorithms read from tokens: the parts that both syntaxes are made of, and macros, procedures, processes and whole algorithms by readers of what each spells in its own way.
#![tactic(auto)]

pub mod answer;
mod arguments;
mod assignments;
pub mod binds;
pub mod colon;
pub mod definitions;
pub mod expression;
pub mod head;
mod left;
mod macros;
mod names;
mod parameters;
mod procedures;
pub mod processes;
pub mod simple;
pub mod token_step;
mod variables;
pub mod ways;
pub mod whole_algorithm;
pub mod words;
