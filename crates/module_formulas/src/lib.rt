//! The formulas of a translation that are no label's action: Init, the disjuncts of Next, ProcSet, Terminating and Termination, and the
//! actions of procedures and processes.
#![tactic(auto)]

pub mod done;
mod forms;
pub mod init;
mod labels;
pub mod model_values;
pub mod names;
pub mod next;
pub mod numbers;
pub mod process_sets;
mod starts;
pub mod takers;
pub mod ways;
