//! What a run stands on, and what a step does with a state: expressions, assignments, jumps, calls and returns.
#![tactic(auto)]

mod actor;
mod apart;
mod assign;
mod calls;
mod definitions;
mod entries;
pub mod frames;
mod gather;
mod identity;
pub mod jumps;
pub mod laws;
mod parts;
mod processes;
mod program;
pub mod reads;
mod returns;
mod runner;
mod setting;
mod settings;
mod sight;
pub mod state_laws;
mod values;

pub use actor::{Actor, Named};
pub use assign::assigned;
pub use calls::call;
pub use definitions::add_definitions;
pub use jumps::{jump, label_value};
pub use parts::part_at;
pub use processes::actors;
pub use program::Program;
pub use returns::leave;
pub use runner::{Partner, Runner};
pub use setting::{Setting, set_all, set_one};
pub use sight::Sight;
pub use values::{Bound, all_values, members, truth, value};
