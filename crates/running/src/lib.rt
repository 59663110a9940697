//! Runs of whole files: a module, the values of its constants, and a script.
#![tactic(auto)]

mod answer;
pub mod beside;
mod command;
mod constants;
mod declarations;
mod definitions;
mod files;
mod following;
mod grafts;
pub mod laws;
mod locals;
mod made;
mod making;
mod parts;
mod places;
mod preparing;
mod program;
pub mod reading;
pub mod source;
mod standing;
mod statements;
mod whole;
pub mod words;
mod writing;

pub use answer::{Ended, Names, RunAnswer};
pub use command::run_out;
pub use constants::with_default;
pub use definitions::run_definitions;
pub use files::{Files, NoRun, Which};
pub use made::Grounds;
pub use making::grounds;
pub use standing::stage;
pub use whole::run_of_files;
