//! One step of a run: a process goes from the label that its `pc` names to a next one, by a list of choices.
#![tactic(auto)]

mod globals;
mod halt;
pub mod identified;
mod locals;
mod origin;
mod puts;
mod ready;
pub mod routines;
pub mod spread;
mod stage;
pub mod stands;
mod starting;
mod taking;
pub mod values;

pub use halt::Halt;
pub use origin::{Origin, Start};
pub use stage::Stage;
pub use starting::start;
pub use taking::{Taken, step};
