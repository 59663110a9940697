//! The commands of `pcal`: their words, their answers, and what each answer means.
#![tactic(auto)]

mod counts;
mod error_line;
mod job;
mod named;
mod program;
mod status;
mod task;
mod three;
mod top;
mod traced;

pub use made_module::make_module;
pub use program::run;
pub use status::{Status, number};
pub use top::pcal;
pub use translating::{Options, translate_text};
