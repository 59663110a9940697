//! What a run reads beside its module, in code: files of constants, scripts, and traces.
#![tactic(auto)]

mod config;
mod items;
mod lines;
mod parts;
mod scan;
pub mod script;
pub mod state;
pub mod stops;
mod trace;

pub use config::read_config;
pub use script::{Script, Turn, read_script};
pub use state::{Before, add_state};
pub use stops::{Trouble, Why, script_line, state_line, trouble_line};
pub use trace::read_trace;
