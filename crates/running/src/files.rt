//! The files of a run, and why there is none.

use tla_token::Refusal;

/// The texts of the files of a run.
#[derive(Clone, Copy)]
pub struct Files<'a> {
    /// The module.
    pub source: &'a [u8],
    /// The values of its constants.
    pub config: &'a [u8],
    /// The script of a run, or a trace.
    pub third: &'a [u8],
}

/// One of the files of a run.
#[derive(Clone, Copy)]
pub enum Which {
    /// The module.
    Module,
    /// The values of its constants.
    Config,
    /// The third file.
    Third,
}

/// Why there is no run.
#[derive(Clone, Copy)]
pub enum NoRun {
    /// Memory could not be had.
    Memory,
    /// A file offends this rule, at this place.
    Refused(Which, Refusal),
}
