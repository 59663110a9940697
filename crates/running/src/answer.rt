//! How a run ends, and the names of its files.

use crate::Which;
use followed_runs::Stop;
use tla_token::Refusal;

/// The names of the files of a run.
#[derive(Clone, Copy)]
pub struct Names<'a> {
    /// Of the module.
    pub source: &'a str,
    /// Of the values of its constants.
    pub config: &'a str,
    /// Of the script, or of the trace.
    pub third: &'a str,
}

/// How a run ended.
#[derive(Clone, Copy)]
pub enum RunAnswer {
    /// The script was followed to its end, and all states were written.
    Fine,
    /// Memory could not be had.
    Memory,
    /// This file could not be read.
    ReadFault(Which),
    /// The output could not be written; a part of it may have been.
    WriteFault,
    /// This file offends this rule, at this place.
    Refused(Which, Refusal),
    /// This file is longer than the program reads.
    TooLong(Which),
    /// The script can't be followed further; the states before that were written.
    Stopped(Stop),
}

/// How a run ended, with the line that says where it stopped before its end, if it did; that is empty for all other answers.
#[derive(Drop)]
pub struct Ended {
    /// How.
    pub answer: RunAnswer,
    /// The line, for the error output.
    pub line: Vec<u8>,
}
