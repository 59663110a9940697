//! How the explaining of a trace ends.

use explained_traces::Halt;
use running::Which;
use tla_token::Refusal;

/// How the explaining of a trace ended.
#[derive(Clone, Copy)]
pub enum TraceAnswer {
    /// All states were shown and written.
    Fine,
    /// Memory could not be had.
    Memory,
    /// This file could not be read.
    ReadFault(Which),
    /// The output could not be written; a part of it may have been.
    WriteFault,
    /// This file offends this rule, at this place.
    Refused(Which, Refusal),
    /// This file is longer than the program reads.
    TooLong(Which),
    /// A state isn't initial, or is no step, or trouble keeps that from being told; the states before that were written.
    Halted(Halt),
}

/// How the explaining of a trace ended, with the line that says where it stopped.
#[derive(Drop)]
pub struct Ended {
    /// How.
    pub answer: TraceAnswer,
    /// The line, for the error output, where it stopped before its end.
    pub line: Vec<u8>,
}
