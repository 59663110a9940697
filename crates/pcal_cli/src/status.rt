//! The answers of the program.

ghost use Rattle.std.specs.Prelude.{◌≡◌};
ghost use Rattle.pcal_cli.specs.Answers.{status_number, status_of};

use tla_token::Refusal;

/// How a run of the program ended. `number` gives the process's exit status.
#[derive(Clone, Copy)]
pub enum Status {
    /// The output was written whole.
    Fine,
    /// Memory could not be had.
    Memory,
    /// The words mean no command.
    Usage,
    /// A file could not be read.
    ReadFault,
    /// The output could not be written; a part of it may have been.
    WriteFault,
    /// A file offends a rule.
    Refused,
    /// A step of a script can't be taken.
    ScriptStep,
    /// A state of a trace isn't initial, or a pair of its states is no step.
    NotAStep,
    /// Evaluation met a fault.
    Faulted,
    /// Evaluation reached a value past the limits.
    Limit,
    /// A file is longer than the program reads.
    TooLong,
}

/// The exit status, from 0 to 10.
pub fn number(status: Status) -> u8
    ensures { result ≡ status_number status }
{
    match status {
        Status::Fine => 0,
        Status::Memory => 1,
        Status::Usage => 2,
        Status::ReadFault => 3,
        Status::WriteFault => 4,
        Status::Refused => 5,
        Status::ScriptStep => 6,
        Status::NotAStep => 7,
        Status::Faulted => 8,
        Status::Limit => 9,
        Status::TooLong => 10,
    }
}

/// How a command ended that writes a module; where its file was refused, by which rule and where.
#[derive(Clone, Copy)]
pub enum Answer {
    /// The module was written whole.
    Fine,
    /// Memory could not be had.
    Memory,
    /// The words mean no command.
    Usage,
    /// The file could not be read.
    ReadFault,
    /// The output could not be written; a part of it may have been.
    WriteFault,
    /// The file offends this rule, at this place.
    Refused(Refusal),
    /// The file is longer than the program reads.
    TooLong,
}

/// What the process's exit status says of an answer.
pub fn as_status(answer: Answer) -> Status
    ensures { result ≡ status_of answer }
{
    match answer {
        Answer::Fine => Status::Fine,
        Answer::Memory => Status::Memory,
        Answer::Usage => Status::Usage,
        Answer::ReadFault => Status::ReadFault,
        Answer::WriteFault => Status::WriteFault,
        Answer::Refused(_) => Status::Refused,
        Answer::TooLong => Status::TooLong,
    }
}
