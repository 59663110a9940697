//! The command `trace`.

ghost use Rattle.std.specs.Prelude.{◌≡◌, Some};
ghost use Rattle.step_runner.specs.Explained.{halt_line};
ghost use Rattle.step_runner.specs.Explained as pure;
ghost use Rattle.explained_traces.specs.Halts.{halt_of};
ghost use Rattle.explained_traces.specs.declared.explaining.Halt as code;
ghost use Rattle.running.specs.Answers.{IsUnread};
ghost use Rattle.running.specs.Names.{names_of, OfTexts};
ghost use Rattle.trace_command.specs.Answered.{AnsweredTrace, KeepsPromise};
ghost use Rattle.trace_command.specs.Unread.{unread_as};

use crate::answer::{Ended, TraceAnswer};
use crate::writing::{put_trace, without_line};
use outer_io::{Shelf, Sink};
use running::reading::{in_memory, load_three};
use running::{Names, RunAnswer};
use std::alloc::Global;

/// The answer to a trace of which a file can't be read: as that to such a run.
fn unread_answer(answer: RunAnswer) -> TraceAnswer
    requires { IsUnread answer }
    ensures { result ≡ unread_as answer }
{
    match answer {
        RunAnswer::ReadFault(which) => TraceAnswer::ReadFault(which),
        RunAnswer::TooLong(which) => TraceAnswer::TooLong(which),
        _ => TraceAnswer::Memory,
    }
}

/// Reads the files of a trace in their order, explains the trace, and writes its states up to the first that is no step. All memory is taken
/// before the first byte goes out.
pub fn trace_out<H: Shelf, K: Sink>(
    alloc: Global,
    names: &Names<'_>,
    forced: bool,
    no_terminating: bool,
    shelf: &mut H,
    out: &mut K,
) -> Ended
    ensures answered { AnsweredTrace H.texts H.given H.faults K.wrote K.faults (names_of names.now) (record { label = forced; no_terminating = no_terminating }) result.answer shelf.old shelf.new out.old out.new }

    // The promise is a part of what is written on Fine; it is said once more by itself.
    ensures headline { result.answer ≡ TraceAnswer.Fine → OfTexts (H.texts shelf.old) (names_of names.now) (KeepsPromise (K.wrote out.old) (K.wrote out.new) (record { label = forced; no_terminating = no_terminating })) }

    // The line of a stop.
    ensures line { (s : code.Halt) (t : pure.Halt) → result.answer ≡ TraceAnswer.Halted s → halt_of (Some s) ≡ Some t → result.line.items ≡ halt_line names.now.source.now t }
{
    match load_three(alloc, names, shelf) {
        Ok(loaded) => {
            let files = in_memory(&loaded);
            put_trace(alloc, names.source, &files, forced, no_terminating, out)
        }
        Err(answer) => without_line(alloc, unread_answer(answer)),
    }
}
