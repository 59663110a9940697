//! A trace, from the names of its three files to an answer.

ghost use Rattle.std.specs.Prelude.{◌≡◌, ◌+◌, ◌≤◌, Some};
ghost use Rattle.command_words.specs.Meant.{options_of};
ghost use Rattle.step_runner.specs.Explained as pure;
ghost use Rattle.step_runner.specs.Explained.{halt_line};
ghost use Rattle.explained_traces.specs.declared.explaining.Halt as code;
ghost use Rattle.explained_traces.specs.Halts.{halt_of};
ghost use Rattle.running.specs.Names.{names_of, OfTexts};
ghost use Rattle.trace_command.specs.Answered.{KeepsPromise};
ghost use Rattle.pcal_cli.specs.Asked.{promised};
ghost use Rattle.pcal_cli.specs.Room.{HasRoom};
ghost use Rattle.pcal_cli.specs.Told.{Told};
ghost use Rattle.pcal_cli.specs.Traces.{status_of_halt, status_of_trace, trace_line, AnsweredTraced, ExplainsTrace};

use crate::error_line::{line_room, out_of_memory, say, tell};
use crate::named::{longest, tell_of};
use crate::status::{Answer, Status};
use command_words::Options;
use explained_traces::Halt;
use outer_io::{Shelf, Sink};
use run_files::Trouble;
use running::Names;
use std::alloc::{AllocError, Global};
use trace_command::{Ended, TraceAnswer, trace_out};

/// What the process's exit status says of why a trace stops.
fn halt_status(halt: Halt) -> Status
    ensures { result ≡ status_of_halt halt }
{
    match halt {
        Halt::Untrue(_) => Status::NotAStep,
        Halt::Troubled(Trouble::Fault(_, _)) => Status::Faulted,
        Halt::Troubled(Trouble::Limit(_)) => Status::Limit,
    }
}

/// What the process's exit status says of how a trace ended.
fn trace_status(answer: TraceAnswer) -> Status
    ensures { result ≡ status_of_trace answer }
{
    match answer {
        TraceAnswer::Fine => Status::Fine,
        TraceAnswer::Memory => Status::Memory,
        TraceAnswer::ReadFault(_) => Status::ReadFault,
        TraceAnswer::WriteFault => Status::WriteFault,
        TraceAnswer::Refused(_, _) => Status::Refused,
        TraceAnswer::TooLong(_) => Status::TooLong,
        TraceAnswer::Halted(halt) => halt_status(halt),
    }
}

/// Writes the line of how a trace ended, of which room is the memory but for the line of a stop.
fn tell_trace<E: Sink>(err: &mut E, room: Vec<u8>, names: &Names<'_>, ended: &Ended)
    requires room { HasRoom (names_of names.now) room }
    requires line { (s : code.Halt) (t : pure.Halt) → ended.now.answer ≡ TraceAnswer.Halted s → halt_of (Some s) ≡ Some t → ended.now.line.items ≡ halt_line names.now.source.now t }
    ensures told { Told (E.wrote err.old) (E.wrote err.new) (E.faults err.old) (E.faults err.new) (trace_line (names_of names.now) ended.now.answer) }
    ensures faults_grow { E.faults err.old ≤ E.faults err.new }
    ensures once { E.faults err.new ≤ E.faults err.old + 1 }
{
    match ended.answer {
        TraceAnswer::Fine => tell(err, room, Answer::Fine, b""),
        TraceAnswer::Memory => tell(err, room, Answer::Memory, b""),
        TraceAnswer::ReadFault(which) => tell_of(err, room, names, which, Answer::ReadFault),
        TraceAnswer::WriteFault => tell(err, room, Answer::WriteFault, b""),
        TraceAnswer::Refused(which, refusal) => {
            tell_of(err, room, names, which, Answer::Refused(refusal))
        }
        TraceAnswer::TooLong(which) => tell_of(err, room, names, which, Answer::TooLong),
        TraceAnswer::Halted(_) => say(err, &ended.line),
    }
}

/// Reads the files of a trace, explains it, writes its states, and says how it ended. The memory for the line is taken before the files
/// are read.
pub fn trace_three<H: Shelf, K: Sink, E: Sink>(
    alloc: Global,
    names: &Names<'_>,
    options: Options,
    shelf: &mut H,
    out: &mut K,
    err: &mut E,
) -> Status
    ensures answered { AnsweredTraced H.texts H.given H.faults K.wrote K.faults (names_of names.now) (promised (options_of options)) result shelf.old shelf.new out.old out.new }
    ensures headline { result ≡ Status.Fine → OfTexts (H.texts shelf.old) (names_of names.now) (KeepsPromise (K.wrote out.old) (K.wrote out.new) (promised (options_of options))) }
    ensures told { ExplainsTrace (H.texts shelf.old) (H.faults shelf.old) (H.faults shelf.new) (names_of names.now) (promised (options_of options)) result (E.wrote err.old) (E.wrote err.new) (E.faults err.old) (E.faults err.new) }
    ensures error_faults_grow { E.faults err.old ≤ E.faults err.new }
    ensures one_error_fault { E.faults err.new ≤ E.faults err.old + 1 }
{
    match line_room(alloc, longest(names)) {
        Ok(room) => {
            let ended = trace_out(
                alloc,
                names,
                options.forced,
                !options.terminating,
                shelf,
                out,
            );
            tell_trace(err, room, names, &ended);
            trace_status(ended.answer)
        }
        Err(AllocError) => out_of_memory(err),
    }
}
