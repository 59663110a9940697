//! A run, from the names of its three files to an answer.

ghost use Rattle.std.specs.Prelude.{◌≡◌, ◌+◌, ◌≤◌, Some};
ghost use Rattle.step_runner.specs.Followed as runner;
ghost use Rattle.run_answer.specs.Stops.{stop_line};
ghost use Rattle.followed_runs.specs.declared.cause.Stop as code;
ghost use Rattle.followed_runs.specs.Stopping.{stop_of};
ghost use Rattle.running.specs.Names.{names_of, OfTexts};
ghost use Rattle.running.specs.Answered.{KeepsPromise};
ghost use Rattle.pcal_cli.specs.Room.{HasRoom};
ghost use Rattle.pcal_cli.specs.Told.{Told};
ghost use Rattle.pcal_cli.specs.Runs.{status_by, status_of_run, run_line, AnsweredThree, ExplainsRun};

use crate::error_line::{line_room, out_of_memory, say, tell};
use crate::named::{longest, tell_of};
use crate::status::{Answer, Status};
use followed_runs::Cause;
use outer_io::{Shelf, Sink};
use run_files::Trouble;
use running::{Ended, Names, RunAnswer, run_out};
use std::alloc::{AllocError, Global};

/// What the process's exit status says of the cause of a stop.
fn stop_status(cause: Cause) -> Status
    ensures { result ≡ status_by cause }
{
    match cause {
        Cause::Step(_) => Status::ScriptStep,
        Cause::Trouble(Trouble::Fault(_, _)) => Status::Faulted,
        Cause::Trouble(Trouble::Limit(_)) => Status::Limit,
    }
}

/// What the process's exit status says of how a run ended.
fn run_status(answer: RunAnswer) -> Status
    ensures { result ≡ status_of_run answer }
{
    match answer {
        RunAnswer::Fine => Status::Fine,
        RunAnswer::Memory => Status::Memory,
        RunAnswer::ReadFault(_) => Status::ReadFault,
        RunAnswer::WriteFault => Status::WriteFault,
        RunAnswer::Refused(_, _) => Status::Refused,
        RunAnswer::TooLong(_) => Status::TooLong,
        RunAnswer::Stopped(stop) => stop_status(stop.cause),
    }
}

/// Writes the line of how a run ended, of which room is the memory but for the line of a stop.
fn tell_run<E: Sink>(err: &mut E, room: Vec<u8>, names: &Names<'_>, ended: &Ended)
    requires room { HasRoom (names_of names.now) room }
    requires line { (s : code.Stop) (t : runner.Stop) → ended.now.answer ≡ RunAnswer.Stopped s → stop_of (Some s) ≡ Some t → ended.now.line.items ≡ stop_line names.now.source.now t }
    ensures told { Told (E.wrote err.old) (E.wrote err.new) (E.faults err.old) (E.faults err.new) (run_line (names_of names.now) ended.now.answer) }
    ensures faults_grow { E.faults err.old ≤ E.faults err.new }
    ensures once { E.faults err.new ≤ E.faults err.old + 1 }
{
    match ended.answer {
        RunAnswer::Fine => tell(err, room, Answer::Fine, b""),
        RunAnswer::Memory => tell(err, room, Answer::Memory, b""),
        RunAnswer::ReadFault(which) => tell_of(err, room, names, which, Answer::ReadFault),
        RunAnswer::WriteFault => tell(err, room, Answer::WriteFault, b""),
        RunAnswer::Refused(which, refusal) => {
            tell_of(err, room, names, which, Answer::Refused(refusal))
        }
        RunAnswer::TooLong(which) => tell_of(err, room, names, which, Answer::TooLong),
        RunAnswer::Stopped(_) => say(err, &ended.line),
    }
}

/// Reads the files of a run, follows its script, writes the states, and says how it ended. The memory for the line is taken before the
/// files are read.
pub fn run_three<H: Shelf, K: Sink, E: Sink>(
    alloc: Global,
    names: &Names<'_>,
    forced: bool,
    shelf: &mut H,
    out: &mut K,
    err: &mut E,
) -> Status
    ensures answered { AnsweredThree H.texts H.given H.faults K.wrote K.faults (names_of names.now) forced result shelf.old shelf.new out.old out.new }
    ensures headline { result ≡ Status.Fine → OfTexts (H.texts shelf.old) (names_of names.now) (KeepsPromise (K.wrote out.old) (K.wrote out.new) forced) }
    ensures told { ExplainsRun (H.texts shelf.old) (H.faults shelf.old) (H.faults shelf.new) (names_of names.now) forced result (E.wrote err.old) (E.wrote err.new) (E.faults err.old) (E.faults err.new) }
    ensures error_faults_grow { E.faults err.old ≤ E.faults err.new }
    ensures one_error_fault { E.faults err.new ≤ E.faults err.old + 1 }
{
    match line_room(alloc, longest(names)) {
        Ok(room) => {
            let ended = run_out(alloc, names, forced, shelf, out);
            tell_run(err, room, names, &ended);
            run_status(ended.answer)
        }
        Err(AllocError) => out_of_memory(err),
    }
}
