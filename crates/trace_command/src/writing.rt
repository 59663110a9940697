//! Writes the states of a trace.

ghost use Rattle.std.specs.Prelude.{◌≡◌, ◌<◌, ◌^◌, length, Some, None, [], IfOk};
ghost use Rattle.promise.specs.Options.{Options};
ghost use Rattle.step_runner.specs.Explained as pure;
ghost use Rattle.step_runner.specs.Explained.{halt_line};
ghost use Rattle.run_answer.specs.Chosen as chosen;
ghost use Rattle.trace_answer.specs.Traced.{IsTrace};
ghost use Rattle.trace_answer.specs.Promised.{KeepsTrace};
ghost use Rattle.explained_traces.specs.Halts.{halt_of};
ghost use Rattle.explained_traces.specs.declared.explaining.Halt as code;
ghost use Rattle.running.specs.InMemory.{files_of};
ghost use Rattle.trace_command.specs.Answered.{KeepsPromise};
ghost use Rattle.trace_command.specs.Put.{answer_of, Put};

use crate::answer::{Ended, TraceAnswer};
use explained_traces::{Explained, Halt};
use outer_io::{Sink, put_all};
use run_files::{state_line, trouble_line};
use running::{Files, NoRun};
use std::alloc::{AllocError, Global};
use tracing::trace_of_files;

/// How a trace ends, with no line.
pub fn without_line(alloc: Global, answer: TraceAnswer) -> Ended
    ensures answer { result.answer ≡ answer }
    ensures line { result.line.items ≡ [] }
{
    Ended {
        answer,
        line: Vec::new(alloc),
    }
}

/// How a trace ends whose states were written.
fn end_of(halt: Option<Halt>) -> TraceAnswer
    ensures { result ≡ answer_of halt }
{
    match halt {
        None => TraceAnswer::Fine,
        Some(halt) => TraceAnswer::Halted(halt),
    }
}

/// The line that says where a trace stops; none where it doesn't.
fn line_of(alloc: Global, file: &str, halt: Option<Halt>) -> Result<Vec<u8>, AllocError>
    ensures { IfOk result (λ w. (t : pure.Halt) → halt_of halt ≡ Some t → w.items ≡ halt_line file.now t) }
{
    match halt {
        None => Ok(Vec::new(alloc)),
        Some(halt) => match halt {
            Halt::Untrue(number) => state_line(alloc, number),
            Halt::Troubled(trouble) => trouble_line(alloc, file.as_bytes(), trouble),
        },
    }
}

/// Writes the states of a trace that was explained. The line of a stop is made before the first byte goes out.
fn put_explained<K: Sink>(alloc: Global, file: &str, explained: &Explained, out: &mut K) -> Ended
    ensures put { (options : Options) (f : chosen.Files) → IsTrace options f explained.now.text.items (halt_of explained.now.halt) → Put K.wrote K.faults options f result.answer out.old out.new }
    ensures headline { (options : Options) (f : chosen.Files) → (explained.now.halt ≡ None → KeepsTrace options f explained.now.text.items) → result.answer ≡ TraceAnswer.Fine → KeepsPromise (K.wrote out.old) (K.wrote out.new) options f }
    ensures line { (s : code.Halt) (t : pure.Halt) → result.answer ≡ TraceAnswer.Halted s → halt_of (Some s) ≡ Some t → result.line.items ≡ halt_line file.now t }
{
    let halt = explained.halt;
    match line_of(alloc, file, halt) {
        Ok(line) => match put_all(out, &explained.text) {
            Ok(()) => Ended {
                answer: end_of(halt),
                line,
            },
            Err(_) => without_line(alloc, TraceAnswer::WriteFault),
        },
        Err(AllocError) => without_line(alloc, TraceAnswer::Memory),
    }
}

/// Explains a trace, and writes its states up to the first that is no step.
pub fn put_trace<K: Sink>(
    alloc: Global,
    file: &str,
    files: &Files<'_>,
    forced: bool,
    no_terminating: bool,
    out: &mut K,
) -> Ended
    requires source { length files.now.source.now < 2 ^ 29 }
    requires config { length files.now.config.now < 2 ^ 29 }
    requires third { length files.now.third.now < 2 ^ 29 }
    ensures put { Put K.wrote K.faults (record { label = forced; no_terminating = no_terminating }) (files_of files.now) result.answer out.old out.new }
    ensures headline { result.answer ≡ TraceAnswer.Fine → KeepsPromise (K.wrote out.old) (K.wrote out.new) (record { label = forced; no_terminating = no_terminating }) (files_of files.now) }
    ensures line { (s : code.Halt) (t : pure.Halt) → result.answer ≡ TraceAnswer.Halted s → halt_of (Some s) ≡ Some t → result.line.items ≡ halt_line file.now t }
{
    match trace_of_files(alloc, files, forced, no_terminating) {
        Ok(explained) => put_explained(alloc, file, &explained, out),
        Err(NoRun::Memory) => without_line(alloc, TraceAnswer::Memory),
        Err(NoRun::Refused(which, refusal)) => {
            without_line(alloc, TraceAnswer::Refused(which, refusal))
        }
    }
}
