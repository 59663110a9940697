//! Writes the states of a run.

ghost use Rattle.std.specs.Prelude.{◌≡◌, ◌<◌, ◌^◌, Bool, length, Some, None, [], IfOk};
ghost use Rattle.step_runner.specs.Followed as runner;
ghost use Rattle.run_answer.specs.Chosen as pure;
ghost use Rattle.run_answer.specs.Chosen.{IsRun};
ghost use Rattle.run_answer.specs.Promised.{KeepsRun};
ghost use Rattle.run_answer.specs.Stops.{stop_line};
ghost use Rattle.followed_runs.specs.Stopping.{stop_of};
ghost use Rattle.followed_runs.specs.declared.cause.Stop as code;
ghost use Rattle.running.specs.InMemory.{files_of};
ghost use Rattle.running.specs.Answered.{KeepsPromise};
ghost use Rattle.running.specs.Put.{answer_of, Put};

use crate::answer::{Ended, RunAnswer};
use crate::{Files, NoRun, run_of_files};
use followed_runs::{Cause, Followed, Stop};
use outer_io::{Sink, put_all};
use run_files::{script_line, trouble_line};
use std::alloc::{AllocError, Global};

/// How a run ends, with no line.
pub fn without_line(alloc: Global, answer: RunAnswer) -> Ended
    ensures answer { result.answer ≡ answer }
    ensures line { result.line.items ≡ [] }
{
    Ended {
        answer,
        line: Vec::new(alloc),
    }
}

/// How a run ends whose states were written.
fn end_of(stop: Option<Stop>) -> RunAnswer
    ensures { result ≡ answer_of stop }
{
    match stop {
        None => RunAnswer::Fine,
        Some(stop) => RunAnswer::Stopped(stop),
    }
}

/// The line that says where a script stops; none where it doesn't.
fn line_of(alloc: Global, file: &str, stop: Option<Stop>) -> Result<Vec<u8>, AllocError>
    ensures { IfOk result (λ w. (t : runner.Stop) → stop_of stop ≡ Some t → w.items ≡ stop_line file.now t) }
{
    match stop {
        None => Ok(Vec::new(alloc)),
        Some(stop) => match stop.cause {
            Cause::Step(why) => script_line(alloc, stop.step, why),
            Cause::Trouble(trouble) => trouble_line(alloc, file.as_bytes(), trouble),
        },
    }
}

/// Writes the states of a script that was followed. The line of a stop is made before the first byte goes out.
fn put_followed<K: Sink>(alloc: Global, file: &str, followed: &Followed, out: &mut K) -> Ended
    ensures put { (forced : Bool) (f : pure.Files) → IsRun forced f followed.now.text.items (stop_of followed.now.stop) → Put K.wrote K.faults forced f result.answer out.old out.new }
    ensures headline { (forced : Bool) (f : pure.Files) → (followed.now.stop ≡ None → KeepsRun forced f followed.now.text.items) → result.answer ≡ RunAnswer.Fine → KeepsPromise (K.wrote out.old) (K.wrote out.new) forced f }
    ensures line { (s : code.Stop) (t : runner.Stop) → result.answer ≡ RunAnswer.Stopped s → stop_of (Some s) ≡ Some t → result.line.items ≡ stop_line file.now t }
{
    let stop = followed.stop;
    match line_of(alloc, file, stop) {
        Ok(line) => match put_all(out, &followed.text) {
            Ok(()) => Ended {
                answer: end_of(stop),
                line,
            },
            Err(_) => without_line(alloc, RunAnswer::WriteFault),
        },
        Err(AllocError) => without_line(alloc, RunAnswer::Memory),
    }
}

/// Follows the script of a run, and writes the states that it leads to.
pub fn put_run<K: Sink>(
    alloc: Global,
    file: &str,
    files: &Files<'_>,
    forced: bool,
    out: &mut K,
) -> Ended
    requires source { length files.now.source.now < 2 ^ 29 }
    requires config { length files.now.config.now < 2 ^ 29 }
    requires script { length files.now.third.now < 2 ^ 29 }
    ensures put { Put K.wrote K.faults forced (files_of files.now) result.answer out.old out.new }
    ensures headline { result.answer ≡ RunAnswer.Fine → KeepsPromise (K.wrote out.old) (K.wrote out.new) forced (files_of files.now) }
    ensures line { (s : code.Stop) (t : runner.Stop) → result.answer ≡ RunAnswer.Stopped s → stop_of (Some s) ≡ Some t → result.line.items ≡ stop_line file.now t }
{
    match run_of_files(alloc, files, forced) {
        Ok(followed) => put_followed(alloc, file, &followed, out),
        Err(NoRun::Memory) => without_line(alloc, RunAnswer::Memory),
        Err(NoRun::Refused(which, refusal)) => {
            without_line(alloc, RunAnswer::Refused(which, refusal))
        }
    }
}
