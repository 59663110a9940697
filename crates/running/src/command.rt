//! The command `run`.

ghost use Rattle.std.specs.Prelude.{◌≡◌, Some, [], unwrap_or};
ghost use Rattle.run_answer.specs.Stops.{stop_line};
ghost use Rattle.step_runner.specs.Followed as runner;
ghost use Rattle.followed_runs.specs.Stopping.{stop_of};
ghost use Rattle.followed_runs.specs.declared.cause.Stop as code;
ghost use Rattle.running.specs.Names.{names_of, OfTexts};
ghost use Rattle.running.specs.Answered.{AnsweredRun, KeepsPromise};
ghost use Rattle.running.specs.declared.answer.RunAnswer.{RunAnswer};

use crate::answer::{Ended, Names};
use crate::reading::{in_memory, load_three};
use crate::writing::{put_run, without_line};
use outer_io::{Shelf, Sink};
use std::alloc::Global;

/// Reads the files of a run in their order, follows the script, and writes the states that it leads to. All memory is taken before the
/// first byte goes out.
pub fn run_out<H: Shelf, K: Sink>(
    alloc: Global,
    names: &Names<'_>,
    forced: bool,
    shelf: &mut H,
    out: &mut K,
) -> Ended
    ensures answered { AnsweredRun H.texts H.given H.faults K.wrote K.faults (names_of names.now) forced result.answer shelf.old shelf.new out.old out.new }

    // The promise is a part of what is written on Fine; it is said once more by itself.
    ensures headline { result.answer ≡ RunAnswer.Fine → OfTexts (H.texts shelf.old) (names_of names.now) (KeepsPromise (K.wrote out.old) (K.wrote out.new) forced) }

    // The line of a stop.
    ensures line { (s : code.Stop) (t : runner.Stop) → result.answer ≡ RunAnswer.Stopped s → stop_of (Some s) ≡ Some t → result.line.items ≡ stop_line names.now.source.now t }
{
    match load_three(alloc, names, shelf) {
        Ok(loaded) => put_run(alloc, names.source, &in_memory(&loaded), forced, out),
        Err(answer) => without_line(alloc, answer),
    }
}
