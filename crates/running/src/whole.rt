//! A run of whole files.

ghost use Rattle.std.specs.Prelude.{◌≡◌, ◌<◌, ◌^◌, length, None, IfOk, IfErr};
ghost use Rattle.followed_runs.specs.Stopping.{stop_of};
ghost use Rattle.run_answer.specs.Chosen.{IsRun};
ghost use Rattle.run_answer.specs.Promised.{KeepsRun};
ghost use Rattle.running.specs.InMemory.{files_of, IsRefused};

use crate::beside::{no_run, run_beside};
use crate::files::{Files, NoRun, Which};
use crate::source::checked_source;
use followed_runs::Followed;
use std::alloc::Global;
use tla_pool::Pool;

/// The run that a script chooses of a module's algorithm, with these values of its constants: the text of the states that it leads to,
/// and why it stops before its end, if it does ("A PlusCal User's Manual", section 3).
///
/// # Errors
///
/// How a file is refused: the module by the least of the rules 1 to 49 that it breaks, at its first place; else the constants, and then
/// the script, by the rule for lines; or want of memory.
pub fn run_of_files(alloc: Global, files: &Files<'_>, forced: bool) -> Result<Followed, NoRun>
    requires source { length files.now.source.now < 2 ^ 29 }
    requires config { length files.now.config.now < 2 ^ 29 }
    requires script { length files.now.third.now < 2 ^ 29 }
    ensures run { IfOk result (λ f. IsRun forced (files_of files.now) f.text.items (stop_of f.stop)) }
    ensures promise { IfOk result (λ f. f.stop ≡ None → KeepsRun forced (files_of files.now) f.text.items) }
    ensures refused { IfErr result (IsRefused forced (files_of files.now)) }
{
    let mut pool = Pool::new(alloc);
    let checked = match checked_source(alloc, files.source, forced, &mut pool) {
        Ok(checked) => checked,
        Err(stop) => return Err(no_run(Which::Module, stop)),
    };
    run_beside(alloc, files, &mut pool, &checked)
}
