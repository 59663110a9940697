//! A trace of whole files.

ghost use Rattle.std.specs.Prelude.{◌≡◌, ◌<◌, ◌^◌, length, None, IfOk, IfErr};
ghost use Rattle.explained_traces.specs.Halts.{halt_of};
ghost use Rattle.running.specs.InMemory.{files_of};
ghost use Rattle.trace_answer.specs.Traced.{IsTrace};
ghost use Rattle.trace_answer.specs.Promised.{KeepsTrace};
ghost use Rattle.tracing.specs.InMemory.{IsRefusedTrace};

use crate::beside::read_beside;
use crate::explaining::explained_beside;
use crate::translated::translated;
use explained_traces::Explained;
use running::beside::no_run;
use running::source::checked_source;
use running::{Files, NoRun, Which};
use std::alloc::{AllocError, Global};
use tla_pool::Pool;

/// The trace in the third file, explained by the algorithm of a module with these values of its constants: the text of its states up to the
/// first that is no step, and why it stops there, if it does ("Specifying Systems", section 2.3).
///
/// # Errors
///
/// How a file is refused: the module by the least of the rules 1 to 49 that it breaks, at its first place; else the constants, and then
/// the trace, by the rule for lines; or want of memory.
pub fn trace_of_files(
    alloc: Global,
    files: &Files<'_>,
    forced: bool,
    no_terminating: bool,
) -> Result<Explained, NoRun>
    requires source { length files.now.source.now < 2 ^ 29 }
    requires config { length files.now.config.now < 2 ^ 29 }
    requires third { length files.now.third.now < 2 ^ 29 }
    ensures trace { IfOk result (λ e. IsTrace (record { label = forced; no_terminating = no_terminating }) (files_of files.now) e.text.items (halt_of e.halt)) }
    ensures promise { IfOk result (λ e. e.halt ≡ None → KeepsTrace (record { label = forced; no_terminating = no_terminating }) (files_of files.now) e.text.items) }
    ensures refused { IfErr result (IsRefusedTrace forced (files_of files.now)) }
{
    let mut pool = Pool::new(alloc);
    let checked = match checked_source(alloc, files.source, forced, &mut pool) {
        Ok(checked) => checked,
        Err(stop) => return Err(no_run(Which::Module, stop)),
    };
    let read = match read_beside(alloc, files, &mut pool, &checked) {
        Ok(read) => read,
        Err(why) => return Err(why),
    };
    // The module is read once more: its algorithm is translated away, and a run of it needs it whole.
    let translation = match translated(alloc, files.source, forced, no_terminating) {
        Ok(translation) => translation,
        Err(stop) => return Err(no_run(Which::Module, stop)),
    };
    match explained_beside(alloc, &pool, &checked, read, &translation) {
        Ok(explained) => Ok(explained),
        Err(AllocError) => Err(NoRun::Memory),
    }
}
