//! What a run reads beside its module, and the run that it chooses.

ghost use Rattle.std.specs.Prelude.{◌≡◌, ◌<◌, ◌^◌, List, length, IfOk, IfErr};
ghost use Rattle.tla_tree.specs.Tree.{Tree};
ghost use Rattle.pcal_tree.specs.InitialStates.{is_multiprocess};
ghost use Rattle.pcal_tree.specs.InMemory.{algorithm_at};
ghost use Rattle.running.specs.Beside.{no_run_of, IsRunBeside, IsRefusedBeside};
ghost use Rattle.running.specs.Ready.{CanRun};

use crate::files::{Files, NoRun, Which};
use crate::following::followed_of;
use checking::check::Checked;
use followed_runs::Followed;
use pcal_tree::algorithm::{Algorithm, Main};
use run_files::{read_config, read_script};
use std::alloc::{AllocError, Global};
use tla_pool::Pool;
use tla_token::Stop;

/// Why there is no run, where this stops the reading of one of its files.
pub fn no_run(which: Which, stop: Stop) -> NoRun
    ensures { result ≡ no_run_of which stop }
{
    match stop {
        Stop::Memory => NoRun::Memory,
        Stop::Refused(refusal) => NoRun::Refused(which, refusal),
    }
}

// Whether the lines of a script name a process: where the algorithm has processes.
fn has_identifiers(algorithm: &Algorithm) -> bool
    ensures { (ts : List Tree) → result ≡ is_multiprocess (algorithm_at ts algorithm.now).main }
{
    match &algorithm.main {
        Main::Alone(_) => false,
        Main::Processes(_) => true,
    }
}

/// The run that the files beside a module choose of its algorithm ("A PlusCal User's Manual", section 3).
///
/// # Errors
///
/// How one of them is refused: the constants, and else the script, by the rule for lines; or want of memory.
pub fn run_beside(
    alloc: Global,
    files: &Files<'_>,
    pool: &mut Pool,
    checked: &Checked,
) -> Result<Followed, NoRun>
    requires config { length files.now.config.now < 2 ^ 29 }
    requires script { length files.now.third.now < 2 ^ 29 }
    requires can { CanRun pool.old checked.now }
    ensures run { IfOk result (IsRunBeside pool.old checked.now files.now) }
    ensures refused { IfErr result (IsRefusedBeside pool.old checked.now files.now) }
{
    let constants = match read_config(alloc, files.config, checked.outside.constants.as_slice()) {
        Ok(constants) => constants,
        Err(stop) => return Err(no_run(Which::Config, stop)),
    };
    let named = has_identifiers(&checked.algorithm);
    let script = match read_script(alloc, files.third, named) {
        Ok(script) => script,
        Err(stop) => return Err(no_run(Which::Third, stop)),
    };
    match followed_of(alloc, pool, checked, constants, &script) {
        Ok(followed) => Ok(followed),
        Err(AllocError) => Err(NoRun::Memory),
    }
}
