//! What is read beside a module whose trace is explained.

ghost use Rattle.std.specs.Prelude.{◌<◌, ◌^◌, length, IfOk, IfErr};
ghost use Rattle.running.specs.Ready.{CanRun};
ghost use Rattle.tracing.specs.Beside.{IsReadBeside, IsRefusedBeside};

use checking::check::Checked;
use run_files::{read_config, read_trace};
use running::beside::no_run;
use running::{Files, Grounds, NoRun, Which, grounds};
use std::alloc::{AllocError, Global};
use tla_pool::Pool;
use tla_value::state::State;

/// What is read beside a module whose trace is explained, and what a run of its algorithm stands on.
#[derive(Drop)]
pub struct ReadBeside {
    /// The values of the constants.
    pub constants: State,
    /// What a run of the algorithm stands on; the variables are of it.
    pub made: Grounds,
    /// The states of the trace, each with a value for each variable.
    pub trace: Vec<State>,
}

/// Reads the files beside a module: the values of its constants, and a trace. What stands in the pool stays.
///
/// # Errors
///
/// How one of them is refused: the constants, and else the trace, by the rule for lines; or want of memory.
pub fn read_beside(
    alloc: Global,
    files: &Files<'_>,
    pool: &mut Pool,
    checked: &Checked,
) -> Result<ReadBeside, NoRun>
    requires config { length files.now.config.now < 2 ^ 29 }
    requires third { length files.now.third.now < 2 ^ 29 }
    requires can { CanRun pool.old checked.now }
    ensures read { IfOk result (IsReadBeside pool.old pool.new checked.now files.now) }
    ensures refused { IfErr result (IsRefusedBeside pool.old checked.now files.now) }
{
    let constants = match read_config(alloc, files.config, checked.outside.constants.as_slice()) {
        Ok(constants) => constants,
        Err(stop) => return Err(no_run(Which::Config, stop)),
    };
    let made = match grounds(alloc, pool, &checked.algorithm, &checked.naming) {
        Ok(made) => made,
        Err(AllocError) => return Err(NoRun::Memory),
    };
    match read_trace(alloc, files.third, &made.variables) {
        Ok(trace) => Ok(ReadBeside {
            constants,
            made,
            trace,
        }),
        Err(stop) => Err(no_run(Which::Third, stop)),
    }
}
