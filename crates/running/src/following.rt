//! A script of a checked algorithm, followed.

ghost use Rattle.std.specs.Prelude.{IfOk};
ghost use Rattle.tla_value.specs.States.{Entries};
ghost use Rattle.run_files.specs.Turns.{script_of};
ghost use Rattle.running.specs.GroundsOf.{AreGrounds};
ghost use Rattle.running.specs.Ready.{CanRun, program_read, IsFollowed, CanFollow, IsFollowedOnce};

use crate::{Grounds, grounds, run_definitions, stage, with_default};
use checking::check::Checked;
use followed_runs::{Followed, follow};
use run_files::Script;
use std::alloc::{AllocError, Global};
use step_moves::Program;
use tla_pool::Pool;
use tla_value::state::State;

// A script of a program, followed from what was made of it.
fn followed_from(
    alloc: Global,
    made: &Grounds,
    program: Program<'_>,
    script: &Script,
) -> Result<Followed, AllocError>
    requires { CanFollow program made.now }
    ensures { IfOk result (IsFollowedOnce program.entry (script_of script.now)) }
{
    let from = stage(made, program);
    follow(alloc, &from, made.variables.as_slice(), script)
}

// A script of an algorithm, followed from what was made of it, over a pool that grows no more.
fn followed_on(
    alloc: Global,
    pool: &Pool,
    checked: &Checked,
    made: &Grounds,
    constants: State,
    script: &Script,
) -> Result<Followed, AllocError>
    requires can { CanRun pool.now checked.now }
    requires made { (es : Entries) → AreGrounds pool.now made.now (program_read pool.now checked.now es) }
    ensures { IfOk result (IsFollowed (program_read pool.now checked.now constants) (script_of script.now)) }
{
    let outside = checked.outside.definitions.as_slice();
    let defs = run_definitions(alloc, outside, &checked.algorithm)?;
    let values = with_default(alloc, constants)?;
    let program = Program {
        pool,
        algorithm: &checked.algorithm,
        constants: &values,
        defs: &defs,
        outside: outside.len(),
        naming: &checked.naming,
    };
    followed_from(alloc, made, program, script)
}

/// A script of a checked algorithm with these values of its constants, followed to its end or as far as it can be ("A PlusCal User's
/// Manual", section 3). What stands in the pool stays.
///
/// # Errors
///
/// Only for want of memory; the pool may then have more nodes than before.
pub fn followed_of(
    alloc: Global,
    pool: &mut Pool,
    checked: &Checked,
    constants: State,
    script: &Script,
) -> Result<Followed, AllocError>
    requires { CanRun pool.old checked.now }
    ensures { IfOk result (IsFollowed (program_read pool.old checked.now constants) (script_of script.now)) }
{
    let made = grounds(alloc, pool, &checked.algorithm, &checked.naming)?;
    followed_on(alloc, pool, checked, &made, constants, script)
}
