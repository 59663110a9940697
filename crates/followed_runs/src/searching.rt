//! The first trouble of one process's step: choices are tried in turn, item by item.

ghost use Rattle.std.specs.Prelude.{◌≡◌, [], Some, IfOk};
ghost use Rattle.std.specs.Option.{option_map};
ghost use Rattle.pcal_tree.specs.Algorithm.{main_routines};
ghost use Rattle.pcal_tree.specs.Choices.{first_trouble};
ghost use Rattle.pcal_tree.specs.Processes.{OneOf};
ghost use Rattle.pcal_tree.specs.Run.{Course};
ghost use Rattle.step_spots.specs.InMemory.{routine_at};
ghost use Rattle.step_moves.specs.ScopeIn.{IsScene};
ghost use Rattle.run_files.specs.InMemory.{trouble_of};
ghost use Rattle.written_runs.specs.Searches.{rest_after};
ghost use Rattle.followed_runs.specs.Parties.{program_of, IsParty};
ghost use Rattle.followed_runs.specs.Tries.{step_by};

use crate::party::Party;
use crate::trying::{Came, tried, with_next};
use run_files::Trouble;
use std::alloc::{AllocError, Global};
use step_moves::Actor;
use tla_value::state::State;

/// The trouble of the least list of choices, item by item, that begins with these and meets one, in the step of a process.
///
/// # Errors
///
/// Only for want of memory.
pub fn trouble_behind(
    alloc: Global,
    party: &Party<'_>,
    actor: &Actor<'_>,
    state: &State,
    choices: &[u32],
) -> Result<Option<Trouble>, AllocError>
    requires party { IsParty party.now }
    requires own { OneOf (routine_at party.now.stage.program.pool.now actor.now.own) (main_routines (program_of party.now).algorithm (program_of party.now).algorithm.main) }
    requires scene { IsScene party.now.stage.program state.now }
    requires wanted { (c : Course) × (rest_after (step_by party.now actor.now state.now) choices.now ≡ Some c) }
    ensures { IfOk result (λ o. (c : Course) → rest_after (step_by party.now actor.now state.now) choices.now ≡ Some c → option_map trouble_of o ≡ first_trouble c) }
{
    let count = match tried(alloc, party, actor, state, choices)? {
        Came::Over(trouble) => return Ok(trouble),
        Came::Wants(count) => count,
    };
    for i in 0..count {
        let longer = with_next(alloc, choices, i)?;
        match trouble_behind(alloc, party, actor, state, &longer)? {
            Some(trouble) => return Ok(Some(trouble)),
            None => {}
        }
    }
    Ok(None)
}

/// The trouble of the least list of choices, item by item, that meets one, in the step of a process.
///
/// # Errors
///
/// Only for want of memory.
pub fn trouble_of_step(
    alloc: Global,
    party: &Party<'_>,
    actor: &Actor<'_>,
    state: &State,
) -> Result<Option<Trouble>, AllocError>
    requires party { IsParty party.now }
    requires own { OneOf (routine_at party.now.stage.program.pool.now actor.now.own) (main_routines (program_of party.now).algorithm (program_of party.now).algorithm.main) }
    requires scene { IsScene party.now.stage.program state.now }
    ensures { IfOk result (λ o. option_map trouble_of o ≡ first_trouble (step_by party.now actor.now state.now)) }
{
    trouble_behind(alloc, party, actor, state, &[])
}
