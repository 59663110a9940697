//! The trouble that is met first from a state, process by process.

ghost use Rattle.std.specs.Prelude.{◌≡◌, IfOk};
ghost use Rattle.std.specs.Option.{option_map};
ghost use Rattle.step_moves.specs.StatesOf.{state_of};
ghost use Rattle.step_moves.specs.ScopeIn.{IsScene};
ghost use Rattle.run_files.specs.InMemory.{trouble_of};
ghost use Rattle.written_runs.specs.WrittenTroubles.{written_trouble_of_all};
ghost use Rattle.followed_runs.specs.Parties.{program_of, actors_of, IsParty};

use crate::party::Party;
use crate::searching::trouble_of_step;
use run_files::Trouble;
use std::alloc::{AllocError, Global};
use tla_value::state::State;

/// The trouble that is met first from a state: of the first process whose step can meet one, by the least list of choices, item by item,
/// that does ("A PlusCal User's Manual", section 3.7, labels).
///
/// # Errors
///
/// Only for want of memory.
pub fn first_trouble(
    alloc: Global,
    party: &Party<'_>,
    state: &State,
) -> Result<Option<Trouble>, AllocError>
    requires party { IsParty party.now }
    requires scene { IsScene party.now.stage.program state.now }
    ensures { IfOk result (λ o. option_map trouble_of o ≡ written_trouble_of_all (program_of party.now) (state_of state.now) (actors_of party.now)) }
{
    let actors = party.actors;
    for actor in actors {
        match trouble_of_step(alloc, party, actor, state)? {
            Some(trouble) => return Ok(Some(trouble)),
            None => {}
        }
    }
    Ok(None)
}
