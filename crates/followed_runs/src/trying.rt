//! What a process's step comes to by a list of choices, tried on a copy of the state.

ghost use Rattle.std.specs.Prelude.{◌≡◌, ◌++◌, [], ◌∷◌, suc, Some, IfOk};
ghost use Rattle.tla_tree.specs.Tree.{Word};
ghost use Rattle.pcal_tree.specs.Algorithm.{main_routines};
ghost use Rattle.pcal_tree.specs.Processes.{OneOf};
ghost use Rattle.pcal_tree.specs.Run.{Course};
ghost use Rattle.pcal_tree.specs.Scope.{State as PureState};
ghost use Rattle.pcal_tree.specs.StepAnswers.{Reply};
ghost use Rattle.step_spots.specs.InMemory.{routine_at};
ghost use Rattle.step_moves.specs.ScopeIn.{IsScene};
ghost use Rattle.step_meaning.specs.Replies.{HaltsBy};
ghost use Rattle.written_runs.specs.Searches.{rest_after};
ghost use Rattle.followed_runs.specs.Parties.{program_of, IsParty};
ghost use Rattle.followed_runs.specs.Tries.{Leads, ComesTo, step_by};

use crate::copying::copied_state;
use crate::party::Party;
use run_files::Trouble;
use std::alloc::{AllocError, Global};
use step_meaning::{Halt, step};
use step_moves::Actor;
use tla_value::state::State;

/// What a list of choices comes to.
#[derive(Clone, Copy)]
pub enum Came {
    /// The step ends, or can't be taken: by trouble or not.
    Over(Option<Trouble>),
    /// One of so many is to be chosen next.
    Wants(usize),
}

// What a step that isn't taken comes to; want of memory is an error.
fn came_to(halt: Halt) -> Result<Came, AllocError>
    ensures { IfOk result (λ w. (r : Reply (PureState × Word)) (c : Course) → HaltsBy halt r → Leads r c → ComesTo w c) }
{
    match halt {
        Halt::Memory => Err(AllocError),
        Halt::Fault(kind, place) => Ok(Came::Over(Some(Trouble::Fault(kind, place)))),
        Halt::Limit(place) => Ok(Came::Over(Some(Trouble::Limit(place)))),
        Halt::NeedsChoice(count, _) => Ok(Came::Wants(count)),
        Halt::Held(_) | Halt::NoLabel | Halt::TooManyChoices(_) => Ok(Came::Over(None)),
    }
}

/// Tries a process's step by a list of choices.
///
/// # Errors
///
/// Only for want of memory.
pub fn tried(
    alloc: Global,
    party: &Party<'_>,
    actor: &Actor<'_>,
    state: &State,
    choices: &[u32],
) -> Result<Came, AllocError>
    requires party { IsParty party.now }
    requires own { OneOf (routine_at party.now.stage.program.pool.now actor.now.own) (main_routines (program_of party.now).algorithm (program_of party.now).algorithm.main) }
    requires scene { IsScene party.now.stage.program state.now }
    ensures { IfOk result (λ w. (c : Course) → rest_after (step_by party.now actor.now state.now) choices.now ≡ Some c → ComesTo w c) }
{
    let copy = copied_state(alloc, party.variables, state)?;
    match step(alloc, &party.stage, actor, copy, choices) {
        Ok(_taken) => Ok(Came::Over(None)),
        Err(halt) => came_to(halt),
    }
}

/// The choices with one more, the number after this one.
///
/// # Errors
///
/// Only for want of memory. One past the largest number is more than memory has.
pub fn with_next(alloc: Global, choices: &[u32], index: usize) -> Result<Vec<u32>, AllocError>
    ensures { IfOk result (λ v. v.items ≡ choices.now ++ suc index ∷ []) }
{
    let number = match u32::try_from(index) {
        Ok(number) => number,
        Err(_) => return Err(AllocError),
    };
    let next = match number.checked_add(1) {
        Some(next) => next,
        None => return Err(AllocError),
    };
    let mut longer = Vec::new(alloc);
    longer.extend_from_slice(choices)?;
    longer.push(next)?;
    Ok(longer)
}
