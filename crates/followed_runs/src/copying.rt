//! Copies of states.

ghost use Rattle.std.specs.Prelude.{◌≡◌, IfOk};
ghost use Rattle.tla_tree.specs.Tree.{Word};
ghost use Rattle.tla_value.specs.States.{value_of};
ghost use Rattle.step_moves.specs.StatesOf.{HasJust};

use std::alloc::{AllocError, Global};
use tla_tree::Name;
use tla_value::state::State;
use tla_value::value::copied;

/// A state with the same values, where just these variables have values.
///
/// # Errors
///
/// Only for want of memory.
pub fn copied_state(alloc: Global, variables: &[Name], state: &State) -> Result<State, AllocError>
    requires just { HasJust variables.now state.now }
    ensures { IfOk result (λ r. (x : Word) → value_of r x ≡ value_of state.now x) }
{
    let mut copy = State::new(alloc);
    for name in variables {
        match state.get(name) {
            Some(value) => copy.set(name.copied()?, copied(alloc, value)?)?,
            None => return Err(AllocError),
        }
    }
    Ok(copy)
}
