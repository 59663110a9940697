//! Variables that get their first values.

ghost use Rattle.std.specs.Prelude.{◌≡◌, List, IfOk, OnOk, true};
ghost use Rattle.tla_token.specs.Signs.{is_among};
ghost use Rattle.tla_tree.specs.Tree.{Word};
ghost use Rattle.pcal_tree.specs.InitialChoice.{nothing};
ghost use Rattle.pcal_tree.specs.Scope.{put};
ghost use Rattle.pcal_tree.specs.Variables.{vars};
ghost use Rattle.step_moves.specs.declared.program.Program as code;
ghost use Rattle.step_moves.specs.Programs.{program_at};
ghost use Rattle.step_moves.specs.StatesOf.{state_of};
ghost use Rattle.step_meaning.specs.Begun.{names_in, IsBegun};

use std::alloc::{AllocError, Global};
use tla_tree::Name;
use tla_value::state::State;
use tla_value::value::Value;

/// The state in which each of some variables is FALSE, as before the first state.
///
/// # Errors
///
/// Only for want of memory, and where a variable is named twice.
pub fn blank(alloc: Global, variables: &[Name]) -> Result<State, AllocError>
    ensures names { IfOk result (λ r. names_in r ≡ variables.now) }
    ensures nothing { IfOk result (λ r. state_of r ≡ nothing) }
{
    let mut state = State::new(alloc);
    for name in variables {
        let old = state.replace(name.copied()?, Value::truth(false))?;
        if old.is_some() {
            return Err(AllocError);
        }
    }
    Ok(state)
}

/// Gives a variable its first value.
///
/// # Errors
///
/// Only for want of memory; the state is then as before.
pub fn put_value(state: &mut State, name: &Name, value: Value) -> Result<(), AllocError>
    ensures put { OnOk result (state_of state.new ≡ put name.now value (state_of state.old)) }
    ensures begun { OnOk result ((p : code.Program) → is_among (vars (program_at p)) name.now ≡ true → IsBegun p state.old → IsBegun p state.new) }
{
    state.set(name.copied()?, value)
}
