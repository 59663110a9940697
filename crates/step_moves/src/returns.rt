//! Returns ("A PlusCal User's Manual", section 3.4, procedures).

ghost use Rattle.std.specs.Prelude.{◌≡◌, ◌∷◌, [], cond, OnOk, true};
ghost use Rattle.std.specs.Option.{option_copied, is_some};
ghost use Rattle.tla_token.specs.Signs.{is_among};
ghost use Rattle.tla_value.specs.Limits.{bounded};
ghost use Rattle.tla_value.specs.States.{value_of};
ghost use Rattle.pcal_tree.specs.Algorithm.{Routine};
ghost use Rattle.pcal_tree.specs.Assign.{set_all as pure_set_all, set_one as pure_set_one};
ghost use Rattle.pcal_tree.specs.Program.{Actor, index};
ghost use Rattle.pcal_tree.specs.Calls.{setting, part_settings, restored, returned};
ghost use Rattle.pcal_tree.specs.Variables.{vars};
ghost use Rattle.value_forms.specs.Gives.{Gives};
ghost use Rattle.step_moves.specs.Programs.{program_at};
ghost use Rattle.step_moves.specs.StatesOf.{state_of};
ghost use Rattle.step_moves.specs.ScopeIn.{IsScene};
ghost use Rattle.step_moves.specs.Runners.{written_names, IsReady, IsRunner};

use crate::frames::stack_of;
use crate::jumps::{own_path, set_pc};
use crate::reads::{field, fields_read, local_path, on_stack, written_all};
use crate::runner::Runner;
use crate::settings::{add_settings, same_places};
use crate::{Setting, set_all, set_one};
use std::alloc::Global;
use tla_token::Place;
use tla_tree::Name;
use tla_value::fault::FaultKind;
use tla_value::state::State;
use tla_value::stop::EvalStop;
use tla_value::value::Value;

// Sets the variables of the routine to values that they had.
fn set_locals(
    alloc: Global,
    runner: &Runner<'_>,
    state: &mut State,
    at: Place,
    names: &[Name],
    values: &[Value],
) -> Result<(), EvalStop>
    requires ready { IsReady runner.now }
    requires scene { IsScene runner.now.program state.old }
    requires names { names.now ≡ written_names runner.now.program runner.now.routine }
    ensures set { Gives (λ _. state_of state.new) result (pure_set_all bounded (part_settings at (cond runner.now.routine.spread (index (option_copied runner.now.identifier)) []) names.now values.now) (state_of state.old)) }
    ensures scene { OnOk result (IsScene runner.now.program state.new) }
{
    let path = local_path(alloc, runner, runner.routine.spread)?;
    let places = same_places(alloc, at, names.len())?;
    let mut all = Vec::new(alloc);
    add_settings(alloc, &path, names, &places, values, &mut all)?;
    set_all(state, all)
}

/// Sets a process's stack.
///
/// # Errors
///
/// For want of memory, and exactly where it can't be set. The state may then have changed.
pub fn set_stack(
    alloc: Global,
    runner: &Runner<'_>,
    state: &mut State,
    at: Place,
    frames: Value,
) -> Result<(), EvalStop>
    requires ready { IsReady runner.now }
    requires scene { IsScene runner.now.program state.old }
    requires known { is_among (vars (program_at runner.now.program)) runner.now.stack.now ≡ true }
    ensures set { Gives (λ _. state_of state.new) result (pure_set_one bounded (setting at runner.now.stack.now (index (option_copied runner.now.identifier)) frames) (state_of state.old)) }
    ensures scene { OnOk result (IsScene runner.now.program state.new) }
{
    let path = own_path(alloc, runner)?;
    set_one(
        state,
        Setting {
            place: at,
            variable: runner.stack,
            path,
            value: frames,
        },
    )
}

/// Sets `pc`, the variables of the routine and the stack as this record has them, with the records behind it.
///
/// # Errors
///
/// For want of memory, and exactly where the record lacks something, or something can't be set. The state may then have changed.
pub fn restore_front(
    alloc: Global,
    runner: &Runner<'_>,
    state: &mut State,
    at: Place,
    front: &Value,
    frames: &[Value],
) -> Result<(), EvalStop>
    requires ready { IsReady runner.now }
    requires scene { IsScene runner.now.program state.old }
    requires known { is_among (vars (program_at runner.now.program)) runner.now.stack.now ≡ true }
    ensures restored { (v : Actor) (u : Routine) → IsRunner runner.now v u → Gives (λ _. state_of state.new) result (restored (program_at runner.now.program) v at u (front.now ∷ frames.now) (state_of state.old)) }
    ensures scene { OnOk result (IsScene runner.now.program state.new) }
{
    let label = field(alloc, at, runner.pc, front)?;
    let names = written_all(alloc, &runner.program, &runner.routine)?;
    let values = fields_read(alloc, at, &names, front)?;
    let rest = stack_of(alloc, at, frames)?;
    set_pc(alloc, runner, state, at, label)?;
    set_locals(alloc, runner, state, at, &names, &values)?;
    set_stack(alloc, runner, state, at, rest)
}

// Sets `pc`, the variables of the routine and the stack as the first of these records has them, and takes it off.
fn restore(
    alloc: Global,
    runner: &Runner<'_>,
    state: &mut State,
    at: Place,
    frames: &[Value],
) -> Result<(), EvalStop>
    requires ready { IsReady runner.now }
    requires scene { IsScene runner.now.program state.old }
    requires there { is_some (value_of state.old runner.now.stack.now) ≡ true }
    ensures restored { (v : Actor) (u : Routine) → IsRunner runner.now v u → Gives (λ _. state_of state.new) result (restored (program_at runner.now.program) v at u frames.now (state_of state.old)) }
    ensures scene { OnOk result (IsScene runner.now.program state.new) }
{
    if frames.is_empty() {
        return Err(EvalStop::Fault(FaultKind::EmptySequence, at));
    }
    restore_front(alloc, runner, state, at, &frames[0], &frames[1..])
}

/// Returns from the procedure that the process is in ("A PlusCal User's Manual", section 3.4, procedures).
///
/// # Errors
///
/// For want of memory, and exactly where the stack is empty or no stack, or something can't be set. The state may then have changed.
pub fn leave(
    alloc: Global,
    runner: &Runner<'_>,
    state: &mut State,
    at: Place,
) -> Result<(), EvalStop>
    requires ready { IsReady runner.now }
    requires scene { IsScene runner.now.program state.old }
    ensures returned { (v : Actor) (u : Routine) → IsRunner runner.now v u → Gives (λ _. state_of state.new) result (returned (program_at runner.now.program) v at u (state_of state.old)) }
    ensures scene { OnOk result (IsScene runner.now.program state.new) }
{
    let frames = on_stack(alloc, runner, &*state, at)?;
    restore(alloc, runner, state, at, &frames)
}
