//! The first values of global variables.

ghost use Rattle.std.specs.Prelude.{◌≡◌, ◌≤◌, [], length, drop, OnOk, true};
ghost use Rattle.tla_token.specs.Signs.{is_among};
ghost use Rattle.tla_tree.specs.Tree.{Each};
ghost use Rattle.pcal_tree.specs.InMemory.{start_at, past_start, declarations_at, past_declarations};
ghost use Rattle.pcal_tree.specs.Scope.{put};
ghost use Rattle.pcal_tree.specs.Variables.{vars};
ghost use Rattle.step_walks.specs.FirstValues.{as_written};
ghost use Rattle.step_walks.specs.Flows.{falls, onward};
ghost use Rattle.step_walks.specs.StartFlows.{plain_flow, globals_flow};
ghost use Rattle.step_moves.specs.Programs.{program_at};
ghost use Rattle.step_moves.specs.StatesOf.{state_of};
ghost use Rattle.step_choices.specs.Pauses.{Flows};
ghost use Rattle.step_moves.specs.Runners.{names_of};
ghost use Rattle.step_meaning.specs.Begun.{value_by, IsBegun};

use crate::identified::unbound;
use crate::puts::put_value;
use crate::values::plain_value;
use pcal_tree::algorithm::{Declaration, Start};
use std::alloc::Global;
use step_choices::Pause;
use step_moves::{Bound, Program};
use tla_token::Place;
use tla_tree::Name;
use tla_value::state::State;

/// Gives a plain variable its first value.
///
/// # Errors
///
/// As of `plain_value`. The state is then as before.
pub fn set_plain(
    alloc: Global,
    program: &Program<'_>,
    bound: &Bound,
    name: &Name,
    place: Place,
    start: &Start,
    state: &mut State,
    choices: &[u32],
    used: &mut usize,
) -> Result<(), Pause>
    requires below { past_start start.now ≤ length program.now.pool.now }
    requires known { is_among (vars (program_at program.now)) name.now ≡ true }
    requires begun { IsBegun program.now state.old }
    ensures set { Flows (λ _. state_of state.new) result (drop used.new choices.now) (onward (plain_flow (value_by (program_at program.now) bound.now.names.items bound.now.values.items) place (start_at program.now.pool.now start.now) (state_of state.old) (drop used.old choices.now)) (λ v ms. falls (put name.now v (state_of state.old)) ms)) }
    ensures begun { OnOk result (IsBegun program.now state.new) }
{
    let first = plain_value(alloc, program, &*state, bound, place, start, choices, used)?;
    Ok(put_value(state, name, first)?)
}

// Gives a global variable its first value, where no name is bound.
fn global(
    alloc: Global,
    program: &Program<'_>,
    bound: &Bound,
    one: &Declaration,
    state: &mut State,
    choices: &[u32],
    used: &mut usize,
) -> Result<(), Pause>
    requires below { past_start one.now.start ≤ length program.now.pool.now }
    requires known { is_among (vars (program_at program.now)) one.now.name.word ≡ true }
    requires names { bound.now.names.items ≡ [] }
    requires values { bound.now.values.items ≡ [] }
    requires begun { IsBegun program.now state.old }
    ensures set { Flows (λ _. state_of state.new) result (drop used.new choices.now) (onward (plain_flow (value_by (program_at program.now) [] []) one.now.name.place (start_at program.now.pool.now one.now.start) (state_of state.old) (drop used.old choices.now)) (λ v ms. falls (put one.now.name.word v (state_of state.old)) ms)) }
    ensures begun { OnOk result (IsBegun program.now state.new) }
{
    set_plain(
        alloc,
        program,
        bound,
        &one.name.name,
        one.name.place,
        &one.start,
        state,
        choices,
        used,
    )
}

/// Gives global variables their first values, in order; each may read those before it.
///
/// # Errors
///
/// As of `plain_value`, at the first that has one. The state may then have changed.
pub fn globals(
    alloc: Global,
    program: &Program<'_>,
    list: &[Declaration],
    state: &mut State,
    choices: &[u32],
    used: &mut usize,
) -> Result<(), Pause>
    requires below { past_declarations list.now ≤ length program.now.pool.now }
    requires known { Each (λ x. is_among (vars (program_at program.now)) x ≡ true) (names_of list.now) }
    requires begun { IsBegun program.now state.old }
    ensures set { Flows (λ _. state_of state.new) result (drop used.new choices.now) (globals_flow (as_written (program_at program.now) []) (declarations_at program.now.pool.now list.now) (state_of state.old) (drop used.old choices.now)) }
    ensures begun { OnOk result (IsBegun program.now state.new) }
{
    let bound = unbound(alloc);
    for one in list {
        global(alloc, program, &bound, one, state, choices, used)?;
    }
    Ok(())
}
