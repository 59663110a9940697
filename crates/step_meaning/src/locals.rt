//! The first values of a routine's own variables.

ghost use Rattle.std.specs.Prelude.{◌≡◌, ◌≤◌, ◌∷◌, [], List, length, drop, OnOk, true, false};
ghost use Rattle.tla_token.specs.Signs.{is_among};
ghost use Rattle.tla_tree.specs.Tree.{Each};
ghost use Rattle.tla_value.specs.Order.{IsAscending};
ghost use Rattle.tla_value.specs.Value.{values_in};
ghost use Rattle.action_builder.specs.laws.WrittenScope.{written_scope};
ghost use Rattle.pcal_tree.specs.InMemory.{start_at, past_start, declaration_at, declarations_at, past_declaration, past_declarations};
ghost use Rattle.pcal_tree.specs.Program as pure;
ghost use Rattle.pcal_tree.specs.Variables.{vars, written_all};
ghost use Rattle.step_walks.specs.FirstValues.{as_written};
ghost use Rattle.step_walks.specs.StartFlows.{local_flow, locals_flow};
ghost use Rattle.step_spots.specs.InMemory.{routine_at};
ghost use Rattle.step_moves.specs.Programs.{program_at};
ghost use Rattle.step_moves.specs.StatesOf.{state_of};
ghost use Rattle.step_moves.specs.ScopeIn.{scope_in};
ghost use Rattle.step_choices.specs.Pauses.{Flows};
ghost use Rattle.step_moves.specs.Prepared.{prepared_start, prepared_declarations};
ghost use Rattle.step_meaning.specs.Begun.{IsBegun};
ghost use Rattle.step_meaning.specs.Identified.{HaveThese};
ghost use Rattle.step_meaning.specs.Origins.{IsOrigin};

use crate::globals::set_plain;
use crate::origin::Origin;
use crate::puts::put_value;
use crate::spread::spread_value;
use pcal_tree::algorithm::{Declaration, Start};
use std::alloc::Global;
use step_choices::Pause;
use step_moves::Bound;
use step_spots::Routine;
use tla_value::state::State;
use tla_value::value::Value;

// Gives a variable that is a function of identifiers its first value.
fn spread_local(
    alloc: Global,
    origin: &Origin<'_>,
    routine: &Routine<'_>,
    one: &Declaration,
    prepared: &Start,
    ids: &[Value],
    state: &mut State,
    choices: &[u32],
    used: &mut usize,
) -> Result<(), Pause>
    requires below { past_start one.now.start ≤ length origin.now.program.pool.now }
    requires within { past_start prepared.now ≤ length origin.now.program.pool.now }
    requires prepared { start_at origin.now.program.pool.now prepared.now ≡ prepared_start (program_at origin.now.program) (routine_at origin.now.program.pool.now routine.now) (start_at origin.now.program.pool.now one.now.start) }
    requires known { is_among (vars (program_at origin.now.program)) ((program_at origin.now.program).naming.local routine.now.number one.now.name.word) ≡ true }
    requires origin { IsOrigin origin.now }
    requires ascending { IsAscending (values_in ids.now) }
    requires begun { IsBegun origin.now.program state.old }
    ensures set { (vs : List pure.Actor) → HaveThese vs ids.now → Flows (λ _. state_of state.new) result (drop used.new choices.now) (local_flow (as_written (program_at origin.now.program) []) (program_at origin.now.program) (routine_at origin.now.program.pool.now routine.now) true vs (declaration_at origin.now.program.pool.now one.now) (state_of state.old) (drop used.old choices.now)) }
    ensures begun { OnOk result (IsBegun origin.now.program state.new) }
{
    let value = spread_value(
        alloc,
        origin,
        routine,
        &*state,
        one.name.place,
        &one.start,
        prepared,
        ids,
        choices,
        used,
    )?;
    let program = origin.program;
    let name = program.naming.local(routine.number, &one.name.name);
    Ok(put_value(state, name, value)?)
}

/// Gives variables that are functions of identifiers their first values, in order.
///
/// # Errors
///
/// As of `spread_value`, at the first that has one. The state may then have changed.
pub fn spread_locals(
    alloc: Global,
    origin: &Origin<'_>,
    routine: &Routine<'_>,
    list: &[Declaration],
    prepared: &[Declaration],
    ids: &[Value],
    state: &mut State,
    choices: &[u32],
    used: &mut usize,
) -> Result<(), Pause>
    requires below { past_declarations list.now ≤ length origin.now.program.pool.now }
    requires within { past_declarations prepared.now ≤ length origin.now.program.pool.now }
    requires many { length prepared.now ≡ length list.now }
    requires prepared { declarations_at origin.now.program.pool.now prepared.now ≡ prepared_declarations (program_at origin.now.program) (routine_at origin.now.program.pool.now routine.now) (declarations_at origin.now.program.pool.now list.now) }
    requires known { Each (λ x. is_among (vars (program_at origin.now.program)) x ≡ true) (written_all (program_at origin.now.program) (routine_at origin.now.program.pool.now routine.now) (declarations_at origin.now.program.pool.now list.now)) }
    requires origin { IsOrigin origin.now }
    requires ascending { IsAscending (values_in ids.now) }
    requires begun { IsBegun origin.now.program state.old }
    ensures set { (vs : List pure.Actor) → HaveThese vs ids.now → Flows (λ _. state_of state.new) result (drop used.new choices.now) (locals_flow (as_written (program_at origin.now.program) []) (program_at origin.now.program) (routine_at origin.now.program.pool.now routine.now) true vs (declarations_at origin.now.program.pool.now list.now) (state_of state.old) (drop used.old choices.now)) }
    ensures begun { OnOk result (IsBegun origin.now.program state.new) }
{
    for i in 0..list.len() {
        spread_local(
            alloc,
            origin,
            routine,
            &list[i],
            &prepared[i].start,
            ids,
            state,
            choices,
            used,
        )?;
    }
    Ok(())
}

// Gives a plain variable of a routine its first value.
fn plain_local(
    alloc: Global,
    origin: &Origin<'_>,
    routine: &Routine<'_>,
    one: &Declaration,
    prepared: &Start,
    bound: &Bound,
    state: &mut State,
    choices: &[u32],
    used: &mut usize,
) -> Result<(), Pause>
    requires within { past_start prepared.now ≤ length origin.now.program.pool.now }
    requires prepared { start_at origin.now.program.pool.now prepared.now ≡ prepared_start (program_at origin.now.program) (routine_at origin.now.program.pool.now routine.now) (start_at origin.now.program.pool.now one.now.start) }
    requires known { is_among (vars (program_at origin.now.program)) ((program_at origin.now.program).naming.local routine.now.number one.now.name.word) ≡ true }
    requires begun { IsBegun origin.now.program state.old }
    ensures set { (v : pure.Actor) (vs : List pure.Actor) → written_scope (program_at origin.now.program) [] v ≡ scope_in (program_at origin.now.program) bound.now.names.items bound.now.values.items → Flows (λ _. state_of state.new) result (drop used.new choices.now) (local_flow (as_written (program_at origin.now.program) []) (program_at origin.now.program) (routine_at origin.now.program.pool.now routine.now) false (v ∷ vs) (declaration_at origin.now.program.pool.now one.now) (state_of state.old) (drop used.old choices.now)) }
    ensures begun { OnOk result (IsBegun origin.now.program state.new) }
{
    let program = origin.program;
    let name = program.naming.local(routine.number, &one.name.name);
    set_plain(
        alloc,
        &program,
        bound,
        name,
        one.name.place,
        prepared,
        state,
        choices,
        used,
    )
}

/// Gives plain variables of a routine their first values, in order, where the first process that has them has these names bound.
///
/// # Errors
///
/// As of `set_plain`, at the first that has one. The state may then have changed.
pub fn plain_locals(
    alloc: Global,
    origin: &Origin<'_>,
    routine: &Routine<'_>,
    list: &[Declaration],
    prepared: &[Declaration],
    bound: &Bound,
    state: &mut State,
    choices: &[u32],
    used: &mut usize,
) -> Result<(), Pause>
    requires within { past_declarations prepared.now ≤ length origin.now.program.pool.now }
    requires many { length prepared.now ≡ length list.now }
    requires prepared { declarations_at origin.now.program.pool.now prepared.now ≡ prepared_declarations (program_at origin.now.program) (routine_at origin.now.program.pool.now routine.now) (declarations_at origin.now.program.pool.now list.now) }
    requires known { Each (λ x. is_among (vars (program_at origin.now.program)) x ≡ true) (written_all (program_at origin.now.program) (routine_at origin.now.program.pool.now routine.now) (declarations_at origin.now.program.pool.now list.now)) }
    requires begun { IsBegun origin.now.program state.old }
    ensures set { (v : pure.Actor) (vs : List pure.Actor) → written_scope (program_at origin.now.program) [] v ≡ scope_in (program_at origin.now.program) bound.now.names.items bound.now.values.items → Flows (λ _. state_of state.new) result (drop used.new choices.now) (locals_flow (as_written (program_at origin.now.program) []) (program_at origin.now.program) (routine_at origin.now.program.pool.now routine.now) false (v ∷ vs) (declarations_at origin.now.program.pool.now list.now) (state_of state.old) (drop used.old choices.now)) }
    ensures begun { OnOk result (IsBegun origin.now.program state.new) }
{
    for i in 0..list.len() {
        plain_local(
            alloc,
            origin,
            routine,
            &list[i],
            &prepared[i].start,
            bound,
            state,
            choices,
            used,
        )?;
    }
    Ok(())
}
