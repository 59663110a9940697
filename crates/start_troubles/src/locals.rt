//! Whether a routine's own variables have values that their declarations allow.

ghost use Rattle.std.specs.Prelude.{◌≡◌, ◌≤◌, List, length, Bool};
ghost use Rattle.pcal_tree.specs.InMemory.{start_at, past_start, declaration_at, declarations_at, past_declarations};
ghost use Rattle.pcal_tree.specs.Program as pure;
ghost use Rattle.value_forms.specs.Gives.{Tells};
ghost use Rattle.step_spots.specs.InMemory.{routine_at};
ghost use Rattle.step_moves.specs.Programs.{program_at};
ghost use Rattle.step_moves.specs.StatesOf.{state_of};
ghost use Rattle.step_moves.specs.ScopeIn.{IsScene};
ghost use Rattle.step_moves.specs.Prepared.{prepared_start, prepared_declarations};
ghost use Rattle.step_meaning.specs.Origins.{IsOrigin};
ghost use Rattle.written_traces.specs.AskedStarts.{as_written, local_asked, locals_asked};
ghost use Rattle.start_troubles.specs.Owned.{IsOrdered, AreOf};

use crate::plain::{plain_allowed, value_in};
use crate::spread::spread_allowed;
use pcal_tree::algorithm::{Declaration, Start};
use std::alloc::Global;
use step_meaning::Origin;
use step_moves::Bound;
use step_spots::Routine;
use tla_value::state::State;
use tla_value::stop::EvalStop;
use tla_value::value::Value;

/// Whose the variables of a routine are.
#[derive(Clone, Copy)]
pub enum Owners<'a> {
    /// They are functions of these identifiers.
    Each(&'a [Value]),
    /// They are plain, and the first process that has them has these names bound.
    First(&'a Bound),
}

// Whether a variable of a routine has a value that its declaration allows.
fn local_allowed(
    alloc: Global,
    origin: &Origin<'_>,
    routine: &Routine<'_>,
    one: &Declaration,
    prepared: &Start,
    owners: Owners<'_>,
    state: &State,
) -> Result<bool, EvalStop>
    requires below { past_start one.now.start ≤ length origin.now.program.pool.now }
    requires within { past_start prepared.now ≤ length origin.now.program.pool.now }
    requires prepared { start_at origin.now.program.pool.now prepared.now ≡ prepared_start (program_at origin.now.program) (routine_at origin.now.program.pool.now routine.now) (start_at origin.now.program.pool.now one.now.start) }
    requires scene { IsScene origin.now.program state.now }
    requires origin { IsOrigin origin.now }
    requires ordered { IsOrdered owners }
    ensures { (spread : Bool) (vs : List pure.Actor) → AreOf (program_at origin.now.program) owners.entry spread vs → Tells result (local_asked (as_written (program_at origin.now.program)) (program_at origin.now.program) (routine_at origin.now.program.pool.now routine.now) spread vs (declaration_at origin.now.program.pool.now one.now) (state_of state.now)) }
{
    let program = origin.program;
    let name = program.naming.local(routine.number, &one.name.name);
    let none = Value::truth(false);
    let v = value_in(state, name, &none);
    match owners {
        Owners::Each(ids) => spread_allowed(
            alloc,
            origin,
            routine,
            state,
            one.name.place,
            &one.start,
            prepared,
            ids,
            v,
        ),
        Owners::First(bound) => plain_allowed(
            alloc,
            &program,
            state,
            bound,
            one.name.place,
            prepared,
            v,
        ),
    }
}

/// Whether variables of a routine have values that their declarations allow.
///
/// # Errors
///
/// As of `spread_allowed` and `plain_allowed`, at the first that has one, where those before it are allowed.
pub fn locals_allowed(
    alloc: Global,
    origin: &Origin<'_>,
    routine: &Routine<'_>,
    list: &[Declaration],
    prepared: &[Declaration],
    owners: Owners<'_>,
    state: &State,
) -> Result<bool, EvalStop>
    requires below { past_declarations list.now ≤ length origin.now.program.pool.now }
    requires within { past_declarations prepared.now ≤ length origin.now.program.pool.now }
    requires many { length prepared.now ≡ length list.now }
    requires prepared { declarations_at origin.now.program.pool.now prepared.now ≡ prepared_declarations (program_at origin.now.program) (routine_at origin.now.program.pool.now routine.now) (declarations_at origin.now.program.pool.now list.now) }
    requires scene { IsScene origin.now.program state.now }
    requires origin { IsOrigin origin.now }
    requires ordered { IsOrdered owners }
    ensures { (spread : Bool) (vs : List pure.Actor) → AreOf (program_at origin.now.program) owners.entry spread vs → Tells result (locals_asked (as_written (program_at origin.now.program)) (program_at origin.now.program) (routine_at origin.now.program.pool.now routine.now) spread vs (declarations_at origin.now.program.pool.now list.now) (state_of state.now)) }
{
    for i in 0..list.len() {
        let allowed = local_allowed(
            alloc,
            origin,
            routine,
            &list[i],
            &prepared[i].start,
            owners,
            state,
        )?;
        if !allowed {
            return Ok(false);
        }
    }
    Ok(true)
}
