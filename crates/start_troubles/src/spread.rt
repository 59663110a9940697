//! Whether variables that are functions of identifiers have values that their declarations allow ("A PlusCal User's Manual", section 3.3,
//! processes).

ghost use Rattle.std.specs.Prelude.{◌≡◌, ◌≤◌, length, List, ℕ};
ghost use Rattle.tla_value.specs.Order.{IsAscending};
ghost use Rattle.tla_value.specs.Value.{values_in, Outcome};
ghost use Rattle.tla_value.specs.Value as pure_value;
ghost use Rattle.pcal_tree.specs.InMemory.{start_at, past_start};
ghost use Rattle.pcal_tree.specs.InitialStates.{all_hold, has_members};
ghost use Rattle.pcal_tree.specs.Program as pure;
ghost use Rattle.value_forms.specs.Gives.{Stops, Tells};
ghost use Rattle.step_walks.specs.Flows.{falls, flowing};
ghost use Rattle.step_spots.specs.InMemory.{routine_at};
ghost use Rattle.step_moves.specs.Programs.{program_at};
ghost use Rattle.step_moves.specs.StatesOf.{state_of};
ghost use Rattle.step_moves.specs.ScopeIn.{IsScene};
ghost use Rattle.step_choices.specs.Pauses.{Pauses};
ghost use Rattle.step_moves.specs.Prepared.{prepared_start};
ghost use Rattle.step_meaning.specs.Identified.{HaveThese};
ghost use Rattle.step_meaning.specs.Origins.{IsOrigin};
ghost use Rattle.written_traces.specs.AskedStarts.{as_written, spread_asked};
ghost use Rattle.start_troubles.specs.Asked.{IsGiven};

use pcal_tree::algorithm::Start;
use space_forms::members::same_members;
use std::alloc::Global;
use step_choices::Pause;
use step_meaning::Origin;
use step_meaning::identified::unbound;
use step_meaning::spread::spread_value;
use step_moves::value;
use step_spots::Routine;
use tla_token::Place;
use tla_value::build::has;
use tla_value::compare::compare;
use tla_value::state::State;
use tla_value::stop::EvalStop;
use tla_value::value::{Kind, Value};
use value_forms::kinds::members_of;

// Why there is no first value, where nothing is to be chosen.
fn stop_of(pause: Pause) -> EvalStop
    ensures { (o : Outcome pure_value.Value) (ns : List ℕ) → Pauses pause (flowing o (λ v. falls v ns)) → Stops result o }
{
    match pause {
        Pause::Memory => EvalStop::Memory,
        Pause::Fault(kind, place) => EvalStop::Fault(kind, place),
        Pause::Limit(place) => EvalStop::Limit(place),
        Pause::Held(_) | Pause::Wants(_, _) => EvalStop::Memory,
    }
}

// Whether a value is the first of a variable, where nothing is to be chosen.
fn is_first(
    alloc: Global,
    origin: &Origin<'_>,
    routine: &Routine<'_>,
    state: &State,
    place: Place,
    start: &Start,
    prepared: &Start,
    ids: &[Value],
    f: &Value,
) -> Result<bool, EvalStop>
    requires below { past_start start.now ≤ length origin.now.program.pool.now }
    requires within { past_start prepared.now ≤ length origin.now.program.pool.now }
    requires prepared { start_at origin.now.program.pool.now prepared.now ≡ prepared_start (program_at origin.now.program) (routine_at origin.now.program.pool.now routine.now) (start_at origin.now.program.pool.now start.now) }
    requires given { IsGiven (start_at origin.now.program.pool.now start.now) }
    requires scene { IsScene origin.now.program state.now }
    requires origin { IsOrigin origin.now }
    requires ascending { IsAscending (values_in ids.now) }
    ensures { (vs : List pure.Actor) → HaveThese vs ids.now → Tells result (spread_asked (as_written (program_at origin.now.program)) (program_at origin.now.program) (routine_at origin.now.program.pool.now routine.now) vs place (start_at origin.now.program.pool.now start.now) (state_of state.now) f.now) }
{
    let mut used = 0;
    match spread_value(
        alloc,
        origin,
        routine,
        state,
        place,
        start,
        prepared,
        ids,
        &[],
        &mut used,
    ) {
        Ok(first) => Ok(compare(f, &first).is_eq()),
        Err(pause) => Err(stop_of(pause)),
    }
}

// Whether all of some values are members of a set.
fn all_members(values: &[Value], members: &[Value]) -> bool
    requires { IsAscending (values_in members.now) }
    ensures { result ≡ all_hold (values_in values.now) (values_in members.now) }
{
    for v in values {
        if !has(members, v) {
            return false;
        }
    }
    true
}

// Whether a value is a function on just these identifiers, with a member of a set for each.
fn gives_members(ids: &[Value], members: &[Value], f: &Value) -> bool
    requires { IsAscending (values_in members.now) }
    ensures { result ≡ has_members (values_in ids.now) (values_in members.now) f.now }
{
    match &f.kind {
        Kind::Fun(domain, values) => {
            if !same_members(domain.items.as_slice(), ids) {
                return false;
            }
            all_members(values.items.as_slice(), members)
        }
        Kind::Bool(_) => false,
        Kind::Int(_) => false,
        Kind::Text(_) => false,
        Kind::Model(_) => false,
        Kind::Set(_) => false,
    }
}

/// Whether a value is one that the declaration of a variable allows that is a function of identifiers.
///
/// # Errors
///
/// For want of memory, and exactly where its expression has no value for one of them, or its set is none, or the function that it is
/// compared with is past the limits.
pub fn spread_allowed(
    alloc: Global,
    origin: &Origin<'_>,
    routine: &Routine<'_>,
    state: &State,
    place: Place,
    start: &Start,
    prepared: &Start,
    ids: &[Value],
    f: &Value,
) -> Result<bool, EvalStop>
    requires below { past_start start.now ≤ length origin.now.program.pool.now }
    requires within { past_start prepared.now ≤ length origin.now.program.pool.now }
    requires prepared { start_at origin.now.program.pool.now prepared.now ≡ prepared_start (program_at origin.now.program) (routine_at origin.now.program.pool.now routine.now) (start_at origin.now.program.pool.now start.now) }
    requires scene { IsScene origin.now.program state.now }
    requires origin { IsOrigin origin.now }
    requires ascending { IsAscending (values_in ids.now) }
    ensures { (vs : List pure.Actor) → HaveThese vs ids.now → Tells result (spread_asked (as_written (program_at origin.now.program)) (program_at origin.now.program) (routine_at origin.now.program.pool.now routine.now) vs place (start_at origin.now.program.pool.now start.now) (state_of state.now) f.now) }
{
    match start {
        Start::Unset | Start::Equals(_) => is_first(
            alloc, origin, routine, state, place, start, prepared, ids, f,
        ),
        Start::Among(e) => {
            let bound = unbound(alloc);
            let set = value(alloc, &origin.program, state, &bound, *e)?;
            let members = members_of(place, &set)?;
            Ok(gives_members(ids, members, f))
        }
    }
}
