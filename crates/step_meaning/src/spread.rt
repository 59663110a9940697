//! First values of variables that are functions of identifiers ("A PlusCal User's Manual", section 3.3, processes).

ghost use Rattle.std.specs.Prelude.{◌≡◌, ◌≤◌, ◌<◌, ◌∷◌, [], length, drop, IfOk, List, map};
ghost use Rattle.tla_tree.specs.Pool.{at};
ghost use Rattle.tla_tree.specs.Tree.{Tree};
ghost use Rattle.tla_value.specs.Order.{IsAscending};
ghost use Rattle.tla_value.specs.Limits.{bounded};
ghost use Rattle.tla_value.specs.Value.{fun, values_in, in_order};
ghost use Rattle.module_tree.specs.Formulas.{self};
ghost use Rattle.pcal_tree.specs.Algorithm.{equals};
ghost use Rattle.pcal_tree.specs.Calls.{defaultInitValue};
ghost use Rattle.pcal_tree.specs.InMemory.{start_at, past_start};
ghost use Rattle.pcal_tree.specs.Program as pure;
ghost use Rattle.value_forms.specs.Gives.{Gives};
ghost use Rattle.step_walks.specs.FirstValues.{as_written};
ghost use Rattle.step_walks.specs.Flows.{falls, flowing};
ghost use Rattle.step_walks.specs.StartFlows.{values_flow, spread_flow};
ghost use Rattle.step_spots.specs.InMemory.{routine_at};
ghost use Rattle.step_moves.specs.Programs.{program_at};
ghost use Rattle.step_moves.specs.StatesOf.{state_of};
ghost use Rattle.step_moves.specs.ScopeIn.{IsScene};
ghost use Rattle.step_choices.specs.Pauses.{Flows};
ghost use Rattle.step_moves.specs.Prepared.{prepared_start};
ghost use Rattle.step_meaning.specs.Begun.{value_by, members_by};
ghost use Rattle.step_meaning.specs.Identified.{each_chosen, HaveThese};
ghost use Rattle.step_meaning.specs.Origins.{IsOrigin};

use crate::identified::{bound_to, unbound};
use crate::origin::Origin;
use crate::values::{default_value, one_of};
use pcal_tree::algorithm::Start;
use std::alloc::{AllocError, Global};
use step_choices::Pause;
use step_moves::value;
use step_spots::Routine;
use tla_token::Place;
use tla_tree::NodeId;
use tla_value::state::State;
use tla_value::stop::EvalStop;
use tla_value::value::Value;
use value_forms::kinds::members_of;
use value_forms::made::{copies, function};

// What variables have that are declared without a first value, for each identifier.
fn each_default(alloc: Global, ids: &[Value]) -> Result<Vec<Value>, AllocError>
    ensures { IfOk result (λ r. r.items ≡ map (λ v. defaultInitValue) ids.now) }
{
    let mut all = Vec::new(alloc);
    for _one in ids {
        all.push(default_value(alloc)?)?;
    }
    Ok(all)
}

// The value of an expression for the process with an identifier.
fn value_for(
    alloc: Global,
    origin: &Origin<'_>,
    state: &State,
    e: NodeId,
    identifier: &Value,
) -> Result<Value, EvalStop>
    requires below { e < length origin.now.program.pool.now }
    requires scene { IsScene origin.now.program state.now }
    requires origin { IsOrigin origin.now }
    ensures { Gives (λ v. v) result (value_by (program_at origin.now.program) (self ∷ []) (identifier.now ∷ []) (at origin.now.program.pool.now e) (state_of state.now)) }
{
    let bound = bound_to(alloc, origin.this, identifier)?;
    value(alloc, &origin.program, state, &bound, e)
}

// The value of an expression for the process of each identifier.
fn each_value(
    alloc: Global,
    origin: &Origin<'_>,
    state: &State,
    e: NodeId,
    ids: &[Value],
) -> Result<Vec<Value>, EvalStop>
    requires below { e < length origin.now.program.pool.now }
    requires scene { IsScene origin.now.program state.now }
    requires origin { IsOrigin origin.now }
    ensures { Gives (λ r. r.items) result (in_order (λ v. value_by (program_at origin.now.program) (self ∷ []) (v ∷ []) (at origin.now.program.pool.now e) (state_of state.now)) ids.now) }
{
    let mut all = Vec::new(alloc);
    for identifier in ids {
        all.push(value_for(alloc, origin, state, e, identifier)?)?;
    }
    Ok(all)
}

// A member of a set for each identifier, in turn.
fn each_member(
    alloc: Global,
    members: &[Value],
    place: Place,
    ids: &[Value],
    choices: &[u32],
    used: &mut usize,
) -> Result<Vec<Value>, Pause>
    ensures { Flows (λ r. r.items) result (drop used.new choices.now) (each_chosen place (values_in members.now) ids.now (drop used.old choices.now)) }
{
    let mut all = Vec::new(alloc);
    for _one in ids {
        all.push(one_of(alloc, members, place, choices, used)?)?;
    }
    Ok(all)
}

// A member of the set that an expression is outside of all processes, for each identifier.
fn each_of_set(
    alloc: Global,
    origin: &Origin<'_>,
    state: &State,
    place: Place,
    e: NodeId,
    ids: &[Value],
    choices: &[u32],
    used: &mut usize,
) -> Result<Vec<Value>, Pause>
    requires below { e < length origin.now.program.pool.now }
    requires scene { IsScene origin.now.program state.now }
    ensures { Flows (λ r. r.items) result (drop used.new choices.now) (flowing (members_by (program_at origin.now.program) [] [] place (at origin.now.program.pool.now e) (state_of state.now)) (λ ws. each_chosen place ws ids.now (drop used.old choices.now))) }
{
    let bound = unbound(alloc);
    let set = value(alloc, &origin.program, state, &bound, e)?;
    let members = members_of(place, &set)?;
    each_member(alloc, members, place, ids, choices, used)
}

// The values of a prepared expression for all identifiers.
fn each_prepared(
    alloc: Global,
    origin: &Origin<'_>,
    state: &State,
    prepared: &Start,
    ids: &[Value],
) -> Result<Vec<Value>, EvalStop>
    requires below { past_start prepared.now ≤ length origin.now.program.pool.now }
    requires scene { IsScene origin.now.program state.now }
    requires origin { IsOrigin origin.now }
    ensures { (e : Tree) → start_at origin.now.program.pool.now prepared.now ≡ equals e → Gives (λ r. r.items) result (in_order (λ v. value_by (program_at origin.now.program) (self ∷ []) (v ∷ []) e (state_of state.now)) ids.now) }
{
    match prepared {
        Start::Equals(e) => each_value(alloc, origin, state, *e, ids),
        Start::Unset => Err(EvalStop::Memory),
        Start::Among(_) => Err(EvalStop::Memory),
    }
}

// The values of a variable of a routine for all identifiers.
fn each_first(
    alloc: Global,
    origin: &Origin<'_>,
    routine: &Routine<'_>,
    state: &State,
    place: Place,
    start: &Start,
    prepared: &Start,
    ids: &[Value],
    choices: &[u32],
    used: &mut usize,
) -> Result<Vec<Value>, Pause>
    requires below { past_start start.now ≤ length origin.now.program.pool.now }
    requires within { past_start prepared.now ≤ length origin.now.program.pool.now }
    requires prepared { start_at origin.now.program.pool.now prepared.now ≡ prepared_start (program_at origin.now.program) (routine_at origin.now.program.pool.now routine.now) (start_at origin.now.program.pool.now start.now) }
    requires scene { IsScene origin.now.program state.now }
    requires origin { IsOrigin origin.now }
    ensures { (vs : List pure.Actor) → HaveThese vs ids.now → Flows (λ r. r.items) result (drop used.new choices.now) (values_flow (as_written (program_at origin.now.program) []) (routine_at origin.now.program.pool.now routine.now) vs place (start_at origin.now.program.pool.now start.now) (state_of state.now) (drop used.old choices.now)) }
{
    match start {
        Start::Unset => Ok(each_default(alloc, ids)?),
        Start::Equals(_) => Ok(each_prepared(alloc, origin, state, prepared, ids)?),
        Start::Among(e) => each_of_set(alloc, origin, state, place, *e, ids, choices, used),
    }
}

/// The function of some identifiers with these values.
///
/// # Errors
///
/// For want of memory, and where there aren't as many values, and exactly where it is past the limits.
pub fn function_for(
    alloc: Global,
    place: Place,
    ids: &[Value],
    values: Vec<Value>,
) -> Result<Value, EvalStop>
    requires ascending { IsAscending (values_in ids.now) }
    ensures { Gives (λ v. v) result (bounded place (fun (values_in ids.now) (values_in values.items))) }
{
    if values.len() != ids.len() {
        return Err(EvalStop::Memory);
    }
    let domain = copies(alloc, ids)?;
    function(place, domain, values)
}

/// The first value of a variable that is a function of identifiers.
///
/// # Errors
///
/// For want of memory, and exactly where its expression has no value for one of them, or its set is none or no member of it is chosen, or
/// the function is past the limits.
pub fn spread_value(
    alloc: Global,
    origin: &Origin<'_>,
    routine: &Routine<'_>,
    state: &State,
    place: Place,
    start: &Start,
    prepared: &Start,
    ids: &[Value],
    choices: &[u32],
    used: &mut usize,
) -> Result<Value, Pause>
    requires below { past_start start.now ≤ length origin.now.program.pool.now }
    requires within { past_start prepared.now ≤ length origin.now.program.pool.now }
    requires prepared { start_at origin.now.program.pool.now prepared.now ≡ prepared_start (program_at origin.now.program) (routine_at origin.now.program.pool.now routine.now) (start_at origin.now.program.pool.now start.now) }
    requires scene { IsScene origin.now.program state.now }
    requires origin { IsOrigin origin.now }
    requires ascending { IsAscending (values_in ids.now) }
    ensures { (vs : List pure.Actor) → HaveThese vs ids.now → Flows (λ v. v) result (drop used.new choices.now) (spread_flow (as_written (program_at origin.now.program) []) (program_at origin.now.program) (routine_at origin.now.program.pool.now routine.now) vs place (start_at origin.now.program.pool.now start.now) (state_of state.now) (drop used.old choices.now)) }
{
    let values = each_first(
        alloc, origin, routine, state, place, start, prepared, ids, choices, used,
    )?;
    Ok(function_for(alloc, place, ids, values)?)
}
