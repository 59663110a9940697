//! First values of plain variables ("A PlusCal User's Manual", sections 3.1 and 3.3).

ghost use Rattle.std.specs.Prelude.{◌≡◌, ◌≤◌, ◌<◌, length, drop, IfOk};
ghost use Rattle.tla_tree.specs.Pool.{at};
ghost use Rattle.tla_value.specs.Value.{values_in};
ghost use Rattle.pcal_tree.specs.Calls.{defaultInitValue};
ghost use Rattle.pcal_tree.specs.InMemory.{start_at, past_start};
ghost use Rattle.step_walks.specs.Flows.{falls, flowing, chosen};
ghost use Rattle.step_walks.specs.StartFlows.{plain_flow};
ghost use Rattle.step_moves.specs.Programs.{program_at};
ghost use Rattle.step_moves.specs.StatesOf.{state_of};
ghost use Rattle.step_moves.specs.ScopeIn.{IsScene};
ghost use Rattle.step_choices.specs.Pauses.{Flows};
ghost use Rattle.step_meaning.specs.Begun.{value_by, members_by};

use pcal_tree::algorithm::Start;
use std::alloc::{AllocError, Global};
use step_choices::{Pause, picked};
use step_moves::{Bound, Program, value};
use tla_token::Place;
use tla_tree::{Name, NodeId};
use tla_value::state::State;
use tla_value::value::{Value, copied};
use value_forms::kinds::members_of;

/// What a variable has that is declared without a first value.
///
/// # Errors
///
/// Only for want of memory.
pub fn default_value(alloc: Global) -> Result<Value, AllocError>
    ensures { IfOk result (λ r. r ≡ defaultInitValue) }
{
    let name = Name::new(Vec::from_slice(alloc, b"defaultInitValue")?);
    Ok(Value::model(name))
}

/// The member of a set that the next choice takes.
///
/// # Errors
///
/// For want of memory, and exactly where there is no member, or no such choice.
pub fn one_of(
    alloc: Global,
    members: &[Value],
    at: Place,
    choices: &[u32],
    used: &mut usize,
) -> Result<Value, Pause>
    ensures { Flows (λ v. v) result (drop used.new choices.now) (chosen at (values_in members.now) (drop used.old choices.now) falls) }
{
    let i = picked(choices, members.len(), at, used)?;
    Ok(copied(alloc, &members[i])?)
}

/// The member that the next choice takes of the set that an expression is.
///
/// # Errors
///
/// For want of memory, and exactly where the expression has no value, or that is no set, and as of `one_of`.
pub fn member(
    alloc: Global,
    program: &Program<'_>,
    state: &State,
    bound: &Bound,
    place: Place,
    e: NodeId,
    choices: &[u32],
    used: &mut usize,
) -> Result<Value, Pause>
    requires below { e < length program.now.pool.now }
    requires scene { IsScene program.now state.now }
    ensures { Flows (λ v. v) result (drop used.new choices.now) (flowing (members_by (program_at program.now) bound.now.names.items bound.now.values.items place (at program.now.pool.now e) (state_of state.now)) (λ ws. chosen place ws (drop used.old choices.now) falls)) }
{
    let set = value(alloc, program, state, bound, e)?;
    let members = members_of(place, &set)?;
    one_of(alloc, members, place, choices, used)
}

/// The first value of a plain variable.
///
/// # Errors
///
/// For want of memory, and exactly where its expression has no value, or as of `member`.
pub fn plain_value(
    alloc: Global,
    program: &Program<'_>,
    state: &State,
    bound: &Bound,
    place: Place,
    start: &Start,
    choices: &[u32],
    used: &mut usize,
) -> Result<Value, Pause>
    requires below { past_start start.now ≤ length program.now.pool.now }
    requires scene { IsScene program.now state.now }
    ensures { Flows (λ v. v) result (drop used.new choices.now) (plain_flow (value_by (program_at program.now) bound.now.names.items bound.now.values.items) place (start_at program.now.pool.now start.now) (state_of state.now) (drop used.old choices.now)) }
{
    match start {
        Start::Unset => Ok(default_value(alloc)?),
        Start::Equals(e) => Ok(value(alloc, program, state, bound, *e)?),
        Start::Among(e) => member(alloc, program, state, bound, place, *e, choices, used),
    }
}
