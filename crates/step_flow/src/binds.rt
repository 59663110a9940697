//! The names of a `with` ("A PlusCal User's Manual", section 3.2.6).

ghost use Rattle.std.specs.Prelude.{◌≡◌, ◌∷◌, ◌++◌, [], ◌<◌, ◌≤◌, List, ℕ, length, OnOk};
ghost use Rattle.tla_tree.specs.Pool.{at as node_at};
ghost use Rattle.tla_value.specs.Limits.{bounded};
ghost use Rattle.tla_value.specs.Value.{Value as PureValue};
ghost use Rattle.pcal_tree.specs.Algorithm.{Binds};
ghost use Rattle.pcal_tree.specs.InMemory.{bind_at, binds_at, past_bind, past_binds};
ghost use Rattle.pcal_tree.specs.Scope.{State as PureState, Scope, bound as with_bound, members as pure_members};
ghost use Rattle.step_walks.specs.Flows.{Flow, flowing, chosen};
ghost use Rattle.step_walks.specs.StepFlows.{flow_binds};
ghost use Rattle.step_moves.specs.Programs.{program_at};
ghost use Rattle.step_moves.specs.StatesOf.{state_of};
ghost use Rattle.step_flow.specs.Ends.{left_of, scope_of, Stands, Rebound};
ghost use Rattle.step_flow.specs.Binding.{bind_name, Leads, StillBound};

use crate::going::Going;
use pcal_tree::algorithm::Bind;
use std::alloc::{AllocError, Global};
use step_choices::{Pause, picked};
use step_moves::{Runner, members, value};
use tla_token::Place;
use tla_tree::{Name, NodeId};
use tla_value::value::{Value, copied};

// The member of a set that the next choice takes.
fn member(
    alloc: Global,
    runner: &Runner<'_>,
    choices: &[u32],
    at: Place,
    set: NodeId,
    going: &mut Going,
) -> Result<Value, Pause>
    requires below { set < length runner.now.program.pool.now }
    requires stands { Stands runner.now going.old }
    ensures taken { (go : PureValue → List ℕ → Flow PureState) → Leads result (λ w. go w (left_of choices.now going.new)) (flowing (pure_members bounded (node_at runner.now.program.pool.now set) (scope_of (program_at runner.now.program) going.old) (state_of going.old.state)) (λ vs. chosen at vs (left_of choices.now going.old) go)) }
    ensures state { going.new.state ≡ going.old.state }
    ensures bound { going.new.bound ≡ going.old.bound }
{
    let all = members(alloc, &runner.program, &going.state, &going.bound, set)?;
    let i = picked(choices, all.len(), at, &mut going.used)?;
    Ok(copied(alloc, &all[i])?)
}

// The value of one name.
fn bound_value(
    alloc: Global,
    runner: &Runner<'_>,
    choices: &[u32],
    at: Place,
    bind: &Bind,
    going: &mut Going,
) -> Result<Value, Pause>
    requires below { past_bind bind.now ≤ length runner.now.program.pool.now }
    requires stands { Stands runner.now going.old }
    ensures taken { (rest : Binds) (body : Scope → List ℕ → Flow PureState) → Leads result (λ w. flow_binds bounded at rest body (with_bound (bind_name bind.now) w (scope_of (program_at runner.now.program) going.old)) (state_of going.old.state) (left_of choices.now going.new)) (flow_binds bounded at (bind_at runner.now.program.pool.now bind.now rest) body (scope_of (program_at runner.now.program) going.old) (state_of going.old.state) (left_of choices.now going.old)) }
    ensures state { going.new.state ≡ going.old.state }
    ensures bound { going.new.bound ≡ going.old.bound }
{
    match bind {
        Bind::Among(_, set) => member(alloc, runner, choices, at, *set, going),
        Bind::Is(_, e) => Ok(value(alloc, &runner.program, &going.state, &going.bound, *e)?),
    }
}

// The name.
fn name_of(bind: &Bind) -> &Name
    ensures { result.now ≡ bind_name bind.now }
{
    match bind {
        Bind::Among(name, _) => &name.name,
        Bind::Is(name, _) => &name.name,
    }
}

// Binds one name.
fn bind_one(
    alloc: Global,
    runner: &Runner<'_>,
    choices: &[u32],
    at: Place,
    bind: &Bind,
    going: &mut Going,
) -> Result<(), Pause>
    requires below { past_bind bind.now ≤ length runner.now.program.pool.now }
    requires stands { Stands runner.now going.old }
    ensures bound { (rest : Binds) (body : Scope → List ℕ → Flow PureState) → Leads result (λ _. flow_binds bounded at rest body (scope_of (program_at runner.now.program) going.new) (state_of going.old.state) (left_of choices.now going.new)) (flow_binds bounded at (bind_at runner.now.program.pool.now bind.now rest) body (scope_of (program_at runner.now.program) going.old) (state_of going.old.state) (left_of choices.now going.old)) }
    ensures state { going.new.state ≡ going.old.state }
    ensures stands { OnOk result (Stands runner.now going.new) }
    ensures still { OnOk result (StillBound going.old going.new) }
{
    let value = bound_value(alloc, runner, choices, at, bind, going)?;
    let name = name_of(bind).copied()?;
    going.bound.names.push(name)?;
    going.bound.values.push(value)?;
    Ok(())
}

/// Binds the names of a `with`, one after another, each seen by those after it.
///
/// # Errors
///
/// For want of memory, and exactly where one has no value, or there is no such choice.
pub fn bind_all(
    alloc: Global,
    runner: &Runner<'_>,
    choices: &[u32],
    at: Place,
    binds: &[Bind],
    going: &mut Going,
) -> Result<(), Pause>
    requires below { past_binds binds.now ≤ length runner.now.program.pool.now }
    requires stands { Stands runner.now going.old }
    ensures bound { (body : Scope → List ℕ → Flow PureState) → Leads result (λ _. body (scope_of (program_at runner.now.program) going.new) (left_of choices.now going.new)) (flow_binds bounded at (binds_at runner.now.program.pool.now binds.now) body (scope_of (program_at runner.now.program) going.old) (state_of going.old.state) (left_of choices.now going.old)) }
    ensures state { going.new.state ≡ going.old.state }
    ensures stands { OnOk result (Stands runner.now going.new) }
    ensures still { OnOk result (StillBound going.old going.new) }
{
    for i in 0..binds.len() {
        bind_one(alloc, runner, choices, at, &binds[i], going)?;
    }
    Ok(())
}
