//! What Next says of one process ("A PlusCal User's Manual", section 3).

ghost use Rattle.std.specs.Prelude.{◌≡◌, ◌&&◌, ◌<◌, length, map, filter, not, OnOk, IfOk};
ghost use Rattle.std.specs.Option.{option_map};
ghost use Rattle.tla_tree.specs.Pool.{at, AllBelow};
ghost use Rattle.tla_tree.specs.Tree.{root_place};
ghost use Rattle.tla_value.specs.Limits.{bounded};
ghost use Rattle.module_tree.specs.Ways as kind;
ghost use Rattle.module_tree.specs.Ways.{steps_of, own_steps, sets_of, processes_in};
ghost use Rattle.module_tree.specs.ProcessPart as pure;
ghost use Rattle.module_tree.specs.ActionTruth.{some_way_holds};
ghost use Rattle.module_write.specs.InMemory.{call_at, way_at, ways_at, WayIn, WaysIn};
ghost use Rattle.value_forms.specs.Gives.{Tells};
ghost use Rattle.action_truth.specs.AskedOf.{IsReady, next_ways};
ghost use Rattle.action_truth.specs.Pairs.{scope_at, env_at, all_acts, mine_in, step_in, shared_in, Stands, StillBound};

use crate::actions::{called, way_holds};
use crate::asked::{Asked, count};
use crate::formulas::{Bound, Pair, or_found, value};
use module_write::module::{Call, Way};
use module_write::ways::{processes, sets};
use std::alloc::{AllocError, Global};
use tla_pool::Pool;
use tla_token::Place;
use tla_tree::NodeId;
use tla_value::stop::EvalStop;
use tla_value::value::{Value, copied};
use value_forms::sets::member;

// A disjunct, if it isn't `Terminating`.
fn step_holds(
    alloc: Global,
    pair: &Pair<'_>,
    bound: &mut Bound,
    way: &Way,
) -> Result<bool, EvalStop>
    requires within { WayIn (length pair.now.asked.pool.now) way.now }
    requires stands { Stands pair.now bound.old }
    ensures holds { Tells result (step_in (env_at pair.now bound.old) (all_acts pair.now) (way_at pair.now.asked.pool.now way.now)) }
    ensures bound { OnOk result (StillBound bound.old bound.new) }
{
    if way.is_terminating() {
        return Ok(false);
    }
    way_holds(alloc, pair, bound, way, count(&pair.asked))
}

/// All disjuncts but `Terminating`.
///
/// # Errors
///
/// For want of memory, and exactly where it is neither true nor false.
pub fn steps_hold(
    alloc: Global,
    pair: &Pair<'_>,
    bound: &mut Bound,
    ways: &[Way],
) -> Result<bool, EvalStop>
    requires within { WaysIn (length pair.now.asked.pool.now) ways.now }
    requires stands { Stands pair.now bound.old }
    ensures { Tells result (some_way_holds bounded (env_at pair.now bound.old) (all_acts pair.now) (steps_of (ways_at pair.now.asked.pool.now ways.now))) }
{
    let mut found = false;
    for way in ways {
        let holds = step_holds(alloc, pair, bound, way)?;
        found = or_found(found, holds);
    }
    Ok(found)
}

// The action of a call, with a process in place of its argument.
fn called_for(alloc: Global, pair: &Pair<'_>, who: &Value, call: &Call) -> Result<bool, EvalStop>
    requires ready { IsReady pair.now.asked }
    ensures { Tells result (pure.called_for (all_acts pair.now) who.now (call_at pair.now.asked.pool.now call.now)) }
{
    let all = count(&pair.asked);
    match call {
        Call::Bare(title) => called(alloc, pair, title, None, all),
        Call::With(title, _) => {
            let v = copied(alloc, who)?;
            called(alloc, pair, title, Some(v), all)
        }
    }
}

// Where an expression stands.
fn place_of(pool: &Pool, e: NodeId) -> Place
    requires { e < length pool.now }
    ensures { result ≡ root_place (at pool.now e) }
{
    pool.node(e).place
}

// Whether the process is in a set, and then the call's action is so.
fn case_holds(
    alloc: Global,
    pair: &Pair<'_>,
    who: &Value,
    way: &Way,
    set: NodeId,
) -> Result<bool, EvalStop>
    requires below { set < length pair.now.asked.pool.now }
    requires ready { IsReady pair.now.asked }
    ensures { Tells result (pure.case_for bounded (scope_at pair.now) (all_acts pair.now) who.now (way_at pair.now.asked.pool.now way.now) (at pair.now.asked.pool.now set)) }
{
    let none = Bound::new(alloc);
    let all = value(alloc, pair, &none, set)?;
    let here = place_of(pair.asked.pool, set);
    let is_in = member(here, who, &all)?;
    if !is_in {
        return Ok(false);
    }
    called_for(alloc, pair, who, way.call())
}

// Whether a disjunct is a process's own.
fn is_own(pool: &Pool, way: &Way) -> bool
    requires { WayIn (length pool.now) way.now }
    ensures { result ≡ (not (kind.is_terminating (way_at pool.now way.now)) && not (kind.is_procedure (way_at pool.now way.now))) }
{
    !way.is_terminating() && !way.is_procedure(pool)
}

// The process's own action, of those with these sets.
fn own_holds(
    alloc: Global,
    pair: &Pair<'_>,
    who: &Value,
    ways: &[Way],
    own: &[NodeId],
) -> Result<bool, EvalStop>
    requires within { WaysIn (length pair.now.asked.pool.now) ways.now }
    requires below { AllBelow (length pair.now.asked.pool.now) own.now }
    requires ready { IsReady pair.now.asked }
    ensures { Tells result (pure.cases_for bounded (scope_at pair.now) (all_acts pair.now) who.now (own_steps (ways_at pair.now.asked.pool.now ways.now)) (map (at pair.now.asked.pool.now) own.now)) }
{
    let mut found = false;
    let mut k = 0;
    for way in ways {
        if k >= own.len() {
            return Ok(found);
        }
        let is_mine = is_own(pair.asked.pool, way);
        if !is_mine {
            continue;
        }
        let holds = case_holds(alloc, pair, who, way, own[k])?;
        found = or_found(found, holds);
        k += 1;
    }
    Ok(found)
}

// The action of a procedure's disjunct, with the process for `self`.
fn shared_holds(alloc: Global, pair: &Pair<'_>, who: &Value, way: &Way) -> Result<bool, EvalStop>
    requires within { WayIn (length pair.now.asked.pool.now) way.now }
    requires ready { IsReady pair.now.asked }
    ensures { Tells result (shared_in (all_acts pair.now) who.now (way_at pair.now.asked.pool.now way.now)) }
{
    if way.is_terminating() {
        return Ok(false);
    }
    if !way.is_procedure(pair.asked.pool) {
        return Ok(false);
    }
    called_for(alloc, pair, who, way.call())
}

// The actions of procedures, with the process for `self`.
fn procedures_hold(
    alloc: Global,
    pair: &Pair<'_>,
    who: &Value,
    ways: &[Way],
) -> Result<bool, EvalStop>
    requires within { WaysIn (length pair.now.asked.pool.now) ways.now }
    requires ready { IsReady pair.now.asked }
    ensures { Tells result (pure.all_for (all_acts pair.now) who.now (filter kind.is_procedure (steps_of (ways_at pair.now.asked.pool.now ways.now)))) }
{
    let mut found = false;
    for way in ways {
        let holds = shared_holds(alloc, pair, who, way)?;
        found = or_found(found, holds);
    }
    Ok(found)
}

// The sets of the processes.
fn own_sets(alloc: Global, asked: &Asked<'_>) -> Result<Vec<NodeId>, AllocError>
    requires ready { IsReady asked.now }
    ensures below { IfOk result (λ ids. AllBelow (length asked.now.pool.now) ids.items) }
    ensures sets { IfOk result (λ ids. map (at asked.now.pool.now) ids.items ≡ sets_of (processes_in (next_ways asked.now)) (option_map (at asked.now.pool.now) asked.now.region.now.process_set)) }
{
    match asked.region.process_set {
        Some(e) => {
            let many = processes(asked.pool, &asked.region.next);
            sets(alloc, asked.pool, many, e)
        }
        None => Ok(Vec::new(alloc)),
    }
}

/// What Next says of one process.
///
/// # Errors
///
/// For want of memory, and exactly where it is neither true nor false.
pub fn process_holds(alloc: Global, pair: &Pair<'_>, who: &Value) -> Result<bool, EvalStop>
    requires ready { IsReady pair.now.asked }
    ensures { Tells result (mine_in pair.now who.now) }
{
    let next = &pair.asked.region.next;
    let own = own_sets(alloc, &pair.asked)?;
    let mine = own_holds(alloc, pair, who, next, &own)?;
    let shared = procedures_hold(alloc, pair, who, next)?;
    Ok(or_found(shared, mine))
}
