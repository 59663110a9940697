//! Actions by their names, of a pair of states: each calls only those before it.

ghost use Rattle.std.specs.Prelude.{◌≡◌, ◌<◌, ◌≤◌, length, min, bytes_eq, codes, Some, None, OnOk, IfOk, MatchOption};
ghost use Rattle.std.specs.Option.{option_map};
ghost use Rattle.tla_token.specs.Places.{start};
ghost use Rattle.tla_tree.specs.Pool.{at};
ghost use Rattle.tla_value.specs.declared.fault.FaultKind.TheVariants.{NotFunction};
ghost use Rattle.tla_value.specs.declared.stop.EvalStop.TheVariants.{Fault};
ghost use Rattle.tla_value.specs.Limits.{bounded};
ghost use Rattle.tla_value.specs.Meaning.{Env, bind};
ghost use Rattle.module_tree.specs.Module.{some_way};
ghost use Rattle.module_tree.specs.ActionTruth as pure;
ghost use Rattle.module_tree.specs.ActionTruth.{Acts, acted};
ghost use Rattle.module_write.specs.InMemory.{call_at, way_at, ways_at, action_at, CallIn, WayIn, WaysIn, BodyIn};
ghost use Rattle.value_forms.specs.Gives.{Gives, Tells};
ghost use Rattle.eval_scopes.specs.Scopes.{with_words};
ghost use Rattle.action_truth.specs.AskedOf.{IsReady, all_actions};
ghost use Rattle.action_truth.specs.Pairs.{env_at, action_in, acts_at, ending, Stands, StillBound};

use crate::asked::found;
use crate::formulas::{Bound, Pair, are_unchanged, members, or_found, truth, value};
use crate::items::items_hold;
use module_write::module::{Action, Body, Call, Way};
use std::alloc::Global;
use tla_token::Place;
use tla_tree::{Name, NodeId};
use tla_value::fault::FaultKind;
use tla_value::stop::EvalStop;
use tla_value::value::Value;

// What is no action, or has another number of arguments.
fn unknown() -> EvalStop
    ensures { result ≡ Fault NotFunction start }
{
    EvalStop::Fault(FaultKind::NotFunction, Place { line: 1, col: 1 })
}

// The parameter of an action, bound to its argument.
fn with_argument(
    alloc: Global,
    parameter: &Option<Name>,
    v: Option<Value>,
) -> Result<Bound, EvalStop>
    ensures bound { (env : Env) → Gives (λ b. with_words b.names.items b.values.items env) result (pure.with_argument parameter.now v env) }
    ensures paired { IfOk result (λ b. length b.names.items ≡ length b.values.items) }
{
    let mut bound = Bound::new(alloc);
    match (parameter, v) {
        (None, None) => {}
        (Some(x), Some(v)) => bound.bind(x, v)?,
        _ => return Err(unknown()),
    }
    Ok(bound)
}

// `Terminating`: its test, and then that nothing changes.
fn ending_true(alloc: Global, pair: &Pair<'_>, e: NodeId) -> Result<bool, EvalStop>
    requires below { e < length pair.now.asked.pool.now }
    requires ready { IsReady pair.now.asked }
    ensures { (acts : Acts) → Tells result (action_in pair.now acts (ending pair.now e) None) }
{
    let none = Bound::new(alloc);
    let first = truth(alloc, pair, &none, e)?;
    if !first {
        return Ok(false);
    }
    Ok(are_unchanged(pair, pair.asked.region.vars.as_slice()))
}

// The same, called with or without an argument; it has no parameter.
fn ending_holds(
    alloc: Global,
    pair: &Pair<'_>,
    e: NodeId,
    v: &Option<Value>,
) -> Result<bool, EvalStop>
    requires below { e < length pair.now.asked.pool.now }
    requires ready { IsReady pair.now.asked }
    ensures { (acts : Acts) → Tells result (action_in pair.now acts (ending pair.now e) v.now) }
{
    match v {
        Some(_) => Err(unknown()),
        None => ending_true(alloc, pair, e),
    }
}

// Whether a name is that of `Terminating`.
fn is_ending(title: &Name) -> bool
    ensures { result ≡ bytes_eq (codes "Terminating") title.now }
{
    b"Terminating".as_slice() == title.bytes()
}

// The test of `Terminating`, where the name is its and it is among the first actions.
fn ending_test(pair: &Pair<'_>, title: &Name, before: usize) -> Option<NodeId>
    requires ready { IsReady pair.now.asked }
    requires before { before ≤ length (all_actions pair.now.asked) }
    ensures { MatchOption result (acts_at pair.now before title.now ≡ acts_at pair.now (min before (length pair.now.asked.region.now.actions.items)) title.now) (λ e. (e < length pair.now.asked.pool.now) × (acts_at pair.now before title.now ≡ Some (action_in pair.now (acts_at pair.now (length pair.now.asked.region.now.actions.items)) (ending pair.now e)))) }
{
    if before <= pair.asked.region.actions.len() {
        return None;
    }
    if is_ending(title) {
        return pair.asked.region.ended;
    }
    None
}

/// An action by its name, the last of the first so many that has it, with an argument. Calls nest no deeper than there are actions.
///
/// # Errors
///
/// For want of memory, and exactly where it is neither true nor false.
#[cycle(actions)]
pub fn called(
    alloc: Global,
    pair: &Pair<'_>,
    title: &Name,
    v: Option<Value>,
    before: usize,
) -> Result<bool, EvalStop>
    requires ready { IsReady pair.now.asked }
    requires before { before ≤ length (all_actions pair.now.asked) }
    ensures { Tells result (acted (acts_at pair.now before title.now) v) }
{
    if let Some(e) = ending_test(pair, title, before) {
        return ending_holds(alloc, pair, e, &v);
    }
    let actions = pair.asked.region.actions.as_slice();
    let n = found(&pair.asked, title, before.min(actions.len()));
    if n == 0 {
        return Err(unknown());
    }
    action_holds(alloc, pair, &actions[n - 1], n - 1, v)
}

// An action that calls those before it.
#[cycle(actions)]
fn action_holds(
    alloc: Global,
    pair: &Pair<'_>,
    action: &Action,
    before: usize,
    v: Option<Value>,
) -> Result<bool, EvalStop>
    requires within { BodyIn (length pair.now.asked.pool.now) action.now.body }
    requires ready { IsReady pair.now.asked }
    requires before { before ≤ length (all_actions pair.now.asked) }
    ensures { Tells result (action_in pair.now (acts_at pair.now before) (action_at pair.now.asked.pool.now action.now) v) }
{
    let mut bound = with_argument(alloc, &action.parameter, v)?;
    match &action.body {
        Body::All(items) => items_hold(alloc, pair, &mut bound, items),
        Body::Any(ways) => some_way(alloc, pair, &mut bound, ways, before),
    }
}

/// A disjunction of calls: each of them, in order.
///
/// # Errors
///
/// For want of memory, and exactly where it is neither true nor false.
#[cycle(actions)]
pub fn some_way(
    alloc: Global,
    pair: &Pair<'_>,
    bound: &mut Bound,
    ways: &[Way],
    before: usize,
) -> Result<bool, EvalStop>
    requires within { WaysIn (length pair.now.asked.pool.now) ways.now }
    requires stands { Stands pair.now bound.old }
    requires before { before ≤ length (all_actions pair.now.asked) }
    ensures { Tells result (pure.some_way_holds bounded (env_at pair.now bound.old) (acts_at pair.now before) (ways_at pair.now.asked.pool.now ways.now)) }
{
    let mut found = false;
    for way in ways {
        let holds = way_holds(alloc, pair, bound, way, before)?;
        found = or_found(found, holds);
    }
    Ok(found)
}

/// A disjunct that calls an action.
///
/// # Errors
///
/// For want of memory, and exactly where it is neither true nor false.
#[cycle(actions)]
pub fn way_holds(
    alloc: Global,
    pair: &Pair<'_>,
    bound: &mut Bound,
    way: &Way,
    before: usize,
) -> Result<bool, EvalStop>
    requires within { WayIn (length pair.now.asked.pool.now) way.now }
    requires stands { Stands pair.now bound.old }
    requires before { before ≤ length (all_actions pair.now.asked) }
    ensures holds { Tells result (pure.way_holds bounded (env_at pair.now bound.old) (acts_at pair.now before) (way_at pair.now.asked.pool.now way.now)) }
    ensures bound { OnOk result (StillBound bound.old bound.new) }
{
    match way {
        Way::One(call) => call_holds(alloc, pair, &*bound, call, before),
        Way::Among(x, set, call) => some_call(alloc, pair, bound, x, *set, call, before),
    }
}

// `\E x \in S :` over a call.
#[cycle(actions)]
fn some_call(
    alloc: Global,
    pair: &Pair<'_>,
    bound: &mut Bound,
    x: &Name,
    set: NodeId,
    call: &Call,
    before: usize,
) -> Result<bool, EvalStop>
    requires set { set < length pair.now.asked.pool.now }
    requires within { CallIn (length pair.now.asked.pool.now) call.now }
    requires stands { Stands pair.now bound.old }
    requires before { before ≤ length (all_actions pair.now.asked) }
    ensures holds { Tells result (pure.way_holds bounded (env_at pair.now bound.old) (acts_at pair.now before) (some_way x.now (at pair.now.asked.pool.now set) (call_at pair.now.asked.pool.now call.now))) }
    ensures bound { OnOk result (StillBound bound.old bound.new) }
{
    let mut left = members(alloc, pair, &*bound, set)?;
    left.reverse();
    let mut found = false;
    while let Some(v) = left.pop() {
        let holds = call_with(alloc, pair, bound, x, v, call, before)?;
        found = or_found(found, holds);
    }
    Ok(found)
}

// A call where a name is bound to a value.
#[cycle(actions)]
fn call_with(
    alloc: Global,
    pair: &Pair<'_>,
    bound: &mut Bound,
    x: &Name,
    v: Value,
    call: &Call,
    before: usize,
) -> Result<bool, EvalStop>
    requires within { CallIn (length pair.now.asked.pool.now) call.now }
    requires stands { Stands pair.now bound.old }
    requires before { before ≤ length (all_actions pair.now.asked) }
    ensures holds { Tells result (pure.call_holds bounded (bind x.now v (env_at pair.now bound.old)) (acts_at pair.now before) (call_at pair.now.asked.pool.now call.now)) }
    ensures bound { OnOk result (StillBound bound.old bound.new) }
{
    let many = bound.names.len();
    bound.bind(x, v)?;
    let holds = call_holds(alloc, pair, &*bound, call, before)?;
    bound.keep(many);
    Ok(holds)
}

// A call.
#[cycle(actions)]
fn call_holds(
    alloc: Global,
    pair: &Pair<'_>,
    bound: &Bound,
    call: &Call,
    before: usize,
) -> Result<bool, EvalStop>
    requires within { CallIn (length pair.now.asked.pool.now) call.now }
    requires stands { Stands pair.now bound.now }
    requires before { before ≤ length (all_actions pair.now.asked) }
    ensures { Tells result (pure.call_holds bounded (env_at pair.now bound.now) (acts_at pair.now before) (call_at pair.now.asked.pool.now call.now)) }
{
    match call {
        Call::Bare(title) => called(alloc, pair, title, None, before),
        Call::With(title, e) => {
            let v = value(alloc, pair, bound, *e)?;
            called(alloc, pair, title, Some(v), before)
        }
    }
}
