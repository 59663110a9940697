//! Values of expressions in a pair of states, where names are bound.

ghost use Rattle.std.specs.Prelude.{◌≡◌, ◌<◌, [], length, map, take, cond, true, OnOk};
ghost use Rattle.std.specs.Option.{option_copied};
ghost use Rattle.tla_tree.specs.Pool.{at, AllBelow};
ghost use Rattle.tla_value.specs.Value.{values_in};
ghost use Rattle.tla_value.specs.Limits.{bounded};
ghost use Rattle.tla_value.specs.States.{value_of};
ghost use Rattle.module_tree.specs.Module as tree;
ghost use Rattle.module_tree.specs.ActionTruth as pure;
ghost use Rattle.module_tree.specs.ModuleTruth.{all_hold};
ghost use Rattle.value_forms.specs.Gives.{Gives, Tells};
ghost use Rattle.action_truth.specs.Pairs.{env_at, item_in, Binds, Stands};

use crate::asked::Asked;
use eval_scopes::context::Context;
use std::alloc::{AllocError, Global};
use step_moves::Sight;
use tla_eval::eval::eval_bound;
use tla_tree::{Name, NodeId};
use tla_value::fault::FaultKind;
use tla_value::state::State;
use tla_value::stop::EvalStop;
use tla_value::value::{Kind, Value};
use value_forms::kinds::truth_of;

/// A module, and a pair of states of which it is asked.
#[derive(Clone, Copy)]
pub struct Pair<'a> {
    /// The module.
    pub asked: Asked<'a>,
    /// The state before.
    pub from: &'a State,
    /// The state after.
    pub to: &'a State,
}

/// Names that are bound, each with its value. Of two that are alike the later one counts.
#[derive(Drop)]
pub struct Bound {
    /// The names.
    pub names: Vec<Name>,
    /// Their values.
    pub values: Vec<Value>,
}

impl Bound {
    /// No name is bound.
    pub fn new(alloc: Global) -> Bound
        ensures names { result.names.items ≡ [] }
        ensures values { result.values.items ≡ [] }
    {
        Bound {
            names: Vec::new(alloc),
            values: Vec::new(alloc),
        }
    }

    /// Binds one name more.
    ///
    /// # Errors
    ///
    /// Only for want of memory.
    pub fn bind(&mut self, x: &Name, v: Value) -> Result<(), AllocError>
        ensures { OnOk result (Binds self.old self.new x.now v) }
    {
        self.names.push(x.copied()?)?;
        self.values.push(v)?;
        Ok(())
    }

    /// Keeps the first names alone.
    pub fn keep(&mut self, many: usize)
        ensures names { self.new.names.items ≡ take many self.old.names.items }
        ensures values { self.new.values.items ≡ take many self.old.values.items }
    {
        self.names.truncate(many);
        self.values.truncate(many);
    }
}

/// The value of an expression.
///
/// # Errors
///
/// For want of memory, and exactly where the expression has no value, or one past the limits.
pub fn value(alloc: Global, pair: &Pair<'_>, bound: &Bound, e: NodeId) -> Result<Value, EvalStop>
    requires below { e < length pair.now.asked.pool.now }
    requires stands { Stands pair.now bound.now }
    ensures { Tells result (pure.value_in bounded (env_at pair.now bound.now) (at pair.now.asked.pool.now e)) }
{
    let names = Sight {
        variables: pair.from,
        constants: pair.asked.constants,
    };
    let next = Sight {
        variables: pair.to,
        constants: pair.asked.nothing,
    };
    let next = Some(&next);
    let cx = Context {
        pool: pair.asked.pool,
        names: &names,
        next,
        defs: pair.asked.defs,
    };
    eval_bound(alloc, &cx, e, &bound.names, &bound.values)
}

/// Whether an expression is true.
///
/// # Errors
///
/// As of `value`, and exactly where its value is no truth value.
pub fn truth(alloc: Global, pair: &Pair<'_>, bound: &Bound, e: NodeId) -> Result<bool, EvalStop>
    requires below { e < length pair.now.asked.pool.now }
    requires stands { Stands pair.now bound.now }
    ensures { Tells result (pure.truth_in bounded (env_at pair.now bound.now) (at pair.now.asked.pool.now e)) }
{
    let v = value(alloc, pair, bound, e)?;
    truth_of(pair.asked.pool.node(e).place, &v)
}

/// The members of a set, in canonical order.
///
/// # Errors
///
/// As of `value`, and exactly where its value is no set.
pub fn members(
    alloc: Global,
    pair: &Pair<'_>,
    bound: &Bound,
    e: NodeId,
) -> Result<Vec<Value>, EvalStop>
    requires below { e < length pair.now.asked.pool.now }
    requires stands { Stands pair.now bound.now }
    ensures { Gives (λ r. values_in r.items) result (pure.members_in bounded (env_at pair.now bound.now) (at pair.now.asked.pool.now e)) }
{
    let v = value(alloc, pair, bound, e)?;
    match v.kind {
        Kind::Set(members) => Ok(members.items),
        Kind::Bool(_) | Kind::Int(_) | Kind::Text(_) | Kind::Model(_) | Kind::Fun(_, _) => Err(
            EvalStop::Fault(FaultKind::NotSet, pair.asked.pool.node(e).place),
        ),
    }
}

// Whether there is a value, and it is this one.
fn is_value(found: Option<&Value>, v: &Value) -> bool
    ensures { result ≡ pure.is_value (option_copied found.entry) v.now }
{
    match found {
        Some(w) => w == v,
        None => false,
    }
}

/// Whether a name has a value after, and it is the value of an expression.
///
/// # Errors
///
/// As of `value`.
pub fn is_set(
    alloc: Global,
    pair: &Pair<'_>,
    bound: &Bound,
    x: &Name,
    e: NodeId,
) -> Result<bool, EvalStop>
    requires below { e < length pair.now.asked.pool.now }
    requires stands { Stands pair.now bound.now }
    ensures { Tells result (item_in pair.now (env_at pair.now bound.now) (tree.setting x.now (at pair.now.asked.pool.now e))) }
{
    let v = value(alloc, pair, bound, e)?;
    Ok(is_value(pair.to.get(x), &v))
}

// Whether a name has a value before, and the same one after.
fn is_unchanged(pair: &Pair<'_>, x: &Name) -> bool
    ensures { result ≡ pure.is_unchanged (value_of pair.now.from.now x.now) (value_of pair.now.to.now x.now) }
{
    match pair.from.get(x) {
        Some(v) => is_value(pair.to.get(x), v),
        None => false,
    }
}

/// Whether names have the same values before and after.
pub fn are_unchanged(pair: &Pair<'_>, names: &[Name]) -> bool
    ensures { result ≡ pure.are_unchanged (value_of pair.now.from.now) (value_of pair.now.to.now) names.now }
{
    for x in names {
        let is_same = is_unchanged(pair, x);
        if !is_same {
            return false;
        }
    }
    true
}

/// Whether all of some expressions are true, up to the first that isn't.
///
/// # Errors
///
/// As of `truth`.
pub fn all_true(
    alloc: Global,
    pair: &Pair<'_>,
    bound: &Bound,
    list: &[NodeId],
) -> Result<bool, EvalStop>
    requires below { AllBelow (length pair.now.asked.pool.now) list.now }
    requires stands { Stands pair.now bound.now }
    ensures { Tells result (all_hold bounded (env_at pair.now bound.now) (map (at pair.now.asked.pool.now) list.now)) }
{
    for e in list {
        let holds = truth(alloc, pair, bound, *e)?;
        if !holds {
            return Ok(false);
        }
    }
    Ok(true)
}

/// What is found of a disjunction with one more of its parts.
pub fn or_found(found: bool, holds: bool) -> bool
    ensures { result ≡ cond holds true found }
{
    if holds { true } else { found }
}
