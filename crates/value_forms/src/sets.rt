//! Sets of members in ascending order, and two of them merged.

ghost use Rattle.std.specs.Prelude.{◌≡◌, ◌∷◌, [], ◌++◌, IfOk, OnOk, if◌then◌else◌};
ghost use Rattle.tla_tree.specs.declared.op.Op.TheVariants as op;
ghost use Rattle.tla_tree.specs.Tree.{operator};
ghost use Rattle.tla_value.specs.Value.{set, no_values, values_in};
ghost use Rattle.tla_value.specs.Order.{IsAscending};
ghost use Rattle.tla_value.specs.Limits.{bounded};
ghost use Rattle.tla_value.specs.Stops.{tested};
ghost use Rattle.tla_value.specs.Sets.{all_in};
ghost use Rattle.tla_value.specs.Strict.{strict_value, operator_test};
ghost use Rattle.value_forms.specs.Gives.{Tells};
ghost use Rattle.value_forms.specs.Parts.{AreParts, follow};
ghost use Rattle.value_forms.specs.Merges.{merged as merge_of, merge_value, takes as is_taken, foremost as first_of_both, left_step as left_moves, right_step as right_moves};

use crate::kinds::members_of;
use std::alloc::{AllocError, Global};
use std::cmp::Ordering;
use tla_token::Place;
use tla_value::build::{MOST_MEMBERS, has};
use tla_value::compare::compare;
use tla_value::stop::EvalStop;
use tla_value::value::{Kind, Value, Values, copied};

/// The set of some values in ascending order, which are parts of values in memory.
///
/// # Errors
///
/// Where they are too many.
pub fn set_in_order(at: Place, members: Vec<Value>) -> Result<Value, EvalStop>
    requires ascending { IsAscending (values_in members.items) }
    requires parts { AreParts (values_in members.items) }
    ensures { Tells result (bounded at (set (values_in members.items))) }
{
    if members.len() > MOST_MEMBERS {
        return Err(EvalStop::Limit(at));
    }
    Ok(Value {
        kind: Kind::Set(Values { items: members }),
    })
}

/// Which members of two sets are taken.
#[derive(Clone, Copy)]
pub enum Merge {
    /// Those of one of them: `\cup`.
    Either,
    /// Those of both: `\cap`.
    Both,
    /// Those of the first alone: `\`.
    First,
}

// Whether the first of two members is taken that stand so.
fn takes(m: Merge, order: Ordering) -> bool
    ensures { result ≡ is_taken m order }
{
    match m {
        Merge::Either => true,
        Merge::Both => match order {
            Ordering::Equal => true,
            Ordering::Less => false,
            Ordering::Greater => false,
        },
        Merge::First => match order {
            Ordering::Less => true,
            Ordering::Equal => false,
            Ordering::Greater => false,
        },
    }
}

// The member that comes first.
fn foremost<'x>(order: Ordering, v: &'x Value, w: &'x Value) -> &'x Value
    ensures { result.now ≡ first_of_both order v.now w.now }
{
    match order {
        Ordering::Less => v,
        Ordering::Equal => v,
        Ordering::Greater => w,
    }
}

// How many members of the first set are done with.
fn left_step(order: Ordering) -> usize
    ensures { result ≡ left_moves order }
{
    match order {
        Ordering::Less => 1,
        Ordering::Equal => 1,
        Ordering::Greater => 0,
    }
}

// How many members of the second set are done with.
fn right_step(order: Ordering) -> usize
    ensures { result ≡ right_moves order }
{
    match order {
        Ordering::Less => 0,
        Ordering::Equal => 1,
        Ordering::Greater => 1,
    }
}

// One more value, if it is taken.
fn add_if(alloc: Global, all: &mut Vec<Value>, taken: bool, v: &Value) -> Result<(), AllocError>
    ensures { OnOk result (all.new.items ≡ all.old.items ++ (if taken then v.now ∷ [] else [])) }
{
    if taken {
        all.push(copied(alloc, v)?)?;
    }
    Ok(())
}

// The values that are left, if they are taken.
fn with_rest(
    alloc: Global,
    mut all: Vec<Value>,
    taken: bool,
    rest: &[Value],
) -> Result<Vec<Value>, AllocError>
    ensures { IfOk result (λ r. values_in r.items ≡ follow (values_in all.items) (if taken then values_in rest.now else no_values)) }
{
    if !taken {
        return Ok(all);
    }
    for v in rest {
        all.push(copied(alloc, v)?)?;
    }
    Ok(all)
}

/// The members of two sets that are taken, in ascending order.
///
/// # Errors
///
/// Only for want of memory.
pub fn merged(alloc: Global, m: Merge, a: &[Value], b: &[Value]) -> Result<Vec<Value>, AllocError>
    requires left { IsAscending (values_in a.now) }
    requires right { IsAscending (values_in b.now) }
    ensures { IfOk result (λ r. values_in r.items ≡ merge_of m (values_in a.now) (values_in b.now)) }
{
    let mut all = Vec::new(alloc);
    let mut i = 0;
    let mut j = 0;
    loop {
        if i >= a.len() {
            return with_rest(alloc, all, takes(m, Ordering::Greater), &b[j..]);
        }
        if j >= b.len() {
            return with_rest(alloc, all, takes(m, Ordering::Less), &a[i..]);
        }
        let v = &a[i];
        let w = &b[j];
        let order = compare(v, w);
        add_if(alloc, &mut all, takes(m, order), foremost(order, v, w))?;
        i += left_step(order);
        j += right_step(order);
    }
}

fn combined(alloc: Global, at: Place, m: Merge, a: &Value, b: &Value) -> Result<Value, EvalStop>
    ensures { Tells result (merge_value m at a.now b.now) }
{
    let ss = members_of(at, a)?;
    let ts = members_of(at, b)?;
    let all = merged(alloc, m, ss, ts)?;
    set_in_order(at, all)
}

/// `a \cup b`.
///
/// # Errors
///
/// For want of memory, where `a` or `b` isn't a set, and where the union is past the limits.
pub fn union(alloc: Global, at: Place, a: &Value, b: &Value) -> Result<Value, EvalStop>
    ensures { Tells result (strict_value bounded (operator op.Cup) at (a.now ∷ b.now ∷ [])) }
{
    combined(alloc, at, Merge::Either, a, b)
}

/// `a \cap b`.
///
/// # Errors
///
/// For want of memory, and where `a` or `b` isn't a set.
pub fn intersection(alloc: Global, at: Place, a: &Value, b: &Value) -> Result<Value, EvalStop>
    ensures { Tells result (strict_value bounded (operator op.Cap) at (a.now ∷ b.now ∷ [])) }
{
    combined(alloc, at, Merge::Both, a, b)
}

/// `a \ b`.
///
/// # Errors
///
/// For want of memory, and where `a` or `b` isn't a set.
pub fn without(alloc: Global, at: Place, a: &Value, b: &Value) -> Result<Value, EvalStop>
    ensures { Tells result (strict_value bounded (operator op.Without) at (a.now ∷ b.now ∷ [])) }
{
    combined(alloc, at, Merge::First, a, b)
}

/// Whether all values of one list are in another.
pub fn all_within(a: &[Value], b: &[Value]) -> bool
    requires left { IsAscending (values_in a.now) }
    requires right { IsAscending (values_in b.now) }
    ensures { result ≡ all_in (values_in a.now) (values_in b.now) }
{
    let mut i = 0;
    let mut j = 0;
    loop {
        if i >= a.len() {
            return true;
        }
        if j >= b.len() {
            return false;
        }
        let v = &a[i];
        let w = &b[j];
        let order = compare(v, w);
        if order.is_lt() {
            return false;
        }
        i += left_step(order);
        j += 1;
    }
}

/// `a \subseteq b`.
///
/// # Errors
///
/// Where `a` or `b` isn't a set.
pub fn subset_of(at: Place, a: &Value, b: &Value) -> Result<Value, EvalStop>
    ensures { Tells result (strict_value bounded (operator op.SubsetEq) at (a.now ∷ b.now ∷ [])) }
{
    let ss = members_of(at, a)?;
    let ts = members_of(at, b)?;
    Ok(Value::truth(all_within(ss, ts)))
}

/// Whether `v` is a member of `s`: `v \in s`.
///
/// # Errors
///
/// Where `s` isn't a set.
pub fn member(at: Place, v: &Value, s: &Value) -> Result<bool, EvalStop>
    ensures { Tells result (tested at v.now (Ok s.now)) }
{
    let members = members_of(at, s)?;
    Ok(has(members, v))
}

/// Whether `v` is a member of `SUBSET s`, which isn't listed.
///
/// # Errors
///
/// Where `s` isn't a set.
pub fn member_of_subsets(at: Place, v: &Value, s: &Value) -> Result<bool, EvalStop>
    ensures { Tells result (operator_test bounded op.Subset at at v.now (s.now ∷ [])) }
{
    let members = members_of(at, s)?;
    match &v.kind {
        Kind::Set(vs) => Ok(all_within(&vs.items, members)),
        _ => Ok(false),
    }
}
