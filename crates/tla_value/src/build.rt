//! Sets and functions in memory: made of values in any order, within the limits of a run, and
//! looked up.

ghost use Rattle.std.specs.Prelude.{◌≡◌, ◌≤◌, pos};
ghost use Rattle.std.specs.Option.{option_copied};
ghost use Rattle.tla_token.specs.Limits.{deepest_value};
ghost use Rattle.tla_value.specs.Value.{int, set, values_in};
ghost use Rattle.tla_value.specs.Order.{count, set_from, seq_from, holds, found_at, IsAscending};
ghost use Rattle.tla_value.specs.Limits.{depth, depths, bounded};
ghost use Rattle.tla_value.specs.ValueOf.{IsStored, AreStored};
ghost use Rattle.tla_value.specs.Answers.{Answers};

use crate::stop::EvalStop;
use crate::value::{Kind, Value, Values};
use std::alloc::Global;
use tla_token::Place;

/// How many members a set, or the domain of a function, may have.
pub const MOST_MEMBERS: usize = 65_536;

/// How deep a value may be nested.
pub const DEEPEST: usize = 200;

/// How deep a value is nested.
#[cycle(depth)]
pub fn depth_of(v: &Value) -> usize
    ensures depth { result ≡ depth v.now }
    ensures small { result ≤ deepest_value }
    ensures stored { IsStored v.now }
{
    match &v.kind {
        Kind::Bool(_) => 0,
        Kind::Int(_) => 0,
        Kind::Text(_) => 0,
        Kind::Model(_) => 0,
        Kind::Set(vs) => depth_in(&vs.items) + 1,
        Kind::Fun(ds, vs) => {
            let left = depth_in(&ds.items);
            let right = depth_in(&vs.items);
            left.max(right) + 1
        }
    }
}

/// How deep the deepest of some values is nested.
#[cycle(depth)]
pub fn depth_in(values: &[Value]) -> usize
    ensures depth { result ≡ depths (values_in values.now) }
    ensures small { result ≤ deepest_value }
    ensures stored { AreStored (values_in values.now) }
{
    let mut deep = 0;
    for v in values {
        deep = depth_of(v).max(deep);
    }
    deep
}

/// The set of some values, in any order and repeated. It is reached at a place, for the case that it is past the limits.
///
/// # Errors
///
/// For want of memory, and exactly where the set is past the limits of a run.
pub fn set_of(at: Place, mut values: Vec<Value>) -> Result<Value, EvalStop>
    ensures { Answers result (bounded at (set (set_from values.items))) }
{
    values.sort()?;
    values.dedup();
    if values.len() > MOST_MEMBERS {
        return Err(EvalStop::Limit(at));
    }
    if depth_in(&values) >= DEEPEST {
        return Err(EvalStop::Limit(at));
    }
    Ok(Value {
        kind: Kind::Set(Values { items: values }),
    })
}

/// Whether a value is a member of a set.
pub fn has(members: &[Value], v: &Value) -> bool
    requires { IsAscending (values_in members.now) }
    ensures { result ≡ holds v.now (values_in members.now) }
{
    members.binary_search(v).is_ok()
}

/// The value of a function at an argument, by its domain and the value at each member of it; `None`
/// outside the domain.
pub fn at<'x>(domain: &'x [Value], values: &'x [Value], v: &'x Value) -> Option<&'x Value>
    requires ascending { IsAscending (values_in domain.now) }
    requires each { count (values_in domain.now) ≡ count (values_in values.now) }
    ensures { option_copied result ≡ found_at (values_in domain.now) (values_in values.now) v.now }
{
    match domain.binary_search(v) {
        Ok(i) => Some(&values[i]),
        Err(_) => None,
    }
}

// A count as a value.
fn number(n: usize) -> Value
    ensures { result ≡ int (pos n) }
{
    Value::int(n as i128)
}

/// The tuple of some values: the function on `1..n` that gives them in turn. It is reached at a
/// place, for the case that it is past the limits.
///
/// # Errors
///
/// For want of memory, and exactly where the tuple is past the limits of a run.
pub fn seq_of(alloc: Global, at: Place, values: Vec<Value>) -> Result<Value, EvalStop>
    ensures { Answers result (bounded at (seq_from values.items)) }
{
    if values.len() > MOST_MEMBERS {
        return Err(EvalStop::Limit(at));
    }
    if depth_in(&values) >= DEEPEST {
        return Err(EvalStop::Limit(at));
    }
    let mut numbers = Vec::new(alloc);
    for i in 0..values.len() {
        numbers.push(number(i + 1))?;
    }
    Ok(Value {
        kind: Kind::Fun(Values { items: numbers }, Values { items: values }),
    })
}
