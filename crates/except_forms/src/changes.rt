//! A value with another one at the end of a path, changed where it is.

ghost use Rattle.std.specs.Prelude.{◌≡◌, ◌<◌, slice_set, length, IfOk};
ghost use Rattle.tla_value.specs.Value.{fun, values_in};
ghost use Rattle.tla_value.specs.Limits.{bounded};
ghost use Rattle.tla_value.specs.Stops.{function_at};
ghost use Rattle.tla_value.specs.ValueOf.{IsStored};
ghost use Rattle.value_forms.specs.Gives.{Tells, Gives};
ghost use Rattle.except_forms.specs.Changes.{reached_change};

use std::mem::replace;
use tla_token::Place;
use tla_value::build::{DEEPEST, depth_of};
use tla_value::fault::FaultKind;
use tla_value::stop::EvalStop;
use tla_value::value::{Kind, Value, Values};

// The domain of a function, and its value at each member of it, taken out of it.
fn parts_of(at: Place, f: Value) -> Result<(Vec<Value>, Vec<Value>), EvalStop>
    ensures parts { Gives (λ p. (values_in p.0.items, values_in p.1.items)) result (function_at at f) }
    ensures stored { IfOk result (λ p. IsStored (fun (values_in p.0.items) (values_in p.1.items))) }
{
    match f.kind {
        Kind::Fun(domain, values) => Ok((domain.items, values.items)),
        Kind::Bool(_) => Err(EvalStop::Fault(FaultKind::NotFunction, at)),
        Kind::Int(_) => Err(EvalStop::Fault(FaultKind::NotFunction, at)),
        Kind::Text(_) => Err(EvalStop::Fault(FaultKind::NotFunction, at)),
        Kind::Model(_) => Err(EvalStop::Fault(FaultKind::NotFunction, at)),
        Kind::Set(_) => Err(EvalStop::Fault(FaultKind::NotFunction, at)),
    }
}

// A function by its domain and its values.
fn whole(domain: Vec<Value>, values: Vec<Value>) -> Value
    requires { IsStored (fun (values_in domain.items) (values_in values.items)) }
    ensures { result ≡ fun (values_in domain.items) (values_in values.items) }
{
    Value {
        kind: Kind::Fun(Values { items: domain }, Values { items: values }),
    }
}

// A function with another value in one place.
fn with_value(
    at: Place,
    domain: Vec<Value>,
    mut values: Vec<Value>,
    i: usize,
    new: Value,
) -> Result<Value, EvalStop>
    requires function { IsStored (fun (values_in domain.items) (values_in values.items)) }
    requires place { i < length values.items }
    ensures { Tells result (bounded at (fun (values_in domain.items) (values_in (slice_set values.items i new)))) }
{
    if depth_of(&new) >= DEEPEST {
        return Err(EvalStop::Limit(at));
    }
    values[i] = new;
    Ok(whole(domain, values))
}

/// A value with `v` at the end of a path; an argument outside a domain changes nothing.
///
/// # Errors
///
/// Where the path goes into a value that isn't a function, and where the new value is past the limits.
#[cycle(changed)]
pub fn changed_at(at: Place, path: &[Value], v: Value, old: Value) -> Result<Value, EvalStop>
    ensures { Tells result (reached_change at path.now v old) }
{
    if path.is_empty() {
        return Ok(v);
    }
    let (domain, values) = parts_of(at, old)?;
    changed_in(at, path, v, domain, values)
}

// A function with `v` at the end of a path that goes into it.
#[cycle(changed)]
fn changed_in(
    at: Place,
    path: &[Value],
    v: Value,
    domain: Vec<Value>,
    mut values: Vec<Value>,
) -> Result<Value, EvalStop>
    requires path { 0 < length path.now }
    requires function { IsStored (fun (values_in domain.items) (values_in values.items)) }
    ensures { Tells result (reached_change at path.now v (fun (values_in domain.items) (values_in values.items))) }
{
    match domain.binary_search(&path[0]) {
        Ok(i) => {
            let old = replace(&mut values[i], Value::truth(false));
            let new = changed_at(at, &path[1..], v, old)?;
            with_value(at, domain, values, i, new)
        }
        Err(_) => Ok(whole(domain, values)),
    }
}
