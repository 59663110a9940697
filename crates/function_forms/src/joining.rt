//! Sequences that grow where they are: the new elements come behind those that are there.

ghost use Rattle.std.specs.Prelude.{◌≡◌, ◌<◌, ◌≤◌, ◌+◌, ◌∷◌, [], ◌++◌, length, OnOk, IfOk};
ghost use Rattle.tla_token.specs.Limits.{most_members};
ghost use Rattle.tla_tree.specs.declared.op.Op.TheVariants as op;
ghost use Rattle.tla_tree.specs.Tree.{operator};
ghost use Rattle.tla_value.specs.Value.{values_in};
ghost use Rattle.tla_value.specs.Order.{numbers_from, seq_from};
ghost use Rattle.tla_value.specs.Limits.{bounded};
ghost use Rattle.tla_value.specs.Stops.{sequence_at};
ghost use Rattle.tla_value.specs.Strict.{strict_value};
ghost use Rattle.tla_value.specs.Standard as standard;
ghost use Rattle.tla_value.specs.Standard.{standard_value};
ghost use Rattle.tla_value.specs.ValueOf.{IsStored};
ghost use Rattle.value_forms.specs.Gives.{Tells, Gives};

use crate::sequences::{elements_of, is_numbered};
use std::alloc::{AllocError, Global};
use tla_token::Place;
use tla_value::build::{DEEPEST, MOST_MEMBERS, depth_in, depth_of};
use tla_value::fault::FaultKind;
use tla_value::stop::EvalStop;
use tla_value::value::{Kind, Value, Values, copied};

// The places of a sequence, which are `1..n`, and the element at each, taken out of it.
fn parts_of(at: Place, s: Value) -> Result<(Vec<Value>, Vec<Value>), EvalStop>
    ensures elements { Gives (λ p. p.1.items) result (sequence_at at s) }
    ensures numbered { IfOk result (λ p. values_in p.0.items ≡ numbers_from 1 p.1.items) }
    ensures stored { IfOk result (λ p. IsStored (seq_from p.1.items)) }
{
    match s.kind {
        Kind::Fun(places, elements) => {
            if is_numbered(&places.items, &elements.items) {
                Ok((places.items, elements.items))
            } else {
                Err(EvalStop::Fault(FaultKind::NotSequence, at))
            }
        }
        Kind::Bool(_) => Err(EvalStop::Fault(FaultKind::NotSequence, at)),
        Kind::Int(_) => Err(EvalStop::Fault(FaultKind::NotSequence, at)),
        Kind::Text(_) => Err(EvalStop::Fault(FaultKind::NotSequence, at)),
        Kind::Model(_) => Err(EvalStop::Fault(FaultKind::NotSequence, at)),
        Kind::Set(_) => Err(EvalStop::Fault(FaultKind::NotSequence, at)),
    }
}

// The sequence of some elements, by its places and these.
fn whole(places: Vec<Value>, elements: Vec<Value>) -> Value
    requires numbered { values_in places.items ≡ numbers_from 1 elements.items }
    requires stored { IsStored (seq_from elements.items) }
    ensures { result ≡ seq_from elements.items }
{
    Value {
        kind: Kind::Fun(Values { items: places }, Values { items: elements }),
    }
}

// One more element, and its place.
fn add_element(
    places: &mut Vec<Value>,
    elements: &mut Vec<Value>,
    e: Value,
) -> Result<(), AllocError>
    requires numbered { values_in places.old.items ≡ numbers_from 1 elements.old.items }
    requires few { length elements.old.items < most_members }
    ensures elements { OnOk result (elements.new.items ≡ elements.old.items ++ e ∷ []) }
    ensures numbered { OnOk result (values_in places.new.items ≡ numbers_from 1 elements.new.items) }
{
    places.push(Value::int((elements.len() + 1) as i128))?;
    elements.push(e)?;
    Ok(())
}

// More elements, and their places.
fn add_elements(
    alloc: Global,
    places: &mut Vec<Value>,
    elements: &mut Vec<Value>,
    more: &[Value],
) -> Result<(), AllocError>
    requires numbered { values_in places.old.items ≡ numbers_from 1 elements.old.items }
    requires few { length elements.old.items + length more.now ≤ most_members }
    ensures elements { OnOk result (elements.new.items ≡ elements.old.items ++ more.now) }
    ensures numbered { OnOk result (values_in places.new.items ≡ numbers_from 1 elements.new.items) }
{
    for e in more {
        add_element(places, elements, copied(alloc, e)?)?;
    }
    Ok(())
}

// The sequence with more elements.
fn longer(
    alloc: Global,
    at: Place,
    mut places: Vec<Value>,
    mut elements: Vec<Value>,
    more: &[Value],
) -> Result<Value, EvalStop>
    requires numbered { values_in places.items ≡ numbers_from 1 elements.items }
    requires stored { IsStored (seq_from elements.items) }
    ensures { Tells result (bounded at (seq_from (elements.items ++ more.now))) }
{
    if elements.len() + more.len() > MOST_MEMBERS {
        return Err(EvalStop::Limit(at));
    }
    if depth_in(more) >= DEEPEST {
        return Err(EvalStop::Limit(at));
    }
    add_elements(alloc, &mut places, &mut elements, more)?;
    Ok(whole(places, elements))
}

// The sequence with one more element.
fn with_last(
    at: Place,
    mut places: Vec<Value>,
    mut elements: Vec<Value>,
    e: Value,
) -> Result<Value, EvalStop>
    requires numbered { values_in places.items ≡ numbers_from 1 elements.items }
    requires stored { IsStored (seq_from elements.items) }
    ensures { Tells result (bounded at (seq_from (elements.items ++ e ∷ []))) }
{
    if elements.len() >= MOST_MEMBERS {
        return Err(EvalStop::Limit(at));
    }
    if depth_of(&e) >= DEEPEST {
        return Err(EvalStop::Limit(at));
    }
    add_element(&mut places, &mut elements, e)?;
    Ok(whole(places, elements))
}

/// `s \o t`, which is `s` with the elements of `t` behind its own.
///
/// # Errors
///
/// For want of memory, where `s` or `t` isn't a sequence, and where the sequence is past the limits.
pub fn extended(alloc: Global, at: Place, s: Value, t: &Value) -> Result<Value, EvalStop>
    ensures { Tells result (strict_value bounded (operator op.Concat) at (s ∷ t.now ∷ [])) }
{
    let (places, elements) = parts_of(at, s)?;
    let more = elements_of(at, t)?;
    longer(alloc, at, places, elements, more)
}

/// `Append(s, e)`, which is `s` with `e` behind its elements.
///
/// # Errors
///
/// For want of memory, where `s` isn't a sequence, and where the sequence is past the limits.
pub fn pushed(alloc: Global, at: Place, s: Value, e: Value) -> Result<Value, EvalStop>
    ensures { Tells result (standard_value bounded standard.appended at (s ∷ e ∷ [])) }
{
    let (places, elements) = parts_of(at, s)?;
    with_last(at, places, elements, e)
}
