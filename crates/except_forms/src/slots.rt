//! The slots of an `EXCEPT`, one after the other.

ghost use Rattle.std.specs.Prelude.{◌≡◌, reverse};
ghost use Rattle.tla_tree.specs.Tree.{except};
ghost use Rattle.tla_pool.specs.FormOf.{step_of, steps_of, slot_of, slots_of};
ghost use Rattle.tla_value.specs.Limits.{bounded};
ghost use Rattle.tla_value.specs.Strict.{next_slot as slot_parts, updated as updated_value, strict_value};
ghost use Rattle.value_forms.specs.Gives.{Tells, Gives};
ghost use Rattle.except_forms.specs.Changes.{next_key as key_and_rest, changed_slot};

use crate::changes::changed_at;
use std::alloc::Global;
use tla_pool::form::{Slot, Step};
use tla_token::Place;
use tla_value::fault::FaultKind;
use tla_value::stop::EvalStop;
use tla_value::value::Value;

// The argument at a step of a path: a field, or the next of the values that are left, which is the last in the row.
fn next_key(at: Place, step: &Step, left: &mut Vec<Value>) -> Result<Value, EvalStop>
    ensures { Gives (λ k. (k, reverse left.new.items)) result (key_and_rest at (step_of step.now) (reverse left.old.items)) }
{
    match step {
        Step::Index => match left.pop() {
            Some(key) => Ok(key),
            None => Err(EvalStop::Fault(FaultKind::NotFunction, at)),
        },
        Step::Field(name) => Ok(Value::text(name.copied()?)),
    }
}

// The path of a slot and its right side, taken from the values that are left.
fn next_slot(
    alloc: Global,
    slot: &Slot,
    left: &mut Vec<Value>,
) -> Result<(Vec<Value>, Value), EvalStop>
    ensures { Gives (λ r. (r.0.items, r.1, reverse left.new.items)) result (slot_parts slot.now.place (steps_of slot.now.path.items) (reverse left.old.items)) }
{
    let mut path = Vec::new(alloc);
    for step in &slot.path {
        path.push(next_key(slot.place, step, left)?)?;
    }
    match left.pop() {
        Some(v) => Ok((path, v)),
        None => Err(EvalStop::Fault(FaultKind::NotFunction, slot.place)),
    }
}

// A value, changed as a slot says.
fn with_slot(
    alloc: Global,
    slot: &Slot,
    left: &mut Vec<Value>,
    old: Value,
) -> Result<Value, EvalStop>
    ensures { Gives (λ r. (r, reverse left.new.items)) result (changed_slot (slot_of slot.now) (reverse left.old.items) old) }
{
    let (path, v) = next_slot(alloc, slot, left)?;
    changed_at(slot.place, path.as_slice(), v, old)
}

// A value, changed as each slot says.
fn updated(
    alloc: Global,
    slots: &[Slot],
    mut left: Vec<Value>,
    old: Value,
) -> Result<Value, EvalStop>
    ensures { Tells result (updated_value bounded (slots_of slots.now) (reverse left.items) old) }
{
    let mut value = old;
    for slot in slots {
        value = with_slot(alloc, slot, &mut left, value)?;
    }
    Ok(value)
}

/// `[f EXCEPT ![a].b = e, ..]` by the value of f, and then for each slot those of its arguments and its right side.
///
/// # Errors
///
/// For want of memory, where a path goes into a value that isn't a function, and where the value after
/// a slot is past the limits.
pub fn excepted(
    alloc: Global,
    at: Place,
    slots: &[Slot],
    mut values: Vec<Value>,
) -> Result<Value, EvalStop>
    ensures { Tells result (strict_value bounded (except (slots_of slots.now)) at values.items) }
{
    values.reverse();
    match values.pop() {
        Some(old) => updated(alloc, slots, values, old),
        None => Err(EvalStop::Fault(FaultKind::NotFunction, at)),
    }
}
