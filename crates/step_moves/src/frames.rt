//! Records on the stack, and the stack ("A PlusCal User's Manual", section 3.4, procedures).

ghost use Rattle.std.specs.Prelude.{◌≡◌, ◌∷◌, ◌++◌, codes, OnOk, IfOk};
ghost use Rattle.tla_value.specs.Limits.{bounded};
ghost use Rattle.tla_value.specs.Order.{seq_from, record_from};
ghost use Rattle.tla_value.specs.Value as pure;
ghost use Rattle.value_forms.specs.Gives.{Tells};

use function_forms::records::record;
use std::alloc::{AllocError, Global};
use tla_token::Place;
use tla_tree::Name;
use tla_value::stop::EvalStop;
use tla_value::value::Value;
use value_forms::made::{add_all, copies, tuple};

// Adds names.
fn add_names(all: &mut Vec<Name>, names: &[Name]) -> Result<(), AllocError>
    ensures { OnOk result (all.new.items ≡ all.old.items ++ names.now) }
{
    for name in names {
        all.push(name.copied()?)?;
    }
    Ok(())
}

/// The record of a call of the procedure with this title: where it returns to, and the values of these names.
///
/// # Errors
///
/// For want of memory, and exactly where it is past the limits.
pub fn frame(
    alloc: Global,
    at: Place,
    title: &[u8],
    names: &[Name],
    back: Value,
    olds: &[Value],
) -> Result<Value, EvalStop>
    ensures { Tells result (bounded at (record_from (codes "procedure" ∷ codes "pc" ∷ names.now) (pure.text title.now ∷ back ∷ olds.now))) }
{
    let mut fields = Vec::new(alloc);
    fields.push(Name::new(Vec::from_slice(alloc, b"procedure")?))?;
    fields.push(Name::new(Vec::from_slice(alloc, b"pc")?))?;
    add_names(&mut fields, names)?;
    let mut values = Vec::new(alloc);
    values.push(Value::text(Name::new(Vec::from_slice(alloc, title)?)))?;
    values.push(back)?;
    add_all(alloc, &mut values, olds)?;
    record(alloc, at, &fields, &values)
}

/// A stack with one record more.
///
/// # Errors
///
/// For want of memory, and exactly where it is past the limits.
pub fn pushed(alloc: Global, at: Place, front: Value, frames: &[Value]) -> Result<Value, EvalStop>
    ensures { Tells result (bounded at (seq_from (front ∷ frames.now))) }
{
    let mut all = Vec::new(alloc);
    all.push(front)?;
    add_all(alloc, &mut all, frames)?;
    tuple(alloc, at, all)
}

/// A stack of these records. They are some of a stack, so they aren't past the limits.
///
/// # Errors
///
/// Only for want of memory.
pub fn stack_of(alloc: Global, at: Place, frames: &[Value]) -> Result<Value, AllocError>
    ensures { IfOk result (λ r. r ≡ seq_from frames.now) }
{
    let all = copies(alloc, frames)?;
    match tuple(alloc, at, all) {
        Ok(stack) => Ok(stack),
        Err(_) => Err(AllocError),
    }
}
