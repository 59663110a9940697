//! Sets, tuples and functions that are made of values.

ghost use Rattle.std.specs.Prelude.{◌≡◌, ◌∷◌, [], ◌++◌, OnOk, IfOk};
ghost use Rattle.tla_tree.specs.Tree.{set_of as listed_set, tuple as listed_tuple};
ghost use Rattle.tla_value.specs.Value.{fun, values_in};
ghost use Rattle.tla_value.specs.Order.{count, IsAscending};
ghost use Rattle.tla_value.specs.Limits.{bounded};
ghost use Rattle.tla_value.specs.Strict.{strict_value};
ghost use Rattle.value_forms.specs.Gives.{Tells};

use std::alloc::{AllocError, Global};
use tla_token::Place;
use tla_value::build::{DEEPEST, MOST_MEMBERS, depth_in, seq_of, set_of};
use tla_value::stop::EvalStop;
use tla_value::value::{Kind, Value, Values, copied};

/// `{a, b, c}`: the set of some values, in any order and repeated.
///
/// # Errors
///
/// For want of memory, and where the set is past the limits.
pub fn set(at: Place, values: Vec<Value>) -> Result<Value, EvalStop>
    ensures { Tells result (strict_value bounded listed_set at values.items) }
{
    set_of(at, values)
}

/// `<<a, b, c>>`.
///
/// # Errors
///
/// For want of memory, and where the tuple is past the limits.
pub fn tuple(alloc: Global, at: Place, values: Vec<Value>) -> Result<Value, EvalStop>
    ensures { Tells result (strict_value bounded listed_tuple at values.items) }
{
    seq_of(alloc, at, values)
}

/// The function with this domain, in ascending order, and these values.
///
/// # Errors
///
/// Where it is past the limits.
pub fn function(at: Place, domain: Vec<Value>, values: Vec<Value>) -> Result<Value, EvalStop>
    requires ascending { IsAscending (values_in domain.items) }
    requires each { count (values_in domain.items) ≡ count (values_in values.items) }
    ensures { Tells result (bounded at (fun (values_in domain.items) (values_in values.items))) }
{
    if domain.len() > MOST_MEMBERS {
        return Err(EvalStop::Limit(at));
    }
    if depth_in(&domain) >= DEEPEST {
        return Err(EvalStop::Limit(at));
    }
    if depth_in(&values) >= DEEPEST {
        return Err(EvalStop::Limit(at));
    }
    Ok(Value {
        kind: Kind::Fun(Values { items: domain }, Values { items: values }),
    })
}

/// Adds the same values once more to a list.
///
/// # Errors
///
/// Only for want of memory.
pub fn add_all(alloc: Global, all: &mut Vec<Value>, more: &[Value]) -> Result<(), AllocError>
    ensures { OnOk result (all.new.items ≡ all.old.items ++ more.now) }
{
    for v in more {
        all.push(copied(alloc, v)?)?;
    }
    Ok(())
}

/// The same values once more.
///
/// # Errors
///
/// Only for want of memory.
pub fn copies(alloc: Global, values: &[Value]) -> Result<Vec<Value>, AllocError>
    ensures { IfOk result (λ r. r.items ≡ values.now) }
{
    let mut all = Vec::new(alloc);
    add_all(alloc, &mut all, values)?;
    Ok(all)
}
