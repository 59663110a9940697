//! Records, and functions of arguments in any order.

ghost use Rattle.std.specs.Prelude.{◌≡◌, IfOk, length, map};
ghost use Rattle.std.specs.Option.{option_copied};
ghost use Rattle.tla_tree.specs.Tree.{fields};
ghost use Rattle.tla_value.specs.Value as pure;
ghost use Rattle.tla_value.specs.Value.{values_in};
ghost use Rattle.tla_value.specs.Order.{set_from, found_at, pairs_of, values_at, fun_from};
ghost use Rattle.tla_value.specs.Limits.{bounded};
ghost use Rattle.tla_value.specs.Strict.{strict_value};
ghost use Rattle.value_forms.specs.Gives.{Tells};

use crate::functions::add_found;
use std::alloc::{AllocError, Global};
use tla_token::Place;
use tla_tree::Name;
use tla_value::compare::compare;
use tla_value::stop::EvalStop;
use tla_value::value::Value;
use value_forms::made::{copies, function};

/// Some values in ascending order, each once.
///
/// # Errors
///
/// Only for want of memory.
pub fn ordered(mut values: Vec<Value>) -> Result<Vec<Value>, AllocError>
    ensures { IfOk result (λ r. values_in r.items ≡ set_from values.items) }
{
    values.sort()?;
    values.dedup();
    Ok(values)
}

/// The value beside the first of some keys that is this one.
pub fn first_beside<'x>(keys: &[Value], values: &'x [Value], d: &Value) -> Option<&'x Value>
    ensures { option_copied result ≡ found_at (values_in keys.now) (values_in values.now) d.now }
{
    for i in 0..keys.len() {
        if i >= values.len() {
            return None;
        }
        if compare(d, &keys[i]).is_eq() {
            return Some(&values[i]);
        }
    }
    None
}

// The values beside the members of a domain.
fn values_beside(
    alloc: Global,
    keys: &[Value],
    values: &[Value],
    domain: &[Value],
) -> Result<Vec<Value>, AllocError>
    ensures { IfOk result (λ r. values_in r.items ≡ values_at (pairs_of (values_in keys.now) (values_in values.now)) (values_in domain.now)) }
{
    let mut all = Vec::new(alloc);
    for d in domain {
        add_found(alloc, &mut all, first_beside(keys, values, d))?;
    }
    Ok(all)
}

/// The function of some arguments, in any order, and the values beside them; of a repeated argument
/// the first counts.
///
/// # Errors
///
/// For want of memory, and where the function is past the limits.
pub fn function_from(
    alloc: Global,
    at: Place,
    keys: &[Value],
    values: &[Value],
) -> Result<Value, EvalStop>
    requires { length keys.now ≡ length values.now }
    ensures { Tells result (bounded at (fun_from (pairs_of (values_in keys.now) (values_in values.now)))) }
{
    let domain = ordered(copies(alloc, keys)?)?;
    let results = values_beside(alloc, keys, values, &domain)?;
    function(at, domain, results)
}

/// Names as strings.
///
/// # Errors
///
/// Only for want of memory.
pub fn strings(alloc: Global, names: &[Name]) -> Result<Vec<Value>, AllocError>
    ensures { IfOk result (λ r. r.items ≡ map pure.text names.now) }
{
    let mut all = Vec::new(alloc);
    for name in names {
        all.push(Value::text(name.copied()?))?;
    }
    Ok(all)
}

/// `[x |-> a, y |-> b]`.
///
/// # Errors
///
/// For want of memory, and where the record is past the limits.
pub fn record(alloc: Global, at: Place, names: &[Name], values: &[Value]) -> Result<Value, EvalStop>
    ensures { Tells result (strict_value bounded (fields names.now) at values.now) }
{
    let many = names.len().min(values.len());
    let keys = strings(alloc, &names[..many])?;
    function_from(alloc, at, &keys, &values[..many])
}
