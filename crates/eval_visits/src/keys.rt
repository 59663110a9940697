//! What rows of members are as keys of functions: one member itself, and the tuple of several.

ghost use Rattle.std.specs.Prelude.{◌≡◌, ◌<◌, ◌+◌, drop, length, true};
ghost use Rattle.tla_value.specs.Value.{values_in};
ghost use Rattle.tla_value.specs.Order.{fun_from, pairs_of, IsAscending};
ghost use Rattle.tla_value.specs.Limits.{bounded};
ghost use Rattle.tla_value.specs.Meaning.{key as key_of};
ghost use Rattle.eval_visits.specs.Visits.{bounded_keys};
ghost use Rattle.value_forms.specs.Gives.{Gives, Tells};

use function_forms::records::function_from;
use std::alloc::Global;
use tla_token::Place;
use tla_value::compare::compare;
use tla_value::stop::EvalStop;
use tla_value::value::{Value, Values, copied};
use value_forms::made::{copies, function, tuple};

/// What a row of members is as a key.
///
/// # Errors
///
/// For want of memory, and where the tuple is past the limits.
pub fn key(alloc: Global, at: Place, row: &Values) -> Result<Value, EvalStop>
    ensures { Tells result (bounded at (key_of row.now)) }
{
    let members = row.items.as_slice();
    if members.len() == 1 {
        let v = copied(alloc, &members[0])?;
        return Ok(v);
    }
    let members = copies(alloc, members)?;
    tuple(alloc, at, members)
}

/// What rows of members are as keys.
///
/// # Errors
///
/// For want of memory, and where a tuple is past the limits.
pub fn keys(alloc: Global, at: Place, rows: &[Values]) -> Result<Vec<Value>, EvalStop>
    ensures { Gives (λ v. v.items) result (bounded_keys at rows.now) }
{
    let mut all = Vec::new(alloc);
    for row in rows {
        all.push(key(alloc, at, row)?)?;
    }
    Ok(all)
}

// Whether a value is before the next one.
fn rises(values: &[Value], i: usize) -> bool
    requires { i + 1 < length values.now }
    ensures { result ≡ true → IsAscending (values_in (drop (i + 1) values.now)) → IsAscending (values_in (drop i values.now)) }
{
    compare(&values[i], &values[i + 1]).is_lt()
}

// Whether values are in ascending order, each once.
fn is_ascending(values: &[Value]) -> bool
    ensures { result ≡ true → IsAscending (values_in values.now) }
{
    let mut i = values.len();
    while i > 1 {
        if !rises(values, i - 2) {
            return false;
        }
        i -= 1;
    }
    true
}

/// The function of some keys and the values beside them; of a repeated key the first counts.
///
/// # Errors
///
/// For want of memory, and where the function is past the limits.
pub fn table(
    alloc: Global,
    at: Place,
    keys: Vec<Value>,
    values: Vec<Value>,
) -> Result<Value, EvalStop>
    ensures { Tells result (bounded at (fun_from (pairs_of (values_in keys.items) (values_in values.items)))) }
{
    if keys.len() == values.len() {
        if is_ascending(&keys) {
            return function(at, keys, values);
        }
        return function_from(alloc, at, &keys, &values);
    }
    let many = keys.len().min(values.len());
    function_from(alloc, at, &keys[..many], &values[..many])
}
