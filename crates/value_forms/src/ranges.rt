//! Ranges of integers, which are counted before they are listed.

ghost use Rattle.std.specs.Prelude.{◌≡◌, ◌∷◌, [], ◌^◌, ◌≤◌, ◌≤ℤ◌, ◌+ℤ◌, ◌-ℤ◌, pos, IfOk};
ghost use Rattle.tla_token.specs.Limits.{most_members};
ghost use Rattle.tla_tree.specs.declared.op.Op.TheVariants as op;
ghost use Rattle.tla_tree.specs.Tree.{operator};
ghost use Rattle.tla_value.specs.Value.{set, values_in};
ghost use Rattle.tla_value.specs.Order.{IsAscending};
ghost use Rattle.tla_value.specs.Limits.{bounded};
ghost use Rattle.tla_value.specs.Sets.{natural, integers, range as integer_range};
ghost use Rattle.tla_value.specs.Strict.{strict_value};
ghost use Rattle.value_forms.specs.Gives.{Tells};
ghost use Rattle.value_forms.specs.Parts.{AreParts};
ghost use Rattle.value_forms.specs.Counts.{Counts};

use crate::kinds::int_of;
use crate::sets::set_in_order;
use std::alloc::{AllocError, Global};
use tla_token::Place;
use tla_value::stop::EvalStop;
use tla_value::value::Value;

/// How many integers there are from `m` to `n`, or none where a set can't have so many members.
pub fn many_between(m: i128, n: i128) -> Option<usize>
    ensures { Counts result (natural ((n +ℤ pos 1) -ℤ m)) }
{
    if n < m {
        return Some(0);
    }
    match n.checked_sub(m) {
        Some(d) => {
            if d < 65_536 {
                Some(d as usize + 1)
            } else {
                None
            }
        }
        None => None,
    }
}

/// So many integers from `m` on.
///
/// # Errors
///
/// Only for want of memory.
pub fn integers_from(alloc: Global, m: i128, many: usize) -> Result<Vec<Value>, AllocError>
    requires { (m +ℤ pos many) ≤ℤ pos (2 ^ 127) }
    ensures integers { IfOk result (λ r. values_in r.items ≡ integers many m) }
    ensures ascending { IfOk result (λ r. IsAscending (values_in r.items)) }
    ensures parts { IfOk result (λ r. AreParts (values_in r.items)) }
{
    let mut all = Vec::new(alloc);
    for i in 0..many {
        all.push(Value::int(m + i as i128))?;
    }
    Ok(all)
}

/// The set of the integers from `m` to `n`.
///
/// # Errors
///
/// For want of memory, and where the integers are too many.
pub fn range_between(alloc: Global, at: Place, m: i128, n: i128) -> Result<Value, EvalStop>
    ensures { Tells result (bounded at (set (integer_range m n))) }
{
    match many_between(m, n) {
        Some(many) => {
            let all = integers_from(alloc, m, many)?;
            set_in_order(at, all)
        }
        None => Err(EvalStop::Limit(at)),
    }
}

/// `a..b`.
///
/// # Errors
///
/// For want of memory, where `a` or `b` isn't an integer, and where the integers are too many.
pub fn range(alloc: Global, at: Place, a: &Value, b: &Value) -> Result<Value, EvalStop>
    ensures { Tells result (strict_value bounded (operator op.Range) at (a.now ∷ b.now ∷ [])) }
{
    let m = int_of(at, a)?;
    let n = int_of(at, b)?;
    range_between(alloc, at, m, n)
}
