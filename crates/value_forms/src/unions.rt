//! `UNION`.

ghost use Rattle.std.specs.Prelude.{◌≡◌, ◌∷◌, []};
ghost use Rattle.tla_tree.specs.declared.op.Op.TheVariants as op;
ghost use Rattle.tla_tree.specs.Tree.{operator};
ghost use Rattle.tla_value.specs.Value.{values_in};
ghost use Rattle.tla_value.specs.Limits.{bounded};
ghost use Rattle.tla_value.specs.Sets.{union_of};
ghost use Rattle.tla_value.specs.Strict.{strict_value};
ghost use Rattle.value_forms.specs.Gives.{Tells, Gives};

use crate::kinds::members_of;
use crate::made::{add_all, set};
use std::alloc::Global;
use tla_token::Place;
use tla_value::stop::EvalStop;
use tla_value::value::Value;

// The members of some sets, those of one after those of the other.
fn gathered(alloc: Global, at: Place, sets: &[Value]) -> Result<Vec<Value>, EvalStop>
    ensures { Gives (λ r. r.items) result (union_of at (values_in sets.now)) }
{
    let mut all = Vec::new(alloc);
    for s in sets {
        let members = members_of(at, s)?;
        add_all(alloc, &mut all, members)?;
    }
    Ok(all)
}

/// `UNION a`.
///
/// # Errors
///
/// For want of memory, where `a` or a member of it isn't a set, and where the union is past the limits.
pub fn union_of_members(alloc: Global, at: Place, a: &Value) -> Result<Value, EvalStop>
    ensures { Tells result (strict_value bounded (operator op.Union) at (a.now ∷ [])) }
{
    let sets = members_of(at, a)?;
    let all = gathered(alloc, at, sets)?;
    set(at, all)
}
