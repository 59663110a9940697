//! `SUBSET`, which is counted before it is listed.

ghost use Rattle.std.specs.Prelude.{◌≡◌, ◌∷◌, [], ◌++◌, IfOk, map};
ghost use Rattle.tla_tree.specs.declared.op.Op.TheVariants as op;
ghost use Rattle.tla_tree.specs.Tree.{operator};
ghost use Rattle.tla_value.specs.Value.{set, values_in};
ghost use Rattle.tla_value.specs.Limits.{bounded};
ghost use Rattle.tla_value.specs.Sets.{subsets as all_subsets};
ghost use Rattle.tla_value.specs.Strict.{strict_value};
ghost use Rattle.tla_value.specs.ValueOf.{IsStored};
ghost use Rattle.value_forms.specs.Gives.{Tells};
ghost use Rattle.space_forms.specs.SubLists.{sub_lists, row_set, IsSetRow, AreSetRows};

use crate::rows::add_fronted;
use std::alloc::{AllocError, Global};
use tla_token::Place;
use tla_value::stop::EvalStop;
use tla_value::value::{Kind, Value, Values};
use value_forms::kinds::members_of;
use value_forms::made::{copies, set as set_from_all};

// Some rows, and after them the same with one more value in front of each.
fn doubled(alloc: Global, mut rows: Vec<Values>, v: &Value) -> Result<Vec<Values>, AllocError>
    ensures { IfOk result (λ r. r.items ≡ rows.items ++ map (λ t. v.now ∷ t) rows.items) }
{
    let mut more = Vec::new(alloc);
    add_fronted(alloc, &mut more, v, rows.as_slice())?;
    rows.append(&mut more)?;
    Ok(rows)
}

// The members of each subset.
fn sub_rows(alloc: Global, members: &[Value]) -> Result<Vec<Values>, AllocError>
    ensures { IfOk result (λ r. r.items ≡ sub_lists members.now) }
{
    let mut rows = Vec::new(alloc);
    rows.push(Values {
        items: Vec::new(alloc),
    })?;
    let mut i = members.len();
    while i > 0 {
        i -= 1;
        rows = doubled(alloc, rows, &members[i])?;
    }
    Ok(rows)
}

// The set of a row of members.
fn as_set(alloc: Global, row: &Values) -> Result<Value, AllocError>
    requires { IsSetRow 65536 row.now }
    ensures { IfOk result (λ r. r ≡ row_set row.now) }
{
    let items = copies(alloc, row.items.as_slice())?;
    Ok(Value {
        kind: Kind::Set(Values { items }),
    })
}

// The sets of some rows of members.
fn sets_of(alloc: Global, rows: &[Values]) -> Result<Vec<Value>, AllocError>
    requires { AreSetRows 65536 rows.now }
    ensures { IfOk result (λ r. r.items ≡ map row_set rows.now) }
{
    let mut all = Vec::new(alloc);
    for row in rows {
        all.push(as_set(alloc, row)?)?;
    }
    Ok(all)
}

fn subsets_of(alloc: Global, at: Place, members: &[Value]) -> Result<Value, EvalStop>
    requires { IsStored (set (values_in members.now)) }
    ensures { Tells result (bounded at (set (all_subsets (values_in members.now)))) }
{
    if members.len() > 16 {
        return Err(EvalStop::Limit(at));
    }
    let rows = sub_rows(alloc, members)?;
    let all = sets_of(alloc, rows.as_slice())?;
    set_from_all(at, all)
}

/// `SUBSET a`.
///
/// # Errors
///
/// For want of memory, where `a` isn't a set, and where the set of its subsets is past the limits.
pub fn subsets(alloc: Global, at: Place, a: &Value) -> Result<Value, EvalStop>
    ensures { Tells result (strict_value bounded (operator op.Subset) at (a.now ∷ [])) }
{
    let members = members_of(at, a)?;
    subsets_of(alloc, at, members)
}
