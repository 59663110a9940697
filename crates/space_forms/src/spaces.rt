//! `[A -> B]`, which is counted before it is listed.

ghost use Rattle.std.specs.Prelude.{◌≡◌, ◌∷◌, [], ◌*◌, ◌^◌, ℕ, IfOk, map};
ghost use Rattle.tla_tree.specs.Tree.{functions as function_space};
ghost use Rattle.tla_value.specs.Value.{set, fun, values_in};
ghost use Rattle.tla_value.specs.Order.{count, IsAscending};
ghost use Rattle.tla_value.specs.Limits.{bounded};
ghost use Rattle.tla_value.specs.Sets.{members, repeated, functions_over};
ghost use Rattle.tla_value.specs.Strict.{strict_value};
ghost use Rattle.tla_value.specs.ValueOf.{IsStored};
ghost use Rattle.value_forms.specs.Gives.{Tells};
ghost use Rattle.value_forms.specs.Counts.{Counts};
ghost use Rattle.space_forms.specs.Spaces.{fronted_rows, power_rows, IsSpace, AreRows, RowsAscend};

use crate::rows::add_fronted;
use std::alloc::{AllocError, Global};
use tla_token::Place;
use tla_value::build::{DEEPEST, MOST_MEMBERS, depth_in};
use tla_value::stop::EvalStop;
use tla_value::value::{Kind, Value, Values};
use value_forms::kinds::members_of;
use value_forms::made::copies;

/// The members of a set, and none of any other value.
pub fn members_in(s: &Value) -> &[Value]
    ensures members { values_in result.now ≡ members s.now }
    ensures space { IsSpace s.now }
{
    match &s.kind {
        Kind::Set(ws) => ws.items.as_slice(),
        Kind::Bool(_) => &[],
        Kind::Int(_) => &[],
        Kind::Text(_) => &[],
        Kind::Model(_) => &[],
        Kind::Fun(_, _) => &[],
    }
}

/// A product that is known only where a set may have so many members.
pub fn times(n: usize, many: Option<usize>) -> Option<usize>
    ensures { (m : ℕ) → Counts many m → Counts result (n * m) }
{
    if n == 0 {
        return Some(0);
    }
    match many {
        Some(m) => match n.checked_mul(m) {
            Some(all) => { if all <= MOST_MEMBERS { Some(all) } else { None } }
            None => None,
        },
        None => None,
    }
}

/// Each of some values in front of each row.
///
/// # Errors
///
/// Only for want of memory.
pub fn all_fronted(
    alloc: Global,
    members: &[Value],
    rows: &[Values],
) -> Result<Vec<Values>, AllocError>
    ensures { IfOk result (λ r. r.items ≡ fronted_rows members.now rows.now) }
{
    let mut all = Vec::new(alloc);
    for w in members {
        add_fronted(alloc, &mut all, w, rows)?;
    }
    Ok(all)
}

/// The row of no values, alone.
///
/// # Errors
///
/// Only for want of memory.
pub fn one_row(alloc: Global) -> Result<Vec<Values>, AllocError>
    ensures { IfOk result (λ r. r.items ≡ [] ∷ []) }
{
    let mut rows = Vec::new(alloc);
    rows.push(Values {
        items: Vec::new(alloc),
    })?;
    Ok(rows)
}

// The function on a domain with the values of a row.
fn on_domain(alloc: Global, domain: &[Value], row: &Values) -> Result<Value, AllocError>
    requires { IsStored (fun (values_in domain.now) (values_in row.now)) }
    ensures { IfOk result (λ r. r ≡ fun (values_in domain.now) (values_in row.now)) }
{
    let keys = copies(alloc, domain)?;
    let items = copies(alloc, row.items.as_slice())?;
    Ok(Value {
        kind: Kind::Fun(Values { items: keys }, Values { items }),
    })
}

// The functions on a domain with the values of each row.
fn all_on(alloc: Global, domain: &[Value], rows: &[Values]) -> Result<Vec<Value>, AllocError>
    requires domain { IsStored (set (values_in domain.now)) }
    requires rows { AreRows (count (values_in domain.now)) (map values_in rows.now) }
    ensures { IfOk result (λ r. r.items ≡ map (λ t. fun (values_in domain.now) (values_in t)) rows.now) }
{
    let mut all = Vec::new(alloc);
    for row in rows {
        all.push(on_domain(alloc, domain, row)?)?;
    }
    Ok(all)
}

// The set of some values in ascending order.
fn set_ascending(at: Place, members: Vec<Value>) -> Result<Value, EvalStop>
    requires { IsAscending (values_in members.items) }
    ensures { Tells result (bounded at (set (values_in members.items))) }
{
    if members.len() > MOST_MEMBERS {
        return Err(EvalStop::Limit(at));
    }
    if depth_in(&members) >= DEEPEST {
        return Err(EvalStop::Limit(at));
    }
    Ok(Value {
        kind: Kind::Set(Values { items: members }),
    })
}

/// The set of the functions on a domain with the values of each row.
///
/// # Errors
///
/// For want of memory, and where the set is past the limits.
pub fn listed(
    alloc: Global,
    at: Place,
    domain: &[Value],
    rows: &[Values],
) -> Result<Value, EvalStop>
    requires domain { IsStored (set (values_in domain.now)) }
    requires rows { AreRows (count (values_in domain.now)) (map values_in rows.now) }
    requires ascending { RowsAscend (map values_in rows.now) }
    ensures { Tells result (bounded at (set (values_in (map (fun (values_in domain.now)) (map values_in rows.now))))) }
{
    let all = all_on(alloc, domain, rows)?;
    set_ascending(at, all)
}

// How many functions there are of so many arguments, each with so many values.
fn many_functions(arguments: usize, results: usize) -> Option<usize>
    ensures { Counts result (results ^ arguments) }
{
    let mut many = Some(1);
    for _i in 0..arguments {
        many = times(results, many);
    }
    many
}

// The rows of so many members of a set.
fn function_rows(
    alloc: Global,
    arguments: usize,
    results: &[Value],
) -> Result<Vec<Values>, AllocError>
    ensures { IfOk result (λ r. r.items ≡ power_rows arguments results.now) }
{
    let mut rows = one_row(alloc)?;
    for _i in 0..arguments {
        rows = all_fronted(alloc, results, rows.as_slice())?;
    }
    Ok(rows)
}

// The set of all functions on a domain with values in a set.
fn functions_on(
    alloc: Global,
    at: Place,
    domain: &[Value],
    results: &[Value],
) -> Result<Value, EvalStop>
    requires domain { IsStored (set (values_in domain.now)) }
    requires results { IsStored (set (values_in results.now)) }
    ensures { Tells result (bounded at (set (functions_over (values_in domain.now) (repeated (values_in domain.now) (set (values_in results.now)))))) }
{
    if many_functions(domain.len(), results.len()).is_none() {
        return Err(EvalStop::Limit(at));
    }
    let rows = function_rows(alloc, domain.len(), results)?;
    listed(alloc, at, domain, rows.as_slice())
}

/// `[a -> b]`.
///
/// # Errors
///
/// For want of memory, where `a` or `b` isn't a set, and where the set of its functions is past the
/// limits.
pub fn functions(alloc: Global, at: Place, a: &Value, b: &Value) -> Result<Value, EvalStop>
    ensures { Tells result (strict_value bounded function_space at (a.now ∷ b.now ∷ [])) }
{
    let domain = members_of(at, a)?;
    let results = members_of(at, b)?;
    functions_on(alloc, at, domain, results)
}
