//! `[a : A, b : B]`: counted before it is listed, and tested without being listed.

ghost use Rattle.std.specs.Prelude.{◌≡◌, ◌<◌, ◌∷◌, [], IfOk, OnOk, map, length};
ghost use Rattle.std.specs.Option.{option_copied};
ghost use Rattle.tla_tree.specs.Tree.{records as record_space};
ghost use Rattle.tla_value.specs.Value as pure;
ghost use Rattle.tla_value.specs.Value.{set, fun, values_in, in_order};
ghost use Rattle.tla_value.specs.Order.{count, in_front, set_from, IsAscending};
ghost use Rattle.tla_value.specs.Limits.{bounded};
ghost use Rattle.tla_value.specs.Stops.{members_at};
ghost use Rattle.tla_value.specs.Sets.{members, choices, all_chosen, functions_over, is_function_over};
ghost use Rattle.tla_value.specs.Strict.{strict_value, strict_test};
ghost use Rattle.tla_value.specs.ValueOf.{IsStored};
ghost use Rattle.value_forms.specs.Gives.{Tells, Gives};
ghost use Rattle.value_forms.specs.Parts.{AreParts};
ghost use Rattle.value_forms.specs.Counts.{Counts};
ghost use Rattle.space_forms.specs.Spaces.{ways, fronted_by, beside, held_by, AreSpaces};

use crate::members::same_members;
use crate::spaces::{all_fronted, listed, members_in, one_row, times};
use function_forms::records::{first_beside, ordered, strings};
use std::alloc::{AllocError, Global};
use tla_token::Place;
use tla_tree::Name;
use tla_value::build::{MOST_MEMBERS, has};
use tla_value::stop::EvalStop;
use tla_value::value::{Kind, Value, Values};
use value_forms::kinds::members_of;
use value_forms::made::copies;
use value_forms::sets::set_in_order;

// Whether all values are sets.
fn each_set(at: Place, values: &[Value]) -> Result<(), EvalStop>
    ensures sets { Gives (λ _. map members values.now) result (in_order (members_at at) values.now) }
    ensures spaces { OnOk result (AreSpaces (values_in values.now)) }
{
    for v in values {
        let _members = members_of(at, v)?;
    }
    Ok(())
}

// How many ways there are to take a member of a set, if there is one, before others.
fn times_members(s: Option<&Value>, many: Option<usize>) -> Option<usize>
    ensures { (ss : pure.Values) → Counts many (ways ss) → Counts result (ways (in_front (option_copied s.entry) ss)) }
{
    match s {
        Some(s) => times(members_in(s).len(), many),
        None => many,
    }
}

// How many ways there are to take a member of each set that is beside a member of the domain.
fn many_beside(keys: &[Value], sets: &[Value], domain: &[Value]) -> Option<usize>
    ensures { Counts result (ways (beside keys.now sets.now domain.now)) }
{
    let mut many = Some(1);
    let mut i = domain.len();
    while i > 0 {
        i -= 1;
        many = times_members(first_beside(keys, sets, &domain[i]), many);
    }
    many
}

// The members of a set, if there is one, in front of rows.
fn with_members(
    alloc: Global,
    s: Option<&Value>,
    rows: Vec<Values>,
) -> Result<Vec<Values>, AllocError>
    ensures { IfOk result (λ r. map values_in r.items ≡ fronted_by (option_copied s.entry) (map values_in rows.items)) }
{
    match s {
        Some(s) => {
            let longer = all_fronted(alloc, members_in(s), rows.as_slice())?;
            Ok(longer)
        }
        None => Ok(rows),
    }
}

// Rows of a member of each set that is beside a member of the domain.
fn rows_beside(
    alloc: Global,
    keys: &[Value],
    sets: &[Value],
    domain: &[Value],
) -> Result<Vec<Values>, AllocError>
    ensures { IfOk result (λ r. map values_in r.items ≡ choices (beside keys.now sets.now domain.now)) }
{
    let mut rows = one_row(alloc)?;
    let mut i = domain.len();
    while i > 0 {
        i -= 1;
        rows = with_members(alloc, first_beside(keys, sets, &domain[i]), rows)?;
    }
    Ok(rows)
}

// The set of all functions on a domain with values in the sets beside its members, of which there
// are some.
fn records_listed(
    alloc: Global,
    at: Place,
    keys: &[Value],
    sets: &[Value],
    domain: &[Value],
) -> Result<Value, EvalStop>
    requires ascending { IsAscending (values_in domain.now) }
    requires parts { AreParts (values_in domain.now) }
    requires each { count (values_in domain.now) ≡ count (beside keys.now sets.now domain.now) }
    requires sets { AreSpaces (values_in sets.now) }
    requires some { 0 < ways (beside keys.now sets.now domain.now) }
    ensures { Tells result (bounded at (set (functions_over (values_in domain.now) (beside keys.now sets.now domain.now)))) }
{
    if domain.len() > MOST_MEMBERS {
        return Err(EvalStop::Limit(at));
    }
    let rows = rows_beside(alloc, keys, sets, domain)?;
    listed(alloc, at, domain, rows.as_slice())
}

// The set of all functions on a domain with values in the sets beside its members.
fn records_on(
    alloc: Global,
    at: Place,
    keys: &[Value],
    sets: &[Value],
    domain: &[Value],
) -> Result<Value, EvalStop>
    requires ascending { IsAscending (values_in domain.now) }
    requires parts { AreParts (values_in domain.now) }
    requires each { count (values_in domain.now) ≡ count (beside keys.now sets.now domain.now) }
    requires sets { AreSpaces (values_in sets.now) }
    ensures { Tells result (bounded at (set (functions_over (values_in domain.now) (beside keys.now sets.now domain.now)))) }
{
    match many_beside(keys, sets, domain) {
        Some(0) => set_in_order(at, Vec::new(alloc)),
        Some(_) => records_listed(alloc, at, keys, sets, domain),
        None => Err(EvalStop::Limit(at)),
    }
}

// A list of names as strings, and the same in order, each once.
fn fields_of(alloc: Global, names: &[Name]) -> Result<(Vec<Value>, Vec<Value>), AllocError>
    ensures keys { IfOk result (λ r. r.0.items ≡ map pure.text names.now) }
    ensures domain { IfOk result (λ r. values_in r.1.items ≡ set_from (map pure.text names.now)) }
{
    let keys = strings(alloc, names)?;
    let domain = ordered(copies(alloc, keys.as_slice())?)?;
    Ok((keys, domain))
}

/// `[x : a, y : b]`.
///
/// # Errors
///
/// For want of memory, where `a` or `b` isn't a set, and where the set of its records is past the
/// limits.
pub fn records(alloc: Global, at: Place, names: &[Name], sets: &[Value]) -> Result<Value, EvalStop>
    ensures { Tells result (strict_value bounded (record_space names.now) at sets.now) }
{
    each_set(at, sets)?;
    let many = names.len().min(sets.len());
    let (keys, domain) = fields_of(alloc, &names[..many])?;
    records_on(alloc, at, keys.as_slice(), &sets[..many], domain.as_slice())
}

// Whether a value is in a set, if there is one.
fn chosen_from(s: Option<&Value>, v: &Value) -> bool
    ensures { result ≡ held_by (option_copied s.entry) v.now }
{
    match s {
        Some(s) => has(members_in(s), v),
        None => false,
    }
}

// Whether each of some values is in the set beside its argument.
fn each_chosen(values: &[Value], keys: &[Value], sets: &[Value], domain: &[Value]) -> bool
    requires each { count (values_in domain.now) ≡ count (beside keys.now sets.now domain.now) }
    requires values { length values.now ≡ length domain.now }
    ensures { result ≡ all_chosen (values_in values.now) (beside keys.now sets.now domain.now) }
{
    for i in 0..domain.len() {
        if !chosen_from(first_beside(keys, sets, &domain[i]), &values[i]) {
            return false;
        }
    }
    true
}

// Whether a function is on a domain and gives members of the sets beside its members.
fn is_record_on(
    es: &[Value],
    vs: &[Value],
    keys: &[Value],
    sets: &[Value],
    domain: &[Value],
) -> bool
    requires function { IsStored (fun (values_in es.now) (values_in vs.now)) }
    requires each { count (values_in domain.now) ≡ count (beside keys.now sets.now domain.now) }
    ensures { result ≡ is_function_over (fun (values_in es.now) (values_in vs.now)) (values_in domain.now) (beside keys.now sets.now domain.now) }
{
    if !same_members(es, domain) {
        return false;
    }
    each_chosen(vs, keys, sets, domain)
}

// Whether a value is a function on a domain that gives members of the sets beside its members.
fn is_record(v: &Value, keys: &[Value], sets: &[Value], domain: &[Value]) -> bool
    requires { count (values_in domain.now) ≡ count (beside keys.now sets.now domain.now) }
    ensures { result ≡ is_function_over v.now (values_in domain.now) (beside keys.now sets.now domain.now) }
{
    match &v.kind {
        Kind::Fun(es, vs) => {
            is_record_on(es.items.as_slice(), vs.items.as_slice(), keys, sets, domain)
        }
        Kind::Bool(_) => false,
        Kind::Int(_) => false,
        Kind::Text(_) => false,
        Kind::Model(_) => false,
        Kind::Set(_) => false,
    }
}

/// Whether `v` is a member of `[x : a, y : b]`, which isn't listed.
///
/// # Errors
///
/// For want of memory, and where `a` or `b` isn't a set.
pub fn member_of_records(
    alloc: Global,
    at: Place,
    v: &Value,
    names: &[Name],
    sets: &[Value],
) -> Result<bool, EvalStop>
    ensures { Tells result (strict_test bounded (record_space names.now) at at v.now sets.now) }
{
    each_set(at, sets)?;
    let many = names.len().min(sets.len());
    let (keys, domain) = fields_of(alloc, &names[..many])?;
    Ok(is_record(v, keys.as_slice(), &sets[..many], domain.as_slice()))
}
