//! Sequences, and the operators of the standard modules.

ghost use Rattle.std.specs.Prelude.{◌≡◌, ◌∷◌, [], pos};
ghost use Rattle.std.specs.Ordering.{is_eq};
ghost use Rattle.std.specs.Option.{option_copied};
ghost use Rattle.tla_value.specs.Value as pure;
ghost use Rattle.tla_value.specs.Value.{fun, values_in};
ghost use Rattle.tla_value.specs.Order.{count, same, orders, numbers_from, sequence_of, IsAscending};
ghost use Rattle.tla_value.specs.Limits.{bounded};
ghost use Rattle.tla_value.specs.Stops.{sequence_at};
ghost use Rattle.tla_value.specs.Standard as standard;
ghost use Rattle.tla_value.specs.Standard.{standard_value, standard_sense, each_in};
ghost use Rattle.value_forms.specs.Gives.{Tells, Gives};

use std::alloc::Global;
use tla_token::Place;
use tla_value::build::has;
use tla_value::fault::FaultKind;
use tla_value::stop::EvalStop;
use tla_value::value::{Kind, Value};
use value_forms::kinds::{members_of, truth_of};
use value_forms::made::{copies, tuple};

// Whether a value is a number.
fn is_number(v: &Value, n: usize) -> bool
    ensures { result ≡ same v.now (pure.int (pos n)) }
{
    match &v.kind {
        Kind::Int(z) => *z == n as i128,
        Kind::Bool(_) => false,
        Kind::Text(_) => false,
        Kind::Model(_) => false,
        Kind::Set(_) => false,
        Kind::Fun(_, _) => false,
    }
}

// Whether a domain is `1..n`, where there are n values: no other value stands between two integers
// in the canonical order, so its ends tell.
pub(crate) fn is_numbered(domain: &[Value], values: &[Value]) -> bool
    requires ascending { IsAscending (values_in domain.now) }
    requires each { count (values_in domain.now) ≡ count (values_in values.now) }
    ensures { result ≡ is_eq (orders (values_in domain.now) (numbers_from 1 values.now)) }
{
    let many = values.len();
    if many == 0 {
        return true;
    }
    is_number(&domain[0], 1) && is_number(&domain[many - 1], many)
}

// The elements of a function, if it is a sequence.
fn numbered<'x>(domain: &[Value], values: &'x [Value]) -> Option<&'x [Value]>
    requires ascending { IsAscending (values_in domain.now) }
    requires each { count (values_in domain.now) ≡ count (values_in values.now) }
    ensures { option_copied result ≡ sequence_of (fun (values_in domain.now) (values_in values.now)) }
{
    if is_numbered(domain, values) {
        Some(values)
    } else {
        None
    }
}

/// The elements of a value, if it is a sequence.
pub fn sequence(v: &Value) -> Option<&[Value]>
    ensures { option_copied result ≡ sequence_of v.now }
{
    match &v.kind {
        Kind::Fun(ds, vs) => numbered(ds.items.as_slice(), vs.items.as_slice()),
        Kind::Bool(_) => None,
        Kind::Int(_) => None,
        Kind::Text(_) => None,
        Kind::Model(_) => None,
        Kind::Set(_) => None,
    }
}

/// The elements of a sequence.
///
/// # Errors
///
/// Where the value isn't a sequence.
pub fn elements_of(at: Place, v: &Value) -> Result<&[Value], EvalStop>
    ensures { Gives (λ s. s.now) result (sequence_at at v.now) }
{
    match sequence(v) {
        Some(elements) => Ok(elements),
        None => Err(EvalStop::Fault(FaultKind::NotSequence, at)),
    }
}

/// `Len(s)`.
///
/// # Errors
///
/// Where `s` isn't a sequence.
pub fn length(at: Place, s: &Value) -> Result<Value, EvalStop>
    ensures { Tells result (standard_value bounded standard.length_of at (s.now ∷ [])) }
{
    let elements = elements_of(at, s)?;
    Ok(Value::int(elements.len() as i128))
}

/// `Head(s)`.
///
/// # Errors
///
/// Where `s` isn't a sequence or is empty.
pub fn head(at: Place, s: &Value) -> Result<&Value, EvalStop>
    ensures { Gives (λ r. r.now) result (standard_value bounded standard.first_of at (s.now ∷ [])) }
{
    let elements = elements_of(at, s)?;
    if elements.is_empty() {
        return Err(EvalStop::Fault(FaultKind::EmptySequence, at));
    }
    Ok(&elements[0])
}

/// `Tail(s)`.
///
/// # Errors
///
/// For want of memory, and where `s` isn't a sequence or is empty.
pub fn tail(alloc: Global, at: Place, s: &Value) -> Result<Value, EvalStop>
    ensures { Tells result (standard_value bounded standard.rest_of at (s.now ∷ [])) }
{
    let elements = elements_of(at, s)?;
    if elements.is_empty() {
        return Err(EvalStop::Fault(FaultKind::EmptySequence, at));
    }
    let all = copies(alloc, &elements[1..])?;
    tuple(alloc, at, all)
}

// How many values there are.
fn count_of(values: &[Value]) -> usize
    ensures { result ≡ count (values_in values.now) }
{
    values.len()
}

/// `Cardinality(s)`.
///
/// # Errors
///
/// Where `s` isn't a set.
pub fn cardinality(at: Place, s: &Value) -> Result<Value, EvalStop>
    ensures { Tells result (standard_value bounded standard.size_of at (s.now ∷ [])) }
{
    let members = members_of(at, s)?;
    Ok(Value::int(count_of(members) as i128))
}

/// `IsFiniteSet(s)`.
///
/// # Errors
///
/// Where `s` isn't a set.
pub fn finite(at: Place, s: &Value) -> Result<Value, EvalStop>
    ensures { Tells result (standard_value bounded standard.is_finite at (s.now ∷ [])) }
{
    let _members = members_of(at, s)?;
    Ok(Value::truth(true))
}

/// `Assert(v, m)`.
///
/// # Errors
///
/// Where `v` isn't a truth value or is `FALSE`.
pub fn asserted(at: Place, v: &Value, m: &Value) -> Result<Value, EvalStop>
    ensures { Tells result (standard_value bounded standard.asserted at (v.now ∷ m.now ∷ [])) }
{
    if truth_of(at, v)? {
        Ok(Value::truth(true))
    } else {
        Err(EvalStop::Fault(FaultKind::AssertFailed, at))
    }
}

// Whether each of some values is a member of a set.
fn each_among(values: &[Value], members: &[Value]) -> bool
    requires { IsAscending (values_in members.now) }
    ensures { result ≡ each_in values.now (values_in members.now) }
{
    for v in values {
        if !has(members, v) {
            return false;
        }
    }
    true
}

/// Whether `v` is a member of `Seq(s)`, which isn't listed.
///
/// # Errors
///
/// Where `s` isn't a set.
pub fn member_of_sequences(at: Place, v: &Value, s: &Value) -> Result<bool, EvalStop>
    ensures { Tells result ((standard_sense bounded standard.sequences at (s.now ∷ [])).test at v.now) }
{
    let members = members_of(at, s)?;
    match sequence(v) {
        Some(elements) => Ok(each_among(elements, members)),
        None => Ok(false),
    }
}

/// `PrintT(v)`, which is `TRUE`.
///
/// # Errors
///
/// None.
pub fn printed(at: Place, v: &Value) -> Result<Value, EvalStop>
    ensures { Tells result (standard_value bounded standard.printed at (v.now ∷ [])) }
{
    Ok(Value::truth(true))
}
