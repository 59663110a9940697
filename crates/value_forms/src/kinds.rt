//! What is needed of a value, by its kind.

ghost use Rattle.std.specs.Prelude.{◌≡◌, IfOk};
ghost use Rattle.tla_value.specs.Value.{set, fun, values_in};
ghost use Rattle.tla_value.specs.ValueOf.{IsStored};
ghost use Rattle.tla_value.specs.Stops.{truth_at, int_at as integer_at, members_at, function_at};
ghost use Rattle.value_forms.specs.Gives.{Gives, Tells};

use tla_token::Place;
use tla_value::fault::FaultKind;
use tla_value::stop::EvalStop;
use tla_value::value::{Kind, Value};

/// What is so of each value in memory.
pub fn stored(v: &Value)
    ensures { IsStored v.now }
{
    let _kind = &v.kind;
}

/// The truth value that a value is.
///
/// # Errors
///
/// Where it is of another kind.
pub fn truth_of(at: Place, v: &Value) -> Result<bool, EvalStop>
    ensures { Tells result (truth_at at v.now) }
{
    match &v.kind {
        Kind::Bool(b) => Ok(*b),
        Kind::Int(_) => Err(EvalStop::Fault(FaultKind::NotBoolean, at)),
        Kind::Text(_) => Err(EvalStop::Fault(FaultKind::NotBoolean, at)),
        Kind::Model(_) => Err(EvalStop::Fault(FaultKind::NotBoolean, at)),
        Kind::Set(_) => Err(EvalStop::Fault(FaultKind::NotBoolean, at)),
        Kind::Fun(_, _) => Err(EvalStop::Fault(FaultKind::NotBoolean, at)),
    }
}

/// The integer that a value is.
///
/// # Errors
///
/// Where it is of another kind.
pub fn int_of(at: Place, v: &Value) -> Result<i128, EvalStop>
    ensures { Tells result (integer_at at v.now) }
{
    match &v.kind {
        Kind::Int(n) => Ok(*n),
        Kind::Bool(_) => Err(EvalStop::Fault(FaultKind::NotInteger, at)),
        Kind::Text(_) => Err(EvalStop::Fault(FaultKind::NotInteger, at)),
        Kind::Model(_) => Err(EvalStop::Fault(FaultKind::NotInteger, at)),
        Kind::Set(_) => Err(EvalStop::Fault(FaultKind::NotInteger, at)),
        Kind::Fun(_, _) => Err(EvalStop::Fault(FaultKind::NotInteger, at)),
    }
}

/// The members of a set.
///
/// # Errors
///
/// Where the value is of another kind.
pub fn members_of(at: Place, v: &Value) -> Result<&[Value], EvalStop>
    ensures members { Gives (λ s. values_in s.now) result (members_at at v.now) }
    ensures stored { IfOk result (λ s. IsStored (set (values_in s.now))) }
{
    match &v.kind {
        Kind::Set(vs) => Ok(vs.items.as_slice()),
        Kind::Bool(_) => Err(EvalStop::Fault(FaultKind::NotSet, at)),
        Kind::Int(_) => Err(EvalStop::Fault(FaultKind::NotSet, at)),
        Kind::Text(_) => Err(EvalStop::Fault(FaultKind::NotSet, at)),
        Kind::Model(_) => Err(EvalStop::Fault(FaultKind::NotSet, at)),
        Kind::Fun(_, _) => Err(EvalStop::Fault(FaultKind::NotSet, at)),
    }
}

/// The domain of a function, and its value at each member of it.
///
/// # Errors
///
/// Where the value is of another kind.
pub fn function_of(at: Place, v: &Value) -> Result<(&[Value], &[Value]), EvalStop>
    ensures parts { Gives (λ f. (values_in f.0.now, values_in f.1.now)) result (function_at at v.now) }
    ensures stored { IfOk result (λ f. IsStored (fun (values_in f.0.now) (values_in f.1.now))) }
{
    match &v.kind {
        Kind::Fun(ds, vs) => Ok((ds.items.as_slice(), vs.items.as_slice())),
        Kind::Bool(_) => Err(EvalStop::Fault(FaultKind::NotFunction, at)),
        Kind::Int(_) => Err(EvalStop::Fault(FaultKind::NotFunction, at)),
        Kind::Text(_) => Err(EvalStop::Fault(FaultKind::NotFunction, at)),
        Kind::Model(_) => Err(EvalStop::Fault(FaultKind::NotFunction, at)),
        Kind::Set(_) => Err(EvalStop::Fault(FaultKind::NotFunction, at)),
    }
}
