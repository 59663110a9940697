//! Parts of forms, and forms without parts.

ghost use Rattle.std.specs.Prelude.{◌≡◌, pos, cond, Err, IfOk};
ghost use Rattle.tla_tree.specs.Tree.{booleans};
ghost use Rattle.tla_value.specs.Value.{int, fault, text as string_of};
ghost use Rattle.tla_value.specs.declared.fault.FaultKind.TheVariants.{NoCase};
ghost use Rattle.tla_value.specs.Limits.{bounded};
ghost use Rattle.tla_value.specs.Stops.{misshapen as no_parts};
ghost use Rattle.tla_value.specs.Meaning.{value_of};
ghost use Rattle.eval_steps.specs.Forms.{pair_of, triple_of, left_alone as left_decides};
ghost use Rattle.value_forms.specs.Gives.{Tells};

use eval_scopes::got::Got;
use std::alloc::{AllocError, Global};
use tla_token::Place;
use tla_tree::{Name, NodeId, Text};
use tla_value::fault::FaultKind;
use tla_value::stop::EvalStop;
use tla_value::value::{Kind, Value, Values};

/// A connective of truth values that asks its right side only where the left one decides nothing.
#[derive(Clone, Copy)]
pub enum Connective {
    And,
    Or,
    Implies,
}

/// What the left side of a connective decides alone.
pub fn left_alone(connective: Connective, p: bool) -> Option<bool>
    ensures { result ≡ left_decides connective p }
{
    match connective {
        Connective::And => { if p { None } else { Some(false) } }
        Connective::Or => { if p { Some(true) } else { None } }
        Connective::Implies => { if p { None } else { Some(true) } }
    }
}

/// The parts of a form that has two, in the order in which they are evaluated.
pub fn pair(parts: &[NodeId]) -> Option<(NodeId, NodeId)>
    ensures { result ≡ pair_of parts.now }
{
    if parts.len() != 2 {
        return None;
    }
    Some((parts[0], parts[1]))
}

/// The parts of a form that has three.
pub fn triple(parts: &[NodeId]) -> Option<(NodeId, NodeId, NodeId)>
    ensures { result ≡ triple_of parts.now }
{
    if parts.len() != 3 {
        return None;
    }
    Some((parts[0], parts[1], parts[2]))
}

/// The value of a number.
///
/// # Errors
///
/// Where it is past the limits.
pub fn number<'x>(place: Place, n: u128) -> Result<Got<'x>, EvalStop>
    ensures { Tells result (bounded place (int (pos n))) }
{
    match i128::try_from(n) {
        Ok(n) => Ok(Got::own(Value::int(n))),
        Err(_) => Err(EvalStop::Limit(place)),
    }
}

/// `BOOLEAN`.
///
/// # Errors
///
/// Only for want of memory.
pub fn truth_values<'x>(alloc: Global, place: Place) -> Result<Got<'x>, EvalStop>
    ensures { (ds : _) (env : _) → Tells result (value_of bounded booleans place ds env) }
{
    let mut items = Vec::new(alloc);
    items.push(Value::truth(false))?;
    items.push(Value::truth(true))?;
    Ok(Got::own(Value {
        kind: Kind::Set(Values { items }),
    }))
}

/// What a form of other parts gives.
pub fn misshapen<'x>(place: Place) -> Result<Got<'x>, EvalStop>
    ensures { Tells result (no_parts place) }
{
    Err(EvalStop::Fault(FaultKind::NotFunction, place))
}

/// What `CASE` gives where no arm is taken; with `other` there is an arm too few.
///
/// # Errors
///
/// Always.
pub fn no_arm<'x>(other: bool, place: Place) -> Result<Got<'x>, EvalStop>
    ensures { Tells result (cond other (no_parts place) (Err (fault NoCase place))) }
{
    if other {
        return misshapen(place);
    }
    Err(EvalStop::Fault(FaultKind::NoCase, place))
}

/// A string as a value.
///
/// # Errors
///
/// Only for want of memory.
pub fn text(w: &Text) -> Result<Value, AllocError>
    ensures { IfOk result (λ v. v ≡ string_of w.now) }
{
    let w = w.copied()?;
    Ok(Value::text(Name::new(w.into_bytes())))
}
