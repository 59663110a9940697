//! Arithmetic, and the order of integers.

ghost use Rattle.std.specs.Prelude.{◌≡◌, ◌∷◌, []};
ghost use Rattle.tla_tree.specs.declared.op.Op.TheVariants as op;
ghost use Rattle.tla_tree.specs.Tree.{operator};
ghost use Rattle.tla_value.specs.Limits.{bounded};
ghost use Rattle.tla_value.specs.Strict.{strict_value};
ghost use Rattle.value_forms.specs.Gives.{Tells};

use crate::kinds::int_of;
use tla_token::Place;
use tla_value::fault::FaultKind;
use tla_value::stop::EvalStop;
use tla_value::value::Value;

/// `a + b`.
///
/// # Errors
///
/// Where `a` or `b` isn't an integer, and where the sum is past the limits.
pub fn sum(at: Place, a: &Value, b: &Value) -> Result<Value, EvalStop>
    ensures { Tells result (strict_value bounded (operator op.Plus) at (a.now ∷ b.now ∷ [])) }
{
    let m = int_of(at, a)?;
    let n = int_of(at, b)?;
    match m.checked_add(n) {
        Some(sum) => Ok(Value::int(sum)),
        None => Err(EvalStop::Limit(at)),
    }
}

/// `a - b`.
///
/// # Errors
///
/// Where `a` or `b` isn't an integer, and where the difference is past the limits.
pub fn difference(at: Place, a: &Value, b: &Value) -> Result<Value, EvalStop>
    ensures { Tells result (strict_value bounded (operator op.Minus) at (a.now ∷ b.now ∷ [])) }
{
    let m = int_of(at, a)?;
    let n = int_of(at, b)?;
    match m.checked_sub(n) {
        Some(difference) => Ok(Value::int(difference)),
        None => Err(EvalStop::Limit(at)),
    }
}

/// `a * b`.
///
/// # Errors
///
/// Where `a` or `b` isn't an integer, and where the product is past the limits.
pub fn product(at: Place, a: &Value, b: &Value) -> Result<Value, EvalStop>
    ensures { Tells result (strict_value bounded (operator op.Times) at (a.now ∷ b.now ∷ [])) }
{
    let m = int_of(at, a)?;
    let n = int_of(at, b)?;
    match m.checked_mul(n) {
        Some(product) => Ok(Value::int(product)),
        None => Err(EvalStop::Limit(at)),
    }
}

/// `-a`.
///
/// # Errors
///
/// Where `a` isn't an integer, and where it is the least of a run.
pub fn negated(at: Place, a: &Value) -> Result<Value, EvalStop>
    ensures { Tells result (strict_value bounded (operator op.Negate) at (a.now ∷ [])) }
{
    let n = int_of(at, a)?;
    match n.checked_neg() {
        Some(negated) => Ok(Value::int(negated)),
        None => Err(EvalStop::Limit(at)),
    }
}

/// `a \div b`, rounded down.
///
/// # Errors
///
/// Where `a` or `b` isn't an integer, and where `b` isn't above 0.
pub fn quotient(at: Place, a: &Value, b: &Value) -> Result<Value, EvalStop>
    ensures { Tells result (strict_value bounded (operator op.Divide) at (a.now ∷ b.now ∷ [])) }
{
    let m = int_of(at, a)?;
    let n = int_of(at, b)?;
    if n <= 0 {
        return Err(EvalStop::Fault(FaultKind::BadDivisor, at));
    }
    Ok(Value::int(m.div_euclid(n)))
}

/// `a % b`, which isn't negative.
///
/// # Errors
///
/// Where `a` or `b` isn't an integer, and where `b` isn't above 0.
pub fn remainder(at: Place, a: &Value, b: &Value) -> Result<Value, EvalStop>
    ensures { Tells result (strict_value bounded (operator op.Modulo) at (a.now ∷ b.now ∷ [])) }
{
    let m = int_of(at, a)?;
    let n = int_of(at, b)?;
    if n <= 0 {
        return Err(EvalStop::Fault(FaultKind::BadDivisor, at));
    }
    Ok(Value::int(m.rem_euclid(n)))
}

/// `a < b`.
///
/// # Errors
///
/// Where `a` or `b` isn't an integer.
pub fn less(at: Place, a: &Value, b: &Value) -> Result<Value, EvalStop>
    ensures { Tells result (strict_value bounded (operator op.Less) at (a.now ∷ b.now ∷ [])) }
{
    let m = int_of(at, a)?;
    let n = int_of(at, b)?;
    Ok(Value::truth(m < n))
}

/// `a > b`.
///
/// # Errors
///
/// Where `a` or `b` isn't an integer.
pub fn greater(at: Place, a: &Value, b: &Value) -> Result<Value, EvalStop>
    ensures { Tells result (strict_value bounded (operator op.Greater) at (a.now ∷ b.now ∷ [])) }
{
    let m = int_of(at, a)?;
    let n = int_of(at, b)?;
    Ok(Value::truth(n < m))
}

/// `a <= b`.
///
/// # Errors
///
/// Where `a` or `b` isn't an integer.
pub fn at_most(at: Place, a: &Value, b: &Value) -> Result<Value, EvalStop>
    ensures { Tells result (strict_value bounded (operator op.AtMost) at (a.now ∷ b.now ∷ [])) }
{
    let m = int_of(at, a)?;
    let n = int_of(at, b)?;
    Ok(Value::truth(m <= n))
}

/// `a >= b`.
///
/// # Errors
///
/// Where `a` or `b` isn't an integer.
pub fn at_least(at: Place, a: &Value, b: &Value) -> Result<Value, EvalStop>
    ensures { Tells result (strict_value bounded (operator op.AtLeast) at (a.now ∷ b.now ∷ [])) }
{
    let m = int_of(at, a)?;
    let n = int_of(at, b)?;
    Ok(Value::truth(n <= m))
}
