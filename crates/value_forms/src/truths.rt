//! Equality, and operators on truth values.

ghost use Rattle.std.specs.Prelude.{◌≡◌, ◌∷◌, []};
ghost use Rattle.tla_tree.specs.declared.op.Op.TheVariants as op;
ghost use Rattle.tla_tree.specs.Tree.{operator};
ghost use Rattle.tla_value.specs.Limits.{bounded};
ghost use Rattle.tla_value.specs.Strict.{strict_value};
ghost use Rattle.value_forms.specs.Gives.{Tells};

use crate::kinds::truth_of;
use tla_token::Place;
use tla_value::stop::EvalStop;
use tla_value::value::Value;

/// `a = b`, which any two values have.
///
/// # Errors
///
/// None.
pub fn equal(at: Place, a: &Value, b: &Value) -> Result<Value, EvalStop>
    ensures { Tells result (strict_value bounded (operator op.Equal) at (a.now ∷ b.now ∷ [])) }
{
    Ok(Value::truth(a == b))
}

/// `a # b`, which any two values have.
///
/// # Errors
///
/// None.
pub fn unequal(at: Place, a: &Value, b: &Value) -> Result<Value, EvalStop>
    ensures { Tells result (strict_value bounded (operator op.NotEqual) at (a.now ∷ b.now ∷ [])) }
{
    Ok(Value::truth(a != b))
}

/// `~a`.
///
/// # Errors
///
/// Where `a` isn't a truth value.
pub fn negation(at: Place, a: &Value) -> Result<Value, EvalStop>
    ensures { Tells result (strict_value bounded (operator op.Not) at (a.now ∷ [])) }
{
    let p = truth_of(at, a)?;
    Ok(Value::truth(!p))
}

/// `a <=> b`.
///
/// # Errors
///
/// Where `a` or `b` isn't a truth value.
pub fn equivalent(at: Place, a: &Value, b: &Value) -> Result<Value, EvalStop>
    ensures { Tells result (strict_value bounded (operator op.Equivalent) at (a.now ∷ b.now ∷ [])) }
{
    let p = truth_of(at, a)?;
    let q = truth_of(at, b)?;
    Ok(Value::truth(p == q))
}
