//! Functions: what they give, and their domains.

ghost use Rattle.std.specs.Prelude.{◌≡◌, ◌∷◌, [], ◌++◌, OnOk, IfOk};
ghost use Rattle.std.specs.Option.{option_copied};
ghost use Rattle.tla_tree.specs.declared.op.Op.TheVariants as op;
ghost use Rattle.tla_tree.specs.Tree.{operator, apply, select};
ghost use Rattle.tla_value.specs.Value.{values_in};
ghost use Rattle.tla_value.specs.Order.{count, found_at, IsAscending};
ghost use Rattle.tla_value.specs.Limits.{bounded};
ghost use Rattle.tla_value.specs.Strict.{strict_value};
ghost use Rattle.value_forms.specs.Gives.{Tells, Gives};
ghost use Rattle.function_forms.specs.Functions.{listed_option};

use std::alloc::{AllocError, Global};
use tla_token::Place;
use tla_tree::Name;
use tla_value::fault::FaultKind;
use tla_value::stop::EvalStop;
use tla_value::value::{Value, copied};
use value_forms::kinds::function_of;
use value_forms::made::{copies, function};
use value_forms::sets::set_in_order;

/// The value of a function at an argument, by its domain and the value at each member of it; `None`
/// outside the domain.
pub fn value_at<'x>(domain: &[Value], values: &'x [Value], a: &Value) -> Option<&'x Value>
    requires ascending { IsAscending (values_in domain.now) }
    requires each { count (values_in domain.now) ≡ count (values_in values.now) }
    ensures { option_copied result ≡ found_at (values_in domain.now) (values_in values.now) a.now }
{
    match domain.binary_search(a) {
        Ok(i) => Some(&values[i]),
        Err(_) => None,
    }
}

/// `f[a]`.
///
/// # Errors
///
/// Where `f` isn't a function, and where `a` is outside its domain.
pub fn applied<'x>(at: Place, f: &'x Value, a: &Value) -> Result<&'x Value, EvalStop>
    ensures { Gives (λ r. r.now) result (strict_value bounded apply at (f.now ∷ a.now ∷ [])) }
{
    let (domain, values) = function_of(at, f)?;
    match value_at(domain, values, a) {
        Some(v) => Ok(v),
        None => Err(EvalStop::Fault(FaultKind::NotInDomain, at)),
    }
}

/// `f.x`, the function at a string.
///
/// # Errors
///
/// For want of memory, where `f` isn't a function, and where the string is outside its domain.
pub fn selected<'x>(at: Place, f: &'x Value, x: &Name) -> Result<&'x Value, EvalStop>
    ensures { Gives (λ r. r.now) result (strict_value bounded (select x.now) at (f.now ∷ [])) }
{
    let field = Value::text(x.copied()?);
    applied(at, f, &field)
}

/// `DOMAIN f`.
///
/// # Errors
///
/// For want of memory, and where `f` isn't a function.
pub fn domain(alloc: Global, at: Place, f: &Value) -> Result<Value, EvalStop>
    ensures { Tells result (strict_value bounded (operator op.Domain) at (f.now ∷ [])) }
{
    let (domain, _values) = function_of(at, f)?;
    let members = copies(alloc, domain)?;
    set_in_order(at, members)
}

// A list of one value.
fn alone(alloc: Global, v: &Value) -> Result<Vec<Value>, AllocError>
    ensures { IfOk result (λ r. r.items ≡ v.now ∷ []) }
{
    let mut all = Vec::new(alloc);
    all.push(copied(alloc, v)?)?;
    Ok(all)
}

/// `d :> e`, the function on `d` alone.
///
/// # Errors
///
/// For want of memory, and where the function is past the limits.
pub fn maps_to(alloc: Global, at: Place, d: &Value, e: &Value) -> Result<Value, EvalStop>
    ensures { Tells result (strict_value bounded (operator op.MapsTo) at (d.now ∷ e.now ∷ [])) }
{
    let domain = alone(alloc, d)?;
    let values = alone(alloc, e)?;
    function(at, domain, values)
}

/// Adds a value once more to a list, if it is there.
///
/// # Errors
///
/// Only for want of memory.
pub fn add_found(alloc: Global, all: &mut Vec<Value>, v: Option<&Value>) -> Result<(), AllocError>
    ensures { OnOk result (all.new.items ≡ all.old.items ++ listed_option (option_copied v.entry)) }
{
    match v {
        Some(v) => {
            all.push(copied(alloc, v)?)?;
            Ok(())
        }
        None => Ok(()),
    }
}
