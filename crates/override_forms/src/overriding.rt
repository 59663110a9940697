//! Two functions that are taken together.

ghost use Rattle.std.specs.Prelude.{◌≡◌, ◌∷◌, [], ◌++◌, IfOk};
ghost use Rattle.std.specs.Option.{option_copied};
ghost use Rattle.tla_tree.specs.declared.op.Op.TheVariants as op;
ghost use Rattle.tla_tree.specs.Tree.{operator};
ghost use Rattle.tla_value.specs.Value.{fun, values_in};
ghost use Rattle.tla_value.specs.Order.{pairs_of, first_at, values_at};
ghost use Rattle.tla_value.specs.Limits.{bounded};
ghost use Rattle.tla_value.specs.Strict.{strict_value};
ghost use Rattle.tla_value.specs.ValueOf.{IsStored};
ghost use Rattle.value_forms.specs.Gives.{Tells};

use function_forms::functions::{add_found, value_at};
use std::alloc::{AllocError, Global};
use tla_token::Place;
use tla_value::stop::EvalStop;
use tla_value::value::Value;
use value_forms::kinds::function_of;
use value_forms::made::function;
use value_forms::sets::{Merge, merged};

// The value at an argument of the first of two functions that has it in its domain.
fn first_found<'x>(
    ds: &[Value],
    rs: &'x [Value],
    es: &[Value],
    qs: &'x [Value],
    d: &Value,
) -> Option<&'x Value>
    requires first { IsStored (fun (values_in ds.now) (values_in rs.now)) }
    requires second { IsStored (fun (values_in es.now) (values_in qs.now)) }
    ensures { option_copied result ≡ first_at (pairs_of (values_in ds.now) (values_in rs.now) ++ pairs_of (values_in es.now) (values_in qs.now)) d.now }
{
    match value_at(ds, rs, d) {
        Some(v) => Some(v),
        None => value_at(es, qs, d),
    }
}

// The values of two functions at the members of a domain, those of the first function where it has them.
fn values_over(
    alloc: Global,
    ds: &[Value],
    rs: &[Value],
    es: &[Value],
    qs: &[Value],
    domain: &[Value],
) -> Result<Vec<Value>, AllocError>
    requires first { IsStored (fun (values_in ds.now) (values_in rs.now)) }
    requires second { IsStored (fun (values_in es.now) (values_in qs.now)) }
    ensures { IfOk result (λ r. values_in r.items ≡ values_at (pairs_of (values_in ds.now) (values_in rs.now) ++ pairs_of (values_in es.now) (values_in qs.now)) (values_in domain.now)) }
{
    let mut all = Vec::new(alloc);
    for d in domain {
        add_found(alloc, &mut all, first_found(ds, rs, es, qs, d))?;
    }
    Ok(all)
}

/// `f @@ g`, which gives what `f` gives on the domain of `f`.
///
/// # Errors
///
/// For want of memory, where `f` or `g` isn't a function, and where the function is past the limits.
pub fn overridden(alloc: Global, at: Place, f: &Value, g: &Value) -> Result<Value, EvalStop>
    ensures { Tells result (strict_value bounded (operator op.Override) at (f.now ∷ g.now ∷ [])) }
{
    let (ds, rs) = function_of(at, f)?;
    let (es, qs) = function_of(at, g)?;
    let domain = merged(alloc, Merge::Either, ds, es)?;
    let values = values_over(alloc, ds, rs, es, qs, &domain)?;
    function(at, domain, values)
}
