//! Whether a value is a function of a space, which isn't listed.

ghost use Rattle.std.specs.Prelude.{◌≡◌, ◌∷◌, [], length};
ghost use Rattle.std.specs.Ordering.{is_eq};
ghost use Rattle.tla_tree.specs.Tree.{functions};
ghost use Rattle.tla_value.specs.Value.{set, fun, values_in};
ghost use Rattle.tla_value.specs.Order.{same, orders, IsAscending};
ghost use Rattle.tla_value.specs.Limits.{bounded};
ghost use Rattle.tla_value.specs.Sets.{all_chosen, repeated, is_function_over};
ghost use Rattle.tla_value.specs.Strict.{strict_test};
ghost use Rattle.tla_value.specs.ValueOf.{IsStored};
ghost use Rattle.value_forms.specs.Gives.{Tells};

use tla_token::Place;
use tla_value::build::has;
use tla_value::compare::compare;
use tla_value::stop::EvalStop;
use tla_value::value::{Kind, Value};
use value_forms::kinds::members_of;

// Whether two rows of the same length are one.
fn same_rows(a: &[Value], b: &[Value]) -> bool
    requires { length a.now ≡ length b.now }
    ensures { result ≡ is_eq (orders (values_in a.now) (values_in b.now)) }
{
    for i in 0..a.len() {
        if !compare(&a[i], &b[i]).is_eq() {
            return false;
        }
    }
    true
}

/// Whether two sets are one.
pub fn same_members(a: &[Value], b: &[Value]) -> bool
    ensures { result ≡ same (set (values_in a.now)) (set (values_in b.now)) }
{
    if a.len() != b.len() {
        return false;
    }
    same_rows(a, b)
}

// Whether each of some values is in a set.
fn each_among(values: &[Value], results: &[Value]) -> bool
    requires { IsAscending (values_in results.now) }
    ensures { result ≡ all_chosen (values_in values.now) (repeated (values_in values.now) (set (values_in results.now))) }
{
    for v in values {
        if !has(results, v) {
            return false;
        }
    }
    true
}

// Whether a function is on a domain and gives members of a set.
fn is_function_on(es: &[Value], vs: &[Value], domain: &[Value], results: &[Value]) -> bool
    requires function { IsStored (fun (values_in es.now) (values_in vs.now)) }
    requires results { IsAscending (values_in results.now) }
    ensures { result ≡ is_function_over (fun (values_in es.now) (values_in vs.now)) (values_in domain.now) (repeated (values_in domain.now) (set (values_in results.now))) }
{
    if !same_members(es, domain) {
        return false;
    }
    each_among(vs, results)
}

// Whether a value is a function on a domain that gives members of a set.
fn is_function(v: &Value, domain: &[Value], results: &[Value]) -> bool
    requires { IsAscending (values_in results.now) }
    ensures { result ≡ is_function_over v.now (values_in domain.now) (repeated (values_in domain.now) (set (values_in results.now))) }
{
    match &v.kind {
        Kind::Fun(es, vs) => {
            is_function_on(es.items.as_slice(), vs.items.as_slice(), domain, results)
        }
        Kind::Bool(_) => false,
        Kind::Int(_) => false,
        Kind::Text(_) => false,
        Kind::Model(_) => false,
        Kind::Set(_) => false,
    }
}

/// Whether `v` is a member of `[a -> b]`, which isn't listed.
///
/// # Errors
///
/// Where `a` or `b` isn't a set.
pub fn member_of_functions(at: Place, v: &Value, a: &Value, b: &Value) -> Result<bool, EvalStop>
    ensures { Tells result (strict_test bounded functions at at v.now (a.now ∷ b.now ∷ [])) }
{
    let domain = members_of(at, a)?;
    let results = members_of(at, b)?;
    Ok(is_function(v, domain, results))
}
