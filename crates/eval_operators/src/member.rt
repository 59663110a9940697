//! How it is told whether a value is a member of an expression's set.

ghost use Rattle.std.specs.Prelude.{◌≡◌, ◌≢◌, true, false, Some};
ghost use Rattle.tla_token.specs.declared.place.Place.{Place as pure_place};
ghost use Rattle.tla_pool.specs.FormOf.{form_of};
ghost use Rattle.tla_value.specs.Limits.{bounded};
ghost use Rattle.tla_value.specs.Meaning.{called};
ghost use Rattle.tla_value.specs.Standard as pure;
ghost use Rattle.tla_value.specs.Standard.{standard_name, standard_sense};
ghost use Rattle.eval_scopes.specs.Scopes.{seen_of};
ghost use Rattle.eval_scopes.specs.Contexts.{env_of, IsWithin};
ghost use Rattle.eval_operators.specs.Standards.{standard_in};
ghost use Rattle.eval_operators.specs.Tested.{IsListed, AreListed};
ghost use Rattle.eval_operators.specs.TestsBy.{TestsBy};

use crate::standard::{Standard, standard_named};
use eval_scopes::context::{Context, seen_latest};
use eval_scopes::scope::Scope;
use tla_pool::form::{Form, Strict};
use tla_tree::Name;
use tla_value::names::Names;

/// How it is told whether a value is in the set of an expression.
pub enum TestBy<'x> {
    /// The set is that of all strings.
    Text,
    /// It is that of a standard name without value.
    Standard(&'x Name),
    /// By the values of the parts of a strict form.
    Parts(&'x Strict),
    /// It is that of all sequences over the value of its part.
    Sequences,
    /// By the value of the expression.
    Listed,
}

// Whether a name stands for something but what standard modules give it.
fn is_known<'x, N: Names>(cx: &Context<'x, N>, x: &Name, scope: &Scope<'x>) -> bool
    requires within { IsWithin cx.now (seen_of scope.now) }
    ensures known { result ≡ true → AreListed ((env_of N.look cx.now scope.now).now x.now) }
    ensures unknown { result ≡ false → (at : pure_place) → (env_of N.look cx.now scope.now).now x.now at ≡ standard_name x.now at }
{
    if let Some(_v) = scope.find(x) {
        return true;
    }
    if let Some(_k) = seen_latest(cx, true, x, scope) {
        return true;
    }
    match cx.names.value(x) {
        Some(_v) => true,
        None => false,
    }
}

fn is_sequence_set(o: Standard) -> bool
    ensures yes { result ≡ true → standard_in o ≡ pure.sequences }
    ensures no { result ≡ false → standard_in o ≢ pure.sequences }
{
    match o {
        Standard::Sequences => true,
        Standard::Length => false,
        Standard::Append => false,
        Standard::Head => false,
        Standard::Tail => false,
        Standard::SubSequence => false,
        Standard::Cardinality => false,
        Standard::IsFinite => false,
        Standard::Print => false,
        Standard::Assert => false,
    }
}

// Whether an operator is `Seq` of the standard modules.
fn is_sequences<'x, N: Names>(cx: &Context<'x, N>, f: &Name, scope: &Scope<'x>) -> bool
    requires within { IsWithin cx.now (seen_of scope.now) }
    ensures yes { result ≡ true → (env_of N.look cx.now scope.now).defs f.now ≡ Some (standard_sense bounded pure.sequences) }
    ensures no { result ≡ false → (at : pure_place) (vs : _) → IsListed (called at ((env_of N.look cx.now scope.now).defs f.now) vs) }
{
    if let Some(_k) = seen_latest(cx, false, f, scope) {
        return false;
    }
    match standard_named(f) {
        Some(o) => is_sequence_set(o),
        None => false,
    }
}

/// How it is told whether a value is in the set of an expression of this form.
pub fn test_of<'x, N: Names>(cx: &Context<'x, N>, form: &'x Form, scope: &Scope<'x>) -> TestBy<'x>
    requires within { IsWithin cx.now (seen_of scope.now) }
    ensures { TestsBy result (form_of form.now) (env_of N.look cx.now scope.now) }
{
    match form {
        Form::Strings => TestBy::Text,
        Form::Strict(o) => TestBy::Parts(o),
        Form::Name(x) => {
            if is_known(cx, x, scope) {
                TestBy::Listed
            } else {
                TestBy::Standard(x)
            }
        }
        Form::Call(f) => {
            if is_sequences(cx, f, scope) {
                TestBy::Sequences
            } else {
                TestBy::Listed
            }
        }
        _ => TestBy::Listed,
    }
}
