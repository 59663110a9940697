//! What names outside an expression stand for: definitions, and values now and in the next state.

ghost use Rattle.std.specs.Prelude.{◌≡◌, ◌≤◌, ◌&&◌, length, bytes_eq};
ghost use Rattle.tla_value.specs.Value.{Outcome, Value as pure_value};
ghost use Rattle.tla_value.specs.Definitions.{at_use};
ghost use Rattle.tla_value.specs.Standard.{standard_name};
ghost use Rattle.tla_value.specs.Strict.{same_truth};
ghost use Rattle.eval_scopes.specs.Contexts.{last_of, has_none, outside, IsWithin};
ghost use Rattle.eval_scopes.specs.Scopes.{seen_of};
ghost use Rattle.value_forms.specs.Gives.{Stops, Tells};

use crate::got::Got;
use crate::scope::Scope;
use tla_pool::Pool;
use tla_token::Place;
use tla_tree::{Name, NameList};
use tla_value::fault::FaultKind;
use tla_value::names::{Definition, Defs, Names};
use tla_value::stop::EvalStop;

/// Expressions, and what names stand for outside of them.
#[derive(Drop)]
pub struct Context<'a, N> {
    /// The expressions.
    pub pool: &'a Pool,
    /// The value of each name that has one.
    pub names: &'a N,
    /// The values of names in the next state, if there is one.
    pub next: Option<&'a N>,
    /// Definitions; each sees those before it, and these values.
    pub defs: &'a Defs,
}

// Whether there are none.
fn is_empty(names: &NameList) -> bool
    ensures { result ≡ has_none names.now }
{
    names.len() == 0
}

// Whether a definition has a name, and parameters or none.
fn gives(d: &Definition, plain: bool, name: &Name) -> bool
    ensures { result ≡ (same_truth plain (has_none d.now.params) && bytes_eq d.now.name name.now) }
{
    let empty = is_empty(&d.params);
    if plain != empty {
        return false;
    }
    d.name.is(name)
}

/// The last of the first definitions that has a name, and parameters or none.
pub fn latest(defs: &[Definition], plain: bool, name: &Name, before: usize) -> Option<usize>
    requires { before ≤ length defs.now }
    ensures { result ≡ last_of plain defs.now name.now before }
{
    let mut n = before;
    while n > 0 {
        n -= 1;
        if gives(&defs[n], plain, name) {
            return Some(n);
        }
    }
    None
}

/// The last definition of those that a scope sees that has a name, and parameters or none.
pub fn seen_latest<'x, N: Names>(
    cx: &Context<'x, N>,
    plain: bool,
    name: &Name,
    scope: &Scope<'x>,
) -> Option<usize>
    requires within { IsWithin cx.now (seen_of scope.now) }
    ensures { result ≡ last_of plain cx.now.defs.now name.now (seen_of scope.now) }
{
    latest(cx.defs.as_slice(), plain, name, scope.seen())
}

/// A stop in the body of a definition; of one outside the algorithm it is at the use.
pub fn stopped(outside: bool, at: Place, stop: EvalStop) -> EvalStop
    ensures { (o : Outcome pure_value) → Stops stop o → Stops result (at_use outside at o) }
{
    if !outside {
        return stop;
    }
    match stop {
        EvalStop::Memory => EvalStop::Memory,
        EvalStop::Fault(kind, _) => EvalStop::Fault(kind, at),
        EvalStop::Limit(_) => EvalStop::Limit(at),
    }
}

// The value of a name that only standard modules may have.
fn standard_value<'x>(place: Place, x: &Name) -> Result<Got<'x>, EvalStop>
    ensures { Tells result (standard_name x.now place).value }
{
    if x.bytes() == b"Nat".as_slice() {
        return Err(EvalStop::Fault(FaultKind::NotSet, place));
    }
    if x.bytes() == b"Int".as_slice() {
        return Err(EvalStop::Fault(FaultKind::NotSet, place));
    }
    Err(EvalStop::Fault(FaultKind::NotFunction, place))
}

/// The value of a name outside of definitions.
///
/// # Errors
///
/// Exactly where it has none.
pub fn outer_named<'x, N: Names>(
    cx: &'x Context<'x, N>,
    place: Place,
    x: &Name,
) -> Result<Got<'x>, EvalStop>
    ensures { Tells result ((outside N.look cx.now).now x.now place).value }
{
    match cx.names.value(x) {
        Some(v) => Ok(Got::there(v)),
        None => standard_value(place, x),
    }
}

/// The value of a primed name.
///
/// # Errors
///
/// Exactly where it has none.
pub fn next_named<'x, N: Names>(
    cx: &'x Context<'x, N>,
    place: Place,
    x: &Name,
) -> Result<Got<'x>, EvalStop>
    ensures { Tells result ((outside N.look cx.now).primed x.now place).value }
{
    let Some(next) = cx.next else {
        return Err(EvalStop::Fault(FaultKind::NotFunction, place));
    };
    match next.value(x) {
        Some(v) => Ok(Got::there(v)),
        None => Err(EvalStop::Fault(FaultKind::NotFunction, place)),
    }
}
