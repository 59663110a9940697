//! Whether plain variables have values that their declarations allow ("A PlusCal User's Manual", sections 3.1 and 3.3).

ghost use Rattle.std.specs.Prelude.{◌≡◌, ◌≤◌, ◌<◌, [], length, false};
ghost use Rattle.tla_tree.specs.Pool.{at};
ghost use Rattle.tla_value.specs.Definitions.{no_state, scope_of};
ghost use Rattle.tla_value.specs.Defs.{definitions_at, DefinitionsIn};
ghost use Rattle.tla_value.specs.Limits.{bounded};
ghost use Rattle.tla_value.specs.Meaning.{eval};
ghost use Rattle.tla_value.specs.Value.{truth};
ghost use Rattle.pcal_tree.specs.InMemory.{start_at, past_start, declaration_at, declarations_at, past_declarations};
ghost use Rattle.value_forms.specs.Gives.{Tells};
ghost use Rattle.eval_scopes.specs.Scopes.{with_words};
ghost use Rattle.step_moves.specs.Programs.{program_at};
ghost use Rattle.step_moves.specs.StatesOf.{state_of};
ghost use Rattle.step_moves.specs.ScopeIn.{IsScene};
ghost use Rattle.written_traces.specs.AskedStarts.{as_written, plain_asked, globals_asked};
ghost use Rattle.start_troubles.specs.Asked.{sense_by, global_asked};

use eval_scopes::context::Context;
use eval_scopes::scope::Scope;
use pcal_tree::algorithm::{Declaration, Start};
use std::alloc::Global;
use step_meaning::identified::unbound;
use step_meaning::values::default_value;
use step_moves::{Bound, Program, Sight, value};
use tla_eval::eval::member;
use tla_pool::Pool;
use tla_token::Place;
use tla_tree::{Name, NodeId};
use tla_value::compare::compare;
use tla_value::names::{Defs, Names};
use tla_value::state::State;
use tla_value::stop::EvalStop;
use tla_value::value::Value;

/// The value of a variable in a state; this other one, FALSE, where it has none.
pub fn value_in<'x>(state: &'x State, name: &Name, none: &'x Value) -> &'x Value
    requires { none.now ≡ truth false }
    ensures { result.now ≡ state_of state.now name.now }
{
    match state.get(name) {
        Some(v) => v,
        None => none,
    }
}

// Whether a value is a member of an expression's set, where these names are bound to values, and others stand for values and definitions.
fn member_where<'x, N: Names>(
    alloc: Global,
    pool: &'x Pool,
    e: NodeId,
    names: &'x N,
    defs: &'x Defs,
    bound: &'x [Name],
    values: &'x [Value],
    place: Place,
    v: &Value,
) -> Result<bool, EvalStop>
    requires below { e < length pool.now }
    requires defined { DefinitionsIn (length pool.now) defs.now }
    ensures { Tells result ((eval bounded (at pool.now e) (with_words bound.now values.now (scope_of bounded (N.look names.now) (definitions_at pool.now defs.now) no_state no_state))).test place v.now) }
{
    let cx = Context {
        pool,
        names,
        next: None,
        defs,
    };
    let scope = Scope::Params(bound, values, defs.as_slice().len());
    member(alloc, &cx, place, v, e, &scope)
}

/// Whether a value is a member of the set that an expression is, asked at a place. Some sets are not listed for that.
///
/// # Errors
///
/// For want of memory, and exactly where the expression has no value, or that is no set, or a value is past the limits.
pub fn is_member(
    alloc: Global,
    program: &Program<'_>,
    state: &State,
    bound: &Bound,
    place: Place,
    e: NodeId,
    v: &Value,
) -> Result<bool, EvalStop>
    requires below { e < length program.now.pool.now }
    requires scene { IsScene program.now state.now }
    ensures { Tells result ((sense_by (program_at program.now) bound.now.names.items bound.now.values.items (at program.now.pool.now e) (state_of state.now)).test place v.now) }
{
    let sight = Sight {
        variables: state,
        constants: program.constants,
    };
    member_where(
        alloc,
        program.pool,
        e,
        &sight,
        program.defs,
        &bound.names,
        &bound.values,
        place,
        v,
    )
}

/// Whether a value is one that the declaration of a plain variable allows.
///
/// # Errors
///
/// For want of memory, and exactly where its expression has no value, or as of `is_member`.
pub fn plain_allowed(
    alloc: Global,
    program: &Program<'_>,
    state: &State,
    bound: &Bound,
    place: Place,
    start: &Start,
    v: &Value,
) -> Result<bool, EvalStop>
    requires below { past_start start.now ≤ length program.now.pool.now }
    requires scene { IsScene program.now state.now }
    ensures { Tells result (plain_asked (sense_by (program_at program.now) bound.now.names.items bound.now.values.items) place (start_at program.now.pool.now start.now) (state_of state.now) v.now) }
{
    match start {
        Start::Unset => {
            let first = default_value(alloc)?;
            Ok(compare(v, &first).is_eq())
        }
        Start::Equals(e) => {
            let first = value(alloc, program, state, bound, *e)?;
            Ok(compare(v, &first).is_eq())
        }
        Start::Among(e) => is_member(alloc, program, state, bound, place, *e, v),
    }
}

// Whether a global variable has a value that its declaration allows, where no name is bound.
fn global_allowed(
    alloc: Global,
    program: &Program<'_>,
    bound: &Bound,
    one: &Declaration,
    state: &State,
) -> Result<bool, EvalStop>
    requires below { past_start one.now.start ≤ length program.now.pool.now }
    requires scene { IsScene program.now state.now }
    requires names { bound.now.names.items ≡ [] }
    requires values { bound.now.values.items ≡ [] }
    ensures { Tells result (global_asked (as_written (program_at program.now)) (declaration_at program.now.pool.now one.now) (state_of state.now)) }
{
    let none = Value::truth(false);
    let v = value_in(state, &one.name.name, &none);
    plain_allowed(alloc, program, state, bound, one.name.place, &one.start, v)
}

/// Whether all global variables have values that their declarations allow.
///
/// # Errors
///
/// As of `plain_allowed`, at the first that has one, where those before it are allowed.
pub fn globals_allowed(
    alloc: Global,
    program: &Program<'_>,
    list: &[Declaration],
    state: &State,
) -> Result<bool, EvalStop>
    requires below { past_declarations list.now ≤ length program.now.pool.now }
    requires scene { IsScene program.now state.now }
    ensures { Tells result (globals_asked (as_written (program_at program.now)) (declarations_at program.now.pool.now list.now) (state_of state.now)) }
{
    let bound = unbound(alloc);
    for one in list {
        let allowed = global_allowed(alloc, program, &bound, one, state)?;
        if !allowed {
            return Ok(false);
        }
    }
    Ok(true)
}
