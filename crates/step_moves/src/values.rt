//! Values of expressions where a statement is ("A PlusCal User's Manual", section 3.1, expressions).

ghost use Rattle.std.specs.Prelude.{◌<◌, length};
ghost use Rattle.tla_tree.specs.Pool.{at, trees_at, AllBelow};
ghost use Rattle.tla_value.specs.Meaning.{evals, part_values};
ghost use Rattle.tla_value.specs.Limits.{bounded};
ghost use Rattle.tla_value.specs.Value.{values_in};
ghost use Rattle.pcal_tree.specs.Scope.{value_of, test, members as pure_members};
ghost use Rattle.value_forms.specs.Gives.{Tells, Gives};
ghost use Rattle.step_moves.specs.Programs.{program_at};
ghost use Rattle.step_moves.specs.StatesOf.{state_of};
ghost use Rattle.step_moves.specs.ScopeIn.{scope_in, IsScene};

use crate::{Program, Sight};
use std::alloc::Global;
use tla_eval::eval::eval_where;
use tla_tree::{Name, NodeId};
use tla_value::fault::FaultKind;
use tla_value::state::State;
use tla_value::stop::EvalStop;
use tla_value::value::{Kind, Value};
use value_forms::kinds::truth_of;

/// Names that are bound where a statement is, each with its value: `self`, and those of a `with`. Of two that are alike the later one
/// counts.
#[derive(Drop)]
pub struct Bound {
    /// The names.
    pub names: Vec<Name>,
    /// Their values.
    pub values: Vec<Value>,
}

/// The value of an expression.
///
/// # Errors
///
/// For want of memory, and exactly where the expression has no value, or one past the limits.
pub fn value(
    alloc: Global,
    program: &Program<'_>,
    state: &State,
    bound: &Bound,
    e: NodeId,
) -> Result<Value, EvalStop>
    requires below { e < length program.now.pool.now }
    requires scene { IsScene program.now state.now }
    ensures { Tells result (value_of bounded (at program.now.pool.now e) (scope_in (program_at program.now) bound.now.names.items bound.now.values.items) (state_of state.now)) }
{
    let sight = Sight {
        variables: state,
        constants: program.constants,
    };
    eval_where(
        alloc,
        program.pool,
        e,
        &sight,
        program.defs,
        &bound.names,
        &bound.values,
    )
}

/// The values of expressions, in order.
///
/// # Errors
///
/// As of `value`, at the first that has one.
pub fn all_values(
    alloc: Global,
    program: &Program<'_>,
    state: &State,
    bound: &Bound,
    list: &[NodeId],
) -> Result<Vec<Value>, EvalStop>
    requires below { AllBelow (length program.now.pool.now) list.now }
    requires scene { IsScene program.now state.now }
    ensures { Gives (λ r. r.items) result (part_values (evals bounded (trees_at program.now.pool.now list.now)) ((scope_in (program_at program.now) bound.now.names.items bound.now.values.items).env (state_of state.now))) }
{
    let mut all = Vec::new(alloc);
    for e in list {
        all.push(value(alloc, program, state, bound, *e)?)?;
    }
    Ok(all)
}

/// Whether an expression is true.
///
/// # Errors
///
/// As of `value`, and exactly where its value is no truth value.
pub fn truth(
    alloc: Global,
    program: &Program<'_>,
    state: &State,
    bound: &Bound,
    e: NodeId,
) -> Result<bool, EvalStop>
    requires below { e < length program.now.pool.now }
    requires scene { IsScene program.now state.now }
    ensures { Tells result (test bounded (at program.now.pool.now e) (scope_in (program_at program.now) bound.now.names.items bound.now.values.items) (state_of state.now)) }
{
    let v = value(alloc, program, state, bound, e)?;
    truth_of(program.pool.node(e).place, &v)
}

/// The members of a set, in canonical order.
///
/// # Errors
///
/// As of `value`, and exactly where its value is no set.
pub fn members(
    alloc: Global,
    program: &Program<'_>,
    state: &State,
    bound: &Bound,
    e: NodeId,
) -> Result<Vec<Value>, EvalStop>
    requires below { e < length program.now.pool.now }
    requires scene { IsScene program.now state.now }
    ensures { Gives (λ r. values_in r.items) result (pure_members bounded (at program.now.pool.now e) (scope_in (program_at program.now) bound.now.names.items bound.now.values.items) (state_of state.now)) }
{
    let v = value(alloc, program, state, bound, e)?;
    match v.kind {
        Kind::Set(members) => Ok(members.items),
        Kind::Bool(_) | Kind::Int(_) | Kind::Text(_) | Kind::Model(_) | Kind::Fun(_, _) => {
            Err(EvalStop::Fault(FaultKind::NotSet, program.pool.node(e).place))
        }
    }
}
