//! Assignments to parts of variables ("A PlusCal User's Manual", section 3.2, on assignment).

ghost use Rattle.std.specs.Prelude.{◌<◌, ◌≤◌, length, map, List, OnOk, IfOk, true, ◌≡◌};
ghost use Rattle.tla_token.specs.Signs.{is_among};
ghost use Rattle.tla_tree.specs.Nesting.{greatest};
ghost use Rattle.tla_tree.specs.Pool.{at};
ghost use Rattle.tla_value.specs.Limits.{bounded};
ghost use Rattle.pcal_tree.specs.InMemory.{assignments_at, past_assignment};
ghost use Rattle.pcal_tree.specs.Program as pure;
ghost use Rattle.pcal_tree.specs.Scope.{reach};
ghost use Rattle.action_builder.specs.laws.WrittenScope.{written_part};
ghost use Rattle.pcal_tree.specs.Assign.{after_assignments, settings as pure_settings};
ghost use Rattle.pcal_tree.specs.Variables.{vars};
ghost use Rattle.value_forms.specs.Gives.{Gives};
ghost use Rattle.step_moves.specs.Programs.{program_at};
ghost use Rattle.step_moves.specs.StatesOf.{state_of, settings_of, AreOf, HasJust};
ghost use Rattle.step_moves.specs.ScopeIn.{scope_in, IsScene};
ghost use Rattle.tla_pool.specs.FormOf.{form_of};
ghost use Rattle.tla_token.specs.Places.{nowhere};
ghost use Rattle.tla_value.specs.declared.fault.FaultKind.TheVariants.{NotFunction};
ghost use Rattle.tla_value.specs.declared.stop.EvalStop.TheVariants.{Fault};
ghost use Rattle.step_moves.specs.PartsOf.{part_of, reached_path, IsSide};

use crate::values::{Bound, all_values, value};
use crate::{Program, Setting, set_all};
use pcal_tree::algorithm::Assignment;
use std::alloc::Global;
use tla_pool::form::{Form, Strict};
use tla_token::Place;
use tla_tree::{Name, NodeId};
use tla_value::fault::FaultKind;
use tla_value::state::State;
use tla_value::stop::EvalStop;
use tla_value::value::Value;

/// A part of a variable, after some subscripts.
#[derive(Drop)]
pub struct Part<'a> {
    /// The variable.
    pub variable: &'a Name,
    /// The subscripts; empty for the whole.
    pub path: Vec<Value>,
}

// What is no left side.
fn no_part() -> EvalStop
    ensures { result ≡ Fault NotFunction nowhere }
{
    EvalStop::Fault(FaultKind::NotFunction, Place { line: 0, col: 0 })
}

/// What a form is as a left side.
#[derive(Clone, Copy)]
pub enum Side<'a> {
    /// A variable.
    Whole(&'a Name),
    /// A left side with subscripts.
    Subscripted,
    /// A field of a left side.
    Field(&'a Name),
    /// None.
    Neither,
}

// What a form is as a left side.
fn side_of(form: &Form) -> Side<'_>
    ensures { IsSide result (form_of form.now) }
{
    match form {
        Form::Name(x) => Side::Whole(x),
        Form::Strict(strict) => match strict {
            Strict::Apply => Side::Subscripted,
            Strict::Select(field) => Side::Field(field),
            Strict::Operator(_)
            | Strict::SetOf
            | Strict::Tuple
            | Strict::Fields(_)
            | Strict::Records(_)
            | Strict::Functions
            | Strict::Except(_) => Side::Neither,
        },
        Form::Number(_)
        | Form::String(_)
        | Form::Truth(_)
        | Form::Booleans
        | Form::Strings
        | Form::Next(_)
        | Form::Call(_)
        | Form::Conjunction
        | Form::Disjunction
        | Form::Implication
        | Form::Member(_)
        | Form::IfThenElse
        | Form::Cases(_)
        | Form::Binding(_, _)
        | Form::Local(_) => Side::Neither,
    }
}

// The whole of a variable.
fn whole<'a>(alloc: Global, state: &State, variable: &'a Name) -> Result<Part<'a>, EvalStop>
    ensures part { (P : pure.Program) → HasJust (vars P) state.now → Gives part_of result (written_part P variable.now) }
    ensures variable { (P : pure.Program) → HasJust (vars P) state.now → IfOk result (λ p. is_among (vars P) p.variable.now ≡ true) }
{
    match state.get(variable) {
        Some(_) => Ok(Part {
            variable,
            path: Vec::new(alloc),
        }),
        None => Err(no_part()),
    }
}

// The part that a left side stands for. It calls itself as deep as expressions nest.
#[cycle(left)]
fn left<'a>(
    alloc: Global,
    program: &Program<'a>,
    state: &State,
    bound: &Bound,
    e: NodeId,
) -> Result<Part<'a>, EvalStop>
    requires below { e < length program.now.pool.now }
    requires scene { IsScene program.now state.now }
    ensures part { Gives part_of result (reach bounded (at program.now.pool.now e) (scope_in (program_at program.now) bound.now.names.items bound.now.values.items) (state_of state.now)) }
    ensures variable { IfOk result (λ p. is_among (vars (program_at program.now)) p.variable.now ≡ true) }
{
    let node = program.pool.node(e);
    match side_of(&node.form) {
        Side::Whole(x) => whole(alloc, state, x),
        Side::Neither => Err(no_part()),
        Side::Subscripted => subscripted(alloc, program, state, bound, e),
        Side::Field(field) => {
            let mut part = subscripted(alloc, program, state, bound, e)?;
            part.path.push(Value::text(field.copied()?))?;
            Ok(part)
        }
    }
}

// The part after the subscripts of a left side, whose first part is a left side itself.
#[cycle(left)]
fn subscripted<'a>(
    alloc: Global,
    program: &Program<'a>,
    state: &State,
    bound: &Bound,
    e: NodeId,
) -> Result<Part<'a>, EvalStop>
    requires below { e < length program.now.pool.now }
    requires scene { IsScene program.now state.now }
    ensures part { Gives part_of result (reached_path (at program.now.pool.now e) (scope_in (program_at program.now) bound.now.names.items bound.now.values.items) (state_of state.now)) }
    ensures variable { IfOk result (λ p. is_among (vars (program_at program.now)) p.variable.now ≡ true) }
{
    let node = program.pool.node(e);
    if node.parts.is_empty() {
        return Err(no_part());
    }
    let mut part = left(alloc, program, state, bound, node.parts[0])?;
    let mut subscripts = all_values(alloc, program, state, bound, &node.parts[1..])?;
    part.path.append(&mut subscripts)?;
    Ok(part)
}

// All subscripts and right sides, in the written order.
fn settings<'a>(
    alloc: Global,
    program: &Program<'a>,
    state: &State,
    bound: &Bound,
    assignments: &[Assignment],
) -> Result<Vec<Setting<'a>>, EvalStop>
    requires below { greatest (map past_assignment assignments.now) ≤ length program.now.pool.now }
    requires scene { IsScene program.now state.now }
    ensures settings { Gives (λ r. settings_of r.items) result (pure_settings bounded (assignments_at program.now.pool.now assignments.now) (scope_in (program_at program.now) bound.now.names.items bound.now.values.items) (state_of state.now)) }
    ensures variables { IfOk result (λ r. AreOf (vars (program_at program.now)) r.items) }
{
    let mut all = Vec::new(alloc);
    for one in assignments {
        let part = left(alloc, program, state, bound, one.left)?;
        let value = value(alloc, program, state, bound, one.right)?;
        all.push(Setting {
            place: program.pool.node(one.left).place,
            variable: part.variable,
            path: part.path,
            value,
        })?;
    }
    Ok(all)
}

/// Makes the assignments of one statement: all subscripts and right sides are evaluated before.
///
/// # Errors
///
/// For want of memory, and exactly where an expression has no value, or a part can't be set. The state may then have changed.
pub fn assigned(
    alloc: Global,
    program: &Program<'_>,
    state: &mut State,
    bound: &Bound,
    assignments: &[Assignment],
) -> Result<(), EvalStop>
    requires below { greatest (map past_assignment assignments.now) ≤ length program.now.pool.now }
    requires scene { IsScene program.now state.old }
    ensures assigned { Gives (λ u. state_of state.new) result (after_assignments bounded (assignments_at program.now.pool.now assignments.now) (scope_in (program_at program.now) bound.now.names.items bound.now.values.items) (state_of state.old)) }
    ensures scene { OnOk result (IsScene program.now state.new) }
{
    let all = settings(alloc, program, &*state, bound, assignments)?;
    set_all(state, all)
}
