//! Calls ("A PlusCal User's Manual", section 3.4, procedures).

ghost use Rattle.std.specs.Prelude.{◌≡◌, ◌+◌, ◌∷◌, bytes_eq, List, map, true, IfOk, IfSome, OnOk};
ghost use Rattle.std.specs.Option.{option_map, is_some};
ghost use Rattle.tla_token.specs.Signs.{is_among};
ghost use Rattle.tla_tree.specs.Tree.{Tree};
ghost use Rattle.tla_value.specs.States.{value_of};
ghost use Rattle.pcal_tree.specs.Algorithm.{Routine as PureRoutine, first_procedure, numbered, procedure_routine, procedure_routines};
ghost use Rattle.pcal_tree.specs.InMemory.{procedure_at};
ghost use Rattle.pcal_tree.specs.Program.{Actor};
ghost use Rattle.pcal_tree.specs.Calls.{routine_named, values_left as values_left_of};
ghost use Rattle.pcal_tree.specs.Variables.{vars};
ghost use Rattle.step_walks.specs.WrittenCalls.{called_by, entered_by, replaced_by, returned_and_entered_by};
ghost use Rattle.value_forms.specs.Gives.{Gives};
ghost use Rattle.step_spots.specs.Targets.{target_word};
ghost use Rattle.step_spots.specs.InMemory.{routine_at};
ghost use Rattle.step_moves.specs.Programs.{program_at};
ghost use Rattle.step_moves.specs.StatesOf.{state_of};
ghost use Rattle.step_moves.specs.ScopeIn.{IsScene};
ghost use Rattle.step_moves.specs.Prepared.{as_prepared, called_if};
ghost use Rattle.step_moves.specs.Runners.{partner_of, written_names, IsReady, IsRunner, IsCallee};

use crate::entries::{Visit, enter_keeping};
use crate::jumps::label_value;
use crate::reads::{all_read, field, fields_read, local_path, on_stack, written_all};
use crate::returns::restore_front;
use crate::runner::{Partner, Runner};
use pcal_tree::algorithm::Procedure;
use std::alloc::{AllocError, Global};
use step_spots::{Routine, Target};
use tla_token::Place;
use tla_tree::Name;
use tla_value::fault::FaultKind;
use tla_value::state::State;
use tla_value::stop::EvalStop;
use tla_value::value::Value;

// A prepared procedure as what is called.
fn callee_of<'a>(number: usize, procedure: &'a Procedure) -> Routine<'a>
    ensures number { result.number ≡ number }
    ensures variables { result.variables.now ≡ procedure.now.variables.items }
    ensures routine { (ts : List Tree) → routine_at ts result ≡ procedure_routine number (procedure_at ts procedure.now) }
{
    Routine {
        number,
        name: &procedure.name,
        params: &procedure.params,
        variables: &procedure.variables,
        spread: true,
        body: &procedure.body,
        exit: Target::Error,
    }
}

// Whether it has this name.
fn is_named(procedure: &Procedure, name: &Name) -> bool
    ensures { result ≡ bytes_eq procedure.now.name.word name.now }
{
    procedure.name.name.bytes() == name.bytes()
}

// The sum of two numbers.
fn sum(m: usize, n: usize) -> Result<usize, AllocError>
    ensures { IfOk result (λ r. r ≡ m + n) }
{
    m.checked_add(n).ok_or(AllocError)
}

// The first procedure of a name; prepared.
fn procedure_named<'a>(runner: &Runner<'a>, name: &Name) -> Result<Option<Routine<'a>>, AllocError>
    requires ready { IsReady runner.now }
    ensures found { IfOk result (λ r. option_map (routine_at runner.now.program.pool.now) r ≡ routine_named name.now (numbered procedure_routine (first_procedure (program_at runner.now.program).algorithm) (map (procedure_at runner.now.program.pool.now) runner.now.procedures.now))) }
    ensures callee { IfOk result (λ r. IfSome r (λ c. IsCallee runner.now c)) }
{
    let procedures = runner.procedures;
    let first = runner.program.first_procedure();
    for i in 0..procedures.len() {
        let procedure = &procedures[i];
        if is_named(procedure, name) {
            let number = sum(first, i)?;
            return Ok(Some(callee_of(number, procedure)));
        }
    }
    Ok(None)
}

// Enters the callee, with the values that its parameters and variables have.
fn enter(
    alloc: Global,
    runner: &Runner<'_>,
    state: &mut State,
    visit: &Visit<'_>,
    back: Value,
) -> Result<(), EvalStop>
    requires ready { IsReady runner.now }
    requires callee { IsCallee runner.now visit.now.callee }
    requires scene { IsScene runner.now.program state.old }
    ensures entered { (v : Actor) (u : PureRoutine) → IsRunner runner.now v u → Gives (λ _. state_of state.new) result (entered_by (as_prepared (program_at runner.now.program)) (program_at runner.now.program) v visit.now.place back (routine_at runner.now.program.pool.now visit.now.callee) visit.now.places.now visit.now.values.now (state_of state.old)) }
    ensures scene { OnOk result (IsScene runner.now.program state.new) }
{
    let names = written_all(alloc, &runner.program, &visit.callee)?;
    let path = local_path(alloc, runner, visit.callee.spread)?;
    let olds = all_read(alloc, &*state, visit.place, &names, &path)?;
    enter_keeping(alloc, runner, state, visit, back, &names, &olds)
}

// The values of the callee's parameters and variables after a return: of a call of the procedure that returned they are on the record
// that was taken off.
fn values_left(
    alloc: Global,
    runner: &Runner<'_>,
    state: &State,
    visit: &Visit<'_>,
    end: Place,
    front: &Value,
    names: &[Name],
) -> Result<Vec<Value>, EvalStop>
    requires names { names.now ≡ written_names runner.now.program visit.now.callee }
    ensures { (v : Actor) (u : PureRoutine) → IsRunner runner.now v u → Gives (λ r. r.items) result (values_left_of (program_at runner.now.program) v visit.now.place end u (routine_at runner.now.program.pool.now visit.now.callee) front.now (state_of state.now)) }
{
    if runner.routine.number == visit.callee.number {
        let own = written_all(alloc, &runner.program, &runner.routine)?;
        fields_read(alloc, end, &own, front)
    } else {
        let path = local_path(alloc, runner, visit.callee.spread)?;
        all_read(alloc, state, visit.place, names, &path)
    }
}

// Returns as this record has it, and enters the callee, whose return goes where this one goes.
fn replace_front(
    alloc: Global,
    runner: &Runner<'_>,
    state: &mut State,
    visit: &Visit<'_>,
    end: Place,
    front: &Value,
    frames: &[Value],
) -> Result<(), EvalStop>
    requires ready { IsReady runner.now }
    requires callee { IsCallee runner.now visit.now.callee }
    requires scene { IsScene runner.now.program state.old }
    requires known { is_among (vars (program_at runner.now.program)) runner.now.stack.now ≡ true }
    ensures replaced { (v : Actor) (u : PureRoutine) → IsRunner runner.now v u → Gives (λ _. state_of state.new) result (replaced_by (as_prepared (program_at runner.now.program)) (program_at runner.now.program) v visit.now.place end u (routine_at runner.now.program.pool.now visit.now.callee) visit.now.places.now visit.now.values.now (front.now ∷ frames.now) (state_of state.old)) }
    ensures scene { OnOk result (IsScene runner.now.program state.new) }
{
    let back = field(alloc, end, runner.pc, front)?;
    restore_front(alloc, runner, state, end, front, frames)?;
    let names = written_all(alloc, &runner.program, &visit.callee)?;
    let olds = values_left(alloc, runner, &*state, visit, end, front, &names)?;
    enter_keeping(alloc, runner, state, visit, back, &names, &olds)
}

// Returns as the first of these records has it, and enters the callee.
fn replace_first(
    alloc: Global,
    runner: &Runner<'_>,
    state: &mut State,
    visit: &Visit<'_>,
    end: Place,
    frames: &[Value],
) -> Result<(), EvalStop>
    requires ready { IsReady runner.now }
    requires callee { IsCallee runner.now visit.now.callee }
    requires scene { IsScene runner.now.program state.old }
    requires there { is_some (value_of state.old runner.now.stack.now) ≡ true }
    ensures replaced { (v : Actor) (u : PureRoutine) → IsRunner runner.now v u → Gives (λ _. state_of state.new) result (replaced_by (as_prepared (program_at runner.now.program)) (program_at runner.now.program) v visit.now.place end u (routine_at runner.now.program.pool.now visit.now.callee) visit.now.places.now visit.now.values.now frames.now (state_of state.old)) }
    ensures scene { OnOk result (IsScene runner.now.program state.new) }
{
    if frames.is_empty() {
        return Err(EvalStop::Fault(FaultKind::EmptySequence, end));
    }
    replace_front(alloc, runner, state, visit, end, &frames[0], &frames[1..])
}

// Returns, and enters the callee, whose return goes where this one goes.
fn replace(
    alloc: Global,
    runner: &Runner<'_>,
    state: &mut State,
    visit: &Visit<'_>,
    end: Place,
) -> Result<(), EvalStop>
    requires ready { IsReady runner.now }
    requires callee { IsCallee runner.now visit.now.callee }
    requires scene { IsScene runner.now.program state.old }
    ensures replaced { (v : Actor) (u : PureRoutine) → IsRunner runner.now v u → Gives (λ _. state_of state.new) result (returned_and_entered_by (as_prepared (program_at runner.now.program)) (program_at runner.now.program) v visit.now.place end u (routine_at runner.now.program.pool.now visit.now.callee) visit.now.places.now visit.now.values.now (state_of state.old)) }
    ensures scene { OnOk result (IsScene runner.now.program state.new) }
{
    let frames = on_stack(alloc, runner, &*state, end)?;
    replace_first(alloc, runner, state, visit, end, &frames)
}

// Enters the callee, as the call's partner has it.
fn enter_with(
    alloc: Global,
    runner: &Runner<'_>,
    state: &mut State,
    visit: &Visit<'_>,
    label: Target<'_>,
    partner: Partner<'_>,
) -> Result<(), EvalStop>
    requires ready { IsReady runner.now }
    requires callee { IsCallee runner.now visit.now.callee }
    requires scene { IsScene runner.now.program state.old }
    ensures entered { (v : Actor) (u : PureRoutine) → IsRunner runner.now v u → Gives (λ _. state_of state.new) result (called_by (as_prepared (program_at runner.now.program)) (program_at runner.now.program) v u visit.now.place (routine_at runner.now.program.pool.now visit.now.callee) visit.now.places.now visit.now.values.now (target_word label.entry) (partner_of partner.entry) (state_of state.old)) }
    ensures scene { OnOk result (IsScene runner.now.program state.new) }
{
    let naming = runner.program.naming;
    let unit = runner.routine.number;
    match partner {
        Partner::None => {
            let back = label_value(alloc, naming, unit, label)?;
            enter(alloc, runner, state, visit, back)
        }
        Partner::Goto(name) => {
            let back = label_value(alloc, naming, unit, Target::Label(name))?;
            enter(alloc, runner, state, visit, back)
        }
        Partner::Return(end) => replace(alloc, runner, state, visit, end.first),
    }
}

/// Calls a procedure by its name, with the places and values of its arguments, and the label of what follows; whether there is such a
/// procedure. Where there is none, the state stays as it is.
///
/// # Errors
///
/// For want of memory, and exactly where the stack is none or too large, or something has no value or can't be set. The state may then
/// have changed.
pub fn call(
    alloc: Global,
    runner: &Runner<'_>,
    state: &mut State,
    at: Place,
    name: &Name,
    places: &[Place],
    values: Vec<Value>,
    label: Target<'_>,
    partner: Partner<'_>,
) -> Result<bool, EvalStop>
    requires ready { IsReady runner.now }
    requires scene { IsScene runner.now.program state.old }
    ensures called { (v : Actor) (u : PureRoutine) → IsRunner runner.now v u → Gives (λ b. (b, state_of state.new)) result (called_if (program_at runner.now.program) v u at (routine_named name.now (procedure_routines (program_at runner.now.program).algorithm)) places.now values.items (target_word label.entry) (partner_of partner.entry) (state_of state.old)) }
    ensures scene { OnOk result (IsScene runner.now.program state.new) }
{
    let Some(callee) = procedure_named(runner, name)? else {
        return Ok(false);
    };
    let visit = Visit {
        place: at,
        callee,
        places,
        values: &values,
    };
    enter_with(alloc, runner, state, &visit, label, partner)?;
    Ok(true)
}
