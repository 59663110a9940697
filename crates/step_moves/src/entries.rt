//! What a call sets: the stack and parameters, then variables one after another ("A PlusCal User's Manual", section 3.4, procedures).

ghost use Rattle.std.specs.Prelude.{◌≡◌, ◌≤◌, [], length, cond, true, IfOk, OnOk};
ghost use Rattle.std.specs.Option.{option_copied};
ghost use Rattle.tla_token.specs.Signs.{is_among};
ghost use Rattle.tla_tree.specs.Tree.{Each};
ghost use Rattle.tla_value.specs.Limits.{bounded};
ghost use Rattle.pcal_tree.specs.Algorithm.{Routine as PureRoutine};
ghost use Rattle.pcal_tree.specs.Assign.{set_all as pure_set_all};
ghost use Rattle.pcal_tree.specs.InMemory.{declaration_at, declarations_at, start_at, past_start, past_declaration};
ghost use Rattle.pcal_tree.specs.Program.{Actor, index};
ghost use Rattle.pcal_tree.specs.Calls.{argument_settings, initial_place};
ghost use Rattle.pcal_tree.specs.Variables.{vars};
ghost use Rattle.step_walks.specs.WrittenCalls.{first_value, variables_by, entered_keeping_by};
ghost use Rattle.value_forms.specs.Gives.{Tells, Gives};
ghost use Rattle.step_spots.specs.InMemory.{routine_at};
ghost use Rattle.step_moves.specs.Programs.{program_at};
ghost use Rattle.step_moves.specs.StatesOf.{state_of};
ghost use Rattle.step_moves.specs.ScopeIn.{IsScene};
ghost use Rattle.step_moves.specs.Prepared.{as_prepared, started, given};
ghost use Rattle.step_moves.specs.Runners.{written_names, Binds, IsReady, IsRunner, IsCallee};

use crate::frames::{frame, pushed};
use crate::jumps::{label_value, set_pc};
use crate::reads::{local_path, on_stack, written};
use crate::returns::set_stack;
use crate::runner::Runner;
use crate::settings::add_settings;
use crate::{Bound, Setting, set_all, set_one, value};
use pcal_tree::algorithm::{Declaration, Start};
use std::alloc::{AllocError, Global};
use step_spots::Routine;
use step_spots::target::next_target;
use tla_pool::Pool;
use tla_token::Place;
use tla_tree::Name;
use tla_value::fault::FaultKind;
use tla_value::state::State;
use tla_value::stop::EvalStop;
use tla_value::value::{Value, copied};

/// A call of a procedure, with the places and values of its arguments.
#[derive(Clone, Copy)]
pub struct Visit<'a> {
    /// Where it is.
    pub place: Place,
    /// The procedure; prepared.
    pub callee: Routine<'a>,
    /// The places of the arguments.
    pub places: &'a [Place],
    /// Their values.
    pub values: &'a [Value],
}

/// What is bound where a process is: `self`, where there are processes.
///
/// # Errors
///
/// Only for want of memory.
pub fn self_bound(alloc: Global, runner: &Runner<'_>) -> Result<Bound, AllocError>
    requires ready { IsReady runner.now }
    ensures { IfOk result (λ r. (v : Actor) (u : PureRoutine) → IsRunner runner.now v u → Binds runner.now v r) }
{
    let mut names = Vec::new(alloc);
    let mut values = Vec::new(alloc);
    if let Some(identifier) = runner.identifier {
        names.push(runner.this.copied()?)?;
        values.push(copied(alloc, identifier)?)?;
    }
    Ok(Bound { names, values })
}

// A variable's first value; one is not in a set.
fn start_value(
    alloc: Global,
    runner: &Runner<'_>,
    state: &State,
    at: Place,
    start: &Start,
    bound: &Bound,
) -> Result<Value, EvalStop>
    requires below { past_start start.now ≤ length runner.now.program.pool.now }
    requires scene { IsScene runner.now.program state.now }
    ensures { (v : Actor) (p : PureRoutine) → Binds runner.now v bound.now → Tells result (first_value (as_prepared (program_at runner.now.program)) v p at (start_at runner.now.program.pool.now start.now) (state_of state.now)) }
{
    match start {
        Start::Unset => Ok(Value::model(Name::new(Vec::from_slice(alloc, b"defaultInitValue")?))),
        Start::Equals(e) => value(alloc, &runner.program, state, bound, *e),
        Start::Among(_) => Err(EvalStop::Fault(FaultKind::NotFunction, at)),
    }
}

// Where a variable's first value is set.
fn start_place(pool: &Pool, at: Place, start: &Start) -> Place
    requires { past_start start.now ≤ length pool.now }
    ensures { result ≡ initial_place at (start_at pool.now start.now) }
{
    match start {
        Start::Equals(e) => pool.node(*e).place,
        Start::Unset | Start::Among(_) => at,
    }
}

// Gives a variable its first value.
fn start_one(
    alloc: Global,
    runner: &Runner<'_>,
    state: &mut State,
    visit: &Visit<'_>,
    one: &Declaration,
    bound: &Bound,
) -> Result<(), EvalStop>
    requires below { past_declaration one.now ≤ length runner.now.program.pool.now }
    requires known { is_among (vars (program_at runner.now.program)) ((program_at runner.now.program).naming.local visit.now.callee.number one.now.name.word) ≡ true }
    requires scene { IsScene runner.now.program state.old }
    ensures started { (v : Actor) → v.self ≡ option_copied runner.now.identifier → Binds runner.now v bound.now → Gives (λ _. state_of state.new) result (started (as_prepared (program_at runner.now.program)) (program_at runner.now.program) v (routine_at runner.now.program.pool.now visit.now.callee) visit.now.place (declaration_at runner.now.program.pool.now one.now) (state_of state.old)) }
    ensures scene { OnOk result (IsScene runner.now.program state.new) }
{
    let first = start_value(alloc, runner, &*state, visit.place, &one.start, bound)?;
    let path = local_path(alloc, runner, visit.callee.spread)?;
    set_one(
        state,
        Setting {
            place: start_place(runner.program.pool, visit.place, &one.start),
            variable: runner
                .program
                .naming
                .local(visit.callee.number, &one.name.name),
            path,
            value: first,
        },
    )
}

// Gives the callee's variables their first values, each after those before it.
fn start_all(
    alloc: Global,
    runner: &Runner<'_>,
    state: &mut State,
    visit: &Visit<'_>,
) -> Result<(), EvalStop>
    requires ready { IsReady runner.now }
    requires callee { IsCallee runner.now visit.now.callee }
    requires scene { IsScene runner.now.program state.old }
    ensures started { (v : Actor) (u : PureRoutine) → IsRunner runner.now v u → Gives (λ _. state_of state.new) result (variables_by (as_prepared (program_at runner.now.program)) (program_at runner.now.program) v (routine_at runner.now.program.pool.now visit.now.callee) visit.now.place (declarations_at runner.now.program.pool.now visit.now.callee.variables.now) (state_of state.old)) }
    ensures scene { OnOk result (IsScene runner.now.program state.new) }
{
    let bound = self_bound(alloc, runner)?;
    for one in visit.callee.variables {
        start_one(alloc, runner, state, visit, one, &bound)?;
    }
    Ok(())
}

// Gives parameters their arguments.
fn give_arguments(
    alloc: Global,
    runner: &Runner<'_>,
    state: &mut State,
    visit: &Visit<'_>,
    names: &[Name],
) -> Result<(), EvalStop>
    requires known { Each (λ x. is_among (vars (program_at runner.now.program)) x ≡ true) names.now }
    requires scene { IsScene runner.now.program state.old }
    ensures set { Gives (λ _. state_of state.new) result (pure_set_all bounded (argument_settings (cond visit.now.callee.spread (index (option_copied runner.now.identifier)) []) names.now visit.now.places.now visit.now.values.now) (state_of state.old)) }
    ensures scene { OnOk result (IsScene runner.now.program state.new) }
{
    let path = local_path(alloc, runner, visit.callee.spread)?;
    let mut all = Vec::new(alloc);
    add_settings(alloc, &path, names, visit.places, visit.values, &mut all)?;
    set_all(state, all)
}

// Puts a record on the stack, and gives parameters their arguments.
fn give(
    alloc: Global,
    runner: &Runner<'_>,
    state: &mut State,
    visit: &Visit<'_>,
    front: Value,
) -> Result<(), EvalStop>
    requires ready { IsReady runner.now }
    requires callee { IsCallee runner.now visit.now.callee }
    requires scene { IsScene runner.now.program state.old }
    ensures given { (v : Actor) (u : PureRoutine) → IsRunner runner.now v u → Gives (λ _. state_of state.new) result (given (program_at runner.now.program) v (routine_at runner.now.program.pool.now visit.now.callee) visit.now.place front visit.now.places.now visit.now.values.now (state_of state.old)) }
    ensures scene { OnOk result (IsScene runner.now.program state.new) }
{
    let frames = on_stack(alloc, runner, &*state, visit.place)?;
    let stack = pushed(alloc, visit.place, front, &frames)?;
    let callee = visit.callee;
    let names = written(alloc, runner.program.naming, callee.number, callee.params)?;
    set_stack(alloc, runner, state, visit.place, stack)?;
    give_arguments(alloc, runner, state, visit, &names)
}

/// Enters the callee, with the values to keep of its parameters and variables.
///
/// # Errors
///
/// For want of memory, and exactly where the record or the stack is past the limits, or something has no value or can't be set. The state
/// may then have changed.
pub fn enter_keeping(
    alloc: Global,
    runner: &Runner<'_>,
    state: &mut State,
    visit: &Visit<'_>,
    back: Value,
    names: &[Name],
    olds: &[Value],
) -> Result<(), EvalStop>
    requires ready { IsReady runner.now }
    requires callee { IsCallee runner.now visit.now.callee }
    requires names { names.now ≡ written_names runner.now.program visit.now.callee }
    requires scene { IsScene runner.now.program state.old }
    ensures entered { (v : Actor) (u : PureRoutine) → IsRunner runner.now v u → Gives (λ _. state_of state.new) result (entered_keeping_by (as_prepared (program_at runner.now.program)) (program_at runner.now.program) v visit.now.place back (routine_at runner.now.program.pool.now visit.now.callee) visit.now.places.now visit.now.values.now olds.now (state_of state.old)) }
    ensures scene { OnOk result (IsScene runner.now.program state.new) }
{
    let naming = runner.program.naming;
    let callee = visit.callee;
    let front = frame(
        alloc,
        visit.place,
        naming.title(callee.number),
        names,
        back,
        olds,
    )?;
    give(alloc, runner, state, visit, front)?;
    start_all(alloc, runner, state, visit)?;
    let first = next_target(callee.body, callee.exit);
    let label = label_value(alloc, naming, callee.number, first)?;
    set_pc(alloc, runner, state, visit.place, label)
}
