//! Written names, and what a process reads of a state by them.

ghost use Rattle.std.specs.Prelude.{◌≡◌, ◌++◌, [], map, cond, IfOk, OnOk, true};
ghost use Rattle.std.specs.Option.{option_copied, is_some};
ghost use Rattle.tla_value.specs.Value as pure;
ghost use Rattle.tla_value.specs.Strict.{applied as applied_of};
ghost use Rattle.tla_value.specs.States.{value_of};
ghost use Rattle.pcal_tree.specs.Algorithm.{Routine as PureRoutine};
ghost use Rattle.pcal_tree.specs.Program.{Actor, index, read_at};
ghost use Rattle.pcal_tree.specs.Calls.{all_read as all_read_of, fields_read as fields_read_of, on_stack as on_stack_of};
ghost use Rattle.value_forms.specs.Gives.{Tells, Gives};
ghost use Rattle.written_names.specs.Units.{naming_of};
ghost use Rattle.step_moves.specs.StatesOf.{state_of};
ghost use Rattle.step_moves.specs.Runners.{names_of, fault_without, written_names, IsReady, IsRunner};

use crate::jumps::own_path;
use crate::runner::Runner;
use crate::{Program, part_at};
use function_forms::functions::applied;
use function_forms::sequences::elements_of;
use pcal_tree::algorithm::Declaration;
use std::alloc::{AllocError, Global};
use step_spots::Routine;
use tla_token::Place;
use tla_tree::Name;
use tla_value::fault::FaultKind;
use tla_value::state::State;
use tla_value::stop::EvalStop;
use tla_value::value::{Value, copied};
use value_forms::made::copies;
use written_names::naming::Naming;

// Adds the written names of some variables of the routine with this number.
fn add_written(
    naming: &Naming,
    unit: usize,
    list: &[Declaration],
    all: &mut Vec<Name>,
) -> Result<(), AllocError>
    ensures { OnOk result (all.new.items ≡ all.old.items ++ map ((naming_of naming.now).local unit) (names_of list.now)) }
{
    for one in list {
        all.push(naming.local(unit, &one.name.name).copied()?)?;
    }
    Ok(())
}

/// The written names of a routine's parameters and variables.
///
/// # Errors
///
/// Only for want of memory.
pub fn written_all(
    alloc: Global,
    program: &Program<'_>,
    routine: &Routine<'_>,
) -> Result<Vec<Name>, AllocError>
    ensures { IfOk result (λ r. r.items ≡ written_names program.now routine.now) }
{
    let mut all = Vec::new(alloc);
    add_written(program.naming, routine.number, routine.params, &mut all)?;
    add_written(program.naming, routine.number, routine.variables, &mut all)?;
    Ok(all)
}

/// The written names of some variables of the routine with this number.
///
/// # Errors
///
/// Only for want of memory.
pub fn written(
    alloc: Global,
    naming: &Naming,
    unit: usize,
    list: &[Declaration],
) -> Result<Vec<Name>, AllocError>
    ensures { IfOk result (λ r. r.items ≡ map ((naming_of naming.now).local unit) (names_of list.now)) }
{
    let mut all = Vec::new(alloc);
    add_written(naming, unit, list, &mut all)?;
    Ok(all)
}

/// Where a process's own part of a routine's variables is.
///
/// # Errors
///
/// Only for want of memory.
pub fn local_path(
    alloc: Global,
    runner: &Runner<'_>,
    spread: bool,
) -> Result<Vec<Value>, AllocError>
    ensures { IfOk result (λ r. r.items ≡ cond spread (index (option_copied runner.now.identifier)) []) }
{
    if spread {
        own_path(alloc, runner)
    } else {
        Ok(Vec::new(alloc))
    }
}

/// What is at a path of a variable.
///
/// # Errors
///
/// For want of memory, and exactly where the path leads out of functions.
pub fn read(
    alloc: Global,
    state: &State,
    at: Place,
    name: &Name,
    path: &[Value],
) -> Result<Value, EvalStop>
    ensures { Tells result (read_at at path.now (state_of state.now name.now)) }
{
    match state.get(name) {
        Some(whole) => Ok(copied(alloc, part_at(at, path, whole)?)?),
        None => {
            let whole = Value::truth(false);
            Ok(copied(alloc, part_at(at, path, &whole)?)?)
        }
    }
}

/// What is at a path of each of some variables.
///
/// # Errors
///
/// For want of memory, and exactly where the path leads out of functions.
pub fn all_read(
    alloc: Global,
    state: &State,
    at: Place,
    names: &[Name],
    path: &[Value],
) -> Result<Vec<Value>, EvalStop>
    ensures { Gives (λ r. r.items) result (all_read_of at path.now names.now (state_of state.now)) }
{
    let mut all = Vec::new(alloc);
    for name in names {
        all.push(read(alloc, state, at, name, path)?)?;
    }
    Ok(all)
}

/// A field of a record on the stack.
///
/// # Errors
///
/// For want of memory, and exactly where it is no function, or has no such argument.
pub fn field(alloc: Global, at: Place, name: &Name, front: &Value) -> Result<Value, EvalStop>
    ensures { Tells result (applied_of at front.now (pure.text name.now)) }
{
    let key = Value::text(name.copied()?);
    let value = applied(at, front, &key)?;
    Ok(copied(alloc, value)?)
}

/// Fields of a record on the stack.
///
/// # Errors
///
/// As of `field`, at the first that has one.
pub fn fields_read(
    alloc: Global,
    at: Place,
    names: &[Name],
    front: &Value,
) -> Result<Vec<Value>, EvalStop>
    ensures { Gives (λ r. r.items) result (fields_read_of at names.now front.now) }
{
    let mut all = Vec::new(alloc);
    for name in names {
        all.push(field(alloc, at, name, front)?)?;
    }
    Ok(all)
}

// How a stack is none that isn't there: at an identifier nothing is read, and else what is read is no sequence.
fn no_stack(runner: &Runner<'_>) -> FaultKind
    ensures { result ≡ fault_without (option_copied runner.now.identifier) }
{
    match runner.identifier {
        Some(_) => FaultKind::NotFunction,
        None => FaultKind::NotSequence,
    }
}

/// The records on a process's stack.
///
/// # Errors
///
/// For want of memory, and exactly where there is no stack, or no sequence in its place.
pub fn on_stack(
    alloc: Global,
    runner: &Runner<'_>,
    state: &State,
    at: Place,
) -> Result<Vec<Value>, EvalStop>
    requires ready { IsReady runner.now }
    ensures frames { (v : Actor) (u : PureRoutine) → IsRunner runner.now v u → Gives (λ r. r.items) result (on_stack_of v at (state_of state.now)) }
    ensures there { IfOk result (λ r. is_some (value_of state.now runner.now.stack.now) ≡ true) }
{
    match state.get(runner.stack) {
        Some(whole) => {
            let path = own_path(alloc, runner)?;
            let part = part_at(at, &path, whole)?;
            let frames = elements_of(at, part)?;
            Ok(copies(alloc, frames)?)
        }
        None => Err(EvalStop::Fault(no_stack(runner), at)),
    }
}
