//! What every start ends with: empty stacks, and `pc` at the processes' first labels.

ghost use Rattle.std.specs.Prelude.{◌≡◌, List, map, IfOk, OnOk, true};
ghost use Rattle.tla_token.specs.Signs.{is_among};
ghost use Rattle.tla_tree.specs.Tree.{Tree};
ghost use Rattle.tla_value.specs.Order.{IsAscending};
ghost use Rattle.tla_value.specs.Value.{Value as PureValue, values_in};
ghost use Rattle.pcal_tree.specs.Algorithm.{procedure_routines};
ghost use Rattle.pcal_tree.specs.Calls.{label_value as label_value_of, first_label};
ghost use Rattle.pcal_tree.specs.InitialChoice.{own_begun, stack_begun, pc_begun};
ghost use Rattle.pcal_tree.specs.InitialStates.{function_on, empty_stack};
ghost use Rattle.pcal_tree.specs.InMemory.{main_at};
ghost use Rattle.pcal_tree.specs.Processes.{identifiers};
ghost use Rattle.pcal_tree.specs.Program as pure;
ghost use Rattle.pcal_tree.specs.Variables.{pc, stack, vars};
ghost use Rattle.step_walks.specs.StartFlows.{ready as ready_of};
ghost use Rattle.step_moves.specs.InMemory.{actor_at};
ghost use Rattle.written_names.specs.Units.{naming_of};
ghost use Rattle.step_moves.specs.declared.program.Program as code;
ghost use Rattle.step_moves.specs.Programs.{program_at};
ghost use Rattle.step_moves.specs.StatesOf.{state_of};
ghost use Rattle.step_meaning.specs.Begun.{IsBegun};
ghost use Rattle.step_meaning.specs.Origins.{IsOrigin};

use crate::identified::identifiers_of;
use crate::origin::Origin;
use crate::puts::put_value;
use crate::spread::function_for;
use pcal_tree::algorithm::{Algorithm, Main};
use std::alloc::{AllocError, Global};
use step_moves::Actor;
use step_moves::frames::stack_of;
use step_moves::jumps::label_value;
use step_spots::target::next_target;
use tla_token::Place;
use tla_tree::Name;
use tla_value::state::State;
use tla_value::value::{Value, copied};
use written_names::naming::Naming;

// An empty stack for each process.
fn stacks(alloc: Global, place: Place, actors: &[Actor<'_>]) -> Result<Vec<Value>, AllocError>
    ensures { IfOk result (λ r. (ts : List Tree) → r.items ≡ map (λ (v : pure.Actor). empty_stack) (map (actor_at ts) actors.now)) }
{
    let mut all = Vec::new(alloc);
    for _one in actors {
        all.push(stack_of(alloc, place, &[])?)?;
    }
    Ok(all)
}

// The value of `pc` at the first label of what a process runs.
fn first_value(alloc: Global, naming: &Naming, actor: &Actor<'_>) -> Result<Value, AllocError>
    ensures { IfOk result (λ r. (P : pure.Program) (ts : List Tree) → naming_of naming.now ≡ P.naming → r ≡ label_value_of P (actor_at ts actor.now).own (first_label (actor_at ts actor.now).own)) }
{
    let own = actor.own;
    let target = next_target(own.body, own.exit);
    label_value(alloc, naming, own.number, target)
}

// The value of `pc` for each process.
fn first_values(
    alloc: Global,
    naming: &Naming,
    actors: &[Actor<'_>],
) -> Result<Vec<Value>, AllocError>
    ensures { IfOk result (λ r. (P : pure.Program) (ts : List Tree) → naming_of naming.now ≡ P.naming → r.items ≡ map (λ (v : pure.Actor). label_value_of P v.own (first_label v.own)) (map (actor_at ts) actors.now)) }
{
    let mut all = Vec::new(alloc);
    for actor in actors {
        all.push(first_value(alloc, naming, actor)?)?;
    }
    Ok(all)
}

// The function of all identifiers with these values. That it is past the limits, which it never is, is want of memory here.
fn on_all(
    alloc: Global,
    place: Place,
    actors: &[Actor<'_>],
    values: Vec<Value>,
) -> Result<Value, AllocError>
    requires ascending { (ts : List Tree) → IsAscending (values_in (identifiers (map (actor_at ts) actors.now))) }
    ensures { IfOk result (λ r. (ts : List Tree) → r ≡ function_on (map (actor_at ts) actors.now) values.items) }
{
    let ids = identifiers_of(alloc, None, actors)?;
    match function_for(alloc, place, &ids, values) {
        Ok(all) => Ok(all),
        Err(_) => Err(AllocError),
    }
}

// Gives a variable of the translation itself its value for each process.
fn put_own(
    alloc: Global,
    main: &Main,
    place: Place,
    name: &Name,
    actors: &[Actor<'_>],
    values: Vec<Value>,
    state: &mut State,
) -> Result<(), AllocError>
    requires ascending { (ts : List Tree) → IsAscending (values_in (identifiers (map (actor_at ts) actors.now))) }
    ensures put { OnOk result ((ts : List Tree) (f : pure.Actor → PureValue) → values.items ≡ map f (map (actor_at ts) actors.now) → state_of state.new ≡ own_begun (main_at ts main.now) name.now (map (actor_at ts) actors.now) f (state_of state.old)) }
    ensures begun { OnOk result ((p : code.Program) → is_among (vars (program_at p)) name.now ≡ true → IsBegun p state.old → IsBegun p state.new) }
{
    match main {
        Main::Processes(_) => {
            let all = on_all(alloc, place, actors, values)?;
            put_value(state, name, all)
        }
        Main::Alone(_) => {
            if values.is_empty() {
                return Ok(());
            }
            let first = copied(alloc, &values[0])?;
            put_value(state, name, first)
        }
    }
}

// The name of the variable of stacks.
fn stack_name(alloc: Global) -> Result<Name, AllocError>
    ensures { IfOk result (λ r. r ≡ stack) }
{
    Ok(Name::new(Vec::from_slice(alloc, b"stack")?))
}

// The name of the variable of labels.
fn pc_name(alloc: Global) -> Result<Name, AllocError>
    ensures { IfOk result (λ r. r ≡ pc) }
{
    Ok(Name::new(Vec::from_slice(alloc, b"pc")?))
}

// Every stack is empty, where there are stacks.
fn put_stacks(
    alloc: Global,
    origin: &Origin<'_>,
    place: Place,
    actors: &[Actor<'_>],
    state: &mut State,
) -> Result<(), AllocError>
    requires origin { IsOrigin origin.now }
    requires ascending { (ts : List Tree) → IsAscending (values_in (identifiers (map (actor_at ts) actors.now))) }
    requires begun { IsBegun origin.now.program state.old }
    ensures put { OnOk result (state_of state.new ≡ stack_begun (program_at origin.now.program) (procedure_routines (program_at origin.now.program).algorithm) (map (actor_at origin.now.program.pool.now) actors.now) (state_of state.old)) }
    ensures begun { OnOk result (IsBegun origin.now.program state.new) }
{
    let program = origin.program;
    let algorithm = program.algorithm;
    if algorithm.procedures.is_empty() {
        return Ok(());
    }
    let name = stack_name(alloc)?;
    let all = stacks(alloc, place, actors)?;
    put_own(alloc, &algorithm.main, place, &name, actors, all, state)
}

// Where the name of an algorithm is.
fn title_place(algorithm: &Algorithm) -> Place {
    let name = &algorithm.name;
    name.place
}

/// Empties every stack, and puts every `pc` at its process's first label.
///
/// # Errors
///
/// Only for want of memory. The state may then have changed.
pub fn make_ready(
    alloc: Global,
    origin: &Origin<'_>,
    actors: &[Actor<'_>],
    state: &mut State,
) -> Result<(), AllocError>
    requires origin { IsOrigin origin.now }
    requires ascending { (ts : List Tree) → IsAscending (values_in (identifiers (map (actor_at ts) actors.now))) }
    requires begun { IsBegun origin.now.program state.old }
    ensures ready { OnOk result (state_of state.new ≡ ready_of (program_at origin.now.program) (map (actor_at origin.now.program.pool.now) actors.now) (state_of state.old)) }
    ensures begun { OnOk result (IsBegun origin.now.program state.new) }
{
    let program = origin.program;
    let algorithm = program.algorithm;
    let place = title_place(algorithm);
    put_stacks(alloc, origin, place, actors, state)?;
    let name = pc_name(alloc)?;
    let all = first_values(alloc, program.naming, actors)?;
    put_own(alloc, &algorithm.main, place, &name, actors, all, state)
}
