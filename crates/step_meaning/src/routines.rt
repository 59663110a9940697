//! The first values of the variables of procedures and processes ("A PlusCal User's Manual", sections 3.3 and 3.4).

ghost use Rattle.std.specs.Prelude.{◌≡◌, ◌≤◌, ◌+◌, ◌∷◌, [], List, map, length, drop, OnOk, IfOk, true, false};
ghost use Rattle.tla_tree.specs.Tree.{Tree};
ghost use Rattle.tla_tree.specs.Nesting.{greatest};
ghost use Rattle.tla_value.specs.Order.{IsAscending};
ghost use Rattle.tla_value.specs.Value.{values_in};
ghost use Rattle.pcal_tree.specs.Algorithm.{processes as processes_of, locals as locals_of, procedure_routine, process_routine, main_routines, numbered, first_procedure, first_process};
ghost use Rattle.pcal_tree.specs.InMemory.{procedure_at, process_at, main_at, past_procedure, past_process, past_main};
ghost use Rattle.pcal_tree.specs.InitialStates.{is_multiprocess as is_multiprocess_of};
ghost use Rattle.pcal_tree.specs.Processes.{identifiers};
ghost use Rattle.pcal_tree.specs.Program as pure;
ghost use Rattle.step_walks.specs.FirstValues.{as_written};
ghost use Rattle.step_walks.specs.StartFlows.{locals_flow, procedures_flow, processes_flow};
ghost use Rattle.step_moves.specs.InMemory.{actor_at};
ghost use Rattle.step_spots.specs.InMemory.{routine_at};
ghost use Rattle.step_moves.specs.Programs.{program_at};
ghost use Rattle.step_moves.specs.StatesOf.{state_of};
ghost use Rattle.step_choices.specs.Pauses.{Flows};
ghost use Rattle.step_moves.specs.Prepared.{prepared_procedure, prepared_process};
ghost use Rattle.step_meaning.specs.Begun.{IsBegun};
ghost use Rattle.step_meaning.specs.Identified.{those};
ghost use Rattle.step_meaning.specs.Origins.{IsOrigin};
ghost use Rattle.step_meaning.specs.Ready.{AreKnown, procedure_flow, process_flow, IsReadied};

use crate::identified::{bound_for, first_of, identifiers_of};
use crate::locals::{plain_locals, spread_locals};
use crate::origin::Origin;
use pcal_tree::algorithm::{Declaration, Main, Procedure, Process};
use std::alloc::{AllocError, Global};
use step_choices::Pause;
use step_moves::Actor;
use step_spots::Routine;
use tla_value::state::State;

/// The variables of a routine, as they are and prepared.
#[derive(Clone, Copy)]
pub struct Locals<'a> {
    /// Its parameters.
    pub params: &'a [Declaration],
    /// Its own variables.
    pub variables: &'a [Declaration],
    /// Its parameters, prepared.
    pub prepared_params: &'a [Declaration],
    /// Its own variables, prepared.
    pub prepared_variables: &'a [Declaration],
}

// Gives the variables of a routine, which are functions of the identifiers of some processes, their first values.
fn spread_routine(
    alloc: Global,
    origin: &Origin<'_>,
    routine: &Routine<'_>,
    locals: &Locals<'_>,
    whose: Option<usize>,
    actors: &[Actor<'_>],
    state: &mut State,
    choices: &[u32],
    used: &mut usize,
) -> Result<(), Pause>
    requires readied { IsReadied origin.now.program routine.now locals.now }
    requires origin { IsOrigin origin.now }
    requires ascending { IsAscending (values_in (identifiers (map (actor_at origin.now.program.pool.now) actors.now))) }
    requires begun { IsBegun origin.now.program state.old }
    ensures set { Flows (λ _. state_of state.new) result (drop used.new choices.now) (locals_flow (as_written (program_at origin.now.program) []) (program_at origin.now.program) (routine_at origin.now.program.pool.now routine.now) true (those whose (map (actor_at origin.now.program.pool.now) actors.now)) (locals_of (routine_at origin.now.program.pool.now routine.now)) (state_of state.old) (drop used.old choices.now)) }
    ensures begun { OnOk result (IsBegun origin.now.program state.new) }
{
    let ids = identifiers_of(alloc, whose, actors)?;
    spread_locals(
        alloc,
        origin,
        routine,
        locals.params,
        locals.prepared_params,
        &ids,
        state,
        choices,
        used,
    )?;
    spread_locals(
        alloc,
        origin,
        routine,
        locals.variables,
        locals.prepared_variables,
        &ids,
        state,
        choices,
        used,
    )
}

// Gives the plain variables of a routine their first values, where this process is the first that has them.
fn plain_routine(
    alloc: Global,
    origin: &Origin<'_>,
    routine: &Routine<'_>,
    locals: &Locals<'_>,
    actor: &Actor<'_>,
    state: &mut State,
    choices: &[u32],
    used: &mut usize,
) -> Result<(), Pause>
    requires readied { IsReadied origin.now.program routine.now locals.now }
    requires origin { IsOrigin origin.now }
    requires begun { IsBegun origin.now.program state.old }
    ensures set { (vs : List pure.Actor) → Flows (λ _. state_of state.new) result (drop used.new choices.now) (locals_flow (as_written (program_at origin.now.program) []) (program_at origin.now.program) (routine_at origin.now.program.pool.now routine.now) false (actor_at origin.now.program.pool.now actor.now ∷ vs) (locals_of (routine_at origin.now.program.pool.now routine.now)) (state_of state.old) (drop used.old choices.now)) }
    ensures begun { OnOk result (IsBegun origin.now.program state.new) }
{
    let bound = bound_for(alloc, origin.this, actor)?;
    plain_locals(
        alloc,
        origin,
        routine,
        locals.params,
        locals.prepared_params,
        &bound,
        state,
        choices,
        used,
    )?;
    plain_locals(
        alloc,
        origin,
        routine,
        locals.variables,
        locals.prepared_variables,
        &bound,
        state,
        choices,
        used,
    )
}

// Gives the variables of a routine their first values.
fn routine_locals(
    alloc: Global,
    origin: &Origin<'_>,
    routine: &Routine<'_>,
    locals: &Locals<'_>,
    spread: bool,
    whose: Option<usize>,
    actors: &[Actor<'_>],
    state: &mut State,
    choices: &[u32],
    used: &mut usize,
) -> Result<(), Pause>
    requires readied { IsReadied origin.now.program routine.now locals.now }
    requires origin { IsOrigin origin.now }
    requires ascending { IsAscending (values_in (identifiers (map (actor_at origin.now.program.pool.now) actors.now))) }
    requires begun { IsBegun origin.now.program state.old }
    ensures set { Flows (λ _. state_of state.new) result (drop used.new choices.now) (locals_flow (as_written (program_at origin.now.program) []) (program_at origin.now.program) (routine_at origin.now.program.pool.now routine.now) spread (those whose (map (actor_at origin.now.program.pool.now) actors.now)) (locals_of (routine_at origin.now.program.pool.now routine.now)) (state_of state.old) (drop used.old choices.now)) }
    ensures begun { OnOk result (IsBegun origin.now.program state.new) }
{
    if spread {
        return spread_routine(
            alloc, origin, routine, locals, whose, actors, state, choices, used,
        );
    }
    match first_of(whose, actors) {
        None => Ok(()),
        Some(actor) => plain_routine(alloc, origin, routine, locals, actor, state, choices, used),
    }
}

// Whether there are identifiers.
fn is_multiprocess(main: &Main) -> bool
    ensures { (ts : List Tree) → result ≡ is_multiprocess_of (main_at ts main.now) }
{
    match main {
        Main::Alone(_) => false,
        Main::Processes(_) => true,
    }
}

// The number after so many. One past the largest number is more routines than memory has.
fn after(first: usize, many: usize) -> Result<usize, AllocError>
    ensures { IfOk result (λ n. n ≡ first + many) }
{
    first.checked_add(many).ok_or(AllocError)
}

// Gives the variables of the procedure of this number their first values.
fn procedure(
    alloc: Global,
    origin: &Origin<'_>,
    number: usize,
    one: &Procedure,
    ready: &Procedure,
    actors: &[Actor<'_>],
    state: &mut State,
    choices: &[u32],
    used: &mut usize,
) -> Result<(), Pause>
    requires prepared { procedure_at origin.now.program.pool.now ready.now ≡ prepared_procedure (program_at origin.now.program) number (procedure_at origin.now.program.pool.now one.now) }
    requires below { past_procedure one.now ≤ length origin.now.program.pool.now }
    requires within { past_procedure ready.now ≤ length origin.now.program.pool.now }
    requires known { AreKnown (program_at origin.now.program) (procedure_routine number (procedure_at origin.now.program.pool.now one.now)) }
    requires origin { IsOrigin origin.now }
    requires ascending { IsAscending (values_in (identifiers (map (actor_at origin.now.program.pool.now) actors.now))) }
    requires begun { IsBegun origin.now.program state.old }
    ensures set { Flows (λ _. state_of state.new) result (drop used.new choices.now) (procedure_flow (program_at origin.now.program) (procedure_routine number (procedure_at origin.now.program.pool.now one.now)) (map (actor_at origin.now.program.pool.now) actors.now) (state_of state.old) (drop used.old choices.now)) }
    ensures begun { OnOk result (IsBegun origin.now.program state.new) }
{
    let own = Routine::procedure(number, one);
    let locals = Locals {
        params: &one.params,
        variables: &one.variables,
        prepared_params: &ready.params,
        prepared_variables: &ready.variables,
    };
    let program = origin.program;
    let algorithm = program.algorithm;
    let spread = is_multiprocess(&algorithm.main);
    routine_locals(
        alloc, origin, &own, &locals, spread, None, actors, state, choices, used,
    )
}

/// Gives the variables of procedures their first values, in order.
///
/// # Errors
///
/// As of `spread_value` and `plain_value`, at the first that has one. The state may then have changed.
pub fn procedures(
    alloc: Global,
    origin: &Origin<'_>,
    list: &[Procedure],
    actors: &[Actor<'_>],
    state: &mut State,
    choices: &[u32],
    used: &mut usize,
) -> Result<(), Pause>
    requires all { map (procedure_at origin.now.program.pool.now) list.now ≡ (program_at origin.now.program).algorithm.procedures }
    requires many { length origin.now.procedures.now ≡ length list.now }
    requires below { greatest (map past_procedure list.now) ≤ length origin.now.program.pool.now }
    requires origin { IsOrigin origin.now }
    requires ascending { IsAscending (values_in (identifiers (map (actor_at origin.now.program.pool.now) actors.now))) }
    requires begun { IsBegun origin.now.program state.old }
    ensures set { Flows (λ _. state_of state.new) result (drop used.new choices.now) (procedures_flow (as_written (program_at origin.now.program) []) (program_at origin.now.program) (map (actor_at origin.now.program.pool.now) actors.now) (numbered procedure_routine (first_procedure (program_at origin.now.program).algorithm) (map (procedure_at origin.now.program.pool.now) list.now)) (state_of state.old) (drop used.old choices.now)) }
    ensures begun { OnOk result (IsBegun origin.now.program state.new) }
{
    let program = origin.program;
    let first = program.first_procedure();
    for i in 0..list.len() {
        let number = after(first, i)?;
        procedure(
            alloc,
            origin,
            number,
            &list[i],
            &origin.procedures[i],
            actors,
            state,
            choices,
            used,
        )?;
    }
    Ok(())
}

// Gives the variables of the process of this number their first values.
fn process(
    alloc: Global,
    origin: &Origin<'_>,
    number: usize,
    one: &Process,
    ready: &Process,
    actors: &[Actor<'_>],
    state: &mut State,
    choices: &[u32],
    used: &mut usize,
) -> Result<(), Pause>
    requires prepared { process_at origin.now.program.pool.now ready.now ≡ prepared_process (program_at origin.now.program) number (process_at origin.now.program.pool.now one.now) }
    requires below { past_process one.now ≤ length origin.now.program.pool.now }
    requires within { past_process ready.now ≤ length origin.now.program.pool.now }
    requires known { AreKnown (program_at origin.now.program) (process_routine number (process_at origin.now.program.pool.now one.now)) }
    requires origin { IsOrigin origin.now }
    requires ascending { IsAscending (values_in (identifiers (map (actor_at origin.now.program.pool.now) actors.now))) }
    requires begun { IsBegun origin.now.program state.old }
    ensures set { Flows (λ _. state_of state.new) result (drop used.new choices.now) (process_flow (program_at origin.now.program) (process_routine number (process_at origin.now.program.pool.now one.now)) (map (actor_at origin.now.program.pool.now) actors.now) (state_of state.old) (drop used.old choices.now)) }
    ensures begun { OnOk result (IsBegun origin.now.program state.new) }
{
    let own = Routine::process(number, one);
    let locals = Locals {
        params: &[],
        variables: &one.variables,
        prepared_params: &[],
        prepared_variables: &ready.variables,
    };
    routine_locals(
        alloc,
        origin,
        &own,
        &locals,
        one.several,
        Some(number),
        actors,
        state,
        choices,
        used,
    )
}

// Gives the variables of these processes their first values, in order.
fn several(
    alloc: Global,
    origin: &Origin<'_>,
    list: &[Process],
    ready: &[Process],
    actors: &[Actor<'_>],
    state: &mut State,
    choices: &[u32],
    used: &mut usize,
) -> Result<(), Pause>
    requires all { (program_at origin.now.program).algorithm.main ≡ processes_of (map (process_at origin.now.program.pool.now) list.now) }
    requires prepared { map (process_at origin.now.program.pool.now) ready.now ≡ numbered (prepared_process (program_at origin.now.program)) (first_process (program_at origin.now.program).algorithm) (map (process_at origin.now.program.pool.now) list.now) }
    requires many { length ready.now ≡ length list.now }
    requires below { greatest (map past_process list.now) ≤ length origin.now.program.pool.now }
    requires within { greatest (map past_process ready.now) ≤ length origin.now.program.pool.now }
    requires origin { IsOrigin origin.now }
    requires ascending { IsAscending (values_in (identifiers (map (actor_at origin.now.program.pool.now) actors.now))) }
    requires begun { IsBegun origin.now.program state.old }
    ensures set { Flows (λ _. state_of state.new) result (drop used.new choices.now) (processes_flow (as_written (program_at origin.now.program) []) (program_at origin.now.program) (map (actor_at origin.now.program.pool.now) actors.now) (numbered process_routine (first_process (program_at origin.now.program).algorithm) (map (process_at origin.now.program.pool.now) list.now)) (state_of state.old) (drop used.old choices.now)) }
    ensures begun { OnOk result (IsBegun origin.now.program state.new) }
{
    let program = origin.program;
    let first = program.first_process()?;
    for i in 0..list.len() {
        let number = after(first, i)?;
        process(
            alloc, origin, number, &list[i], &ready[i], actors, state, choices, used,
        )?;
    }
    Ok(())
}

/// Gives the variables of processes their first values, in order.
///
/// # Errors
///
/// As of `spread_value` and `plain_value`, at the first that has one. The state may then have changed.
pub fn processes(
    alloc: Global,
    origin: &Origin<'_>,
    main: &Main,
    actors: &[Actor<'_>],
    state: &mut State,
    choices: &[u32],
    used: &mut usize,
) -> Result<(), Pause>
    requires all { main_at origin.now.program.pool.now main.now ≡ (program_at origin.now.program).algorithm.main }
    requires below { past_main main.now ≤ length origin.now.program.pool.now }
    requires origin { IsOrigin origin.now }
    requires ascending { IsAscending (values_in (identifiers (map (actor_at origin.now.program.pool.now) actors.now))) }
    requires begun { IsBegun origin.now.program state.old }
    ensures set { Flows (λ _. state_of state.new) result (drop used.new choices.now) (processes_flow (as_written (program_at origin.now.program) []) (program_at origin.now.program) (map (actor_at origin.now.program.pool.now) actors.now) (main_routines (program_at origin.now.program).algorithm (main_at origin.now.program.pool.now main.now)) (state_of state.old) (drop used.old choices.now)) }
    ensures begun { OnOk result (IsBegun origin.now.program state.new) }
{
    match main {
        Main::Alone(_) => Ok(()),
        Main::Processes(list) => match origin.main {
            Main::Alone(_) => Err(Pause::Memory),
            Main::Processes(ready) => several(
                alloc, origin, list, ready, actors, state, choices, used,
            ),
        },
    }
}
