//! Whether the variables of procedures and processes have values that their declarations allow ("A PlusCal User's Manual", sections 3.3 and
//! 3.4).

ghost use Rattle.std.specs.Prelude.{◌≡◌, ◌≤◌, ◌+◌, List, Bool, map, length, IfOk};
ghost use Rattle.tla_tree.specs.Tree.{Tree};
ghost use Rattle.tla_tree.specs.Nesting.{greatest};
ghost use Rattle.tla_value.specs.Order.{IsAscending};
ghost use Rattle.tla_value.specs.Value.{values_in};
ghost use Rattle.pcal_tree.specs.Algorithm.{processes as processes_of, locals as locals_of, procedure_routine, process_routine, main_routines, numbered, first_procedure, first_process};
ghost use Rattle.pcal_tree.specs.InMemory.{procedure_at, process_at, main_at, past_procedure, past_process, past_main};
ghost use Rattle.pcal_tree.specs.InitialStates.{is_multiprocess as is_multiprocess_of};
ghost use Rattle.pcal_tree.specs.Processes.{identifiers};
ghost use Rattle.pcal_tree.specs.Program as pure;
ghost use Rattle.value_forms.specs.Gives.{Tells};
ghost use Rattle.step_moves.specs.InMemory.{actor_at};
ghost use Rattle.step_spots.specs.InMemory.{routine_at};
ghost use Rattle.step_moves.specs.Programs.{program_at};
ghost use Rattle.step_moves.specs.StatesOf.{state_of};
ghost use Rattle.step_moves.specs.ScopeIn.{IsScene};
ghost use Rattle.step_moves.specs.Prepared.{prepared_procedure, prepared_process};
ghost use Rattle.step_meaning.specs.Identified.{those};
ghost use Rattle.step_meaning.specs.Origins.{IsOrigin};
ghost use Rattle.step_meaning.specs.Ready.{AreKnown, IsReadied};
ghost use Rattle.written_traces.specs.AskedStarts.{as_written, locals_asked, procedures_asked, processes_asked};
ghost use Rattle.start_troubles.specs.Asked.{procedure_asked, process_asked};
ghost use Rattle.start_troubles.specs.Owned.{IsOrdered, AreOf};

use crate::locals::{Owners, locals_allowed};
use pcal_tree::algorithm::{Main, Procedure, Process};
use std::alloc::{AllocError, Global};
use step_meaning::Origin;
use step_meaning::identified::{bound_for, first_of, identifiers_of};
use step_meaning::routines::Locals;
use step_moves::Actor;
use step_spots::Routine;
use tla_value::state::State;
use tla_value::stop::EvalStop;

// Whether the parameters and variables of a routine have values that their declarations allow, where they are these owners'.
fn owned_allowed(
    alloc: Global,
    origin: &Origin<'_>,
    routine: &Routine<'_>,
    locals: &Locals<'_>,
    owners: Owners<'_>,
    state: &State,
) -> Result<bool, EvalStop>
    requires readied { IsReadied origin.now.program routine.now locals.now }
    requires scene { IsScene origin.now.program state.now }
    requires origin { IsOrigin origin.now }
    requires ordered { IsOrdered owners }
    ensures { (spread : Bool) (vs : List pure.Actor) → AreOf (program_at origin.now.program) owners.entry spread vs → Tells result (locals_asked (as_written (program_at origin.now.program)) (program_at origin.now.program) (routine_at origin.now.program.pool.now routine.now) spread vs (locals_of (routine_at origin.now.program.pool.now routine.now)) (state_of state.now)) }
{
    let params = locals_allowed(
        alloc,
        origin,
        routine,
        locals.params,
        locals.prepared_params,
        owners,
        state,
    )?;
    if !params {
        return Ok(false);
    }
    locals_allowed(
        alloc,
        origin,
        routine,
        locals.variables,
        locals.prepared_variables,
        owners,
        state,
    )
}

// Whether the parameters and variables of a routine have values that their declarations allow.
fn routine_allowed(
    alloc: Global,
    origin: &Origin<'_>,
    routine: &Routine<'_>,
    locals: &Locals<'_>,
    spread: bool,
    whose: Option<usize>,
    actors: &[Actor<'_>],
    state: &State,
) -> Result<bool, EvalStop>
    requires readied { IsReadied origin.now.program routine.now locals.now }
    requires scene { IsScene origin.now.program state.now }
    requires origin { IsOrigin origin.now }
    requires ascending { IsAscending (values_in (identifiers (map (actor_at origin.now.program.pool.now) actors.now))) }
    ensures { Tells result (locals_asked (as_written (program_at origin.now.program)) (program_at origin.now.program) (routine_at origin.now.program.pool.now routine.now) spread (those whose (map (actor_at origin.now.program.pool.now) actors.now)) (locals_of (routine_at origin.now.program.pool.now routine.now)) (state_of state.now)) }
{
    if spread {
        let ids = identifiers_of(alloc, whose, actors)?;
        return owned_allowed(
            alloc,
            origin,
            routine,
            locals,
            Owners::Each(ids.as_slice()),
            state,
        );
    }
    match first_of(whose, actors) {
        None => Ok(true),
        Some(actor) => {
            let bound = bound_for(alloc, origin.this, actor)?;
            owned_allowed(alloc, origin, routine, locals, Owners::First(&bound), state)
        }
    }
}

// Whether there are identifiers.
fn is_multiprocess(main: &Main) -> bool
    ensures { (ts : List Tree) → result ≡ is_multiprocess_of (main_at ts main.now) }
{
    match main {
        Main::Alone(_) => false,
        Main::Processes(_) => true,
    }
}

// The number after so many. One past the largest number is more routines than memory has.
fn after(first: usize, many: usize) -> Result<usize, AllocError>
    ensures { IfOk result (λ n. n ≡ first + many) }
{
    first.checked_add(many).ok_or(AllocError)
}

// Whether the variables of the procedure of this number have values that their declarations allow.
fn procedure_allowed(
    alloc: Global,
    origin: &Origin<'_>,
    number: usize,
    one: &Procedure,
    ready: &Procedure,
    actors: &[Actor<'_>],
    state: &State,
) -> Result<bool, EvalStop>
    requires prepared { procedure_at origin.now.program.pool.now ready.now ≡ prepared_procedure (program_at origin.now.program) number (procedure_at origin.now.program.pool.now one.now) }
    requires below { past_procedure one.now ≤ length origin.now.program.pool.now }
    requires within { past_procedure ready.now ≤ length origin.now.program.pool.now }
    requires known { AreKnown (program_at origin.now.program) (procedure_routine number (procedure_at origin.now.program.pool.now one.now)) }
    requires scene { IsScene origin.now.program state.now }
    requires origin { IsOrigin origin.now }
    requires ascending { IsAscending (values_in (identifiers (map (actor_at origin.now.program.pool.now) actors.now))) }
    ensures { Tells result (procedure_asked (as_written (program_at origin.now.program)) (program_at origin.now.program) (map (actor_at origin.now.program.pool.now) actors.now) (state_of state.now) (procedure_routine number (procedure_at origin.now.program.pool.now one.now))) }
{
    let own = Routine::procedure(number, one);
    let locals = Locals {
        params: &one.params,
        variables: &one.variables,
        prepared_params: &ready.params,
        prepared_variables: &ready.variables,
    };
    let program = origin.program;
    let algorithm = program.algorithm;
    let spread = is_multiprocess(&algorithm.main);
    routine_allowed(alloc, origin, &own, &locals, spread, None, actors, state)
}

/// Whether the variables of all procedures have values that their declarations allow.
///
/// # Errors
///
/// As of `spread_allowed` and `plain_allowed`, at the first that has one, where those before it are allowed.
pub fn procedures_allowed(
    alloc: Global,
    origin: &Origin<'_>,
    list: &[Procedure],
    actors: &[Actor<'_>],
    state: &State,
) -> Result<bool, EvalStop>
    requires all { map (procedure_at origin.now.program.pool.now) list.now ≡ (program_at origin.now.program).algorithm.procedures }
    requires many { length origin.now.procedures.now ≡ length list.now }
    requires below { greatest (map past_procedure list.now) ≤ length origin.now.program.pool.now }
    requires scene { IsScene origin.now.program state.now }
    requires origin { IsOrigin origin.now }
    requires ascending { IsAscending (values_in (identifiers (map (actor_at origin.now.program.pool.now) actors.now))) }
    ensures { Tells result (procedures_asked (as_written (program_at origin.now.program)) (program_at origin.now.program) (map (actor_at origin.now.program.pool.now) actors.now) (numbered procedure_routine (first_procedure (program_at origin.now.program).algorithm) (map (procedure_at origin.now.program.pool.now) list.now)) (state_of state.now)) }
{
    let program = origin.program;
    let first = program.first_procedure();
    for i in 0..list.len() {
        let number = after(first, i)?;
        let allowed = procedure_allowed(
            alloc,
            origin,
            number,
            &list[i],
            &origin.procedures[i],
            actors,
            state,
        )?;
        if !allowed {
            return Ok(false);
        }
    }
    Ok(true)
}

// Whether the variables of the process of this number have values that their declarations allow.
fn process_allowed(
    alloc: Global,
    origin: &Origin<'_>,
    number: usize,
    one: &Process,
    ready: &Process,
    actors: &[Actor<'_>],
    state: &State,
) -> Result<bool, EvalStop>
    requires prepared { process_at origin.now.program.pool.now ready.now ≡ prepared_process (program_at origin.now.program) number (process_at origin.now.program.pool.now one.now) }
    requires below { past_process one.now ≤ length origin.now.program.pool.now }
    requires within { past_process ready.now ≤ length origin.now.program.pool.now }
    requires known { AreKnown (program_at origin.now.program) (process_routine number (process_at origin.now.program.pool.now one.now)) }
    requires scene { IsScene origin.now.program state.now }
    requires origin { IsOrigin origin.now }
    requires ascending { IsAscending (values_in (identifiers (map (actor_at origin.now.program.pool.now) actors.now))) }
    ensures { Tells result (process_asked (as_written (program_at origin.now.program)) (program_at origin.now.program) (map (actor_at origin.now.program.pool.now) actors.now) (state_of state.now) (process_routine number (process_at origin.now.program.pool.now one.now))) }
{
    let own = Routine::process(number, one);
    let locals = Locals {
        params: &[],
        variables: &one.variables,
        prepared_params: &[],
        prepared_variables: &ready.variables,
    };
    routine_allowed(
        alloc,
        origin,
        &own,
        &locals,
        one.several,
        Some(number),
        actors,
        state,
    )
}

// Whether the variables of these processes have values that their declarations allow.
fn several_allowed(
    alloc: Global,
    origin: &Origin<'_>,
    list: &[Process],
    ready: &[Process],
    actors: &[Actor<'_>],
    state: &State,
) -> Result<bool, EvalStop>
    requires all { (program_at origin.now.program).algorithm.main ≡ processes_of (map (process_at origin.now.program.pool.now) list.now) }
    requires prepared { map (process_at origin.now.program.pool.now) ready.now ≡ numbered (prepared_process (program_at origin.now.program)) (first_process (program_at origin.now.program).algorithm) (map (process_at origin.now.program.pool.now) list.now) }
    requires many { length ready.now ≡ length list.now }
    requires below { greatest (map past_process list.now) ≤ length origin.now.program.pool.now }
    requires within { greatest (map past_process ready.now) ≤ length origin.now.program.pool.now }
    requires scene { IsScene origin.now.program state.now }
    requires origin { IsOrigin origin.now }
    requires ascending { IsAscending (values_in (identifiers (map (actor_at origin.now.program.pool.now) actors.now))) }
    ensures { Tells result (processes_asked (as_written (program_at origin.now.program)) (program_at origin.now.program) (map (actor_at origin.now.program.pool.now) actors.now) (numbered process_routine (first_process (program_at origin.now.program).algorithm) (map (process_at origin.now.program.pool.now) list.now)) (state_of state.now)) }
{
    let program = origin.program;
    let first = program.first_process()?;
    for i in 0..list.len() {
        let number = after(first, i)?;
        let allowed = process_allowed(alloc, origin, number, &list[i], &ready[i], actors, state)?;
        if !allowed {
            return Ok(false);
        }
    }
    Ok(true)
}

/// Whether the variables of all processes have values that their declarations allow.
///
/// # Errors
///
/// As of `spread_allowed` and `plain_allowed`, at the first that has one, where those before it are allowed.
pub fn processes_allowed(
    alloc: Global,
    origin: &Origin<'_>,
    main: &Main,
    actors: &[Actor<'_>],
    state: &State,
) -> Result<bool, EvalStop>
    requires all { main_at origin.now.program.pool.now main.now ≡ (program_at origin.now.program).algorithm.main }
    requires below { past_main main.now ≤ length origin.now.program.pool.now }
    requires scene { IsScene origin.now.program state.now }
    requires origin { IsOrigin origin.now }
    requires ascending { IsAscending (values_in (identifiers (map (actor_at origin.now.program.pool.now) actors.now))) }
    ensures { Tells result (processes_asked (as_written (program_at origin.now.program)) (program_at origin.now.program) (map (actor_at origin.now.program.pool.now) actors.now) (main_routines (program_at origin.now.program).algorithm (main_at origin.now.program.pool.now main.now)) (state_of state.now)) }
{
    match main {
        Main::Alone(_) => Ok(true),
        Main::Processes(list) => match origin.main {
            Main::Alone(_) => Err(EvalStop::Memory),
            Main::Processes(ready) => several_allowed(alloc, origin, list, ready, actors, state),
        },
    }
}
