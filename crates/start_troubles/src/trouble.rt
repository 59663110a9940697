//! The trouble that is met while it is looked whether a state is initial ("A PlusCal User's Manual", sections 3.3 and 3.4).

ghost use Rattle.std.specs.Prelude.{◌≡◌, Ok, Bool, map, IfOk};
ghost use Rattle.std.specs.Option.{option_map};
ghost use Rattle.tla_value.specs.Value.{Outcome};
ghost use Rattle.pcal_tree.specs.Processes.{actors as actors_of};
ghost use Rattle.step_moves.specs.InMemory.{actor_at};
ghost use Rattle.value_forms.specs.Gives.{Stops, Tells};
ghost use Rattle.run_files.specs.InMemory.{trouble_of};
ghost use Rattle.step_moves.specs.Programs.{program_at};
ghost use Rattle.step_meaning.specs.Origins.{IsOrigin};
ghost use Rattle.step_moves.specs.StatesOf.{state_of};
ghost use Rattle.step_runner.specs.Explained.{trouble_in};
ghost use Rattle.step_moves.specs.ScopeIn.{IsScene};
ghost use Rattle.written_traces.specs.WrittenTraces.{written_start_trouble};
ghost use Rattle.start_troubles.specs.Asked.{variables_asked};

use crate::plain::globals_allowed;
use crate::routines::{procedures_allowed, processes_allowed};
use run_files::Trouble;
use std::alloc::{AllocError, Global};
use step_meaning::Origin;
use step_moves::Actor;
use tla_value::state::State;
use tla_value::stop::EvalStop;

// Whether all variables that are declared have values that their declarations allow.
fn all_allowed(
    alloc: Global,
    origin: &Origin<'_>,
    actors: &[Actor<'_>],
    state: &State,
) -> Result<bool, EvalStop>
    requires origin { IsOrigin origin.now }
    requires actors { actors_of (program_at origin.now.program) ≡ Ok (map (actor_at origin.now.program.pool.now) actors.now) }
    requires scene { IsScene origin.now.program state.now }
    ensures { Tells result (variables_asked (program_at origin.now.program) (map (actor_at origin.now.program.pool.now) actors.now) (state_of state.now)) }
{
    let program = origin.program;
    let algorithm = program.algorithm;
    let globals = globals_allowed(alloc, &program, &algorithm.globals, state)?;
    if !globals {
        return Ok(false);
    }
    let procedures = procedures_allowed(alloc, origin, &algorithm.procedures, actors, state)?;
    if !procedures {
        return Ok(false);
    }
    processes_allowed(alloc, origin, &algorithm.main, actors, state)
}

// The trouble that a stop is; want of memory is an error.
fn trouble_of_stop(stop: EvalStop) -> Result<Option<Trouble>, AllocError>
    ensures { IfOk result (λ o. (w : Outcome Bool) → Stops stop w → option_map trouble_of o ≡ trouble_in w) }
{
    match stop {
        EvalStop::Memory => Err(AllocError),
        EvalStop::Fault(kind, place) => Ok(Some(Trouble::Fault(kind, place))),
        EvalStop::Limit(place) => Ok(Some(Trouble::Limit(place))),
    }
}

/// The trouble that is met while it is looked, variable by variable, whether a state is initial; none where it is told that it is or isn't.
///
/// # Errors
///
/// Only for want of memory.
pub fn start_trouble(
    alloc: Global,
    origin: &Origin<'_>,
    actors: &[Actor<'_>],
    state: &State,
) -> Result<Option<Trouble>, AllocError>
    requires origin { IsOrigin origin.now }
    requires actors { actors_of (program_at origin.now.program) ≡ Ok (map (actor_at origin.now.program.pool.now) actors.now) }
    requires scene { IsScene origin.now.program state.now }
    ensures { IfOk result (λ o. option_map trouble_of o ≡ written_start_trouble (program_at origin.now.program) (map (actor_at origin.now.program.pool.now) actors.now) (state_of state.now)) }
{
    match all_allowed(alloc, origin, actors, state) {
        Ok(_) => Ok(None),
        Err(stop) => trouble_of_stop(stop),
    }
}
