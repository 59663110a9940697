//! The start of a run by a list of choices.

ghost use Rattle.std.specs.Prelude.{◌≡◌, [], map, Ok, IfOk};
ghost use Rattle.pcal_tree.specs.Processes.{actors as actors_of};
ghost use Rattle.step_walks.specs.FirstValues.{as_written};
ghost use Rattle.step_walks.specs.StartFlows.{parts_flow};
ghost use Rattle.step_moves.specs.InMemory.{actor_at};
ghost use Rattle.step_moves.specs.Programs.{program_at};
ghost use Rattle.step_moves.specs.ScopeIn.{IsScene};
ghost use Rattle.step_meaning.specs.Begun.{names_in};
ghost use Rattle.step_meaning.specs.Origins.{IsOrigin, Starts};

use crate::globals::globals;
use crate::origin::{Origin, Start};
use crate::puts::blank;
use crate::ready::make_ready;
use crate::routines::{procedures, processes};
use std::alloc::Global;
use step_choices::Pause;
use step_moves::Actor;

/// The start of a run by a list of choices ("A PlusCal User's Manual", sections 3.3 and 3.4): globals, variables of procedures and of
/// processes have values that their declarations allow, every stack is empty, and every `pc` is at its process's first label.
///
/// # Errors
///
/// For want of memory, and exactly where a first value can't be made or a choice is missing, at the first variable that has none.
pub fn start(
    alloc: Global,
    origin: &Origin<'_>,
    actors: &[Actor<'_>],
    choices: &[u32],
) -> Result<Start, Pause>
    requires origin { IsOrigin origin.now }
    requires actors { actors_of (program_at origin.now.program) ≡ Ok (map (actor_at origin.now.program.pool.now) actors.now) }
    ensures starts { Starts result choices.now (parts_flow (as_written (program_at origin.now.program) []) (program_at origin.now.program) choices.now (map (actor_at origin.now.program.pool.now) actors.now)) }
    ensures scene { IfOk result (λ r. IsScene origin.now.program r.state) }
    ensures order { IfOk result (λ r. names_in r.state ≡ origin.now.variables.now) }
{
    let program = origin.program;
    let algorithm = program.algorithm;
    let mut state = blank(alloc, origin.variables)?;
    let mut used = 0;
    globals(
        alloc,
        &program,
        &algorithm.globals,
        &mut state,
        choices,
        &mut used,
    )?;
    procedures(
        alloc,
        origin,
        &algorithm.procedures,
        actors,
        &mut state,
        choices,
        &mut used,
    )?;
    processes(
        alloc,
        origin,
        &algorithm.main,
        actors,
        &mut state,
        choices,
        &mut used,
    )?;
    make_ready(alloc, origin, actors, &mut state)?;
    Ok(Start { state, used })
}
