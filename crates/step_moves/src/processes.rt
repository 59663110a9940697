//! The processes of a program, in canonical order.

ghost use Rattle.std.specs.Prelude.{◌≡◌, ◌≤◌, length, map, Ok, IfOk};
ghost use Rattle.tla_tree.specs.Nesting.{greatest};
ghost use Rattle.pcal_tree.specs.Algorithm as tree;
ghost use Rattle.pcal_tree.specs.InMemory.{process_at, past_process, statements_at};
ghost use Rattle.pcal_tree.specs.Processes.{actors as pure_actors, actors_in};
ghost use Rattle.value_forms.specs.Gives.{Gives};
ghost use Rattle.step_moves.specs.Programs.{program_at, IsWhole};
ghost use Rattle.step_moves.specs.InMemory.{actor_at};

use crate::apart::{apart, in_order};
use crate::gather::{all_named, identifiers, last_place};
use crate::{Actor, Program};
use pcal_tree::algorithm::{Main, Process, Stmt};
use std::alloc::{AllocError, Global};
use step_spots::Routine;
use tla_value::build::set_of;
use tla_value::stop::EvalStop;

// The one body.
fn alone<'a>(
    alloc: Global,
    program: &Program<'a>,
    body: &'a [Stmt],
) -> Result<Vec<Actor<'a>>, AllocError>
    ensures { IfOk result (λ r. actors_in (program_at program.now) (tree.alone (statements_at program.now.pool.now body.now)) ≡ Ok (map (actor_at program.now.pool.now) r.items)) }
{
    let number = program.first_process()?;
    let algorithm = program.algorithm;
    let mut one = Vec::new(alloc);
    one.push(Actor {
        identifier: None,
        own: Routine::alone(number, &algorithm.name, body),
    })?;
    Ok(one)
}

// Processes. Their identifiers together are a set that is reached at the last process's name.
fn several<'a>(
    alloc: Global,
    program: &Program<'a>,
    list: &'a [Process],
) -> Result<Vec<Actor<'a>>, EvalStop>
    requires within { greatest (map past_process list.now) ≤ length program.now.pool.now }
    requires whole { IsWhole program.now }
    ensures { Gives (λ r. map (actor_at program.now.pool.now) r.items) result (actors_in (program_at program.now) (tree.processes (map (process_at program.now.pool.now) list.now))) }
{
    let all = all_named(alloc, program, list)?;
    let values = identifiers(alloc, &all)?;
    let known = apart(alloc, &all)?;
    let algorithm = program.algorithm;
    set_of(last_place(algorithm.name.place, list), values)?;
    Ok(in_order(alloc, known)?)
}

/// The processes of a program in the canonical order of their identifiers, each with its identifier ("A PlusCal User's Manual",
/// section 3.3, processes); of an algorithm without processes the one body.
///
/// # Errors
///
/// For want of memory, and exactly where the program has no processes: where identifiers have no value, where two processes share one,
/// and where all together are past the limits of a run.
pub fn actors<'a>(alloc: Global, program: &Program<'a>) -> Result<Vec<Actor<'a>>, EvalStop>
    requires { IsWhole program.now }
    ensures { Gives (λ r. map (actor_at program.now.pool.now) r.items) result (pure_actors (program_at program.now)) }
{
    let algorithm = program.algorithm;
    match &algorithm.main {
        Main::Alone(body) => Ok(alone(alloc, program, body)?),
        Main::Processes(list) => several(alloc, program, list),
    }
}
