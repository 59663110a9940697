//! All processes of an algorithm, one after another in the order of the text.

ghost use Rattle.std.specs.Prelude.{◌≡◌, ◌≤◌, ◌++◌, ◌+◌, List, length, map, IfOk, OnOk};
ghost use Rattle.tla_tree.specs.Tree.{Tree};
ghost use Rattle.tla_tree.specs.Nesting.{greatest};
ghost use Rattle.tla_value.specs.Value.{values_in};
ghost use Rattle.pcal_tree.specs.InMemory.{process_at, past_process};
ghost use Rattle.pcal_tree.specs.Processes.{actors_of, all_actors, last_place as last_place_of};
ghost use Rattle.pcal_tree.specs.Algorithm.{first_process};
ghost use Rattle.value_forms.specs.Gives.{Gives};
ghost use Rattle.step_spots.specs.InMemory.{routine_at};
ghost use Rattle.step_moves.specs.Programs.{program_at, IsWhole};
ghost use Rattle.step_moves.specs.InMemory.{named_at, identifiers_in};

use crate::identity::identifiers_of;
use crate::{Named, Program};
use pcal_tree::algorithm::Process;
use std::alloc::{AllocError, Global};
use step_spots::Routine;
use tla_token::Place;
use tla_value::stop::EvalStop;
use tla_value::value::{Value, copied};

// The number after another. One past the largest number is more routines than memory has.
fn after(number: usize) -> Result<usize, AllocError>
    ensures { IfOk result (λ n. n ≡ number + 1) }
{
    number.checked_add(1).ok_or(AllocError)
}

// Adds the processes that have these identifiers.
fn add_named<'a>(
    alloc: Global,
    values: &[Value],
    own: Routine<'a>,
    into: &mut Vec<Named<'a>>,
) -> Result<(), AllocError>
    ensures { OnOk result ((ts : List Tree) → map (named_at ts) into.new.items ≡ map (named_at ts) into.old.items ++ actors_of (routine_at ts own.entry) (values_in values.now)) }
{
    for v in values {
        let identifier = copied(alloc, v)?;
        into.push(Named { identifier, own })?;
    }
    Ok(())
}

/// All processes with their identifiers, process by process.
///
/// # Errors
///
/// For want of memory, and exactly where a process has no identifiers: what the first of these stops by.
pub fn all_named<'a>(
    alloc: Global,
    program: &Program<'a>,
    list: &'a [Process],
) -> Result<Vec<Named<'a>>, EvalStop>
    requires within { greatest (map past_process list.now) ≤ length program.now.pool.now }
    requires whole { IsWhole program.now }
    ensures { Gives (λ r. map (named_at program.now.pool.now) r.items) result (all_actors (program_at program.now) (first_process (program_at program.now).algorithm) (map (process_at program.now.pool.now) list.now)) }
{
    let mut all = Vec::new(alloc);
    let mut number = program.first_process()?;
    for process in list {
        let values = identifiers_of(alloc, program, process)?;
        add_named(alloc, &values, Routine::process(number, process), &mut all)?;
        number = after(number)?;
    }
    Ok(all)
}

/// The identifiers of processes, once more.
///
/// # Errors
///
/// Only for want of memory.
pub fn identifiers(alloc: Global, all: &[Named<'_>]) -> Result<Vec<Value>, AllocError>
    ensures { IfOk result (λ r. r.items ≡ identifiers_in all.now) }
{
    let mut values = Vec::new(alloc);
    for one in all {
        let identifier = copied(alloc, &one.identifier)?;
        values.push(identifier)?;
    }
    Ok(values)
}

/// The place of the last process's name, or else another.
pub fn last_place(at: Place, list: &[Process]) -> Place
    ensures { (ts : List Tree) → result ≡ last_place_of at (map (process_at ts) list.now) }
{
    let mut last = at;
    for process in list {
        last = process.name.place;
    }
    last
}
