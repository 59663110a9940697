//! Variables that are read in the identifiers of processes.

ghost use Rattle.std.specs.Prelude.{◌≡◌, nat_lt, List, map, IfOk};
ghost use Rattle.std.specs.List.{flat_map};
ghost use Rattle.tla_tree.specs.Tree.{Word};
ghost use Rattle.pcal_tree.specs.InMemory.{process_at, main_at};
ghost use Rattle.pcal_tree.specs.Offences.{first};
ghost use Rattle.pcal_tree.specs.OffencesReads.{processes_of};
ghost use Rattle.algorithm_answer.specs.Joined.{joined};
ghost use Rattle.read_rules.specs.Levels.{Levels, reach_of};
ghost use Rattle.read_rules.specs.EarlyReads.{offending_name, offending_process};
ghost use Rattle.read_rules.specs.NumbersIn.{AreNumbers, AreLevels};

use crate::used::free_names;
use algorithm_limits::order::or_offence;
use algorithm_limits::table::Table;
use pcal_tree::algorithm::{Main, Process};
use std::alloc::{AllocError, Global};
use tla_pool::Pool;
use tla_token::{Refusal, Rule};
use tla_tree::PlacedName;

// Whether a name may be a variable, or reads one.
fn reads_some(numbers: &Table, levels: &Table, one: &PlacedName) -> bool
    ensures { (gs : List Word) (ls : Levels) → AreNumbers numbers.now gs → AreLevels levels.now ls → result ≡ nat_lt 0 (reach_of gs ls one.now.word) }
{
    numbers.get(&one.name).max(levels.get(&one.name)) > 0
}

// The first of what was found and of the offences of these names.
fn with_names(
    numbers: &Table,
    levels: &Table,
    so_far: Option<Refusal>,
    names: &[PlacedName],
) -> Option<Refusal>
    ensures { (gs : List Word) (ls : Levels) → AreNumbers numbers.now gs → AreLevels levels.now ls → result ≡ joined so_far (first (flat_map (offending_name gs ls) names.now)) }
{
    let mut found = so_far;
    for one in names {
        let reads = reads_some(numbers, levels, one);
        found = or_offence(found, reads, Rule::ProcessNotConstant, one.place);
    }
    found
}

// The first offence of these processes.
fn of_processes(
    alloc: Global,
    pool: &Pool,
    numbers: &Table,
    levels: &Table,
    processes: &[Process],
) -> Result<Option<Refusal>, AllocError>
    ensures { IfOk result (λ r. (gs : List Word) (ls : Levels) → AreNumbers numbers.now gs → AreLevels levels.now ls → r ≡ first (flat_map (offending_process gs ls) (map (process_at pool.now) processes.now))) }
{
    let mut found = None;
    for process in processes {
        let names = free_names(alloc, pool, process.identity)?;
        found = with_names(numbers, levels, found, &names);
    }
    Ok(found)
}

/// The first variable that is read in the identifier of a process, by the numbers of globals and the levels of definitions.
///
/// # Errors
///
/// Only for want of memory.
pub fn identity_refusal(
    alloc: Global,
    pool: &Pool,
    numbers: &Table,
    levels: &Table,
    main: &Main,
) -> Result<Option<Refusal>, AllocError>
    ensures { IfOk result (λ r. (gs : List Word) (ls : Levels) → AreNumbers numbers.now gs → AreLevels levels.now ls → r ≡ first (flat_map (offending_process gs ls) (processes_of (main_at pool.now main.now)))) }
{
    match main {
        Main::Alone(_) => Ok(None),
        Main::Processes(processes) => of_processes(alloc, pool, numbers, levels, processes),
    }
}
