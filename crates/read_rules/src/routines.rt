//! Procedures, processes and bodies: the first use of a definition after what it reads was assigned.

ghost use Rattle.std.specs.Prelude.{◌≡◌, List, [], cond, map, IfOk};
ghost use Rattle.std.specs.List.{flat_map};
ghost use Rattle.tla_tree.specs.Pool.{at};
ghost use Rattle.pcal_tree.specs.Algorithm as tree;
ghost use Rattle.pcal_tree.specs.InMemory.{procedure_at, process_at, main_at};
ghost use Rattle.pcal_tree.specs.Offences.{first};
ghost use Rattle.pcal_tree.specs.OffencesStale.{stale_in_procedure, stale_in_process, stale_in_main};
ghost use Rattle.pcal_tree.specs.Reads.{Reading, used};
ghost use Rattle.pcal_tree.specs.laws.MacroSpots.{MacroSeen};
ghost use Rattle.read_rules.specs.KnownIn.{Knows};
ghost use Rattle.read_rules.specs.ReadsIn.{AreReads};
ghost use Rattle.read_rules.specs.RefusalsIn.{looking};

use crate::definitions::Reads;
use crate::known::Known;
use crate::refusals::with_body;
use crate::used::free_names;
use pcal_tree::algorithm::{Main, Procedure, Process};
use std::alloc::{AllocError, Global};
use tla_pool::Pool;
use tla_token::Refusal;
use tla_tree::PlacedName;

/// The first offence of procedures.
///
/// # Errors
///
/// Only for want of memory.
pub fn of_procedures(
    alloc: Global,
    pool: &Pool,
    known: &Known,
    reads: &Reads,
    procedures: &[Procedure],
) -> Result<Option<Refusal>, AllocError>
    ensures { IfOk result (λ r. (ms : List MacroSeen) (ps : List tree.Procedure) (ds : List Reading) → Knows known.now ms ps → AreReads reads.now ds → r ≡ first (flat_map (stale_in_procedure (looking ms ps) ds) (map (procedure_at pool.now) procedures.now))) }
{
    let mut found = None;
    for procedure in procedures {
        found = with_body(alloc, pool, known, reads, found, &[], &procedure.body)?;
    }
    Ok(found)
}

// The names for which `self` stands in a process.
fn identity_names(
    alloc: Global,
    pool: &Pool,
    process: &Process,
) -> Result<Vec<PlacedName>, AllocError>
    ensures { IfOk result (λ r. r.items ≡ cond process.now.several [] (used (at pool.now process.now.identity) [])) }
{
    if process.several {
        Ok(Vec::new(alloc))
    } else {
        free_names(alloc, pool, process.identity)
    }
}

// The first offence of processes.
fn of_processes(
    alloc: Global,
    pool: &Pool,
    known: &Known,
    reads: &Reads,
    processes: &[Process],
) -> Result<Option<Refusal>, AllocError>
    ensures { IfOk result (λ r. (ms : List MacroSeen) (ps : List tree.Procedure) (ds : List Reading) → Knows known.now ms ps → AreReads reads.now ds → r ≡ first (flat_map (stale_in_process (looking ms ps) ds) (map (process_at pool.now) processes.now))) }
{
    let mut found = None;
    for process in processes {
        let identity = identity_names(alloc, pool, process)?;
        found = with_body(alloc, pool, known, reads, found, &identity, &process.body)?;
    }
    Ok(found)
}

/// The first offence of what runs.
///
/// # Errors
///
/// Only for want of memory.
pub fn of_main(
    alloc: Global,
    pool: &Pool,
    known: &Known,
    reads: &Reads,
    main: &Main,
) -> Result<Option<Refusal>, AllocError>
    ensures { IfOk result (λ r. (ms : List MacroSeen) (ps : List tree.Procedure) (ds : List Reading) → Knows known.now ms ps → AreReads reads.now ds → r ≡ first (stale_in_main (looking ms ps) ds (main_at pool.now main.now))) }
{
    match main {
        Main::Alone(body) => with_body(alloc, pool, known, reads, None, &[], body),
        Main::Processes(processes) => of_processes(alloc, pool, known, reads, processes),
    }
}
