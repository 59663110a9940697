//! Definitions that are used after what they read was assigned, in an algorithm.

ghost use Rattle.std.specs.Prelude.{◌≡◌, IfOk};
ghost use Rattle.pcal_tree.specs.InMemory.{algorithm_at};
ghost use Rattle.pcal_tree.specs.Offences.{first};
ghost use Rattle.pcal_tree.specs.OffencesStale.{stale_offences_by};
ghost use Rattle.pcal_tree.specs.Reads.{readings_of};
ghost use Rattle.pcal_tree.specs.laws.MacroSpots.{spots_by_macros};
ghost use Rattle.pcal_tree.proofs.SetLaws.{Same};
ghost use Rattle.read_rules.specs.KnownIn.{KnowsAll};
ghost use Rattle.read_rules.specs.ReadsIn.{AreReads};
ghost use Rattle.read_rules.specs.WantedIn.{params_in, wants};

use crate::definitions::{all_reads, global_names};
use crate::jumps::jumps;
use crate::known::Known;
use crate::macros::known_macros;
use crate::routines::{of_main, of_procedures};
use crate::wanted::{Wanted, all_params};
use algorithm_limits::order::least;
use pcal_tree::algorithm::Algorithm;
use std::alloc::{AllocError, Global};
use tla_pool::Pool;
use tla_token::Refusal;

// What tells whether uses may matter in an algorithm.
fn wanted_in(alloc: Global, pool: &Pool, algorithm: &Algorithm) -> Result<Wanted, AllocError>
    ensures { IfOk result (λ r. AreReads r.reads (readings_of (algorithm_at pool.now algorithm.now)) × Same r.names (params_in algorithm.now.macros.items)) }
{
    let names = all_params(alloc, &algorithm.macros)?;
    let globals = global_names(alloc, &algorithm.globals)?;
    match all_reads(alloc, pool, &globals, &algorithm.definitions) {
        Ok(reads) => {
            drop(globals);
            Ok(Wanted { reads, names })
        }
        Err(error) => {
            drop(globals);
            drop(names);
            Err(error)
        }
    }
}

// What is known of an algorithm's macros and procedures.
fn known_in(
    alloc: Global,
    pool: &Pool,
    wanted: &Wanted,
    algorithm: &Algorithm,
) -> Result<Known, AllocError>
    ensures { IfOk result (λ r. KnowsAll (wants wanted.now) r (algorithm_at pool.now algorithm.now)) }
{
    let jumps = jumps(alloc, pool, &algorithm.procedures)?;
    known_macros(alloc, pool, wanted, &algorithm.macros, jumps)
}

// The first offence, by what tells whether uses may matter, and what is known of macros and procedures.
fn refusal_by(
    alloc: Global,
    pool: &Pool,
    wanted: &Wanted,
    known: &Known,
    algorithm: &Algorithm,
) -> Result<Option<Refusal>, AllocError>
    ensures { IfOk result (λ r. AreReads wanted.now.reads (readings_of (algorithm_at pool.now algorithm.now)) → Same wanted.now.names (params_in algorithm.now.macros.items) → KnowsAll (wants wanted.now) known.now (algorithm_at pool.now algorithm.now) → r ≡ first (stale_offences_by (spots_by_macros (algorithm_at pool.now algorithm.now)) (algorithm_at pool.now algorithm.now))) }
{
    let procedures = of_procedures(alloc, pool, known, &wanted.reads, &algorithm.procedures)?;
    let main = of_main(alloc, pool, known, &wanted.reads, &algorithm.main)?;
    Ok(least(procedures, main))
}

// The same, where nothing is known of macros and procedures yet.
fn refusal_with(
    alloc: Global,
    pool: &Pool,
    wanted: &Wanted,
    algorithm: &Algorithm,
) -> Result<Option<Refusal>, AllocError>
    ensures { IfOk result (λ r. AreReads wanted.now.reads (readings_of (algorithm_at pool.now algorithm.now)) → Same wanted.now.names (params_in algorithm.now.macros.items) → r ≡ first (stale_offences_by (spots_by_macros (algorithm_at pool.now algorithm.now)) (algorithm_at pool.now algorithm.now))) }
{
    let known = known_in(alloc, pool, wanted, algorithm)?;
    let found = refusal_by(alloc, pool, wanted, &known, algorithm);
    drop(known);
    found
}

/// The first use of a definition of an algorithm that reads a variable which the step may have assigned before, by what is computed
/// once for each macro. Where there are no definitions, nothing is gone through.
///
/// # Errors
///
/// Only for want of memory.
pub fn stale_refusal(
    alloc: Global,
    pool: &Pool,
    algorithm: &Algorithm,
) -> Result<Option<Refusal>, AllocError>
    ensures { IfOk result (λ r. r ≡ first (stale_offences_by (spots_by_macros (algorithm_at pool.now algorithm.now)) (algorithm_at pool.now algorithm.now))) }
{
    if algorithm.definitions.is_empty() {
        return Ok(None);
    }
    let wanted = wanted_in(alloc, pool, algorithm)?;
    let found = refusal_with(alloc, pool, &wanted, algorithm);
    drop(wanted);
    found
}
