//! ProcSet: the union of the sets of the identifiers of processes.

ghost use Rattle.std.specs.Prelude.{◌≡◌, ◌<◌, ◌≤◌, List, length, IfOk, option_map};
ghost use Rattle.std.specs.Prelude as prelude;
ghost use Rattle.tla_tree.specs.Pool.{at, Keeps};
ghost use Rattle.tla_tree.specs.Nesting.{greatest};
ghost use Rattle.pcal_tree.specs.InMemory.{process_at, past_process, past_algorithm};
ghost use Rattle.pcal_tree.specs.Program.{Program};
ghost use Rattle.module_write.specs.InMemory.{MaybeIn};
ghost use Rattle.action_builder.specs.ProcessSets.{set_of_takers, union_from, union as union_of, sets_of_processes, process_set_of};
ghost use Rattle.draft.specs.Drafts.{IsDraft};
ghost use Rattle.module_formulas.specs.TakersIn.{taker_at, TakerIn};

use crate::forms::cup;
use crate::takers::{Taker, taker_of};
use draft::Draft;
use module_write::formulas::set;
use pcal_tree::algorithm::{Main, Process};
use std::alloc::{AllocError, Global};
use tla_pool::Pool;
use tla_tree::NodeId;

// The set of the identifiers of a process.
fn set_of(alloc: Global, pool: &mut Pool, taker: Taker) -> Result<NodeId, AllocError>
    requires { TakerIn (length pool.old) taker }
    ensures tree { IfOk result (λ r. at pool.new r ≡ set_of_takers (taker_at pool.old taker)) }
    ensures within { IfOk result (λ r. r < length pool.new) }
    ensures kept { Keeps pool.old pool.new }
{
    match taker {
        Taker::Each(members) => Ok(members),
        Taker::Single(identity) => {
            let members = Vec::from_array(alloc, [identity])?;
            set(pool, members)
        }
        Taker::Lone => set(pool, Vec::new(alloc)),
    }
}

// The union of a set with those of processes.
fn union_with(
    alloc: Global,
    pool: &mut Pool,
    first: NodeId,
    list: &[Process],
) -> Result<NodeId, AllocError>
    requires there { greatest (prelude.map past_process list.now) ≤ length pool.old }
    requires first { first < length pool.old }
    ensures tree { IfOk result (λ r. at pool.new r ≡ union_from (at pool.old first) (sets_of_processes (prelude.map (process_at pool.old) list.now))) }
    ensures within { IfOk result (λ r. r < length pool.new) }
    ensures kept { Keeps pool.old pool.new }
{
    let mut all = first;
    for process in list {
        let members = set_of(alloc, pool, taker_of(process))?;
        all = cup(alloc, pool, all, members)?;
    }
    Ok(all)
}

// The union of the sets of processes.
fn union(alloc: Global, pool: &mut Pool, list: &[Process]) -> Result<NodeId, AllocError>
    requires { greatest (prelude.map past_process list.now) ≤ length pool.old }
    ensures tree { IfOk result (λ r. at pool.new r ≡ union_of (sets_of_processes (prelude.map (process_at pool.old) list.now))) }
    ensures within { IfOk result (λ r. r < length pool.new) }
    ensures kept { Keeps pool.old pool.new }
{
    match list {
        [] => set(pool, Vec::new(alloc)),
        [first, rest @ ..] => {
            let members = set_of(alloc, pool, taker_of(first))?;
            union_with(alloc, pool, members, rest)
        }
    }
}

/// ProcSet, of an algorithm with processes.
///
/// # Errors
///
/// Only for want of memory; the pool may then have more nodes than before.
pub fn process_set(
    alloc: Global,
    pool: &mut Pool,
    draft: &Draft<'_>,
) -> Result<Option<NodeId>, AllocError>
    requires { past_algorithm draft.now.algorithm.now ≤ length pool.old }
    ensures tree { IfOk result (λ r. (P : Program) → IsDraft pool.old draft.now P → option_map (at pool.new) r ≡ process_set_of P.algorithm.main) }
    ensures within { IfOk result (MaybeIn (length pool.new)) }
    ensures kept { Keeps pool.old pool.new }
{
    match &draft.algorithm.main {
        Main::Alone(_) => Ok(None),
        Main::Processes(list) => {
            let all = union(alloc, pool, list)?;
            Ok(Some(all))
        }
    }
}
