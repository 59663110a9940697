//! That all processes are done: the test of Terminating, and what Termination says.

ghost use Rattle.std.specs.Prelude.{◌≡◌, ◌<◌, List, codes, length, IfOk, option_map};
ghost use Rattle.tla_tree.specs.Tree.{Tree};
ghost use Rattle.tla_tree.specs.Pool.{at as tree_at, Keeps};
ghost use Rattle.module_tree.specs.Formulas as pure;
ghost use Rattle.pcal_tree.specs.InMemory.{main_at};
ghost use Rattle.pcal_tree.specs.Program.{Program};
ghost use Rattle.pcal_tree.specs.Variables.{pc};
ghost use Rattle.module_write.specs.InMemory.{MaybeIn};
ghost use Rattle.action_builder.specs.NextFormula.{all_done as all_done_of, ended as ended_of};
ghost use Rattle.draft.specs.Drafts.{IsDraft};

use crate::names::{name_of, string_of};
use draft::Draft;
use module_write::formulas::{at, binds_self, equal};
use pcal_tree::algorithm::Main;
use std::alloc::{AllocError, Global};
use tla_pool::Pool;
use tla_tree::{Binder, NodeId};

// `pc[self]`
fn own_pc(alloc: Global, pool: &mut Pool) -> Result<NodeId, AllocError>
    ensures tree { IfOk result (λ r. tree_at pool.new r ≡ pure.at (pure.named pc) (pure.named pure.self)) }
    ensures within { IfOk result (λ r. r < length pool.new) }
    ensures kept { Keeps pool.old pool.new }
{
    let all = name_of(alloc, pool, b"pc")?;
    let this = name_of(alloc, pool, b"self")?;
    at(alloc, pool, all, this)
}

// A value is "Done".
fn is_done(alloc: Global, pool: &mut Pool, value: NodeId) -> Result<NodeId, AllocError>
    requires { value < length pool.old }
    ensures tree { IfOk result (λ r. tree_at pool.new r ≡ pure.equal (tree_at pool.old value) (pure.quoted (codes "Done"))) }
    ensures within { IfOk result (λ r. r < length pool.new) }
    ensures kept { Keeps pool.old pool.new }
{
    let done = string_of(alloc, pool, b"Done")?;
    equal(alloc, pool, value, done)
}

// That every process is done.
fn each_done(alloc: Global, pool: &mut Pool) -> Result<NodeId, AllocError>
    ensures tree { IfOk result (λ r. tree_at pool.new r ≡ pure.for_all_self pure.process_set (pure.equal (pure.at (pure.named pc) (pure.named pure.self)) (pure.quoted (codes "Done")))) }
    ensures within { IfOk result (λ r. r < length pool.new) }
    ensures kept { Keeps pool.old pool.new }
{
    let own = own_pc(alloc, pool)?;
    let test = is_done(alloc, pool, own)?;
    let set = name_of(alloc, pool, b"ProcSet")?;
    binds_self(alloc, pool, Binder::ForAll, set, test)
}

// That what runs is done.
fn main_done(alloc: Global, pool: &mut Pool, main: &Main) -> Result<NodeId, AllocError>
    ensures tree { IfOk result (λ r. (ts : List Tree) → tree_at pool.new r ≡ all_done_of (main_at ts main.now)) }
    ensures within { IfOk result (λ r. r < length pool.new) }
    ensures kept { Keeps pool.old pool.new }
{
    match main {
        Main::Alone(_) => {
            let one = name_of(alloc, pool, b"pc")?;
            is_done(alloc, pool, one)
        }
        Main::Processes(_) => each_done(alloc, pool),
    }
}

/// That all processes are done.
///
/// # Errors
///
/// Only for want of memory; the pool may then have more nodes than before.
pub fn all_done(alloc: Global, pool: &mut Pool, draft: &Draft<'_>) -> Result<NodeId, AllocError>
    ensures tree { IfOk result (λ r. (P : Program) → IsDraft pool.old draft.now P → tree_at pool.new r ≡ all_done_of P.algorithm.main) }
    ensures within { IfOk result (λ r. r < length pool.new) }
    ensures kept { Keeps pool.old pool.new }
{
    main_done(alloc, pool, &draft.algorithm.main)
}

/// The test of Terminating, which isn't there with the option `--no-terminating`.
///
/// # Errors
///
/// Only for want of memory; the pool may then have more nodes than before.
pub fn ended(
    alloc: Global,
    pool: &mut Pool,
    draft: &Draft<'_>,
    no_terminating: bool,
) -> Result<Option<NodeId>, AllocError>
    ensures tree { IfOk result (λ r. (P : Program) → IsDraft pool.old draft.now P → option_map (tree_at pool.new) r ≡ ended_of no_terminating P.algorithm.main) }
    ensures within { IfOk result (MaybeIn (length pool.new)) }
    ensures kept { Keeps pool.old pool.new }
{
    if no_terminating {
        return Ok(None);
    }
    let test = all_done(alloc, pool, draft)?;
    Ok(Some(test))
}
