//! Who takes the steps of a routine, and how it calls an action.

ghost use Rattle.std.specs.Prelude.{◌≡◌, ◌<◌, ◌≤◌, ℕ, List, length, IfOk};
ghost use Rattle.tla_tree.specs.Tree.{Tree};
ghost use Rattle.tla_tree.specs.Pool.{at, Keeps};
ghost use Rattle.module_tree.specs.Formulas.{self, named, is_in, equal};
ghost use Rattle.pcal_tree.specs.InMemory.{process_at, main_at, past_process};
ghost use Rattle.pcal_tree.specs.Takers.{takers_of};
ghost use Rattle.module_write.specs.InMemory.{call_at, CallIn};
ghost use Rattle.action_builder.specs.LabelActions.{procedure_takers, parameter_of as parameter_of_takers, call_by as call_by_takers};
ghost use Rattle.action_builder.specs.InitialFormulas.{is_taker as is_taker_tree};
ghost use Rattle.module_formulas.specs.TakersIn.{taker_at, TakerIn};

use crate::names::{name_of, word};
use module_write::formulas::{equal, is_in};
use module_write::module::Call;
use pcal_tree::algorithm::{Main, Process};
use std::alloc::{AllocError, Global};
use tla_pool::Pool;
use tla_tree::{Name, NodeId};

/// Who takes the steps of a routine ("A PlusCal User's Manual", section 3.3, processes).
#[derive(Clone, Copy)]
pub enum Taker {
    /// Each member of a set, which is `self`.
    Each(NodeId),
    /// The one process with this identifier.
    Single(NodeId),
    /// The one body of an algorithm without processes.
    Lone,
}

/// Who takes the steps of a process.
pub fn taker_of(process: &Process) -> Taker
    ensures stands { (ts : List Tree) → taker_at ts result ≡ takers_of (process_at ts process.now) }
    ensures within { (m : ℕ) → past_process process.now ≤ m → TakerIn m result }
{
    if process.several {
        Taker::Each(process.identity)
    } else {
        Taker::Single(process.identity)
    }
}

/// Who takes the steps of procedures: any process.
///
/// # Errors
///
/// Only for want of memory.
pub fn procedure_taker(alloc: Global, pool: &mut Pool, main: &Main) -> Result<Taker, AllocError>
    ensures stands { IfOk result (λ r. (ts : List Tree) → taker_at pool.new r ≡ procedure_takers (main_at ts main.now)) }
    ensures within { IfOk result (TakerIn (length pool.new)) }
    ensures kept { Keeps pool.old pool.new }
{
    match main {
        Main::Alone(_) => Ok(Taker::Lone),
        Main::Processes(_) => {
            let set = name_of(alloc, pool, b"ProcSet")?;
            Ok(Taker::Each(set))
        }
    }
}

/// The call of an action of that name; `this` is the name `self`.
pub fn call_by(taker: Taker, this: NodeId, title: Name) -> Call
    ensures stands { (ts : List Tree) → at ts this ≡ named self → call_at ts result ≡ call_by_takers (taker_at ts taker) title }
    ensures within { (m : ℕ) → this < m → CallIn m result }
{
    match taker {
        Taker::Each(_) => Call::With(title, this),
        Taker::Single(_) => Call::Bare(title),
        Taker::Lone => Call::Bare(title),
    }
}

/// The name in brackets after an action's.
///
/// # Errors
///
/// Only for want of memory.
pub fn parameter_of(alloc: Global, taker: Taker) -> Result<Option<Name>, AllocError>
    ensures { IfOk result (λ r. (ts : List Tree) → r ≡ parameter_of_takers (taker_at ts taker)) }
{
    match taker {
        Taker::Each(_) => {
            let name = word(alloc, b"self")?;
            Ok(Some(name))
        }
        Taker::Single(_) => Ok(None),
        Taker::Lone => Ok(None),
    }
}

/// The test that a process is one of those that take the steps; `this` is the name `self`.
///
/// # Errors
///
/// Only for want of memory.
pub fn is_taker(
    alloc: Global,
    pool: &mut Pool,
    taker: Taker,
    this: NodeId,
) -> Result<NodeId, AllocError>
    requires within { TakerIn (length pool.old) taker }
    requires name { this < length pool.old }
    ensures tree { IfOk result (λ r. at pool.old this ≡ named self → at pool.new r ≡ is_taker_tree (taker_at pool.old taker)) }
    ensures within { IfOk result (λ r. r < length pool.new) }
    ensures kept { Keeps pool.old pool.new }
{
    match taker {
        Taker::Each(set) => is_in(alloc, pool, true, this, set),
        Taker::Single(identity) => equal(alloc, pool, this, identity),
        Taker::Lone => Ok(this),
    }
}
