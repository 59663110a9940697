//! What goes on the stack.

ghost use Rattle.std.specs.Prelude.{◌≡◌, ◌<◌, length, IfOk, cond, Some, None};
ghost use Rattle.tla_tree.specs.Pool.{at, Keeps};
ghost use Rattle.pcal_tree.specs.Algorithm.{nowhere};
ghost use Rattle.pcal_tree.specs.Variables.{pc, stack};
ghost use Rattle.action_builder.specs.Jumps.{name_at, text_at, stack_rest};
ghost use Rattle.proc_stack.specs.Pieces.{first_of, selected};
ghost use Rattle.proc_stack.specs.Saving.{IsSaved};

use crate::pieces::{field, first_record, other_records, text, variable, word};
use std::alloc::{AllocError, Global};
use tla_pool::Pool;
use tla_tree::{Name, NodeId};

/// What is put on the stack.
#[derive(Clone, Copy)]
pub struct Saved {
    /// Where the record goes back to.
    pub back: NodeId,
    /// The record that has the values to keep; else they are those that parameters and variables have.
    pub from: Option<NodeId>,
    /// The records under it.
    pub rest: NodeId,
}

/// What a call puts there that goes back to the label of this written name.
///
/// # Errors
///
/// Only for want of memory; the pool may then have more nodes than before.
pub fn saved_by_call(alloc: Global, pool: &mut Pool, back: &Name) -> Result<Saved, AllocError>
    ensures saved { IfOk result (λ r. IsSaved pool.new r (text_at nowhere back.now) None (name_at nowhere stack)) }
    ensures kept { Keeps pool.old pool.new }
{
    let back = text(alloc, pool, back.bytes())?;
    let rest = variable(alloc, pool, b"stack")?;
    Ok(Saved {
        back,
        from: None,
        rest,
    })
}

// `r.pc`
fn label_kept(alloc: Global, pool: &mut Pool, frame: NodeId) -> Result<NodeId, AllocError>
    requires { frame < length pool.old }
    ensures tree { IfOk result (λ r. at pool.new r ≡ selected (at pool.old frame) pc) }
    ensures within { IfOk result (λ r. r < length pool.new) }
    ensures kept { Keeps pool.old pool.new }
{
    let name = word(alloc, b"pc")?;
    field(alloc, pool, frame, &name)
}

/// What a call puts there that is one statement with a return, and is of the returning procedure itself, or not.
///
/// # Errors
///
/// Only for want of memory; the pool may then have more nodes than before.
pub fn saved_by_return(alloc: Global, pool: &mut Pool, itself: bool) -> Result<Saved, AllocError>
    ensures saved { IfOk result (λ r. IsSaved pool.new r (selected (first_of stack) pc) (cond itself (Some (first_of stack)) None) (stack_rest nowhere)) }
    ensures kept { Keeps pool.old pool.new }
{
    let frame = first_record(alloc, pool, b"stack")?;
    let back = label_kept(alloc, pool, frame)?;
    let rest = other_records(alloc, pool)?;
    let from = if itself { Some(frame) } else { None };
    Ok(Saved { back, from, rest })
}
