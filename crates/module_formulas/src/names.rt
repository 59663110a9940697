//! Names and strings that a translation has by itself.

ghost use Rattle.std.specs.Prelude.{◌≡◌, ◌<◌, length, IfOk};
ghost use Rattle.tla_tree.specs.Pool.{at, Keeps};
ghost use Rattle.module_tree.specs.Formulas as pure;

use module_write::formulas::{named, quoted};
use std::alloc::{AllocError, Global};
use tla_pool::Pool;
use tla_tree::{Name, NodeId, Text};

/// The name of these bytes.
///
/// # Errors
///
/// Only for want of memory.
pub fn word(alloc: Global, bytes: &[u8]) -> Result<Name, AllocError>
    ensures { IfOk result (λ r. r ≡ bytes.now) }
{
    Ok(Name::new(Vec::from_slice(alloc, bytes)?))
}

/// The name of these bytes, as an expression.
///
/// # Errors
///
/// Only for want of memory.
pub fn name_of(alloc: Global, pool: &mut Pool, bytes: &[u8]) -> Result<NodeId, AllocError>
    ensures tree { IfOk result (λ r. at pool.new r ≡ pure.named bytes.now) }
    ensures within { IfOk result (λ r. r < length pool.new) }
    ensures kept { Keeps pool.old pool.new }
{
    let name = word(alloc, bytes)?;
    named(alloc, pool, name)
}

/// The string of these bytes.
///
/// # Errors
///
/// Only for want of memory.
pub fn string_of(alloc: Global, pool: &mut Pool, bytes: &[u8]) -> Result<NodeId, AllocError>
    ensures tree { IfOk result (λ r. at pool.new r ≡ pure.quoted bytes.now) }
    ensures within { IfOk result (λ r. r < length pool.new) }
    ensures kept { Keeps pool.old pool.new }
{
    let text = Text::new(Vec::from_slice(alloc, bytes)?);
    quoted(alloc, pool, text)
}
