//! The units of a translation that say when all is done: Terminating, with which nothing changes, and Termination.

ghost use Rattle.std.specs.Prelude.{◌≡◌, ◌<◌, ◌++◌, [], ◌∷◌, length, OnOk};
ghost use Rattle.std.specs.Option.{option_map};
ghost use Rattle.tla_tree.specs.Pool.{at};
ghost use Rattle.module_tree.specs.Module.{termination_unit, terminating_of};
ghost use Rattle.module_lines.specs.Apart.{behind};
ghost use Rattle.module_lines.specs.Maybe.{MaybeIn};

use std::alloc::{AllocError, Global};
use tla_pool::Pool;
use tla_tree::{NodeId, Text};
use tla_write::append_expr;

/// Appends Terminating, with the expression that holds once all is done, if there is one.
///
/// # Errors
///
/// Only for want of memory.
pub fn write_terminating(
    alloc: Global,
    pool: &Pool,
    ended: Option<NodeId>,
    into: &mut Text,
) -> Result<(), AllocError>
    requires { MaybeIn (length pool.now) ended }
    ensures { OnOk result (into.new ≡ into.old ++ behind 0 (terminating_of (option_map (at pool.now) ended))) }
{
    if let Some(e) = ended {
        into.extend(b"\nTerminating ==\n  /\\ (")?;
        append_expr(alloc, pool, e, into)?;
        into.extend(b")\n  /\\ UNCHANGED vars\n")?;
    }
    Ok(())
}

/// Appends Termination, with the expression that holds once all is done.
///
/// # Errors
///
/// Only for want of memory.
pub fn write_termination(
    alloc: Global,
    pool: &Pool,
    e: NodeId,
    into: &mut Text,
) -> Result<(), AllocError>
    requires { e < length pool.now }
    ensures { OnOk result (into.new ≡ into.old ++ behind 0 (termination_unit (at pool.now e) ∷ [])) }
{
    into.extend(b"\nTermination == <>(")?;
    append_expr(alloc, pool, e, into)?;
    into.extend(b")\n")
}
