//! The records that calls put on the stack.

ghost use Rattle.std.specs.Prelude.{◌≡◌, ◌<◌, ◌++◌, length, map, option_map, IfOk, OnOk, IfSome};
ghost use Rattle.tla_tree.specs.Pool.{at, Keeps};
ghost use Rattle.pcal_tree.specs.Algorithm.{nowhere, locals as locals_of, procedure_routine};
ghost use Rattle.pcal_tree.specs.InMemory.{procedure_at};
ghost use Rattle.pcal_tree.specs.Program.{Program};
ghost use Rattle.pcal_tree.specs.Variables.{written_all};
ghost use Rattle.written_names.specs.Units.{naming_of};
ghost use Rattle.action_builder.specs.Jumps.{names_at};
ghost use Rattle.draft.specs.Drafts.{IsDraft};
ghost use Rattle.proc_stack.specs.Made.{AddsTrees};
ghost use Rattle.proc_stack.specs.Pieces.{frame_tree, value_kept, fields_for, parts_for, frame_for};

use crate::callee::{Callee, Locals, local_names};
use crate::pieces::{NOWHERE, field, text, word};
use draft::Draft;
use module_write::formulas::named;
use std::alloc::{AllocError, Global};
use tla_pool::Pool;
use tla_pool::form::{Form, Strict};
use tla_tree::{Name, NameList, NodeId};

// Adds the written names of these names.
fn add_written(locals: &Locals<'_>, into: &mut NameList) -> Result<(), AllocError>
    ensures { OnOk result (into.new ≡ into.old ++ map ((naming_of locals.now.naming.now).local locals.now.unit) locals.now.names.now) }
{
    let names = locals.names;
    for name in names {
        let written = locals.naming.local(locals.unit, name);
        into.push(written.copied()?)?;
    }
    Ok(())
}

// The names of a record's fields.
fn field_names(alloc: Global, locals: &Locals<'_>) -> Result<NameList, AllocError>
    ensures { IfOk result (λ r. r ≡ fields_for (naming_of locals.now.naming.now) locals.now.unit locals.now.names.now) }
{
    let mut names = NameList::new(alloc);
    names.push(word(alloc, b"procedure")?)?;
    names.push(word(alloc, b"pc")?)?;
    add_written(locals, &mut names)?;
    Ok(names)
}

// `x`, or `r.x` where there is a record.
fn kept_value(
    alloc: Global,
    pool: &mut Pool,
    from: Option<NodeId>,
    name: &Name,
) -> Result<NodeId, AllocError>
    requires { IfSome from (λ r. r < length pool.old) }
    ensures tree { IfOk result (λ r. at pool.new r ≡ value_kept (option_map (at pool.old) from) name.now) }
    ensures within { IfOk result (λ r. r < length pool.new) }
    ensures kept { Keeps pool.old pool.new }
{
    match from {
        None => named(alloc, pool, name.copied()?),
        Some(frame) => field(alloc, pool, frame, name),
    }
}

// Adds what is kept of these names.
fn add_kept(
    alloc: Global,
    pool: &mut Pool,
    locals: &Locals<'_>,
    from: Option<NodeId>,
    out: &mut Vec<NodeId>,
) -> Result<(), AllocError>
    requires { IfSome from (λ r. r < length pool.old) }
    ensures made { OnOk result (AddsTrees pool.new out.old.items out.new.items (map (λ x. value_kept (option_map (at pool.old) from) ((naming_of locals.now.naming.now).local locals.now.unit x)) locals.now.names.now)) }
    ensures kept { Keeps pool.old pool.new }
{
    let names = locals.names;
    for name in names {
        let written = locals.naming.local(locals.unit, name);
        let kept = kept_value(alloc, pool, from, written)?;
        out.push(kept)?;
    }
    Ok(())
}

// Adds the values of a record's fields.
fn add_values(
    alloc: Global,
    pool: &mut Pool,
    locals: &Locals<'_>,
    back: NodeId,
    from: Option<NodeId>,
    out: &mut Vec<NodeId>,
) -> Result<(), AllocError>
    requires back { back < length pool.old }
    requires from { IfSome from (λ r. r < length pool.old) }
    ensures made { OnOk result (AddsTrees pool.new out.old.items out.new.items (parts_for (naming_of locals.now.naming.now) locals.now.unit locals.now.names.now (at pool.old back) (option_map (at pool.old) from))) }
    ensures kept { Keeps pool.old pool.new }
{
    let title = text(alloc, pool, locals.naming.title(locals.unit))?;
    out.push(title)?;
    out.push(back)?;
    add_kept(alloc, pool, locals, from, out)
}

/// The record of a call of the routine of these parameters and variables: where it goes back to, and the values that they have, or those
/// of a record.
///
/// # Errors
///
/// Only for want of memory; the pool may then have more nodes than before.
pub(crate) fn frame_from(
    alloc: Global,
    pool: &mut Pool,
    locals: &Locals<'_>,
    back: NodeId,
    from: Option<NodeId>,
) -> Result<NodeId, AllocError>
    requires back { back < length pool.old }
    requires from { IfSome from (λ r. r < length pool.old) }
    ensures tree { IfOk result (λ r. at pool.new r ≡ frame_for (naming_of locals.now.naming.now) locals.now.unit locals.now.names.now (at pool.old back) (option_map (at pool.old) from)) }
    ensures within { IfOk result (λ r. r < length pool.new) }
    ensures kept { Keeps pool.old pool.new }
{
    let mut values = Vec::new(alloc);
    add_values(alloc, pool, locals, back, from, &mut values)?;
    let names = field_names(alloc, locals)?;
    pool.put(Form::Strict(Strict::Fields(names)), NOWHERE, values)
}

/// The record of a call of a procedure, with the values that its parameters and variables have, and with this to go back to.
///
/// # Errors
///
/// Only for want of memory; the pool may then have more nodes than before.
pub fn frame_of(
    alloc: Global,
    pool: &mut Pool,
    draft: &Draft<'_>,
    callee: &Callee<'_>,
    keep: NodeId,
) -> Result<NodeId, AllocError>
    requires { keep < length pool.old }
    ensures tree { (P : Program) → IsDraft pool.old draft.now P → IfOk result (λ r. let p = procedure_routine callee.now.number (procedure_at pool.old callee.now.procedure.now) in at pool.new r ≡ frame_tree P p nowhere (at pool.old keep) (names_at nowhere (written_all P p (locals_of p)))) }
    ensures within { IfOk result (λ r. r < length pool.new) }
    ensures kept { Keeps pool.old pool.new }
{
    let names = local_names(alloc, callee.procedure)?;
    let locals = Locals {
        unit: callee.number,
        names: names.as_slice(),
        naming: draft.naming,
    };
    frame_from(alloc, pool, &locals, keep, None)
}
