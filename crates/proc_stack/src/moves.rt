//! The assignments of jumps and returns.

ghost use Rattle.std.specs.Prelude.{◌≡◌, ◌<◌, ◌≤◌, ◌∷◌, [], length, map, IfOk, OnOk};
ghost use Rattle.tla_tree.specs.Pool.{at, Keeps};
ghost use Rattle.pcal_tree.specs.Algorithm.{nowhere, Routine, locals as locals_of, assign, assignment, done, then};
ghost use Rattle.pcal_tree.specs.InMemory.{assignments_at};
ghost use Rattle.pcal_tree.specs.Program.{Program};
ghost use Rattle.pcal_tree.specs.Calls.{label_name};
ghost use Rattle.pcal_tree.specs.Variables.{pc, stack, declared};
ghost use Rattle.written_names.specs.Units.{naming_of};
ghost use Rattle.action_builder.specs.Jumps.{name_at, text_at, one_assignment, spot, jump_written, stack_rest, return_assignments};
ghost use Rattle.draft.specs.Drafts.{IsDraft};
ghost use Rattle.proc_stack.specs.Moves.{past_sides};
ghost use Rattle.proc_stack.specs.Made.{AddsSides};
ghost use Rattle.proc_stack.specs.Pieces.{selected, field_sides, restored};

use crate::callee::Locals;
use crate::pieces::{field, first_record, other_records, text, variable, word};
use draft::Draft;
use module_write::formulas::named;
use pcal_tree::algorithm::Assignment;
use std::alloc::{AllocError, Global};
use tla_pool::Pool;
use tla_tree::{Name, NodeId};

// ---- a jump

/// `pc := "L"`, by the written name of L.
///
/// # Errors
///
/// Only for want of memory; the pool may then have more nodes than before.
pub fn to_label(alloc: Global, pool: &mut Pool, label: &Name) -> Result<Vec<Assignment>, AllocError>
    ensures made { IfOk result (λ r. assignments_at pool.new r.items ≡ one_assignment (name_at nowhere pc) (text_at nowhere label.now)) }
    ensures within { IfOk result (λ r. past_sides r.items ≤ length pool.new) }
    ensures kept { Keeps pool.old pool.new }
{
    let left = variable(alloc, pool, b"pc")?;
    let right = text(alloc, pool, label.bytes())?;
    let sides = vec![in alloc; Assignment { left, right }]?;
    Ok(sides)
}

/// The jump to a label of the routine of this number.
///
/// # Errors
///
/// Only for want of memory; the pool may then have more nodes than before.
pub fn jump_move(
    alloc: Global,
    pool: &mut Pool,
    draft: &Draft<'_>,
    unit: usize,
    label: &Name,
) -> Result<Vec<Assignment>, AllocError>
    ensures tree { (P : Program) (u : Routine) → IsDraft pool.old draft.now P → u.number ≡ unit → IfOk result (λ r. then (spot nowhere) (assign (assignments_at pool.new r.items)) done ≡ jump_written nowhere (label_name P u label.now)) }
    ensures within { IfOk result (λ r. past_sides r.items ≤ length pool.new) }
    ensures kept { Keeps pool.old pool.new }
{
    to_label(alloc, pool, draft.label_name(unit, label))
}

// ---- a return

// Adds `x := r.x`.
fn add_field(
    alloc: Global,
    pool: &mut Pool,
    frame: NodeId,
    name: &Name,
    out: &mut Vec<Assignment>,
) -> Result<(), AllocError>
    requires { frame < length pool.old }
    ensures made { OnOk result (AddsSides pool.new out.old.items out.new.items (assignment (name_at nowhere name.now) (selected (at pool.old frame) name.now) ∷ [])) }
    ensures kept { Keeps pool.old pool.new }
{
    let left = named(alloc, pool, name.copied()?)?;
    let right = field(alloc, pool, frame, name)?;
    out.push(Assignment { left, right })?;
    Ok(())
}

/// Adds `x := r.x` for each of these names.
///
/// # Errors
///
/// Only for want of memory; the pool may then have more nodes than before.
pub(crate) fn add_fields(
    alloc: Global,
    pool: &mut Pool,
    locals: &Locals<'_>,
    frame: NodeId,
    out: &mut Vec<Assignment>,
) -> Result<(), AllocError>
    requires { frame < length pool.old }
    ensures made { OnOk result (AddsSides pool.new out.old.items out.new.items (map (field_sides ((naming_of locals.now.naming.now).local locals.now.unit) (at pool.old frame)) locals.now.names.now)) }
    ensures kept { Keeps pool.old pool.new }
{
    let names = locals.names;
    for name in names {
        let written = locals.naming.local(locals.unit, name);
        add_field(alloc, pool, frame, written, out)?;
    }
    Ok(())
}

// Adds `pc := r.pc`.
fn add_label_kept(
    alloc: Global,
    pool: &mut Pool,
    frame: NodeId,
    out: &mut Vec<Assignment>,
) -> Result<(), AllocError>
    requires { frame < length pool.old }
    ensures made { OnOk result (AddsSides pool.new out.old.items out.new.items (assignment (name_at nowhere pc) (selected (at pool.old frame) pc) ∷ [])) }
    ensures kept { Keeps pool.old pool.new }
{
    let name = word(alloc, b"pc")?;
    add_field(alloc, pool, frame, &name, out)
}

// Adds `stack := Tail(stack)`.
fn add_rest(alloc: Global, pool: &mut Pool, out: &mut Vec<Assignment>) -> Result<(), AllocError>
    ensures made { OnOk result (AddsSides pool.new out.old.items out.new.items (assignment (name_at nowhere stack) (stack_rest nowhere) ∷ [])) }
    ensures kept { Keeps pool.old pool.new }
{
    let left = variable(alloc, pool, b"stack")?;
    let right = other_records(alloc, pool)?;
    out.push(Assignment { left, right })?;
    Ok(())
}

// Adds what a return sets: `pc`, the parameters and variables, and the stack.
fn add_return(
    alloc: Global,
    pool: &mut Pool,
    locals: &Locals<'_>,
    out: &mut Vec<Assignment>,
) -> Result<(), AllocError>
    ensures made { OnOk result (AddsSides pool.new out.old.items out.new.items (restored ((naming_of locals.now.naming.now).local locals.now.unit) locals.now.names.now)) }
    ensures kept { Keeps pool.old pool.new }
{
    let frame = first_record(alloc, pool, b"stack")?;
    add_label_kept(alloc, pool, frame, out)?;
    add_fields(alloc, pool, locals, frame, out)?;
    add_rest(alloc, pool, out)
}

/// The assignments of a return from the routine of this number, which has these parameters and variables.
///
/// # Errors
///
/// Only for want of memory; the pool may then have more nodes than before.
pub fn return_moves(
    alloc: Global,
    pool: &mut Pool,
    draft: &Draft<'_>,
    unit: usize,
    locals: &[Name],
) -> Result<Vec<Assignment>, AllocError>
    ensures tree { (P : Program) (u : Routine) → IsDraft pool.old draft.now P → u.number ≡ unit → declared (locals_of u) ≡ locals.now → IfOk result (λ r. assignments_at pool.new r.items ≡ return_assignments P u nowhere) }
    ensures within { IfOk result (λ r. past_sides r.items ≤ length pool.new) }
    ensures kept { Keeps pool.old pool.new }
{
    let mut moves = Vec::new(alloc);
    let names = Locals {
        unit,
        names: locals,
        naming: draft.naming,
    };
    add_return(alloc, pool, &names, &mut moves)?;
    Ok(moves)
}
