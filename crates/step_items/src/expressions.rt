//! Expressions and assignments of a routine as they are written in a step.

ghost use Rattle.std.specs.Prelude.{◌≡◌, ◌<◌, ◌≤◌, length, map, Option, IfOk};
ghost use Rattle.tla_token.specs.Signs.{is_among};
ghost use Rattle.tla_tree.specs.Tree.{Tree, graft};
ghost use Rattle.tla_tree.specs.Nesting.{greatest};
ghost use Rattle.tla_tree.specs.Pool.{at, Keeps};
ghost use Rattle.pcal_tree.specs.Algorithm.{Routine};
ghost use Rattle.pcal_tree.specs.Expand.{graft_assignments};
ghost use Rattle.pcal_tree.specs.InMemory.{assignments_at, past_assignment};
ghost use Rattle.pcal_tree.specs.Program.{Program};
ghost use Rattle.pcal_tree.specs.Variables.{vars};
ghost use Rattle.module_tree.specs.Formulas.{self};
ghost use Rattle.name_bits.specs.NamesIn.{names_in};
ghost use Rattle.action_builder.specs.Written.{primed};
ghost use Rattle.action_builder.specs.WrittenNames.{renames};
ghost use Rattle.right_sides.specs.After.{put_one};
ghost use Rattle.step_items.specs.Desks.{DeskIn, IsDesk};
ghost use Rattle.step_items.specs.Writing.{own_of};

use crate::desk::Desk;
use name_bits::Bits;
use pcal_tree::algorithm::Assignment;
use prime_subst::{Local, Own, with_names, with_own};
use right_sides::{After, written};
use std::alloc::{AllocError, Global};
use tla_pool::Pool;
use tla_tree::NodeId;

/// An expression of the text by its written names.
///
/// # Errors
///
/// Only for want of memory; the pool may then have more nodes than before.
pub fn by_written_names(
    alloc: Global,
    pool: &mut Pool,
    desk: &Desk<'_>,
    e: NodeId,
) -> Result<NodeId, AllocError>
    requires { e < length pool.old }
    ensures tree { (P : Program) (u : Routine) (x : Option Tree) → IsDesk pool.old desk.now P u x → IfOk result (λ r. at pool.new r ≡ graft (renames P u) (at pool.old e)) }
    ensures within { IfOk result (λ r. r < length pool.new) }
    ensures kept { Keeps pool.old pool.new }
{
    let local = Local {
        unit: desk.unit,
        locals: desk.locals,
        naming: desk.draft.naming,
    };
    with_names(alloc, pool, e, &local)
}

/// An expression by its written names, at its process.
///
/// # Errors
///
/// Only for want of memory; the pool may then have more nodes than before.
pub fn own_part(
    alloc: Global,
    pool: &mut Pool,
    desk: &Desk<'_>,
    e: NodeId,
) -> Result<NodeId, AllocError>
    requires { e < length pool.old }
    ensures tree { (P : Program) (u : Routine) (x : Option Tree) → IsDesk pool.old desk.now P u x → IfOk result (λ r. at pool.new r ≡ graft (own_of P) (at pool.old e)) }
    ensures within { IfOk result (λ r. r < length pool.new) }
    ensures kept { Keeps pool.old pool.new }
{
    let own = Own {
        own: desk.draft.own,
        order: desk.draft.order,
        this: desk.draft.this,
    };
    with_own(alloc, pool, e, &own)
}

/// An expression at its process where these variables are assigned before, and with what stands for `self` there.
///
/// # Errors
///
/// Only for want of memory; the pool may then have more nodes than before.
pub fn in_step(
    alloc: Global,
    pool: &mut Pool,
    desk: &Desk<'_>,
    before: &Bits,
    e: NodeId,
) -> Result<NodeId, AllocError>
    requires below { e < length pool.old }
    requires desk { DeskIn (length pool.old) desk.now }
    ensures tree { (P : Program) (u : Routine) (x : Option Tree) → IsDesk pool.old desk.now P u x → IfOk result (λ r. at pool.new r ≡ put_one self x (primed (is_among (names_in (vars P) before.now)) (graft (own_of P) (at pool.old e)))) }
    ensures within { IfOk result (λ r. r < length pool.new) }
    ensures kept { Keeps pool.old pool.new }
{
    let own = own_part(alloc, pool, desk, e)?;
    let after = After {
        old: None,
        single: desk.single,
    };
    written(alloc, pool, desk.draft.order, before, &after, own)
}

/// An expression of the text as it is written where these variables are assigned before.
///
/// # Errors
///
/// Only for want of memory; the pool may then have more nodes than before.
pub fn expression(
    alloc: Global,
    pool: &mut Pool,
    desk: &Desk<'_>,
    before: &Bits,
    e: NodeId,
) -> Result<NodeId, AllocError>
    requires below { e < length pool.old }
    requires desk { DeskIn (length pool.old) desk.now }
    ensures tree { (P : Program) (u : Routine) (x : Option Tree) → IsDesk pool.old desk.now P u x → IfOk result (λ r. at pool.new r ≡ put_one self x (primed (is_among (names_in (vars P) before.now)) (graft (own_of P) (graft (renames P u) (at pool.old e))))) }
    ensures within { IfOk result (λ r. r < length pool.new) }
    ensures kept { Keeps pool.old pool.new }
{
    let named = by_written_names(alloc, pool, desk, e)?;
    in_step(alloc, pool, desk, before, named)
}

/// Assignments of the text by their written names.
///
/// # Errors
///
/// Only for want of memory; the pool may then have more nodes than before.
pub fn named_assignments(
    alloc: Global,
    pool: &mut Pool,
    desk: &Desk<'_>,
    assignments: &[Assignment],
) -> Result<Vec<Assignment>, AllocError>
    requires { greatest (map past_assignment assignments.now) ≤ length pool.old }
    ensures tree { (P : Program) (u : Routine) (x : Option Tree) → IsDesk pool.old desk.now P u x → IfOk result (λ r. assignments_at pool.new r.items ≡ graft_assignments (renames P u) (assignments_at pool.old assignments.now)) }
    ensures within { IfOk result (λ r. greatest (map past_assignment r.items) ≤ length pool.new) }
    ensures kept { Keeps pool.old pool.new }
{
    let mut made = Vec::new(alloc);
    for assignment in assignments {
        let left = by_written_names(alloc, pool, desk, assignment.left)?;
        let right = by_written_names(alloc, pool, desk, assignment.right)?;
        made.push(Assignment { left, right })?;
    }
    Ok(made)
}

/// Assignments by their written names, at their process.
///
/// # Errors
///
/// Only for want of memory; the pool may then have more nodes than before.
pub fn own_assignments(
    alloc: Global,
    pool: &mut Pool,
    desk: &Desk<'_>,
    assignments: &[Assignment],
) -> Result<Vec<Assignment>, AllocError>
    requires { greatest (map past_assignment assignments.now) ≤ length pool.old }
    ensures tree { (P : Program) (u : Routine) (x : Option Tree) → IsDesk pool.old desk.now P u x → IfOk result (λ r. assignments_at pool.new r.items ≡ graft_assignments (own_of P) (assignments_at pool.old assignments.now)) }
    ensures within { IfOk result (λ r. greatest (map past_assignment r.items) ≤ length pool.new) }
    ensures kept { Keeps pool.old pool.new }
{
    let mut made = Vec::new(alloc);
    for assignment in assignments {
        let left = own_part(alloc, pool, desk, assignment.left)?;
        let right = own_part(alloc, pool, desk, assignment.right)?;
        made.push(Assignment { left, right })?;
    }
    Ok(made)
}
