//! The items of one step.

ghost use Rattle.std.specs.Prelude.{◌≡◌, ◌<◌, ◌≤◌, List, length, Option, IfOk, OnOk};
ghost use Rattle.tla_tree.specs.Tree.{Tree};
ghost use Rattle.tla_tree.specs.Pool.{at, Keeps};
ghost use Rattle.module_tree.specs.Formulas.{self};
ghost use Rattle.module_tree.specs.Module.{test, item, no_items};
ghost use Rattle.module_write.specs.InMemory.{items_at, past_items};
ghost use Rattle.pcal_tree.specs.Algorithm.{Routine};
ghost use Rattle.pcal_tree.specs.InMemory.{past_statements, statements_at};
ghost use Rattle.pcal_tree.specs.Program.{Program};
ghost use Rattle.name_bits.specs.NamesIn.{most, names_in};
ghost use Rattle.action_builder.specs.LabelActions.{at_test};
ghost use Rattle.action_builder.specs.Written.{left_of, onto, unchanged_of};
ghost use Rattle.right_sides.specs.After.{put_one, put_items};
ghost use Rattle.step_forms.specs.Steps.{step_items as written_step};
ghost use Rattle.step_items.specs.Branching.{pc_test};
ghost use Rattle.step_items.specs.Desks.{DeskIn, IsDesk};
ghost use Rattle.step_items.specs.Writing.{named as named_statements, to_finish, Fits};

use crate::desk::{Around, Desk};
use crate::expressions::in_step;
use crate::statements::finished;
use module_write::formulas::{equal, named, quoted};
use module_write::module::Item;
use name_bits::{Bits, Order};
use pcal_tree::algorithm::Stmt;
use right_sides::items::add_unchanged;
use std::alloc::{AllocError, Global};
use tla_pool::Pool;
use tla_tree::{Name, NodeId, Text};

// `pc = "L"`, for a label of the desk's routine.
fn label_test(
    alloc: Global,
    pool: &mut Pool,
    desk: &Desk<'_>,
    label: &Name,
) -> Result<NodeId, AllocError>
    ensures tree { (P : Program) (u : Routine) (x : Option Tree) → IsDesk pool.old desk.now P u x → IfOk result (λ r. at pool.new r ≡ pc_test P u label.now) }
    ensures within { IfOk result (λ r. r < length pool.new) }
    ensures kept { Keeps pool.old pool.new }
{
    let counter = named(alloc, pool, Name::new(Vec::from_slice(alloc, b"pc")?))?;
    let written = desk.draft.label_name(desk.unit, label);
    let word = Text::new(Vec::from_slice(alloc, written.bytes())?);
    let text = quoted(alloc, pool, word)?;
    equal(alloc, pool, counter, text)
}

// Adds the test that the process is at a label.
fn add_test(
    alloc: Global,
    pool: &mut Pool,
    desk: &Desk<'_>,
    label: &Name,
    items: &mut Vec<Item>,
) -> Result<(), AllocError>
    requires desk { DeskIn (length pool.old) desk.now }
    requires items { past_items items.old.items ≤ length pool.old }
    ensures made { (P : Program) (u : Routine) (x : Option Tree) → IsDesk pool.old desk.now P u x → OnOk result (items_at pool.new items.new.items ≡ onto (items_at pool.old items.old.items) (item (test (put_one self x (at_test P u label.now))) no_items)) }
    ensures within { OnOk result (past_items items.new.items ≤ length pool.new) }
    ensures kept { Keeps pool.old pool.new }
{
    let at = label_test(alloc, pool, desk, label)?;
    let made = in_step(alloc, pool, desk, &Bits::empty(), at)?;
    items.push(Item::Test(made))?;
    Ok(())
}

// Adds UNCHANGED for the variables that a step assigns nowhere.
fn leave_others(
    alloc: Global,
    order: &Order,
    assigned: &Bits,
    items: &mut Vec<Item>,
) -> Result<(), AllocError>
    ensures items { length order.now ≤ most → OnOk result ((ts : List Tree) → items_at ts items.new.items ≡ onto (items_at ts items.old.items) (unchanged_of (left_of order.now order.now (names_in order.now assigned.now)))) }
    ensures within { OnOk result (past_items items.new.items ≡ past_items items.old.items) }
{
    order.apart();
    add_unchanged(alloc, order, &Bits::all().left_of(assigned), items)
}

/// The items of a step from a label: the statements from there on, behind which it goes on at the exit.
///
/// # Errors
///
/// Only for want of memory; the pool may then have more nodes than before.
pub fn step_items(
    alloc: Global,
    pool: &mut Pool,
    desk: &Desk<'_>,
    label: &Name,
    exit: &Name,
    stmts: &[Stmt],
) -> Result<Vec<Item>, AllocError>
    requires there { past_statements stmts.now ≤ length pool.old }
    requires desk { DeskIn (length pool.old) desk.now }
    ensures made { (P : Program) (u : Routine) (x : Option Tree) → IsDesk pool.old desk.now P u x → Fits P (to_finish P u label.now exit.now (named_statements P u pool.old stmts.now)) (named_statements P u pool.old stmts.now) → IfOk result (λ r. items_at pool.new r.items ≡ put_items self x (written_step P u (record { label = label.now; begins = record { items = statements_at pool.old stmts.now; exit = exit.now } }))) }
    ensures within { IfOk result (λ r. past_items r.items ≤ length pool.new) }
    ensures kept { Keeps pool.old pool.new }
{
    let mut items = Vec::new(alloc);
    add_test(alloc, pool, desk, label, &mut items)?;
    let before = Bits::empty();
    let around = Around {
        here: label,
        exit,
        before: &before,
    };
    let assigned = finished(alloc, pool, desk, &around, stmts, &mut items)?;
    leave_others(alloc, desk.draft.order, &assigned, &mut items)?;
    Ok(items)
}
