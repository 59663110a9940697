//! The settings that are written for the assignments of one statement.

ghost use Rattle.std.specs.Prelude.{◌≡◌, ◌<◌, ◌≤◌, true, bytes_eq, length, IfOk, OnOk, IfSome};
ghost use Rattle.tla_token.specs.Signs.{is_among};
ghost use Rattle.tla_tree.specs.Tree.{Word};
ghost use Rattle.tla_tree.specs.Pool.{at, Keeps};
ghost use Rattle.module_tree.specs.Module.{setting, item, no_items};
ghost use Rattle.pcal_tree.specs.InMemory.{assignments_at};
ghost use Rattle.name_bits.specs.NamesIn.{names_in, most};
ghost use Rattle.module_write.specs.InMemory.{items_at, past_items};
ghost use Rattle.action_builder.specs.Assigned.{heads};
ghost use Rattle.action_builder.specs.Written.{onto, primed, settings_of};
ghost use Rattle.action_builder.specs.laws.Ready.{LeftSides};
ghost use Rattle.action_builder.specs.laws.InParts.{InParts};
ghost use Rattle.right_sides.specs.After.{after_items, AfterIn};
ghost use Rattle.right_sides.specs.Groups.{groups_at, past_all, past_groups};
ghost use Rattle.right_sides.specs.Settings.{settings_in, ArePlain, IsWhole};

use crate::after::{After, written};
use crate::groups::{Groups, group_at, grouped, name_at, variables};
use crate::sides::side;
use module_write::module::Item;
use name_bits::{Bits, Order};
use pcal_tree::algorithm::Assignment;
use std::alloc::{AllocError, Global};
use tla_pool::Pool;
use tla_pool::form::Form;
use tla_tree::{Name, NodeId};

// The settings of the variables of groups, onto items before them.
fn group_settings(
    alloc: Global,
    pool: &mut Pool,
    order: &Order,
    assigned: &Bits,
    after: &After,
    groups: &Groups,
    out: &mut Vec<Item>,
) -> Result<(), AllocError>
    requires there { past_groups groups.now.entries ≤ length pool.old }
    requires put { AfterIn (length pool.old) after.now }
    requires before { past_items out.old.items ≤ length pool.old }
    ensures items { ArePlain (groups_at pool.old groups.now.entries) → OnOk result (items_at pool.new out.new.items ≡ onto (items_at pool.old out.old.items) (after_items pool.old after.now (settings_in (is_among (names_in order.now assigned.now)) (groups_at pool.old groups.now.entries)))) }
    ensures within { OnOk result (past_items out.new.items ≤ length pool.new) }
    ensures kept { Keeps pool.old pool.new }
{
    for number in 0..groups.len() {
        let name = name_at(groups, number);
        let right = side(alloc, pool, name, group_at(groups, number))?;
        let made = written(alloc, pool, order, assigned, after, right)?;
        out.push(Item::Setting(name.copied()?, made))?;
    }
    Ok(())
}

// The variable and the right side of assignments that are one alone, to a whole variable.
fn whole(pool: &Pool, assignments: &[Assignment]) -> Result<Option<(Name, NodeId)>, AllocError>
    requires { past_all assignments.now ≤ length pool.now }
    ensures whole { IfOk result (λ o. IfSome o (λ r. IsWhole r.0 (at pool.now r.1) (assignments_at pool.now assignments.now))) }
    ensures within { IfOk result (λ o. IfSome o (λ r. r.1 < length pool.now)) }
{
    if assignments.len() != 1 {
        return Ok(None);
    }
    let Assignment { left, right } = assignments[0];
    match &pool.node(left).form {
        Form::Name(name) => Ok(Some((name.copied()?, right))),
        _ => Ok(None),
    }
}

// The setting of a variable to a right side, onto items before it; and which variable that is.
fn whole_setting(
    alloc: Global,
    pool: &mut Pool,
    order: &Order,
    assigned: &Bits,
    after: &After,
    name: Name,
    right: NodeId,
    out: &mut Vec<Item>,
) -> Result<Bits, AllocError>
    requires there { right < length pool.old }
    requires put { AfterIn (length pool.old) after.now }
    requires before { past_items out.old.items ≤ length pool.old }
    ensures items { OnOk result (items_at pool.new out.new.items ≡ onto (items_at pool.old out.old.items) (after_items pool.old after.now (item (setting name (primed (is_among (names_in order.now assigned.now)) (at pool.old right))) no_items))) }
    ensures names { length order.now ≤ most → is_among order.now name ≡ true → IfOk result (λ r. (x : Word) → is_among (names_in order.now r) x ≡ bytes_eq name x) }
    ensures within { OnOk result (past_items out.new.items ≤ length pool.new) }
    ensures kept { Keeps pool.old pool.new }
{
    let side = written(alloc, pool, order, assigned, after, right)?;
    let names = Bits::empty().with_name(order, &name);
    out.push(Item::Setting(name, side))?;
    Ok(names)
}

/// The settings that are written for the assignments of one statement, onto items before them: one for each variable, in the order
/// of their first assignments. What is assigned already is read primed. Returns which variables are assigned here.
///
/// # Errors
///
/// Only for want of memory; the pool may then have more nodes than before.
pub fn settings(
    alloc: Global,
    pool: &mut Pool,
    order: &Order,
    assigned: &Bits,
    after: &After,
    assignments: &[Assignment],
    out: &mut Vec<Item>,
) -> Result<Bits, AllocError>
    requires there { past_all assignments.now ≤ length pool.old }
    requires put { AfterIn (length pool.old) after.now }
    requires before { past_items out.old.items ≤ length pool.old }
    ensures items { LeftSides (is_among order.now) (assignments_at pool.old assignments.now) → InParts (assignments_at pool.old assignments.now)
        → OnOk result (items_at pool.new out.new.items ≡ onto (items_at pool.old out.old.items) (after_items pool.old after.now (settings_of (is_among (names_in order.now assigned.now)) (assignments_at pool.old assignments.now) (heads (assignments_at pool.old assignments.now)) no_items))) }
    ensures names { LeftSides (is_among order.now) (assignments_at pool.old assignments.now) → length order.now ≤ most
        → IfOk result (λ r. (x : Word) → is_among (names_in order.now r) x ≡ is_among (heads (assignments_at pool.old assignments.now)) x) }
    ensures within { OnOk result (past_items out.new.items ≤ length pool.new) }
    ensures kept { Keeps pool.old pool.new }
{
    if let Some((name, right)) = whole(&*pool, assignments)? {
        return whole_setting(alloc, pool, order, assigned, after, name, right, out);
    }
    let groups = grouped(alloc, &*pool, assignments)?;
    group_settings(alloc, pool, order, assigned, after, &groups, out)?;
    Ok(variables(order, &groups))
}
