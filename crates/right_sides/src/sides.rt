//! The right side that is written for a variable: what is assigned to it, or an `EXCEPT` with its parts.

ghost use Rattle.std.specs.Prelude.{◌≡◌, ◌<◌, ◌≤◌, ◌++◌, ◌∷◌, [], length, map, IfOk, OnOk, IfSome, MatchOption};
ghost use Rattle.tla_tree.specs.Shapes.{HavePaths};
ghost use Rattle.tla_tree.specs.Tree.{Tree, node, strict, except};
ghost use Rattle.tla_tree.specs.TreeOf.{trees_from};
ghost use Rattle.tla_tree.specs.Pool.{at, AllBelow, Keeps};
ghost use Rattle.tla_pool.specs.FormOf.{slots_of};
ghost use Rattle.pcal_tree.specs.InMemory.{assignments_at, past_assignment};
ghost use Rattle.action_builder.specs.Written.{side_of};
ghost use Rattle.right_sides.specs.Groups.{past_all};
ghost use Rattle.right_sides.specs.Parts.{slot_at, parts_at, slots_at, all_parts_at, IsPlain};

use crate::keys::path;
use module_write::formulas::named;
use pcal_tree::algorithm::Assignment;
use std::alloc::{AllocError, Global};
use tla_pool::Pool;
use tla_pool::form::{Form, Slot, Strict};
use tla_token::Place;
use tla_tree::{Name, NodeId};

// The slot of an assignment to a part of a variable, with its subscripts and its right side onto those before. An assignment
// to the whole has none.
fn add_slot(
    alloc: Global,
    pool: &Pool,
    one: &Assignment,
    slots: &mut Vec<Slot>,
    parts: &mut Vec<NodeId>,
) -> Result<(), AllocError>
    requires there { past_assignment one.now ≤ length pool.now }
    requires below { AllBelow (length pool.now) parts.old.items }
    ensures slots { OnOk result (slots_of slots.new.items ≡ slots_of slots.old.items ++ slot_at pool.now one.now) }
    ensures parts { OnOk result (map (at pool.now) parts.new.items ≡ map (at pool.now) parts.old.items ++ parts_at pool.now one.now) }
    ensures within { OnOk result (AllBelow (length pool.now) parts.new.items) }
{
    let path = path(alloc, pool, one.left, parts)?;
    if path.is_empty() {
        return Ok(());
    }
    parts.push(one.right)?;
    let place = pool.node(one.left).place;
    slots.push(Slot { path, place })?;
    Ok(())
}

// An `EXCEPT` of a variable, whose number is given, with the parts of it that are assigned; none where no part is.
fn except(
    alloc: Global,
    pool: &mut Pool,
    whole: NodeId,
    place: Place,
    group: &[Assignment],
) -> Result<Option<NodeId>, AllocError>
    requires there { past_all group.now ≤ length pool.old }
    requires variable { whole < length pool.old }
    ensures tree { IfOk result (λ o. MatchOption o (slots_at pool.old group.now ≡ []) (λ r. at pool.new r ≡ node (strict (except (slots_at pool.old group.now))) place (trees_from (at pool.old whole ∷ all_parts_at pool.old group.now)))) }
    ensures paths { IfOk result (λ o. IfSome o (λ r. HavePaths (slots_at pool.old group.now))) }
    ensures within { IfOk result (λ o. IfSome o (λ r. r < length pool.new)) }
    ensures kept { Keeps pool.old pool.new }
{
    let mut slots = Vec::new(alloc);
    let mut parts = Vec::new(alloc);
    parts.push(whole)?;
    for one in group {
        add_slot(alloc, &*pool, one, &mut slots, &mut parts)?;
    }
    if slots.is_empty() {
        return Ok(None);
    }
    let made = pool.put(Form::Strict(Strict::Except(slots)), place, parts)?;
    Ok(Some(made))
}

/// The right side for a variable with these assignments.
///
/// # Errors
///
/// Only for want of memory; the pool may then have more nodes than before.
pub fn side(
    alloc: Global,
    pool: &mut Pool,
    name: &Name,
    group: &[Assignment],
) -> Result<NodeId, AllocError>
    requires { past_all group.now ≤ length pool.old }
    ensures tree { IsPlain (assignments_at pool.old group.now) → IfOk result (λ r. at pool.new r ≡ side_of name.now (assignments_at pool.old group.now)) }
    ensures within { IfOk result (λ r. r < length pool.new) }
    ensures kept { Keeps pool.old pool.new }
{
    if group.is_empty() {
        return named(alloc, pool, name.copied()?);
    }
    let first = &group[0];
    let node = pool.node(first.left);
    let place = node.place;
    let whole = pool.put(Form::Name(name.copied()?), place, Vec::new(alloc))?;
    match except(alloc, pool, whole, place, group)? {
        Some(made) => Ok(made),
        None => Ok(first.right),
    }
}
