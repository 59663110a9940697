//! Lists of items: those of a branch, and an empty one.

ghost use Rattle.std.specs.Prelude.{◌≡◌, ◌≤◌, List, length, OnOk};
ghost use Rattle.tla_tree.specs.Tree.{Tree};
ghost use Rattle.tla_tree.specs.Pool.{Keeps};
ghost use Rattle.module_write.specs.InMemory.{items_at, past_items};
ghost use Rattle.name_bits.specs.NamesIn.{names_in};
ghost use Rattle.action_builder.specs.Written.{onto, filled, unchanged_of, branch_items};

use module_write::module::Item;
use name_bits::{Bits, Order};
use std::alloc::{AllocError, Global};
use tla_pool::Pool;
use tla_pool::form::Form;
use tla_token::Place;

/// Makes an empty list `(TRUE)`.
///
/// # Errors
///
/// Only for want of memory.
pub fn fill(
    alloc: Global,
    pool: &mut Pool,
    place: Place,
    items: &mut Vec<Item>,
) -> Result<(), AllocError>
    requires { past_items items.old.items ≤ length pool.old }
    ensures items { OnOk result (items_at pool.new items.new.items ≡ filled place (items_at pool.old items.old.items)) }
    ensures within { OnOk result (past_items items.new.items ≤ length pool.new) }
    ensures kept { Keeps pool.old pool.new }
{
    if items.is_empty() {
        let test = pool.put(Form::Truth(true), place, Vec::new(alloc))?;
        items.push(Item::Test(test))?;
    }
    Ok(())
}

/// Adds UNCHANGED for the variables of a set, if it has some.
///
/// # Errors
///
/// Only for want of memory.
pub fn add_unchanged(
    alloc: Global,
    order: &Order,
    left: &Bits,
    items: &mut Vec<Item>,
) -> Result<(), AllocError>
    ensures items { OnOk result ((ts : List Tree) → items_at ts items.new.items ≡ onto (items_at ts items.old.items) (unchanged_of (names_in order.now left.now))) }
    ensures within { OnOk result (past_items items.new.items ≡ past_items items.old.items) }
{
    let names = left.names(alloc, order)?;
    if names.len() > 0 {
        items.push(Item::Unchanged(names))?;
    }
    Ok(())
}

/// Adds to a branch that assigns some variables UNCHANGED for those that other branches assign, and makes an empty one `(TRUE)`.
///
/// # Errors
///
/// Only for want of memory.
pub fn close(
    alloc: Global,
    pool: &mut Pool,
    order: &Order,
    place: Place,
    all: &Bits,
    own: &Bits,
    items: &mut Vec<Item>,
) -> Result<(), AllocError>
    requires { past_items items.old.items ≤ length pool.old }
    ensures items { OnOk result (items_at pool.new items.new.items ≡ branch_items order.now place (items_at pool.old items.old.items) (names_in order.now all.now) (names_in order.now own.now)) }
    ensures within { OnOk result (past_items items.new.items ≤ length pool.new) }
    ensures kept { Keeps pool.old pool.new }
{
    order.apart();
    add_unchanged(alloc, order, &all.left_of(own), items)?;
    fill(alloc, pool, place, items)
}
