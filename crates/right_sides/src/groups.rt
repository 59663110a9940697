//! The assignments of one statement, grouped by their variables.

ghost use Rattle.std.specs.Prelude.{◌≡◌, ◌<◌, ◌≤◌, max, List, Some, length, slice_get, IfOk, OnOk};
ghost use Rattle.tla_token.specs.Signs.{is_among};
ghost use Rattle.tla_tree.specs.Tree.{Word, Tree};
ghost use Rattle.tla_tree.specs.Pool.{at};
ghost use Rattle.pcal_tree.specs.InMemory.{assignments_at, past_assignment};
ghost use Rattle.name_bits.specs.NamesIn.{most, names_in};
ghost use Rattle.right_sides.specs.Groups.{Group, groups_at, grouped, with_group, past_all, past_groups};
ghost use Rattle.right_sides.specs.Settings.{names_of, AreKnown};

use crate::keys::variable;
use indexmap::IndexMap;
use name_bits::{Bits, Order};
use pcal_tree::algorithm::Assignment;
use std::alloc::{AllocError, Global};
use tla_pool::Pool;
use tla_tree::Name;

/// Variables in the order of their first assignments, each with all of its assignments in their order.
pub type Groups = IndexMap<Name, Vec<Assignment>>;

// One more assignment, to this variable: its group is taken out, and put back with one more.
fn add(alloc: Global, groups: &mut Groups, name: Name, one: Assignment) -> Result<(), AllocError>
    ensures groups { (ts : List Tree) → OnOk result (groups_at ts groups.new.entries ≡ with_group (groups_at ts groups.old.entries) name (at ts one.left) (at ts one.right)) }
    ensures past { OnOk result (past_groups groups.new.entries ≤ max (past_groups groups.old.entries) (past_assignment one)) }
{
    let before = groups.insert(name.copied()?, Vec::new(alloc))?;
    let mut group = match before {
        Some(group) => group,
        None => Vec::new(alloc),
    };
    group.push(one)?;
    groups.insert(name, group)?;
    Ok(())
}

/// Groups the assignments of one statement by their variables, which are looked up.
///
/// # Errors
///
/// Only for want of memory.
pub fn grouped(alloc: Global, pool: &Pool, assignments: &[Assignment]) -> Result<Groups, AllocError>
    requires { past_all assignments.now ≤ length pool.now }
    ensures groups { IfOk result (λ r. groups_at pool.now r.entries ≡ grouped (assignments_at pool.now assignments.now)) }
    ensures within { IfOk result (λ r. past_groups r.entries ≤ length pool.now) }
{
    let mut groups = IndexMap::new(alloc);
    for one in assignments {
        let Assignment { left, right } = *one;
        let name = variable(alloc, pool, left)?;
        add(alloc, &mut groups, name, Assignment { left, right })?;
    }
    Ok(groups)
}

/// The variable of a group.
pub fn name_at(groups: &Groups, number: usize) -> &Name
    requires { number < length groups.now.entries }
    ensures { (g : Group) → slice_get groups.now.entries number ≡ Some g → result.now ≡ g.0 }
{
    let (name, _) = groups.get_index(number).unwrap();
    name
}

/// The assignments of a group.
pub fn group_at(groups: &Groups, number: usize) -> &[Assignment]
    requires { number < length groups.now.entries }
    ensures { (g : Group) → slice_get groups.now.entries number ≡ Some g → result.now ≡ g.1.items }
{
    let (_, group) = groups.get_index(number).unwrap();
    group.as_slice()
}

/// The variables of groups, of an order that has them.
pub fn variables(order: &Order, groups: &Groups) -> Bits
    ensures { length order.now ≤ most → AreKnown order.now (names_of groups.now.entries) → (x : Word) → is_among (names_in order.now result) x ≡ is_among (names_of groups.now.entries) x }
{
    let mut names = Bits::empty();
    for number in 0..groups.len() {
        names = names.with_name(order, name_at(groups, number));
    }
    names
}
