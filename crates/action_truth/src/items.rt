//! Conjuncts of actions, of a pair of states ("Specifying Systems", sections 2.3 and 16.2.3).

ghost use Rattle.std.specs.Prelude.{◌<◌, ◌≤◌, length, OnOk};
ghost use Rattle.tla_tree.specs.Pool.{at};
ghost use Rattle.tla_value.specs.Meaning.{bind};
ghost use Rattle.module_tree.specs.Module.{exists, local, if_then_else};
ghost use Rattle.module_write.specs.InMemory.{item_at, items_at, branches_at, past_item, past_items, past_branches};
ghost use Rattle.value_forms.specs.Gives.{Tells};
ghost use Rattle.action_truth.specs.Pairs.{env_at, item_in, items_in, branches_in, Stands, StillBound};

use crate::formulas::{Bound, Pair, are_unchanged, is_set, members, or_found, truth, value};
use module_write::module::Item;
use std::alloc::Global;
use tla_tree::{Name, NodeId};
use tla_value::stop::EvalStop;
use tla_value::value::Value;

// A list of conjuncts where a name is bound to a value.
#[cycle(items)]
fn items_with(
    alloc: Global,
    pair: &Pair<'_>,
    bound: &mut Bound,
    x: &Name,
    v: Value,
    items: &[Item],
) -> Result<bool, EvalStop>
    requires below { past_items items.now ≤ length pair.now.asked.pool.now }
    requires stands { Stands pair.now bound.old }
    ensures holds { Tells result (items_in pair.now (bind x.now v (env_at pair.now bound.old)) (items_at pair.now.asked.pool.now items.now)) }
    ensures bound { OnOk result (StillBound bound.old bound.new) }
{
    let many = bound.names.len();
    bound.bind(x, v)?;
    let holds = items_hold(alloc, pair, bound, items)?;
    bound.keep(many);
    Ok(holds)
}

// `\E x \in S :` over a list.
#[cycle(items)]
fn some_member(
    alloc: Global,
    pair: &Pair<'_>,
    bound: &mut Bound,
    x: &Name,
    set: NodeId,
    items: &[Item],
) -> Result<bool, EvalStop>
    requires set { set < length pair.now.asked.pool.now }
    requires below { past_items items.now ≤ length pair.now.asked.pool.now }
    requires stands { Stands pair.now bound.old }
    ensures holds { Tells result (item_in pair.now (env_at pair.now bound.old) (exists x.now (at pair.now.asked.pool.now set) (items_at pair.now.asked.pool.now items.now))) }
    ensures bound { OnOk result (StillBound bound.old bound.new) }
{
    let mut left = members(alloc, pair, &*bound, set)?;
    left.reverse();
    let mut found = false;
    while let Some(v) = left.pop() {
        let holds = items_with(alloc, pair, bound, x, v, items)?;
        found = or_found(found, holds);
    }
    Ok(found)
}

// `LET x == e IN` before a list.
#[cycle(items)]
fn local_holds(
    alloc: Global,
    pair: &Pair<'_>,
    bound: &mut Bound,
    x: &Name,
    e: NodeId,
    items: &[Item],
) -> Result<bool, EvalStop>
    requires right { e < length pair.now.asked.pool.now }
    requires below { past_items items.now ≤ length pair.now.asked.pool.now }
    requires stands { Stands pair.now bound.old }
    ensures holds { Tells result (item_in pair.now (env_at pair.now bound.old) (local x.now (at pair.now.asked.pool.now e) (items_at pair.now.asked.pool.now items.now))) }
    ensures bound { OnOk result (StillBound bound.old bound.new) }
{
    let v = value(alloc, pair, &*bound, e)?;
    items_with(alloc, pair, bound, x, v, items)
}

// `IF p THEN list ELSE list`.
#[cycle(items)]
fn choice_holds(
    alloc: Global,
    pair: &Pair<'_>,
    bound: &mut Bound,
    p: NodeId,
    yes: &[Item],
    no: &[Item],
) -> Result<bool, EvalStop>
    requires test { p < length pair.now.asked.pool.now }
    requires yes { past_items yes.now ≤ length pair.now.asked.pool.now }
    requires no { past_items no.now ≤ length pair.now.asked.pool.now }
    requires stands { Stands pair.now bound.old }
    ensures holds { Tells result (item_in pair.now (env_at pair.now bound.old) (if_then_else (at pair.now.asked.pool.now p) (items_at pair.now.asked.pool.now yes.now) (items_at pair.now.asked.pool.now no.now))) }
    ensures bound { OnOk result (StillBound bound.old bound.new) }
{
    let first = truth(alloc, pair, &*bound, p)?;
    let taken = if first { yes } else { no };
    items_hold(alloc, pair, bound, taken)
}

// A conjunct.
#[cycle(items)]
fn item_holds(
    alloc: Global,
    pair: &Pair<'_>,
    bound: &mut Bound,
    item: &Item,
) -> Result<bool, EvalStop>
    requires below { past_item item.now ≤ length pair.now.asked.pool.now }
    requires stands { Stands pair.now bound.old }
    ensures holds { Tells result (item_in pair.now (env_at pair.now bound.old) (item_at pair.now.asked.pool.now item.now)) }
    ensures bound { OnOk result (StillBound bound.old bound.new) }
{
    match item {
        Item::Test(e) => truth(alloc, pair, &*bound, *e),
        Item::Setting(x, e) => is_set(alloc, pair, &*bound, x, *e),
        Item::Unchanged(names) => Ok(are_unchanged(pair, names.as_slice())),
        Item::Exists(x, set, items) => some_member(alloc, pair, bound, x, *set, items),
        Item::Local(x, e, items) => local_holds(alloc, pair, bound, x, *e, items),
        Item::Choice(p, yes, no) => choice_holds(alloc, pair, bound, *p, yes, no),
        Item::Either(branches) => some_branch(alloc, pair, bound, branches),
    }
}

/// A list of conjuncts, up to the first that isn't true. It calls itself as deep as items are in items.
///
/// # Errors
///
/// For want of memory, and exactly where it is neither true nor false.
#[cycle(items)]
pub fn items_hold(
    alloc: Global,
    pair: &Pair<'_>,
    bound: &mut Bound,
    items: &[Item],
) -> Result<bool, EvalStop>
    requires below { past_items items.now ≤ length pair.now.asked.pool.now }
    requires stands { Stands pair.now bound.old }
    ensures holds { Tells result (items_in pair.now (env_at pair.now bound.old) (items_at pair.now.asked.pool.now items.now)) }
    ensures bound { OnOk result (StillBound bound.old bound.new) }
{
    for item in items {
        let holds = item_holds(alloc, pair, bound, item)?;
        if !holds {
            return Ok(false);
        }
    }
    Ok(true)
}

// A disjunction: each branch, in order.
#[cycle(items)]
fn some_branch(
    alloc: Global,
    pair: &Pair<'_>,
    bound: &mut Bound,
    branches: &[Vec<Item>],
) -> Result<bool, EvalStop>
    requires below { past_branches branches.now ≤ length pair.now.asked.pool.now }
    requires stands { Stands pair.now bound.old }
    ensures holds { Tells result (branches_in pair.now (env_at pair.now bound.old) (branches_at pair.now.asked.pool.now branches.now)) }
    ensures bound { OnOk result (StillBound bound.old bound.new) }
{
    let mut found = false;
    for branch in branches {
        let holds = items_hold(alloc, pair, bound, branch)?;
        found = or_found(found, holds);
    }
    Ok(found)
}
