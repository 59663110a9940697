//! How deep actions and their calls nest on their trees.

ghost use Rattle.std.specs.Prelude.{◌≡◌, ◌<◌, ◌≤◌, length, map};
ghost use Rattle.tla_tree.specs.Nesting.{greatest};
ghost use Rattle.module_tree.specs.Module.{Action as ActionTree};
ghost use Rattle.module_write.specs.InMemory.{item_at, items_at, branches_at, call_at, way_at, ways_at, body_at, actions_at, fairness_at, past_item, past_items, past_branches, CallIn, WayIn, WaysIn, BodyIn, ActionsIn, FairnessIn, AllFairnessIn, MaybeIn};
ghost use Rattle.region_reading.specs.Nests.{item_nests, list_nests, branches_nest, call_nests, way_nests, listed, body_nests, guard_nests, fairness_nests};
ghost use Rattle.region_depth.specs.Room.{has_room};
ghost use Rattle.std.specs.Option.{option_map};
ghost use Rattle.tla_tree.specs.Pool.{at};

use crate::expression::{DEEPEST, expression_fits};
use module_write::module::{Action, Body, Call, Fairness, Item, Way};
use tla_pool::Pool;
use tla_tree::NodeId;

// ---- items: those in an item are one form deeper

#[cycle(items)]
fn item_fits(pool: &Pool, item: &Item, depth: usize) -> bool
    requires there { past_item item.now ≤ length pool.now }
    requires within { depth ≤ 1201 }
    ensures { result ≡ has_room depth (item_nests (item_at pool.now item.now)) }
{
    if depth > DEEPEST {
        return false;
    }
    let inside = depth + 1;
    match item {
        Item::Test(e) => expression_fits(pool, *e, inside),
        Item::Setting(_, e) => expression_fits(pool, *e, inside),
        Item::Unchanged(_) => inside < DEEPEST,
        Item::Exists(_, set, items) => {
            expression_fits(pool, *set, inside) && items_fit(pool, items, inside)
        }
        Item::Local(_, e, items) => {
            expression_fits(pool, *e, inside) && items_fit(pool, items, inside)
        }
        Item::Choice(test, yes, no) => {
            expression_fits(pool, *test, inside)
                && items_fit(pool, yes, inside)
                && items_fit(pool, no, inside)
        }
        Item::Either(branches) => branches_fit(pool, branches, depth),
    }
}

#[cycle(items)]
fn items_fit(pool: &Pool, items: &[Item], depth: usize) -> bool
    requires there { past_items items.now ≤ length pool.now }
    requires within { depth ≤ 1201 }
    ensures { result ≡ has_room depth (list_nests (items_at pool.now items.now)) }
{
    if depth > DEEPEST {
        return false;
    }
    for item in items {
        if !item_fits(pool, item, depth + 1) {
            return false;
        }
    }
    true
}

#[cycle(items)]
fn branches_fit(pool: &Pool, branches: &[Vec<Item>], depth: usize) -> bool
    requires there { past_branches branches.now ≤ length pool.now }
    requires within { depth ≤ 1200 }
    ensures { result ≡ has_room depth (branches_nest (branches_at pool.now branches.now)) }
{
    for branch in branches {
        if !items_fit(pool, branch, depth + 1) {
            return false;
        }
    }
    true
}

// ---- calls

fn call_fits(pool: &Pool, call: &Call, depth: usize) -> bool
    requires there { CallIn (length pool.now) call.now }
    requires within { depth ≤ 1200 }
    ensures { result ≡ has_room depth (call_nests (call_at pool.now call.now)) }
{
    match call {
        Call::Bare(_) => true,
        Call::With(_, e) => expression_fits(pool, *e, depth + 1),
    }
}

fn way_fits(pool: &Pool, way: &Way) -> bool
    requires { WayIn (length pool.now) way.now }
    ensures { result ≡ has_room 1 (way_nests (way_at pool.now way.now)) }
{
    match way {
        Way::One(call) => call_fits(pool, call, 1),
        Way::Among(_, set, call) => expression_fits(pool, *set, 2) && call_fits(pool, call, 2),
    }
}

/// Whether a list of ways, with nothing round it, nests no deeper than a module may.
pub fn ways_fit(pool: &Pool, ways: &[Way]) -> bool
    requires { WaysIn (length pool.now) ways.now }
    ensures { result ≡ has_room 0 (listed (map way_nests (ways_at pool.now ways.now))) }
{
    for way in ways {
        if !way_fits(pool, way) {
            return false;
        }
    }
    true
}

// ---- actions

fn body_fits(pool: &Pool, body: &Body) -> bool
    requires { BodyIn (length pool.now) body.now }
    ensures { result ≡ has_room 0 (body_nests (body_at pool.now body.now)) }
{
    match body {
        Body::All(items) => items_fit(pool, items, 0),
        Body::Any(ways) => ways_fit(pool, ways),
    }
}

/// Whether each action nests no deeper than a module may.
pub fn actions_fit(pool: &Pool, actions: &[Action]) -> bool
    requires { ActionsIn (length pool.now) actions.now }
    ensures { result ≡ has_room 0 (greatest (map (λ (a : ActionTree). body_nests a.body) (actions_at pool.now actions.now))) }
{
    for action in actions {
        if !body_fits(pool, &action.body) {
            return false;
        }
    }
    true
}

// ---- fairness

fn guarded_fits(pool: &Pool, guard: Option<NodeId>, call: &Call, depth: usize) -> bool
    requires guard { MaybeIn (length pool.now) guard }
    requires call { CallIn (length pool.now) call.now }
    requires within { depth < 1200 }
    ensures { result ≡ has_room depth (guard_nests (option_map (at pool.now) guard) (call_nests (call_at pool.now call.now))) }
{
    match guard {
        Some(test) => { expression_fits(pool, test, depth + 1) && call_fits(pool, call, depth + 1) }
        None => call_fits(pool, call, depth),
    }
}

fn fairness_fits(pool: &Pool, fairness: &Fairness) -> bool
    requires { FairnessIn (length pool.now) fairness.now }
    ensures { result ≡ has_room 1 (fairness_nests (fairness_at pool.now fairness.now)) }
{
    match &fairness.over {
        Some((_, set)) => {
            expression_fits(pool, *set, 2)
                && guarded_fits(pool, fairness.guard, &fairness.action, 3)
        }
        None => guarded_fits(pool, fairness.guard, &fairness.action, 2),
    }
}

/// Whether a list of formulas of fairness, with nothing round it, nests no deeper than a module may.
pub fn all_fairness_fits(pool: &Pool, all: &[Fairness]) -> bool
    requires { AllFairnessIn (length pool.now) all.now }
    ensures { result ≡ has_room 0 (listed (map fairness_nests (map (fairness_at pool.now) all.now))) }
{
    for fairness in all {
        if !fairness_fits(pool, fairness) {
            return false;
        }
    }
    true
}
