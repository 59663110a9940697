//! How deep an expression nests on its tree.

ghost use Rattle.std.specs.Prelude.{◌≡◌, ◌+◌, ◌<◌, ◌≤◌, length, map};
ghost use Rattle.tla_tree.specs.Nesting.{tree_nesting};
ghost use Rattle.tla_tree.specs.Pool.{at, AllBelow};
ghost use Rattle.module_write.specs.InMemory.{MaybeIn};
ghost use Rattle.region_reading.specs.Nests.{maybe_nests, listed};
ghost use Rattle.region_depth.specs.Room.{has_room};
ghost use Rattle.std.specs.Option.{option_map};

use tla_pool::Pool;
use tla_tree::NodeId;

/// How deep forms may nest in a module.
pub const DEEPEST: usize = 1200;

/// Whether an expression that so many forms are round nests no deeper than a module may. It calls itself no deeper than that.
pub fn expression_fits(pool: &Pool, e: NodeId, depth: usize) -> bool
    requires there { e < length pool.now }
    requires within { depth ≤ 1201 }
    ensures { result ≡ has_room depth (tree_nesting (at pool.now e)) }
{
    if depth > DEEPEST {
        return false;
    }
    let node = pool.node(e);
    for part in &node.parts {
        if !expression_fits(pool, *part, depth + 1) {
            return false;
        }
    }
    true
}

/// The same of an expression that is a part, if there is one.
pub fn part_fits(pool: &Pool, part: Option<NodeId>, depth: usize) -> bool
    requires there { MaybeIn (length pool.now) part }
    requires within { depth ≤ 1200 }
    ensures { result ≡ has_room depth (maybe_nests (option_map (at pool.now) part)) }
{
    match part {
        Some(e) => expression_fits(pool, e, depth + 1),
        None => true,
    }
}

/// The same of a list of conjuncts, with nothing round it.
pub fn conjuncts_fit(pool: &Pool, conjuncts: &[NodeId]) -> bool
    requires { AllBelow (length pool.now) conjuncts.now }
    ensures { result ≡ has_room 0 (listed (map tree_nesting (map (at pool.now) conjuncts.now))) }
{
    for e in conjuncts {
        if !expression_fits(pool, *e, 1) {
            return false;
        }
    }
    true
}
