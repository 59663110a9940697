//! Whether a translation nests no deeper than a module may.

ghost use Rattle.std.specs.Prelude.{◌≡◌, nat_le, length, IfOk};
ghost use Rattle.tla_tree.specs.Nesting.{deepest_in_module};
ghost use Rattle.module_write.specs.InMemory.{region_at, RegionIn};
ghost use Rattle.region_reading.specs.Nests.{region_nests};
ghost use Rattle.region_depth.specs.Room.{has_room, end_nests, steps_nest, rest_nests};

use crate::actions::{actions_fit, all_fairness_fits, ways_fit};
use crate::definitions::definitions_fit;
use crate::expression::{conjuncts_fit, expression_fits, part_fits};
use module_write::module::Region;
use std::alloc::{AllocError, Global};
use tla_pool::Pool;

// The units from Next on.
fn end_fits(pool: &Pool, region: &Region) -> bool
    requires { RegionIn (length pool.now) region.now }
    ensures { result ≡ has_room 0 (end_nests (region_at pool.now region.now)) }
{
    ways_fit(pool, &region.next)
        && all_fairness_fits(pool, &region.fairness)
        && expression_fits(pool, region.termination, 1)
}

// The units from the actions on.
fn steps_fit(pool: &Pool, region: &Region) -> bool
    requires { RegionIn (length pool.now) region.now }
    ensures { result ≡ has_room 0 (steps_nest (region_at pool.now region.now)) }
{
    actions_fit(pool, &region.actions) && part_fits(pool, region.ended, 1) && end_fits(pool, region)
}

// All but the definitions.
fn rest_fits(pool: &Pool, region: &Region) -> bool
    requires { RegionIn (length pool.now) region.now }
    ensures { result ≡ has_room 0 (rest_nests (region_at pool.now region.now)) }
{
    part_fits(pool, region.process_set, 0)
        && conjuncts_fit(pool, &region.init)
        && steps_fit(pool, region)
}

/// Whether a translation nests no deeper on its tree than a module may.
///
/// # Errors
///
/// Only for want of memory.
pub fn is_within(alloc: Global, pool: &Pool, region: &Region) -> Result<bool, AllocError>
    requires { RegionIn (length pool.now) region.now }
    ensures { IfOk result (λ b. b ≡ nat_le (region_nests (region_at pool.now region.now)) deepest_in_module) }
{
    if !definitions_fit(alloc, pool, region.definitions.as_slice())? {
        return Ok(false);
    }
    Ok(rest_fits(pool, region))
}
