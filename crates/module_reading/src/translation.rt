//! The translation of a module.

ghost use Rattle.std.specs.Prelude.{◌≡◌, true, Some, length, List, IfOk, IfErr};
ghost use Rattle.std.specs.List.{list_any};
ghost use Rattle.tla_tree.specs.Pool.{Keeps};
ghost use Rattle.tla_tree.specs.Tree.{Tree};
ghost use Rattle.module_tree.specs.FileUnits.{cut};
ghost use Rattle.module_tree.specs.Ways as pure;
ghost use Rattle.expr_nodes.specs.Ahead.{ahead};
ghost use Rattle.module_write.specs.InMemory.{ways_at, region_at, RegionIn};
ghost use Rattle.outside_reading.specs.SmallNumbers.{all_small};
ghost use Rattle.region_reading.specs.ModuleReader.{terminates_alike};
ghost use Rattle.region_reading.specs.RegionReader.{region_in};
ghost use Rattle.region_made.specs.UnitsAt.{units_at, UnitsIn};
ghost use Rattle.module_reading.specs.Translated.{IsFit, IsTranslation, NoneFit, NoTranslation};

use crate::refusal::{refused, stopped};
use crate::units::units;
use module_write::module::{Region, Way};
use region_depth::region::is_within;
use region_made::made::region_of;
use region_made::unit::Unit;
use std::alloc::Global;
use tla_pool::Pool;
use tla_token::{Rule, Stop, Tokens};

// Whether one of these is Terminating.
fn may_terminate(ways: &[Way]) -> bool
    ensures { (ts : List Tree) → result ≡ list_any pure.is_terminating (ways_at ts ways.now) }
{
    for way in ways {
        if way.is_terminating() {
            return true;
        }
    }
    false
}

// Whether the unit Terminating and Next's item of its name stand both or neither.
fn is_alike(region: &Region) -> bool
    ensures { (ts : List Tree) → result ≡ terminates_alike (region_at ts region.now) }
{
    region.ended.is_some() == may_terminate(&region.next)
}

// The translation, if it may stand in a module.
fn if_fit(alloc: Global, pool: &Pool, region: Region) -> Result<Region, Stop>
    requires { RegionIn (length pool.now) region }
    ensures same { IfOk result (λ r. r ≡ region) }
    ensures fit { IfOk result (λ r. IsFit (region_at pool.now region)) }
    ensures none { IfErr result (λ e. NoneFit (Some (region_at pool.now region)) (Some (region_at pool.now region)) e) }
{
    if !is_alike(&region) {
        return Err(refused(Rule::Syntax));
    }
    if !is_within(alloc, pool, &region)? {
        return Err(refused(Rule::TooDeep));
    }
    Ok(region)
}

// The translation that these units are, if they are one that may stand in a module.
fn of_units(alloc: Global, pool: &Pool, list: Vec<Unit>) -> Result<Region, Stop>
    requires { UnitsIn (length pool.now) list.items }
    ensures read { IfOk result (λ r. region_in (units_at pool.now list.items) ≡ Some (region_at pool.now r)) }
    ensures fit { IfOk result (λ r. IsFit (region_at pool.now r)) }
    ensures within { IfOk result (λ r. RegionIn (length pool.now) r) }
    ensures none { IfErr result (λ e. NoneFit (region_in (units_at pool.now list.items)) (region_in (units_at pool.now list.items)) e) }
{
    match region_of(alloc, list)? {
        Some(region) => if_fit(alloc, pool, region),
        None => Err(refused(Rule::Syntax)),
    }
}

/// The translation that these tokens are, where the first of them begins a unit.
///
/// # Errors
///
/// The rule of syntax, where they are no translation that may stand in a module, and that of depth, where they are none that
/// nests no deeper than any may; or want of memory.
pub fn translation(alloc: Global, tokens: &Tokens, pool: &mut Pool) -> Result<Region, Stop>
    requires small { all_small (ahead tokens.now 0) ≡ true }
    ensures read { IfOk result (λ r. IsTranslation (cut (ahead tokens.now 0)).units (region_at pool.new r)) }
    ensures within { IfOk result (λ r. RegionIn (length pool.new) r) }
    ensures none { IfErr result (λ e. NoTranslation (cut (ahead tokens.now 0)).units e) }
    ensures kept { Keeps pool.old pool.new }
{
    match units(alloc, tokens, pool) {
        Ok(list) => of_units(alloc, pool, list),
        Err(halt) => Err(stopped(halt)),
    }
}
