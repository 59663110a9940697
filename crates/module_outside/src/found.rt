//! What is found in units: definitions that are read, and what is kept of units that are passed on.

ghost use Rattle.std.specs.Prelude.{◌≡◌, ◌++◌, ◌<◌, length, true, false, IfOk, map, []};
ghost use Rattle.tla_tree.specs.Pool.{Keeps};
ghost use Rattle.module_tree.specs.FileUnits.{cut};
ghost use Rattle.module_tree.specs.Outside as pure;
ghost use Rattle.expr_nodes.specs.Ahead.{ahead};
ghost use Rattle.outside_reading.specs.PlainUnits.{unit_in, units_in, seen_behind};
ghost use Rattle.std.specs.List.{flat_map};
ghost use Rattle.module_tree.specs.Module.{unread_of};
ghost use Rattle.module_outside.specs.Passing.{passed_seen};
ghost use Rattle.module_outside.specs.SightIn.{Sees};
ghost use Rattle.module_outside.specs.FoundAt.{AreHeld, Goes, PassesOn, IsFound};

use crate::declared::is_declared;
use crate::definition::{ReadDefinition, definition};
use crate::passed::{Passed, passed_on};
use crate::sight::Sight;
use crate::unit::{next_begun, unit_tokens};
use std::alloc::{AllocError, Global};
use tla_pool::Pool;
use tla_token::Tokens;

/// Definitions that are read, and units that are passed on.
#[derive(Drop)]
pub struct Found {
    pub definitions: Vec<ReadDefinition>,
    pub opaque: Vec<Passed>,
}

// With the definition that a unit before the translation is, if it is read, or with what is kept of it.
fn find(
    alloc: Global,
    pool: &mut Pool,
    sight: &mut Sight,
    unit: &Tokens,
    found: &mut Found,
) -> Result<(), AllocError>
    requires some { 0 < length unit.now.items.items }
    requires held { AreHeld (length pool.old) found.old.definitions.items }
    ensures value { IfOk result (λ u. (v : pure.Sight) → Sees sight.old v → Goes pool.old pool.new found.old found.new (unit_in true v (ahead unit.now 0))) }
    ensures sees { IfOk result (λ u. (v : pure.Sight) → Sees sight.old v → Sees sight.new (seen_behind v (unit_in true v (ahead unit.now 0)))) }
    ensures held { IfOk result (λ u. AreHeld (length pool.new) found.new.definitions.items) }
    ensures kept { Keeps pool.old pool.new }
{
    if is_declared(alloc, unit)? {
        return Ok(());
    }
    match definition(alloc, pool, sight, unit)? {
        Some(one) => {
            found.definitions.push(one)?;
        }
        None => {
            found.opaque.push(passed_on(alloc, unit)?)?;
        }
    }
    Ok(())
}

// With what is kept of a unit behind the translation, if it declares nothing.
fn pass(alloc: Global, unit: &Tokens, opaque: &mut Vec<Passed>) -> Result<(), AllocError>
    requires some { 0 < length unit.now.items.items }
    ensures { IfOk result (λ u. (v : pure.Sight) → PassesOn opaque.old.items opaque.new.items (unit_in false v (ahead unit.now 0))) }
{
    if !is_declared(alloc, unit)? {
        opaque.push(passed_on(alloc, unit)?)?;
    }
    Ok(())
}

/// What is found in the units among tokens before the translation.
///
/// # Errors
///
/// Only for want of memory.
pub fn found_before(
    alloc: Global,
    pool: &mut Pool,
    sight: &mut Sight,
    tokens: &Tokens,
) -> Result<Found, AllocError>
    ensures value { IfOk result (λ f. (v : pure.Sight) → Sees sight.old v → IsFound pool.new f (units_in true v (cut (ahead tokens.now 0)).units)) }
    ensures held { IfOk result (λ f. AreHeld (length pool.new) f.definitions.items) }
    ensures kept { Keeps pool.old pool.new }
{
    let mut found = Found {
        definitions: Vec::new(alloc),
        opaque: Vec::new(alloc),
    };
    let mut bytes = Vec::from_slice(alloc, &tokens.bytes)?;
    let mut at = next_begun(tokens, 0);
    while at < tokens.items.len() {
        let end = next_begun(tokens, at + 1);
        let unit = unit_tokens(alloc, bytes, tokens, at, end)?;
        find(alloc, pool, sight, &unit, &mut found)?;
        bytes = unit.bytes;
        at = end;
    }
    Ok(found)
}

/// With what is kept of the units among tokens behind the translation.
///
/// # Errors
///
/// Only for want of memory.
pub fn pass_all(alloc: Global, tokens: &Tokens, opaque: &mut Vec<Passed>) -> Result<(), AllocError>
    ensures { IfOk result (λ u. (v : pure.Sight) → map passed_seen opaque.new.items ≡ map passed_seen opaque.old.items ++ flat_map unread_of (units_in false v (cut (ahead tokens.now 0)).units)) }
{
    let mut bytes = Vec::from_slice(alloc, &tokens.bytes)?;
    let mut at = next_begun(tokens, 0);
    while at < tokens.items.len() {
        let end = next_begun(tokens, at + 1);
        let unit = unit_tokens(alloc, bytes, tokens, at, end)?;
        pass(alloc, &unit, opaque)?;
        bytes = unit.bytes;
        at = end;
    }
    Ok(())
}
