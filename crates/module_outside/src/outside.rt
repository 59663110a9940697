//! What a module has outside its algorithm and the translation.

ghost use Rattle.std.specs.Prelude.{◌≡◌, ◌++◌, [], length, List, IfOk};
ghost use Rattle.tla_token.specs.TokensSeen.{tokens_seen};
ghost use Rattle.tla_tree.specs.Tree.{words};
ghost use Rattle.tla_tree.specs.Pool.{Keeps};
ghost use Rattle.module_tree.specs.Walk.{Located};
ghost use Rattle.module_tree.specs.FileParts.{before_spot, after_spot};
ghost use Rattle.module_tree.specs.FileUnits.{cut, tokens_in};
ghost use Rattle.module_tree.specs.Outside as pure;
ghost use Rattle.module_tree.specs.laws.Outsides.{HasOutside};
ghost use Rattle.expr_nodes.specs.Ahead.{ahead};
ghost use Rattle.outside_reading.specs.PlainUnits.{all_modules, all_constants, outside_in};
ghost use Rattle.module_outside.specs.FoundAt.{AreHeld, IsAll};
ghost use Rattle.module_outside.specs.SightIn.{Sees};
ghost use Rattle.module_outside.specs.WholeAt.{outside_at};

use crate::declared::{Declared, declare_all};
use crate::definition::ReadDefinition;
use crate::found::{Found, found_before, pass_all};
use crate::passed::Passed;
use crate::sight::Sight;
use std::alloc::{AllocError, Global};
use tla_pool::Pool;
use tla_token::Tokens;
use tla_tree::PlacedName;

/// What a module has outside: modules that it extends, constants, definitions that are read, and units that are passed on.
#[derive(Drop)]
pub struct Outside {
    pub extended: Vec<PlacedName>,
    pub constants: Vec<PlacedName>,
    pub definitions: Vec<ReadDefinition>,
    pub opaque: Vec<Passed>,
}

// What the units before the translation and after it declare.
fn declared_in(alloc: Global, before: &Tokens, after: &Tokens) -> Result<Declared, AllocError>
    ensures extended { IfOk result (λ d. d.extended.items ≡ all_modules (cut (ahead before.now 0)).units ++ all_modules (cut (ahead after.now 0)).units) }
    ensures constants { IfOk result (λ d. d.constants.items ≡ all_constants (cut (ahead before.now 0)).units ++ all_constants (cut (ahead after.now 0)).units) }
{
    let mut declared = Declared {
        extended: Vec::new(alloc),
        constants: Vec::new(alloc),
    };
    declare_all(alloc, before, &mut declared)?;
    declare_all(alloc, after, &mut declared)?;
    Ok(declared)
}

// What is found in them, where this is in sight.
fn found_by(
    alloc: Global,
    pool: &mut Pool,
    sight: &mut Sight,
    before: &Tokens,
    after: &Tokens,
) -> Result<Found, AllocError>
    ensures all { IfOk result (λ f. (v : pure.Sight) → Sees sight.old v → IsAll pool.new f v (cut (ahead before.now 0)).units (cut (ahead after.now 0)).units) }
    ensures held { IfOk result (λ f. AreHeld (length pool.new) f.definitions.items) }
    ensures kept { Keeps pool.old pool.new }
{
    let mut found = found_before(alloc, pool, sight, before)?;
    pass_all(alloc, after, &mut found.opaque)?;
    Ok(found)
}

// What is found in them, where these modules are extended and these constants declared.
fn found_in(
    alloc: Global,
    pool: &mut Pool,
    declared: &Declared,
    before: &Tokens,
    after: &Tokens,
) -> Result<Found, AllocError>
    ensures all { IfOk result (λ f. IsAll pool.new f (record { modules = words declared.now.extended.items; constants = words declared.now.constants.items; earlier = [] }) (cut (ahead before.now 0)).units (cut (ahead after.now 0)).units) }
    ensures held { IfOk result (λ f. AreHeld (length pool.new) f.definitions.items) }
    ensures kept { Keeps pool.old pool.new }
{
    let mut sight = Sight::new(alloc, &declared.extended, &declared.constants)?;
    let found = found_by(alloc, pool, &mut sight, before, after);
    drop(sight);
    found
}

/// What a module has outside, by its tokens before the place of a translation and after it.
///
/// # Errors
///
/// Only for want of memory.
pub fn read_outside(
    alloc: Global,
    pool: &mut Pool,
    before: &Tokens,
    after: &Tokens,
) -> Result<Outside, AllocError>
    ensures value { IfOk result (λ o. outside_at pool.new o ≡ outside_in (cut (ahead before.now 0)).units (cut (ahead after.now 0)).units) }
    ensures file { IfOk result (λ o. (ds : List Located) → tokens_seen before.now ≡ tokens_in (before_spot ds) → tokens_seen after.now ≡ tokens_in (after_spot ds) → HasOutside ds (outside_at pool.new o)) }
    ensures held { IfOk result (λ o. AreHeld (length pool.new) o.definitions.items) }
    ensures kept { Keeps pool.old pool.new }
{
    let declared = declared_in(alloc, before, after)?;
    let found = found_in(alloc, pool, &declared, before, after)?;
    Ok(Outside {
        extended: declared.extended,
        constants: declared.constants,
        definitions: found.definitions,
        opaque: found.opaque,
    })
}
