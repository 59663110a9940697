//! What is outside a translation, as modules have it.

ghost use Rattle.std.specs.Prelude.{◌≡◌, ℕ, List, length, map, IfOk};
ghost use Rattle.tla_tree.specs.Tree.{Tree};
ghost use Rattle.tla_tree.specs.Pool.{Keeps};
ghost use Rattle.tla_value.specs.Defs.{DefinitionsIn};
ghost use Rattle.module_tree.specs.FileUnits.{cut};
ghost use Rattle.expr_nodes.specs.Ahead.{ahead};
ghost use Rattle.outside_reading.specs.PlainUnits.{outside_in};
ghost use Rattle.module_outside.specs.Passing.{passed_seen};
ghost use Rattle.module_outside.specs.FoundAt.{AreHeld};
ghost use Rattle.module_outside.specs.WholeAt as read;
ghost use Rattle.module_write.specs.InMemory.{opaque_of, outside_at};

use module_outside::kept::{all_kept, words_of};
use module_outside::outside::{Outside as ReadOutside, read_outside};
use module_outside::passed::Passed;
use module_write::module::{Opaque, Outside};
use std::alloc::{AllocError, Global};
use tla_pool::Pool;
use tla_token::Tokens;
use tla_tree::{Name, NameList};

// Names as a list of names.
fn list_of(alloc: Global, names: &[Name]) -> Result<NameList, AllocError>
    ensures { IfOk result (λ r. r ≡ names.now) }
{
    let mut all = NameList::new(alloc);
    for one in names {
        all.push(one.copied()?)?;
    }
    Ok(all)
}

// A unit that was passed on, as modules have it.
fn opaque(alloc: Global, one: &Passed) -> Result<Opaque, AllocError>
    ensures { IfOk result (λ r. opaque_of r ≡ passed_seen one.now) }
{
    let keyword = one.keyword.copied()?;
    let names = list_of(alloc, &one.names)?;
    Ok(Opaque {
        keyword,
        names,
        place: one.place,
    })
}

// All units that were passed on.
fn all_passed(alloc: Global, list: &[Passed]) -> Result<Vec<Opaque>, AllocError>
    ensures { IfOk result (λ r. map opaque_of r.items ≡ map passed_seen list.now) }
{
    let mut all = Vec::new(alloc);
    for one in list {
        all.push(opaque(alloc, one)?)?;
    }
    Ok(all)
}

/// What was read outside, as modules have it.
///
/// # Errors
///
/// Only for want of memory.
pub fn as_outside(alloc: Global, found: ReadOutside) -> Result<Outside, AllocError>
    ensures same { IfOk result (λ o. (ts : List Tree) → outside_at ts o ≡ read.outside_at ts found) }
    ensures within { IfOk result (λ o. (m : ℕ) → AreHeld m found.definitions.items → DefinitionsIn m o.definitions) }
{
    let extended = words_of(alloc, &found.extended)?;
    let definitions = all_kept(alloc, &found.definitions)?;
    let opaque = all_passed(alloc, &found.opaque)?;
    Ok(Outside {
        extended,
        constants: found.constants,
        definitions,
        opaque,
    })
}

/// What a module has outside, by its tokens before its translation and after it.
///
/// # Errors
///
/// Only for want of memory.
pub fn outside(
    alloc: Global,
    pool: &mut Pool,
    before: &Tokens,
    after: &Tokens,
) -> Result<Outside, AllocError>
    ensures read { IfOk result (λ o. outside_at pool.new o ≡ outside_in (cut (ahead before.now 0)).units (cut (ahead after.now 0)).units) }
    ensures within { IfOk result (λ o. DefinitionsIn (length pool.new) o.definitions) }
    ensures kept { Keeps pool.old pool.new }
{
    let found = read_outside(alloc, pool, before, after)?;
    as_outside(alloc, found)
}
