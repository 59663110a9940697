//! Definitions that were read outside, as expressions use them.

ghost use Rattle.std.specs.Prelude.{◌≡◌, map, IfOk};
ghost use Rattle.tla_tree.specs.Tree.{words};
ghost use Rattle.module_outside.specs.KeptOf.{kept_of};

use crate::definition::ReadDefinition;
use std::alloc::{AllocError, Global};
use tla_tree::{NameList, PlacedName};
use tla_value::names::{Definition, Defs};

/// The words of names.
///
/// # Errors
///
/// Only for want of memory.
pub fn words_of(alloc: Global, names: &[PlacedName]) -> Result<NameList, AllocError>
    ensures { IfOk result (λ r. r ≡ words names.now) }
{
    let mut all = NameList::new(alloc);
    for one in names {
        all.push(one.name.copied()?)?;
    }
    Ok(all)
}

// A definition that was read outside, as expressions use it.
fn kept(alloc: Global, one: &ReadDefinition) -> Result<Definition, AllocError>
    ensures { IfOk result (λ r. r ≡ kept_of one.now) }
{
    let name = one.title.name.copied()?;
    let params = words_of(alloc, &one.params)?;
    Ok(Definition {
        name,
        params,
        body: one.body,
        outside: true,
        place: one.title.place,
    })
}

/// Definitions that were read outside, as expressions use them. Their bodies stay numbers of the pool that they were read into.
///
/// # Errors
///
/// Only for want of memory.
pub fn all_kept(alloc: Global, list: &[ReadDefinition]) -> Result<Defs, AllocError>
    ensures { IfOk result (λ r. r ≡ map kept_of list.now) }
{
    let mut all = Defs::new(alloc);
    for one in list {
        all.push(kept(alloc, one)?)?;
    }
    Ok(all)
}
