//! The definitions of an algorithm, behind those outside of it.

ghost use Rattle.std.specs.Prelude.{◌≡◌, ◌≤◌, ◌++◌, ℕ, List, length, map, take, IfOk, OnOk};
ghost use Rattle.tla_tree.specs.Tree.{Tree, words};
ghost use Rattle.tla_value.specs.Defs.{DefinitionsIn, definition_at as kept_at, definitions_at as all_at};
ghost use Rattle.pcal_tree.specs.InMemory.{definition_at, definitions_at, past_definitions};
ghost use Rattle.pcal_tree.specs.Program.{inner};

use pcal_tree::algorithm::Definition;
use std::alloc::{AllocError, Global};
use tla_tree::{NameList, PlacedName};
use tla_value::names::{Definition as Kept, Defs};

// The words of names.
fn words_of(alloc: Global, names: &[PlacedName]) -> Result<NameList, AllocError>
    ensures { IfOk result (λ r. r ≡ words names.now) }
{
    let mut all = NameList::new(alloc);
    for one in names {
        all.push(one.name.copied()?)?;
    }
    Ok(all)
}

// A definition of the algorithm, as expressions use it.
fn kept(alloc: Global, one: &Definition) -> Result<Kept, AllocError>
    ensures made { IfOk result (λ r. (ts : List Tree) → kept_at ts r ≡ inner (definition_at ts one.now)) }
    ensures body { IfOk result (λ r. r.body ≡ one.now.body) }
{
    let name = one.name.name.copied()?;
    let params = words_of(alloc, &one.params)?;
    Ok(Kept {
        name,
        params,
        body: one.body,
        outside: false,
        place: one.name.place,
    })
}

/// Adds the definitions of an algorithm behind those outside of it ("A PlusCal User's Manual", section 3.6, definitions).
///
/// # Errors
///
/// Only for want of memory.
pub fn add_definitions(
    alloc: Global,
    list: &[Definition],
    into: &mut Defs,
) -> Result<(), AllocError>
    ensures all { OnOk result ((ts : List Tree) → all_at ts into.new ≡ all_at ts into.old ++ map inner (definitions_at ts list.now)) }
    ensures outside { OnOk result (take (length into.old) into.new ≡ into.old) }
    ensures within { OnOk result ((m : ℕ) → DefinitionsIn m into.old → past_definitions list.now ≤ m → DefinitionsIn m into.new) }
{
    for one in list {
        into.push(kept(alloc, one)?)?;
    }
    Ok(())
}
