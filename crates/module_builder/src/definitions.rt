//! The definitions of a `define` block, as a module has them.

ghost use Rattle.std.specs.Prelude.{◌≡◌, ◌≤◌, ℕ, List, IfOk};
ghost use Rattle.std.specs.Prelude as prelude;
ghost use Rattle.tla_tree.specs.Tree.{words, Tree};
ghost use Rattle.tla_value.specs.Defs.{definition_at, definitions_at, DefinitionsIn};
ghost use Rattle.pcal_tree.specs.InMemory as in_memory;
ghost use Rattle.pcal_tree.specs.Program.{inner};

use pcal_tree::algorithm::Definition;
use std::alloc::{AllocError, Global};
use tla_tree::{NameList, PlacedName};
use tla_value::names::{Definition as Kept, Defs};

// The words of names.
fn names(alloc: Global, list: &[PlacedName]) -> Result<NameList, AllocError>
    ensures { IfOk result (λ r. r ≡ words list.now) }
{
    let mut names = NameList::new(alloc);
    for one in list {
        names.push(one.name.copied()?)?;
    }
    Ok(names)
}

// A definition, with the place of its name.
fn definition(alloc: Global, one: &Definition) -> Result<Kept, AllocError>
    ensures made { IfOk result (λ r. (ts : List Tree) → definition_at ts r ≡ inner (in_memory.definition_at ts one.now)) }
    ensures within { IfOk result (λ r. r.body ≡ one.now.body) }
{
    let params = names(alloc, &one.params)?;
    let name = one.name.name.copied()?;
    Ok(Kept {
        name,
        params,
        body: one.body,
        outside: false,
        place: one.name.place,
    })
}

/// The definitions, in the order of the text.
///
/// # Errors
///
/// Only for want of memory.
pub fn definitions(alloc: Global, list: &[Definition]) -> Result<Defs, AllocError>
    ensures made { IfOk result (λ r. (ts : List Tree) → definitions_at ts r ≡ prelude.map inner (in_memory.definitions_at ts list.now)) }
    ensures within { IfOk result (λ r. (m : ℕ) → in_memory.past_definitions list.now ≤ m → DefinitionsIn m r) }
{
    let mut made = Defs::new(alloc);
    for one in list {
        made.push(definition(alloc, one)?)?;
    }
    Ok(made)
}
