//! What is kept of macros and procedures: each body is gone through once.

ghost use Rattle.std.specs.Prelude.{◌≡◌, ◌==◌, ◌<◌, ◌^◌, [], List, length, OnOk};
ghost use Rattle.std.specs.Cmp.Lexicographic.{pointwise};
ghost use Rattle.indexmap.specs.IndexMap.{insert_entry};
ghost use Rattle.tla_tree.specs.Tree.{Tree};
ghost use Rattle.pcal_tree.specs.Algorithm.{Procedure as PureProcedure};
ghost use Rattle.pcal_tree.specs.OffencesNames.{Calls};
ghost use Rattle.name_rules.specs.Finding.{IsNew};
ghost use Rattle.name_rules.specs.Calling.{Means};
ghost use Rattle.name_rules.specs.Keeping.{Keeps, MacroKept, AreProcedures, procedures_at, calls_at};

use crate::found::Found;
use algorithm_limits::table::Table;
use declared_rules::macros::add_copies;
use indexmap::IndexMap;
use pcal_tree::algorithm::{Declaration, Macro, Procedure};
use std::alloc::{AllocError, Global};
use tla_pool::Pool;
use tla_tree::{Name, PlacedName};

/// What is kept of a macro: its parameters, the first offence of its body that rests on no name around, and the uses of names that
/// its body doesn't bind, each once.
#[derive(Drop)]
pub struct MacroUses {
    pub params: Vec<PlacedName>,
    pub found: Found,
}

/// What is kept of the latest macro of each name, and one more than the number of parameters of the first procedure of each name.
#[derive(Drop)]
pub struct Callees {
    pub macros: IndexMap<Name, MacroUses>,
    pub procedures: Table,
}

// How many declarations these are.
fn how_many(list: &[Declaration]) -> usize
    ensures result_len { result ≡ length list.now }
    ensures small { result < 2 ^ 63 }
{
    list.len()
}

// One more than the number of parameters of each procedure, of the first of a name, in an empty table.
fn add_arities(arities: &mut Table, procedures: &[Procedure]) -> Result<(), AllocError>
    ensures { OnOk result (arities.old ≡ [] → (ts : List Tree) → AreProcedures arities.new (procedures_at ts procedures.now)) }
{
    for i in 0..procedures.len() {
        let one = &procedures[procedures.len() - 1 - i];
        arities.set(one.name.name.copied()?, how_many(&one.params) + 1)?;
    }
    Ok(())
}

impl MacroUses {
    // Nothing was found.
    fn new(alloc: Global) -> MacroUses
        ensures params { result.params.items ≡ [] }
        ensures found { IsNew result.found }
    {
        MacroUses {
            params: Vec::new(alloc),
            found: Found::new(alloc),
        }
    }

    // What is kept of a macro, where nothing is yet.
    fn fill(&mut self, pool: &Pool, callees: &Callees, one: &Macro) -> Result<(), AllocError>
        ensures { OnOk result ((C : Calls) (ps : List PureProcedure) → self.old.params.items ≡ [] → IsNew self.old.found → Means callees.now C ps → Keeps C ps pool.now one.now self.new) }
    {
        add_copies(&mut self.params, &one.params)?;
        self.found.body(pool, callees, &one.body)
    }
}

impl Callees {
    /// None is known.
    pub fn new(alloc: Global) -> Callees
        ensures macros { result.macros.entries ≡ [] }
        ensures procedures { result.procedures ≡ [] }
    {
        Callees {
            macros: IndexMap::new(alloc),
            procedures: Table::new(alloc),
        }
    }

    // Keeps this of a macro by its name, in place of what was kept by it.
    fn keep(&mut self, name: Name, uses: MacroUses) -> Result<(), AllocError>
        ensures { OnOk result ((self.new.macros.entries ≡ insert_entry (pointwise ◌==◌) self.old.macros.entries name uses) × (self.new.procedures ≡ self.old.procedures)) }
    {
        let before = self.macros.insert(name, uses)?;
        drop(before);
        Ok(())
    }

    // One more macro, which calls those before it.
    fn add_macro(&mut self, alloc: Global, pool: &Pool, one: &Macro) -> Result<(), AllocError>
        ensures { OnOk result (MacroKept pool.now one.now self.old self.new) }
    {
        let name = one.name.name.copied()?;
        let mut uses = MacroUses::new(alloc);
        match uses.fill(pool, self, one) {
            Ok(()) => self.keep(name, uses),
            Err(error) => {
                drop(uses);
                Err(error)
            }
        }
    }

    /// What is kept of these macros, of which each calls those before it, and of these procedures, where none was known.
    ///
    /// # Errors
    ///
    /// Only for want of memory.
    pub fn fill(
        &mut self,
        alloc: Global,
        pool: &Pool,
        macros: &[Macro],
        procedures: &[Procedure],
    ) -> Result<(), AllocError>
        ensures { OnOk result (self.old.macros.entries ≡ [] → self.old.procedures ≡ [] → Means self.new (calls_at pool.now macros.now (procedures_at pool.now procedures.now)) (procedures_at pool.now procedures.now)) }
    {
        add_arities(&mut self.procedures, procedures)?;
        for one in macros {
            self.add_macro(alloc, pool, one)?;
        }
        Ok(())
    }
}
