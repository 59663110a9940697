//! What is kept of macros and of procedures: what was found in them, by their names.

ghost use Rattle.std.specs.Prelude.{◌≡◌, ◌==◌, [], Some, OnOk, IfSome, IfNone, None};
ghost use Rattle.std.specs.Map.{lookup};
ghost use Rattle.std.specs.Cmp.Lexicographic.{pointwise};
ghost use Rattle.declared_rules.specs.Telling.{IsNew};
ghost use Rattle.indexmap.specs.IndexMap.{insert_entry};

use crate::bind_walk::Walk;
use indexmap::IndexMap;
use std::alloc::{AllocError, Global};
use tla_tree::{Name, PlacedName};

/// What was found in a text, and the names for which arguments of a call are put in.
#[derive(Drop)]
pub struct Kept {
    pub params: Vec<PlacedName>,
    pub found: Walk,
}

/// What is kept, by names.
#[derive(Drop)]
pub struct Keeps {
    pub kept: IndexMap<Name, Kept>,
}

/// The name of a process's identifier, and what is kept of macros and of the initial values of procedures' variables.
#[derive(Drop)]
pub struct Calls {
    pub alloc: Global,
    pub process: Name,
    pub macros: Keeps,
    pub procedures: Keeps,
}

impl Kept {
    /// Nothing was found.
    pub fn new(alloc: Global) -> Kept
        ensures params { result.params.items ≡ [] }
        ensures found { IsNew result.found }
    {
        Kept {
            params: Vec::new(alloc),
            found: Walk::new(alloc),
        }
    }
}

impl Keeps {
    /// What is kept by a name.
    pub fn get(&self, name: &Name) -> Option<&Kept>
        ensures some { IfSome result (λ d. lookup (pointwise ◌==◌ name.now) self.now.kept.entries ≡ Some d.now) }
        ensures none { IfNone result (lookup (pointwise ◌==◌ name.now) self.now.kept.entries ≡ None) }
    {
        self.kept.get(name)
    }

    /// Keeps this by a name, in place of what was kept by it.
    ///
    /// # Errors
    ///
    /// Only for want of memory.
    pub fn add(&mut self, name: &Name, kept: Kept) -> Result<(), AllocError>
        ensures { OnOk result (self.new.kept.entries ≡ insert_entry (pointwise ◌==◌) self.old.kept.entries name.now kept) }
    {
        match name.copied() {
            Ok(key) => {
                let before = self.kept.insert(key, kept)?;
                drop(before);
                Ok(())
            }
            Err(error) => {
                drop(kept);
                Err(error)
            }
        }
    }
}
