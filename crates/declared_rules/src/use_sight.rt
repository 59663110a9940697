//! What names may be used as where they are.

ghost use Rattle.std.specs.Prelude.{◌≡◌, ◌++◌, ◌∷◌, [], List, Some, length, map, reverse, OnOk};
ghost use Rattle.std.specs.List.{flat_map};
ghost use Rattle.tla_tree.specs.Tree.{Tree, words};
ghost use Rattle.pcal_tree.specs.NameUses as names;
ghost use Rattle.pcal_tree.specs.NameUses.{knowing};
ghost use Rattle.pcal_tree.specs.InMemory.{declarations_at};
ghost use Rattle.pcal_tree.specs.Variables.{declared};
ghost use Rattle.pcal_tree.specs.OffencesNames.{defined_outside, sight_outside};
ghost use Rattle.module_outside.specs.ModulesIn.{standard_of, AreModules};
ghost use Rattle.module_outside.specs.Passing.{passed_seen};
ghost use Rattle.module_outside.specs.OutsideAt.{definition_seen};
ghost use Rattle.module_outside.specs.WholeAt.{outside_at};
ghost use Rattle.declared_rules.specs.UsesTold.{use_seen};
ghost use Rattle.declared_rules.specs.UsesSeen.{standard_use as standard_use_of, always_use as always_use_of, use_in, Sees};

use crate::using::Use;
use indexmap::IndexMap;
use module_outside::definition::ReadDefinition;
use module_outside::modules::Modules;
use module_outside::outside::Outside;
use module_outside::passed::Passed;
use module_outside::standard::{is, standard_name};
use pcal_tree::algorithm::Declaration;
use std::alloc::{AllocError, Global};
use tla_tree::{Name, PlacedName};

/// What names may be used as that are declared, and the standard modules that are extended.
#[derive(Drop)]
pub struct Sight {
    pub uses: IndexMap<Name, Use>,
    pub modules: Modules,
}

// A name of a standard module.
fn standard_use(modules: Modules, name: &[u8]) -> Use
    ensures { result ≡ standard_use_of modules (standard_of name.now) }
{
    match standard_name(name) {
        Some(found) => {
            let extended = modules.has_name(true, name, found.arity);
            Use::Standard(found.arity, extended, found.infinite)
        }
        None => Use::Unknown,
    }
}

// What is not declared.
fn always_use(modules: Modules, name: &[u8]) -> Use
    ensures { result ≡ always_use_of modules name.now }
{
    if is(name, b"self") {
        Use::Takes(0)
    } else {
        standard_use(modules, name)
    }
}

/// How many names these are.
pub fn how_many(names: &[PlacedName]) -> usize
    ensures { result ≡ length names.now }
{
    names.len()
}

impl Sight {
    /// Nothing is declared.
    pub fn new(alloc: Global, modules: Modules) -> Sight
        ensures uses { result.uses.entries ≡ [] }
        ensures modules { result.modules ≡ modules }
    {
        Sight {
            uses: IndexMap::new(alloc),
            modules,
        }
    }

    /// What a name may be used as.
    pub fn look(&self, name: &Name) -> Use
        ensures { result ≡ use_in self.now name.now }
    {
        match self.uses.get(name) {
            Some(known) => *known,
            None => always_use(self.modules, name.bytes()),
        }
    }

    /// One more name that may be used so, in place of one of that name.
    ///
    /// # Errors
    ///
    /// Only for want of memory.
    pub fn set(&mut self, name: &Name, known: Use) -> Result<(), AllocError>
        ensures { OnOk result ((s : names.Sight) (u : names.Use) → Sees self.old s → use_seen known ≡ Some u → Sees self.new (knowing u name.now ∷ s)) }
    {
        self.uses.insert(name.copied()?, known)?;
        Ok(())
    }

    // Names that may be used so.
    fn set_names(&mut self, list: &[Name], known: Use) -> Result<(), AllocError>
        ensures { OnOk result ((s : names.Sight) (u : names.Use) → Sees self.old s → use_seen known ≡ Some u → Sees self.new (map (knowing u) list.now ++ s)) }
    {
        for name in list {
            self.set(name, known)?;
        }
        Ok(())
    }

    // The same of names at their places.
    fn set_placed(&mut self, list: &[PlacedName], known: Use) -> Result<(), AllocError>
        ensures { OnOk result ((s : names.Sight) (u : names.Use) → Sees self.old s → use_seen known ≡ Some u → Sees self.new (map (knowing u) (words list.now) ++ s)) }
    {
        for one in list {
            self.set(&one.name, known)?;
        }
        Ok(())
    }

    /// Variables.
    ///
    /// # Errors
    ///
    /// Only for want of memory.
    pub fn set_variables(&mut self, list: &[Declaration]) -> Result<(), AllocError>
        ensures { OnOk result ((ts : List Tree) (s : names.Sight) → Sees self.old s → Sees self.new (names.seeing_variables (declared (declarations_at ts list.now)) s)) }
    {
        for i in 0..list.len() {
            let one = &list[i];
            self.set(&one.name.name, Use::Variable)?;
        }
        Ok(())
    }

    // The names of units that were not read.
    fn set_passed(&mut self, list: &[Passed]) -> Result<(), AllocError>
        ensures { OnOk result ((s : names.Sight) → Sees self.old s → Sees self.new (map names.hidden_name (flat_map (λ u. u.names) (map passed_seen list.now)) ++ s)) }
    {
        for unit in list {
            self.set_names(&unit.names, Use::Unread)?;
        }
        Ok(())
    }

    // Definitions that were read, the latest first.
    fn set_read(&mut self, list: &[ReadDefinition]) -> Result<(), AllocError>
        ensures { OnOk result ((ts : List Tree) (s : names.Sight) → Sees self.old s → Sees self.new (map defined_outside (reverse (map (definition_seen ts) list.now)) ++ s)) }
    {
        for definition in list {
            let arity = how_many(&definition.params);
            self.set(&definition.title.name, Use::Takes(arity))?;
        }
        Ok(())
    }

    /// What is outside, where nothing is known yet.
    ///
    /// # Errors
    ///
    /// Only for want of memory.
    pub fn set_outside(&mut self, outside: &Outside) -> Result<(), AllocError>
        ensures { OnOk result ((ts : List Tree) → self.old.uses.entries ≡ [] → AreModules self.old.modules (words outside.now.extended.items) → Sees self.new (sight_outside (outside_at ts outside.now))) }
    {
        self.set_read(&outside.definitions)?;
        self.set_placed(&outside.constants, Use::Takes(0))?;
        self.set_passed(&outside.opaque)
    }
}
