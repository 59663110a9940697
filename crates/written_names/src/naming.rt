//! The written names of an algorithm, as they are looked up.

ghost use Rattle.std.specs.Prelude.{◌≡◌, [], cond, bytes_eq, Some, None, Option, unwrap_or, OnOk};
ghost use Rattle.tla_tree.specs.Tree.{Word};
ghost use Rattle.written_names.specs.Giving.{found, first_of};
ghost use Rattle.written_names.specs.Units.{naming_of};

use indexmap::IndexMap;
use std::alloc::{AllocError, Global};
use std::marker::Model;
use tla_tree::Name;

/// Words with their written names. Contracts see the list of these pairs.
#[derive(Drop)]
pub struct Renamed {
    names: IndexMap<Name, Name>,
}

impl Model for Renamed {
    ghost use Rattle.std.specs.Coded.{coded_list, coded×, coded_ℕ};
    ghost use Rattle.written_names.specs.Giving.{Pairs};

    ghost Value = { Pairs };

    ghost coded = { coded_list (coded× (coded_list coded_ℕ) (coded_list coded_ℕ)) };

    ghost view = { λ r. r.names.entries };
}

impl Renamed {
    /// No word has a name.
    pub fn new(alloc: Global) -> Renamed
        ensures { result ≡ [] }
    {
        Renamed {
            names: IndexMap::new(alloc),
        }
    }

    /// Keeps the written name of a word, unless one is kept already.
    ///
    /// # Errors
    ///
    /// Only for want of memory.
    #[tactic(auto, using(crate::proofs::Steps::kept_first, crate::proofs::Steps::kept_new))]
    pub fn keep(&mut self, word: &Name, written: Name) -> Result<(), AllocError>
        ensures { OnOk result ((x : Word) → found self.new x ≡ first_of (found self.old x) (cond (bytes_eq word.now x) (Some written) None)) }
    {
        if !self.names.contains_key(word) {
            self.names.insert(word.copied()?, written)?;
        }
        Ok(())
    }

    /// The written name of a word; the word itself where it has none.
    pub fn get<'n>(&'n self, word: &'n Name) -> &'n Name
        ensures { result.now ≡ unwrap_or (found self.now word.now) word.now }
    {
        match self.names.get(word) {
            Some(written) => written,
            None => word,
        }
    }
}

/// The written names of one routine: its own, and those of its variables and labels.
#[derive(Drop)]
pub struct UnitNames {
    /// Its own; empty where it has none.
    pub title: Name,
    /// Those of its variables and parameters.
    pub variables: Renamed,
    /// Those of its labels.
    pub labels: Renamed,
}

/// The written names of an algorithm. Contracts see the list of those of its units, in the order of their numbers.
#[derive(Drop)]
pub struct Naming {
    units: Vec<UnitNames>,
}

impl Model for Naming {
    ghost use Rattle.std.specs.Prelude.{List};
    ghost use Rattle.std.specs.Coded.{coded_list};
    ghost use Rattle.written_names.specs.declared.naming.UnitNames.{UnitNames as Names};
    ghost use Rattle.written_names.specs.Units.{unit_code};

    ghost Value = { List Names };

    ghost coded = { coded_list unit_code };

    ghost view = { λ n. n.units.items };
}

impl Naming {
    /// Of these units.
    pub fn new(units: Vec<UnitNames>) -> Naming
        ensures { result ≡ units.items }
    {
        Naming { units }
    }

    /// The written name of a variable or parameter of a unit; the name itself where it has no such variable.
    pub fn local<'n>(&'n self, unit: usize, name: &'n Name) -> &'n Name
        ensures { result.now ≡ (naming_of self.now).local unit name.now }
    {
        match self.units.get(unit) {
            Some(names) => names.variables.get(name),
            None => name,
        }
    }

    /// The written name of a label of a unit; the name itself where it has no such label.
    pub fn label<'n>(&'n self, unit: usize, name: &'n Name) -> &'n Name
        ensures { result.now ≡ (naming_of self.now).label unit name.now }
    {
        match self.units.get(unit) {
            Some(names) => names.labels.get(name),
            None => name,
        }
    }

    /// The written name of a unit; empty where it has none.
    pub fn title(&self, unit: usize) -> &[u8]
        ensures { result.now ≡ (naming_of self.now).title unit }
    {
        match self.units.get(unit) {
            Some(names) => names.title.bytes(),
            None => b"",
        }
    }
}
