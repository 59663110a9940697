//! Numbers of names.

ghost use Rattle.std.specs.Prelude.{◌≡◌, [], OnOk};
ghost use Rattle.algorithm_limits.specs.Numbers.{number_of, with_number};

use indexmap::IndexMap;
use std::alloc::{AllocError, Global};
use std::marker::Model;
use tla_tree::Name;

/// A number for each name that has one. Contracts see it as the list of these pairs.
#[derive(Drop)]
pub struct Table {
    numbers: IndexMap<Name, usize>,
}

impl Model for Table {
    ghost use Rattle.std.specs.Coded.{coded_list, coded×, coded_ℕ};
    ghost use Rattle.algorithm_limits.specs.Numbers.{Numbers};

    ghost Value = { Numbers };

    ghost coded = { coded_list (coded× (coded_list coded_ℕ) coded_ℕ) };

    ghost view = { λ t. t.numbers.entries };
}

impl Table {
    /// No name has a number.
    pub fn new(alloc: Global) -> Table
        ensures { result ≡ [] }
    {
        Table {
            numbers: IndexMap::new(alloc),
        }
    }

    /// The number of a name; 0 where it has none.
    #[tactic(auto, using(crate::proofs::Tables::none_numbered))]
    pub fn get(&self, name: &Name) -> usize
        ensures { result ≡ number_of self.now name.now }
    {
        if self.numbers.len() == 0 {
            return 0;
        }
        self.numbers.get(name).copied().unwrap_or(0)
    }

    /// Gives a name a number, in place of one that it has.
    ///
    /// # Errors
    ///
    /// Only for want of memory.
    pub fn set(&mut self, name: Name, number: usize) -> Result<(), AllocError>
        ensures { OnOk result (self.new ≡ with_number self.old name number) }
    {
        self.numbers.insert(name, number)?;
        Ok(())
    }
}
