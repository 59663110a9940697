//! Giving names, to each word the first that is free.

ghost use Rattle.std.specs.Prelude.{◌≡◌, ◌∷◌, ◌||◌, List, true, IfOk, OnOk};
ghost use Rattle.tla_tree.specs.Tree.{Word};
ghost use Rattle.pcal_tree.specs.Names.{is_taken as is_taken_of, first_free};
ghost use Rattle.written_names.specs.Giving.{SameNames, AreTried, IsFound, Knows};

use crate::words::{is_listed, is_word, numbered};
use algorithm_limits::bound::Bound;
use algorithm_limits::table::Table;
use std::alloc::{AllocError, Global};
use std::marker::Model;
use tla_tree::Name;

/// What is known of names that are taken. A table has, for each word that was wanted already, up to which number its names
/// are taken, so none is looked at twice.
#[derive(Drop)]
pub struct Giver {
    sequences: bool,
    tlc: bool,
    names: Bound,
    tried: Table,
}

impl Model for Giver {
    ghost use Rattle.written_names.specs.Giving.{Known, known_code};

    ghost Value = { Known };

    ghost coded = { known_code };

    ghost view = { λ g. record { sequences = g.sequences; tlc = g.tlc; names = g.names; tried = g.tried } };
}

impl Giver {
    /// In a module that extends these, where these names are taken.
    #[tactic(auto, using(crate::proofs::Steps::none_tried))]
    pub fn new(alloc: Global, extended: &[Name], names: Bound) -> Giver
        ensures { (taken : List Word) → SameNames names taken → Knows result extended.now taken }
    {
        Giver {
            sequences: is_listed(extended, b"Sequences"),
            tlc: is_listed(extended, b"TLC"),
            names,
            tried: Table::new(alloc),
        }
    }

    // Whether a name is one that no unit can have, or is taken.
    fn is_taken(&self, name: &Name) -> bool
        ensures { (extended taken : List Word) → Knows self.now extended taken → result ≡ is_taken_of extended self.now.names name.now }
    {
        is_word(self.sequences, self.tlc, name.bytes()) || self.names.has(name)
    }

    // The name with the first number that is free. More names than there are numbers aren't in memory.
    fn first_numbered(&self, alloc: Global, name: &Name) -> Result<(Name, usize), AllocError>
        ensures { IfOk result (λ f. AreTried self.now.names self.now.tried → IsFound self.now.names name.now f.0 f.1) }
    {
        for less in self.tried.get(name)..usize::MAX {
            let found = numbered(alloc, name, less + 1)?;
            if !self.names.has(&found) {
                return Ok((found, less + 1));
            }
        }
        Err(AllocError)
    }

    // A name is taken, and with it all of its word with numbers up to this.
    fn take(&mut self, name: &Name, found: &Name, number: usize) -> Result<(), AllocError>
        ensures { OnOk result ((extended taken : List Word) → Knows self.old extended taken → is_taken_of extended self.old.names name.now ≡ true → IsFound self.old.names name.now found.now number → Knows self.new extended (first_free extended taken name.now ∷ taken)) }
    {
        self.names.add(found)?;
        self.tried.set(name.copied()?, number)
    }

    /// The name that a word gets; from now on it is taken.
    ///
    /// # Errors
    ///
    /// Only for want of memory.
    pub fn give(&mut self, alloc: Global, name: &Name) -> Result<Name, AllocError>
        ensures name { IfOk result (λ w. (extended taken : List Word) → Knows self.old extended taken → w ≡ first_free extended taken name.now) }
        ensures known { OnOk result ((extended taken : List Word) → Knows self.old extended taken → Knows self.new extended (first_free extended taken name.now ∷ taken)) }
    {
        if !self.is_taken(name) {
            self.names.add(name)?;
            return name.copied();
        }
        let (found, number) = self.first_numbered(alloc, name)?;
        self.take(name, &found, number)?;
        Ok(found)
    }
}
