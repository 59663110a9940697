//! States: a value for each name, in the order of the names.

ghost use Rattle.std.specs.Prelude.{◌≡◌, [], OnOk, OnErr, IfOk, length};
ghost use Rattle.std.specs.Option.{option_copied};
ghost use Rattle.tla_value.specs.States.{value_of, updated};

use crate::value::Value;
use indexmap::IndexMap;
use std::alloc::{AllocError, Global};
use std::marker::Model;
use tla_tree::Name;

/// A value for each name, in the order in which the names came. Contracts see it as the list of
/// these pairs.
#[derive(Drop)]
pub struct State {
    map: IndexMap<Name, Value>,
}

impl Model for State {
    ghost use Rattle.std.specs.Coded.{coded_list, coded×, coded_ℕ};
    ghost use Rattle.tla_value.specs.Code.{value_code};
    ghost use Rattle.tla_value.specs.States.{Entries};

    ghost Value = { Entries };

    ghost coded = { coded_list (coded× (coded_list coded_ℕ) value_code) };

    ghost view = { λ s. s.map.entries };
}

impl State {
    /// The state without names.
    pub fn new(alloc: Global) -> State
        ensures { result ≡ [] }
    {
        State {
            map: IndexMap::new(alloc),
        }
    }

    /// How many names have a value.
    pub fn len(&self) -> usize
        ensures { result ≡ length self.now }
    {
        self.map.len()
    }

    /// The value of a name.
    pub fn get(&self, name: &Name) -> Option<&Value>
        ensures { option_copied result ≡ value_of self.now name.now }
    {
        self.map.get(name)
    }

    /// Gives a name a value, and answers the one that it had; a new name goes last.
    ///
    /// # Errors
    ///
    /// Only for want of memory; the state is then as before.
    pub fn replace(&mut self, name: Name, value: Value) -> Result<Option<Value>, AllocError>
        ensures ok { OnOk result (self.new ≡ updated self.old name value) }
        ensures before { IfOk result (λ o. o ≡ value_of self.old name) }
        ensures err { OnErr result (self.new ≡ self.old) }
    {
        match self.map.insert(name, value) {
            Ok(old) => Ok(old),
            Err(_) => Err(AllocError),
        }
    }

    /// Gives a name a value; a new name goes last.
    ///
    /// # Errors
    ///
    /// Only for want of memory; the state is then as before.
    pub fn set(&mut self, name: Name, value: Value) -> Result<(), AllocError>
        ensures ok { OnOk result (self.new ≡ updated self.old name value) }
        ensures err { OnErr result (self.new ≡ self.old) }
    {
        match self.map.insert(name, value) {
            Ok(_) => Ok(()),
            Err(_) => Err(AllocError),
        }
    }
}
