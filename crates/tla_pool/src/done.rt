//! What a graft has made already: for each number that it went to, the number of the grafted tree.

ghost use Rattle.std.specs.Prelude.{◌≡◌, [], nat_eq, OnOk};
ghost use Rattle.std.specs.Map.{lookup};
ghost use Rattle.indexmap.specs.IndexMap.{insert_entry};

use indexmap::IndexMap;
use std::alloc::{AllocError, Global};
use std::marker::Model;
use tla_tree::NodeId;

/// Numbers, each with the number that was made of it. Contracts see the list of these pairs.
#[derive(Drop)]
pub(crate) struct Done {
    made: IndexMap<NodeId, NodeId>,
}

impl Model for Done {
    ghost use Rattle.std.specs.Prelude.{List, ℕ};
    ghost use Rattle.std.specs.Coded.{coded_list, coded×, coded_ℕ};

    ghost Value = { List (ℕ × ℕ) };

    ghost coded = { coded_list (coded× coded_ℕ coded_ℕ) };

    ghost view = { λ d. d.made.entries };
}

impl Done {
    /// Nothing is made yet.
    pub(crate) fn new(alloc: Global) -> Done
        ensures { result ≡ [] }
    {
        Done {
            made: IndexMap::new(alloc),
        }
    }

    /// What was made of a number, if anything.
    pub(crate) fn get(&self, e: NodeId) -> Option<NodeId>
        ensures { result ≡ lookup (nat_eq e) self.now }
    {
        self.made.get(&e).copied()
    }

    /// From now on this is made of the number.
    pub(crate) fn keep(&mut self, e: NodeId, made: NodeId) -> Result<(), AllocError>
        ensures { OnOk result (self.new ≡ insert_entry nat_eq self.old e made) }
    {
        self.made.insert(e, made)?;
        Ok(())
    }
}
