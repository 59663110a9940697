//! Nodes of a pool.

ghost use Rattle.std.specs.Prelude.{◌≡◌, IfOk, IsTrue, ◌↔◌};

use crate::form::Form;
use std::alloc::{AllocError, Global};
use std::hash::{Hash, Hasher};
use std::marker::Model;
use tla_token::Place;
use tla_tree::NodeId;

/// A node: a form, the place of its first token, and the numbers of its parts.
#[derive(Drop)]
pub struct Node {
    pub form: Form,
    pub place: Place,
    pub parts: Vec<NodeId>,
}

impl Model for Node {
    ghost use Rattle.tla_pool.specs.FormOf.{form_of};
    ghost use Rattle.tla_tree.specs.Pool.{Entry, entry_code};

    ghost Value = { Entry };

    ghost coded = { entry_code };

    ghost view = { λ n. record { form = form_of n.form; place = n.place; parts = n.parts.items } };
}

impl Node {
    /// The same node once more.
    ///
    /// # Errors
    ///
    /// Only for want of memory.
    pub fn copied(&self, alloc: Global) -> Result<Node, AllocError>
        ensures { IfOk result (λ n. n ≡ self.now) }
    {
        Ok(Node {
            form: self.form.copied(alloc)?,
            place: self.place,
            parts: self.parts.clone()?,
        })
    }

    /// Whether the two are the same node.
    pub fn is(&self, other: &Node) -> bool
        ensures { IsTrue result ↔ (self.now ≡ other.now) }
    {
        self.form.is(&other.form) && self.place == other.place && self.parts == other.parts
    }
}

impl PartialEq for Node {
    ghost use Rattle.tla_tree.specs.Pool.{same_entry};
    ghost use Rattle.tla_tree.specs.PoolEquality.{same_partial};

    ghost eq = { same_entry };

    ghost laws = { same_partial };

    fn eq(&self, other: &Node) -> bool {
        self.is(other)
    }
}

impl Eq for Node {
    ghost use Rattle.tla_tree.specs.PoolEquality.{same_equivalence};

    ghost laws = { same_equivalence };
}

// A place is hashed as one number; its column is below this.
const PAST_COLUMNS: u64 = 1 << 32;

impl Hash for Node {
    ghost use Rattle.tla_tree.specs.PoolEquality.{fed_entry, fed_same};

    ghost hash_input = { fed_entry };

    ghost respects_eq = { fed_same };

    fn hash<H: Hasher>(&self, state: &mut H) {
        let Place { line, col } = self.place;
        let place = u64::from(line) * PAST_COLUMNS + u64::from(col);
        place.hash(state);
        usize::hash_slice(&self.parts, state);
        self.form.word().hash(state);
    }
}
