//! The pool: expressions as numbered nodes, each node once.

ghost use Rattle.std.specs.Prelude.{◌≡◌, ◌<◌, ℕ, [], length, IfOk, IfNone, IfSome, OnErr};
ghost use Rattle.tla_tree.specs.Tree.{node, root_place};
ghost use Rattle.tla_pool.specs.FormOf.{form_of};
ghost use Rattle.tla_tree.specs.Pool.{at, nothing, trees_at, AllBelow, Keeps, Differ};
ghost use Rattle.tla_tree.specs.Shapes.{Shaped};

use crate::form::Form;
use crate::node::Node;
use indexmap::IndexSet;
use std::alloc::{AllocError, Global};
use std::marker::Model;
use tla_token::Place;
use tla_tree::NodeId;

/// Nodes, each once, with parts that have smaller numbers. Contracts see the list of the trees of the numbers.
#[derive(Drop)]
pub struct Pool {
    nodes: IndexSet<Node>,
}

impl Model for Pool {
    ghost use Rattle.std.specs.Prelude.{List, []};
    ghost use Rattle.std.specs.Coded.{coded_list};
    ghost use Rattle.tla_tree.specs.Tree.{Tree};
    ghost use Rattle.tla_tree.specs.Code.{tree_code};
    ghost use Rattle.tla_tree.specs.Pool.{grown, AreOlder, AreShaped};

    ghost Value = { List Tree };

    ghost coded = { coded_list tree_code };

    ghost view = { λ p. grown [] p.nodes.keys };

    ghost invariant = { λ p. AreOlder 0 p.nodes.keys × AreShaped p.nodes.keys };
}

impl Pool {
    /// No node.
    pub fn new(alloc: Global) -> Pool
        ensures { result ≡ [] }
    {
        Pool {
            nodes: IndexSet::new(alloc),
        }
    }

    /// Makes room for so many more nodes, which are then put in without growing.
    ///
    /// # Errors
    ///
    /// Only for want of memory; the pool is then as before.
    pub fn reserve(&mut self, additional: usize) -> Result<(), AllocError>
        ensures { self.new ≡ self.old }
    {
        self.nodes.reserve(additional)
    }

    /// How many nodes there are.
    pub fn len(&self) -> usize
        ensures { result ≡ length self.now }
    {
        self.nodes.len()
    }

    /// The number of the node of this form and place over these parts: an old one where there is one.
    ///
    /// # Errors
    ///
    /// Only for want of memory; the pool is then as before.
    pub fn put(
        &mut self,
        form: Form,
        place: Place,
        parts: Vec<NodeId>,
    ) -> Result<NodeId, AllocError>
        requires below { AllBelow (length self.old) parts.items }
        requires shaped { Shaped (form_of form) (length parts.items) }
        ensures tree { IfOk result (λ id. at self.new id ≡ node (form_of form) place (trees_at self.old parts.items)) }
        ensures within { IfOk result (λ id. id < length self.new) }
        ensures old { IfOk result (λ id. (i : ℕ) → i < length self.old → at self.old i ≡ node (form_of form) place (trees_at self.old parts.items) → id ≡ i) }
        ensures kept { Keeps self.old self.new }
        ensures err { OnErr result (self.new ≡ self.old) }
    {
        let (id, _) = self.nodes.insert_full(Node { form, place, parts })?;
        Ok(id)
    }

    /// The node of a number.
    pub fn node(&self, id: NodeId) -> &Node
        requires { id < length self.now }
        ensures tree { at self.now id ≡ node result.now.form result.now.place (trees_at self.now result.now.parts) }
        ensures older { AllBelow id result.now.parts }
        ensures shaped { Shaped result.now.form (length result.now.parts) }
    {
        self.nodes.get_index(id).unwrap()
    }

    /// The node of a number, if there is one.
    pub fn get(&self, id: NodeId) -> Option<&Node>
        ensures some { IfSome result (λ n. at self.now id ≡ node n.now.form n.now.place (trees_at self.now n.now.parts)) }
        ensures none { IfNone result (at self.now id ≡ nothing) }
        ensures older { IfSome result (λ n. AllBelow id n.now.parts) }
        ensures shaped { IfSome result (λ n. Shaped n.now.form (length n.now.parts)) }
    {
        self.nodes.get_index(id)
    }

    /// Where the node of a number begins: on line 0 if there is none.
    pub fn place(&self, id: NodeId) -> Place
        ensures { result ≡ root_place (at self.now id) }
    {
        match self.get(id) {
            Some(node) => node.place,
            None => Place { line: 0, col: 0 },
        }
    }

    /// Different numbers have different trees.
    pub fn differ(&self)
        ensures { Differ self.now }
    {
        let _count = self.nodes.len();
    }
}
