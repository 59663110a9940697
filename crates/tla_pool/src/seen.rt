//! An expression of a pool, seen as its tree.

ghost use Rattle.std.specs.Prelude.{◌≡◌, ◌<◌, length, slice_get, Some};
ghost use Rattle.tla_pool.specs.FormOf.{form_of};
ghost use Rattle.tla_tree.specs.Tree.{root_place};
ghost use Rattle.tla_tree.specs.TreeOf.{root_form, root_parts};
ghost use Rattle.tla_tree.specs.Shapes.{Shaped};
ghost use Rattle.tla_tree.specs.Pool.{at};

use crate::form::Form;
use crate::pool::Pool;
use std::marker::Model;
use tla_token::Place;
use tla_tree::NodeId;

/// An expression of a pool, for what only reads. Contracts see its tree.
#[derive(Drop)]
pub struct Seen<'p> {
    pool: &'p Pool,
    id: NodeId,
}

impl<'p> Model for Seen<'p> {
    ghost use Rattle.std.specs.Prelude.{◌<◌, length};
    ghost use Rattle.tla_tree.specs.Tree.{Tree};
    ghost use Rattle.tla_tree.specs.Code.{tree_code};
    ghost use Rattle.tla_tree.specs.Pool.{at};

    ghost Value = { Tree };

    ghost coded = { tree_code };

    ghost view = { λ s. at s.pool.now s.id };

    ghost invariant = { λ s. s.id < length s.pool.now };
}

impl<'p> Seen<'p> {
    /// The expression of this number.
    pub fn new(pool: &'p Pool, id: NodeId) -> Seen<'p>
        requires { id < length pool.now }
        ensures { result ≡ at pool.now id }
    {
        Seen { pool, id }
    }

    /// What it is.
    pub fn form(&self) -> &'p Form
        ensures { form_of result.now ≡ root_form self.now }
    {
        let node = self.pool.node(self.id);
        &node.form
    }

    /// Where its first token is.
    pub fn place(&self) -> Place
        ensures { result ≡ root_place self.now }
    {
        let node = self.pool.node(self.id);
        node.place
    }

    /// How many parts it has.
    pub fn len(&self) -> usize
        ensures { result ≡ length (root_parts self.now) }
    {
        let node = self.pool.node(self.id);
        node.parts.len()
    }

    /// One of its parts.
    pub fn part(&self, i: usize) -> Seen<'p>
        requires { i < length (root_parts self.now) }
        ensures { slice_get (root_parts self.now) i ≡ Some result }
    {
        let pool = self.pool;
        let node = pool.node(self.id);
        Seen {
            pool,
            id: node.parts[i],
        }
    }

    /// It has as many parts as its form asks for.
    pub fn shaped(&self)
        ensures { Shaped (root_form self.now) (length (root_parts self.now)) }
    {
        let _node = self.pool.node(self.id);
    }
}
