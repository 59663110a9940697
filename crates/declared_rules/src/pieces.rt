//! What a tree brings to where it is put in: the names that it binds, and those that are free in it.

ghost use Rattle.std.specs.Prelude.{◌≡◌, [], length, map, IfOk, OnOk};
ghost use Rattle.tla_tree.specs.Tree.{seen_names};
ghost use Rattle.tla_tree.specs.Shapes.{Shaped};
ghost use Rattle.tla_tree.specs.Pool.{at, trees_at, AllBelow};
ghost use Rattle.tla_pool.specs.FormOf.{groups_of, form_of};
ghost use Rattle.pcal_tree.specs.BoundNames.{all_of};
ghost use Rattle.pcal_tree.specs.OffencesRebind.{binds, pieces, pieces_in};
ghost use Rattle.declared_rules.specs.Gathering.{list_of, lists_of, each_pieces, form_pieces, own_pieces, Gathers, GathersParts};

use algorithm_limits::bound::Bound;
use std::alloc::{AllocError, Global};
use tla_pool::Pool;
use tla_pool::form::Form;
use tla_tree::{Name, NodeId, PlacedName};

/// What a tree brings.
#[derive(Drop)]
pub enum Piece {
    /// A name that it binds.
    Binds(PlacedName),
    /// A name that is free in it.
    Frees(Name),
}

/// What was brought, in the order of the text, and the names that are bound around what is met next.
#[derive(Drop)]
pub struct Pieces {
    pub list: Vec<Piece>,
    pub bound: Bound,
}

impl Pieces {
    // Names that are bound.
    fn names(&mut self, names: &[PlacedName]) -> Result<(), AllocError>
        ensures { OnOk result (Gathers self.old self.new (λ xs. map binds names.now)) }
    {
        for name in names {
            self.list.push(Piece::Binds(name.copied()?))?;
        }
        Ok(())
    }

    // Names of groups.
    fn groups(&mut self, groups: &[Vec<PlacedName>]) -> Result<(), AllocError>
        ensures { OnOk result (Gathers self.old self.new (λ xs. map binds (all_of (groups_of groups.now)))) }
    {
        for i in 0..groups.len() {
            self.names(&groups[i])?;
        }
        Ok(())
    }

    // A name that is used.
    fn free(&mut self, name: &Name) -> Result<(), AllocError>
        ensures { OnOk result (Gathers self.old self.new (own_pieces name.now)) }
    {
        if !self.bound.has(name) {
            self.list.push(Piece::Frees(name.copied()?))?;
        }
        Ok(())
    }

    // A form, without its parts.
    #[tactic(auto, using(crate::proofs::PieceLaws::gathers_none))]
    fn form(&mut self, form: &Form) -> Result<(), AllocError>
        ensures { OnOk result (Gathers self.old self.new (form_pieces (form_of form.now))) }
    {
        match form {
            Form::Binding(_, groups) => self.groups(groups),
            Form::Local(names) => self.names(names),
            Form::Name(name) => self.free(name),
            _ => Ok(()),
        }
    }

    // A tree. It calls itself as deep as forms are in forms.
    #[cycle(pieces)]
    fn expr(&mut self, pool: &Pool, e: NodeId) -> Result<(), AllocError>
        ensures { OnOk result (Gathers self.old self.new (pieces (at pool.now e))) }
    {
        let Some(node) = pool.get(e) else {
            return Ok(());
        };
        self.form(&node.form)?;
        let around = self.bound.len();
        self.parts(pool, &node.form, &node.parts, e)?;
        self.bound.truncate(around);
        Ok(())
    }

    // The parts of a form, which have smaller numbers than this; what it binds is bound then.
    #[cycle(pieces)]
    fn parts(
        &mut self,
        pool: &Pool,
        form: &Form,
        parts: &[NodeId],
        past: NodeId,
    ) -> Result<(), AllocError>
        requires there { AllBelow past parts.now }
        requires shaped { Shaped (form_of form.now) (length parts.now) }
        ensures { OnOk result (GathersParts self.old self.new (pieces_in (seen_names (form_of form.now)) (trees_at pool.now parts.now))) }
    {
        for i in 0..parts.len() {
            self.expr(pool, parts[i])?;
            self.bound.add_next(form, i)?;
        }
        Ok(())
    }
}

/// What a tree brings.
///
/// # Errors
///
/// Only for want of memory.
pub fn pieces_of(alloc: Global, pool: &Pool, e: NodeId) -> Result<Vec<Piece>, AllocError>
    ensures { IfOk result (λ r. list_of r.items ≡ pieces (at pool.now e) []) }
{
    let mut found = Pieces {
        list: Vec::new(alloc),
        bound: Bound::new(alloc),
    };
    match found.expr(pool, e) {
        Ok(()) => {
            let Pieces { list, bound } = found;
            drop(bound);
            Ok(list)
        }
        Err(error) => {
            drop(found);
            Err(error)
        }
    }
}

/// What each of these trees brings.
///
/// # Errors
///
/// Only for want of memory.
pub fn each_brings(alloc: Global, pool: &Pool, es: &[NodeId]) -> Result<Vec<Vec<Piece>>, AllocError>
    ensures { IfOk result (λ r. lists_of r.items ≡ each_pieces (trees_at pool.now es.now)) }
{
    let mut lists = Vec::new(alloc);
    for i in 0..es.len() {
        lists.push(pieces_of(alloc, pool, es[i])?)?;
    }
    Ok(lists)
}
