//! The names that expressions use, and do not bind.

ghost use Rattle.std.specs.Prelude.{◌≡◌, ◌&&◌, ◌++◌, not, false, bytes_eq, codes, [], length, IfOk, OnOk};
ghost use Rattle.tla_tree.specs.Tree.{words, seen_names};
ghost use Rattle.tla_tree.specs.Shapes.{Shaped};
ghost use Rattle.tla_tree.specs.Pool.{at, trees_at, AllBelow};
ghost use Rattle.tla_pool.specs.FormOf.{form_of};
ghost use Rattle.pcal_tree.specs.Reads.{named, if_free, used, used_by_parts};
ghost use Rattle.read_rules.specs.Using.{own_names, Adds, AddsParts};

use algorithm_limits::bound::Bound;
use algorithm_limits::literal::ends_in_literal;
use std::alloc::{AllocError, Global};
use tla_pool::Pool;
use tla_pool::form::Form;
use tla_token::Place;
use tla_tree::{Name, NodeId, PlacedName};

/// Names that were met where they are used, in the order of the text, all or `self` alone, and those that are bound around what is
/// met next.
#[derive(Drop)]
pub struct Used {
    /// Whether no name but `self` is kept.
    pub only_self: bool,
    /// Names that were met.
    pub names: Vec<PlacedName>,
    /// Names that are bound.
    pub bound: Bound,
}

impl Used {
    // Whether a name isn't kept.
    fn skips(&self, name: &Name) -> bool
        ensures { result ≡ (self.now.only_self && not (bytes_eq (codes "self") name.now)) }
    {
        self.only_self && name.bytes() != b"self".as_slice()
    }

    // A name at a place, if it isn't bound.
    fn name(&mut self, name: &Name, place: Place) -> Result<(), AllocError>
        ensures { OnOk result (Adds self.old self.new (λ xs. if_free xs (named name.now place))) }
    {
        if self.skips(name) {
            return Ok(());
        }
        if self.bound.has(name) {
            return Ok(());
        }
        self.names.push(PlacedName {
            name: name.copied()?,
            place,
        })?;
        Ok(())
    }

    // What a form uses besides its parts.
    fn form(&mut self, form: &Form, place: Place) -> Result<(), AllocError>
        ensures { OnOk result (Adds self.old self.new (own_names (form_of form.now) place)) }
    {
        match form {
            Form::Name(name) => self.name(name, place),
            Form::Call(name) => self.name(name, place),
            _ => Ok(()),
        }
    }

    /// An expression. It calls itself as deep as forms are in forms.
    ///
    /// # Errors
    ///
    /// Only for want of memory.
    #[cycle(used)]
    pub fn expr(&mut self, pool: &Pool, e: NodeId) -> Result<(), AllocError>
        ensures { OnOk result (Adds self.old self.new (used (at pool.now e))) }
    {
        let Some(node) = pool.get(e) else {
            return Ok(());
        };
        self.form(&node.form, node.place)?;
        let around = self.bound.len();
        self.parts(pool, &node.form, &node.parts, e)?;
        self.bound.truncate(around);
        Ok(())
    }

    // The parts of a form, which have smaller numbers than this; what it binds is bound then, unless just a literal is left.
    #[cycle(used)]
    fn parts(
        &mut self,
        pool: &Pool,
        form: &Form,
        parts: &[NodeId],
        past: NodeId,
    ) -> Result<(), AllocError>
        requires there { AllBelow past parts.now }
        requires shaped { Shaped (form_of form.now) (length parts.now) }
        ensures { OnOk result (AddsParts self.old self.new (used_by_parts (seen_names (form_of form.now)) (trees_at pool.now parts.now))) }
    {
        for i in 0..parts.len() {
            self.expr(pool, parts[i])?;
            if ends_in_literal(pool, parts, i) {
                return Ok(());
            }
            self.bound.add_next(form, i)?;
        }
        Ok(())
    }

    // The names of an expression, where these are bound and no other is.
    fn under(&mut self, pool: &Pool, params: &[PlacedName], e: NodeId) -> Result<(), AllocError>
        ensures { OnOk result (self.old.only_self ≡ false → self.old.bound ≡ [] → self.new.names.items ≡ self.old.names.items ++ used (at pool.now e) (words params.now)) }
    {
        self.bound.add_all(params)?;
        self.expr(pool, e)
    }

    /// The names that were met.
    pub fn met(self) -> Vec<PlacedName>
        ensures { result.items ≡ self.names.items }
    {
        let Used { names, bound, .. } = self;
        drop(bound);
        names
    }
}

/// The names that an expression uses where these are bound, in the order of the text.
///
/// # Errors
///
/// Only for want of memory.
pub fn used_names(
    alloc: Global,
    pool: &Pool,
    params: &[PlacedName],
    e: NodeId,
) -> Result<Vec<PlacedName>, AllocError>
    ensures { IfOk result (λ r. r.items ≡ used (at pool.now e) (words params.now)) }
{
    let mut used = Used {
        only_self: false,
        names: Vec::new(alloc),
        bound: Bound::new(alloc),
    };
    match used.under(pool, params, e) {
        Ok(()) => Ok(used.met()),
        Err(error) => {
            drop(used);
            Err(error)
        }
    }
}

/// The names that an expression uses where none is bound, in the order of the text.
///
/// # Errors
///
/// Only for want of memory.
pub fn free_names(alloc: Global, pool: &Pool, e: NodeId) -> Result<Vec<PlacedName>, AllocError>
    ensures { IfOk result (λ r. r.items ≡ used (at pool.now e) []) }
{
    used_names(alloc, pool, &[], e)
}
