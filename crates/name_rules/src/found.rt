//! What was found: the first offence that rests on no name around, and the uses of names that are not bound.

ghost use Rattle.std.specs.Prelude.{◌≡◌, ◌<◌, ℕ, List, length, drop, slice_index_or, IsTrue, OnOk};
ghost use Rattle.tla_token.specs.declared.rule.Refusal.{Refusal as PureRefusal};
ghost use Rattle.tla_tree.specs.Tree.{seen_names};
ghost use Rattle.tla_tree.specs.Shapes.{Shaped};
ghost use Rattle.tla_tree.specs.Pool.{at, trees_at, AllBelow};
ghost use Rattle.tla_value.specs.StandardModules.{is_member as is_member_of};
ghost use Rattle.tla_pool.specs.FormOf.{form_of};
ghost use Rattle.pcal_tree.specs.Offences.{first};
ghost use Rattle.pcal_tree.specs.NameUses.{Sight};
ghost use Rattle.algorithm_answer.specs.Joined.{joined};
ghost use Rattle.pcal_tree.specs.OffencesNames.{form_offences, root_offences, in_tree, in_parts, in_each, in_left};
ghost use Rattle.declared_rules.specs.declared.using.NameUse.{NameUse as PureUse};
ghost use Rattle.declared_rules.specs.UsesTold.{used, IsEarlier};
ghost use Rattle.name_rules.specs.Finding.{told, IsNew, Tells, TellsParts};

use algorithm_limits::bound::Bound;
use algorithm_limits::literal::ends_in_literal;
use algorithm_limits::order::least;
use declared_rules::using::{Kind, NameUse, Use, offence_as};
use indexmap::IndexSet;
use module_outside::depth::is_last_of_member;
use std::alloc::{AllocError, Global};
use tla_pool::Pool;
use tla_pool::form::Form;
use tla_token::{Place, Refusal};
use tla_tree::{Name, NodeId};

// Among how many of the uses that are kept one is looked for that tells another.
const MANY: usize = 16;

/// The first offence that rests on no name around, the uses of names that are not bound, each once, and the names that are bound
/// around what is looked at next.
#[derive(Drop)]
pub struct Found {
    pub first: Option<Refusal>,
    pub free: IndexSet<NameUse>,
    pub bound: Bound,
}

impl Found {
    /// Nothing was found, and no name is bound.
    pub fn new(alloc: Global) -> Found
        ensures { IsNew result }
    {
        Found {
            first: None,
            free: IndexSet::new(alloc),
            bound: Bound::new(alloc),
        }
    }

    /// Nothing was found, and no name is bound, in place of what was.
    pub fn restart(&mut self)
        ensures { IsNew self.new }
    {
        self.first = None;
        self.free.truncate(0);
        self.bound.truncate(0);
    }

    /// An offence, whatever is known around, if there is one.
    pub fn refuse(&mut self, refusal: Option<Refusal>)
        ensures { (rs : List PureRefusal) → refusal ≡ first rs → Tells self.old self.new (λ r. rs) }
    {
        self.first = least(self.first, refusal);
    }

    // Whether one of the first uses that are kept is the same, and no later: whatever this use offends, that one does.
    fn is_told(&self, name: &Name, kind: Kind, place: Place) -> bool
        ensures tells { IsTrue result → (s : Sight) → joined (told self.now s) (first (used kind name.now place s)) ≡ told self.now s }
        ensures looks { (k : ℕ) (d : PureUse) → k < 16 → k < length self.now.free.keys → IsEarlier (slice_index_or self.now.free.keys k d) kind name.now place → IsTrue result }
    {
        let uses = self.free.as_slice();
        for i in 0..uses.len() {
            if i == MANY {
                return false;
            }
            if uses[i].is_earlier(name, kind, place) {
                return true;
            }
        }
        false
    }

    /// A use of a name, at a place.
    ///
    /// # Errors
    ///
    /// Only for want of memory.
    pub fn keep(&mut self, name: &Name, kind: Kind, place: Place) -> Result<(), AllocError>
        ensures { OnOk result (Tells self.old self.new (used kind name.now place)) }
    {
        if self.bound.has(name) {
            self.refuse(offence_as(Use::Takes(0), kind, place));
            return Ok(());
        }
        if self.is_told(name, kind, place) {
            return Ok(());
        }
        self.free.insert(NameUse {
            name: name.copied()?,
            kind,
            line: place.line,
            col: place.col,
        })?;
        Ok(())
    }

    // What a form with so many parts uses besides them.
    fn form(
        &mut self,
        form: &Form,
        right: bool,
        parts: usize,
        place: Place,
    ) -> Result<(), AllocError>
        ensures { OnOk result (Tells self.old self.new (λ r. form_offences r right (form_of form.now) parts place)) }
    {
        match form {
            Form::Name(name) => self.keep(name, Kind::Applied(0, right), place),
            Form::Call(name) => self.keep(name, Kind::Applied(parts, right), place),
            _ => Ok(()),
        }
    }

    /// An expression; true where it is directly right of `\in` or `\notin`. It calls itself as deep as forms are in forms.
    ///
    /// # Errors
    ///
    /// Only for want of memory.
    #[cycle(trees)]
    pub fn expr(&mut self, pool: &Pool, right: bool, e: NodeId) -> Result<(), AllocError>
        ensures { OnOk result (Tells self.old self.new (in_tree (at pool.now e) right)) }
    {
        let Some(node) = pool.get(e) else {
            return Ok(());
        };
        let parts: &[NodeId] = &node.parts;
        self.form(&node.form, right, parts.len(), node.place)?;
        let around = self.bound.len();
        self.parts(pool, &node.form, parts, e)?;
        self.bound.truncate(around);
        Ok(())
    }

    // The parts of a form, which have smaller numbers than this; what it binds is bound then, unless just a literal is left.
    #[cycle(trees)]
    fn parts(
        &mut self,
        pool: &Pool,
        form: &Form,
        parts: &[NodeId],
        past: NodeId,
    ) -> Result<(), AllocError>
        requires there { AllBelow past parts.now }
        requires shaped { Shaped (form_of form.now) (length parts.now) }
        ensures { OnOk result (TellsParts self.old self.new (in_parts (seen_names (form_of form.now)) (is_member_of (form_of form.now)) (trees_at pool.now parts.now))) }
    {
        for i in 0..parts.len() {
            let right = is_last_of_member(form, i, parts.len());
            self.expr(pool, right, parts[i])?;
            if ends_in_literal(pool, parts, i) {
                return Ok(());
            }
            self.bound.add_next(form, i)?;
        }
        Ok(())
    }

    /// Expressions, from this number on.
    ///
    /// # Errors
    ///
    /// Only for want of memory.
    pub fn exprs(&mut self, pool: &Pool, es: &[NodeId], from: usize) -> Result<(), AllocError>
        ensures { OnOk result (Tells self.old self.new (in_each (trees_at pool.now (drop from es.now)))) }
    {
        for i in from..es.len() {
            self.expr(pool, false, es[i])?;
        }
        Ok(())
    }

    // What a left side begins with, if it is a name.
    fn root(&mut self, form: &Form, place: Place) -> Result<(), AllocError>
        ensures { OnOk result (Tells self.old self.new (λ r. root_offences r (form_of form.now) place)) }
    {
        match form {
            Form::Name(name) => self.keep(name, Kind::Assigned, place),
            _ => Ok(()),
        }
    }

    /// A left side. It calls itself once for each of its subscripts and fields.
    ///
    /// # Errors
    ///
    /// Only for want of memory.
    #[cycle(lefts)]
    pub fn left(&mut self, pool: &Pool, e: NodeId) -> Result<(), AllocError>
        ensures { OnOk result (Tells self.old self.new (in_left (at pool.now e))) }
    {
        let Some(node) = pool.get(e) else {
            return Ok(());
        };
        let parts: &[NodeId] = &node.parts;
        self.root(&node.form, node.place)?;
        if parts.len() > 0 {
            self.left(pool, parts[0])?;
            self.exprs(pool, parts, 1)?;
        }
        Ok(())
    }
}
