//! Names that are taken from the start: those that a walk met, those of units outside, and all that expressions bind.

ghost use Rattle.std.specs.Prelude.{◌≡◌, ◌<◌, ◌≤◌, ◌∷◌, ◌||◌, List, [], length, map, replicate, false, IfOk, OnOk};
ghost use Rattle.std.specs.List.{flat_map};
ghost use Rattle.tla_token.specs.Signs.{is_among};
ghost use Rattle.tla_tree.specs.Tree.{Tree, Word, words};
ghost use Rattle.pcal_tree.specs.InMemory.{past_numbers};
ghost use Rattle.pcal_tree.specs.Names.{taken_outside};
ghost use Rattle.tla_pool.specs.FormOf.{form_of};
ghost use Rattle.pcal_tree.specs.BoundNames.{lists_of};
ghost use Rattle.module_outside.specs.WholeAt.{outside_at};
ghost use Rattle.declared_rules.specs.Parts.{bind_name};
ghost use Rattle.declared_rules.specs.Met.{words_within, bound_words, holds, Adds, expr_words};

use crate::outside_words::bind_units;
use algorithm_limits::bound::Bound;
use module_outside::definition::ReadDefinition;
use module_outside::outside::Outside;
use pcal_tree::algorithm::Bind;
use std::alloc::{AllocError, Global};
use tla_pool::Pool;
use tla_pool::form::Form;
use tla_tree::{Name, NodeId, PlacedName};

/// Names that were met, and marks of the expressions that were: the names that these bind are still to be added. So each
/// expression is looked at once.
#[derive(Drop)]
pub struct Met {
    pub names: Bound,
    pub marks: Vec<bool>,
}

impl Met {
    /// A name.
    ///
    /// # Errors
    ///
    /// Only for want of memory.
    pub fn name(&mut self, name: &Name) -> Result<(), AllocError>
        ensures { OnOk result ((ts : List Tree) → Adds ts self.old self.new (name.now ∷ [])) }
    {
        self.names.add(name)
    }

    /// Names.
    ///
    /// # Errors
    ///
    /// Only for want of memory.
    pub fn names(&mut self, names: &[PlacedName]) -> Result<(), AllocError>
        ensures { OnOk result ((ts : List Tree) → Adds ts self.old self.new (words names.now)) }
    {
        self.names.add_all(names)
    }

    /// Names that a `with` binds.
    ///
    /// # Errors
    ///
    /// Only for want of memory.
    pub fn bind_names(&mut self, binds: &[Bind]) -> Result<(), AllocError>
        ensures { OnOk result ((ts : List Tree) → Adds ts self.old self.new (words (map bind_name binds.now))) }
    {
        for bind in binds {
            match bind {
                Bind::Among(name, _) | Bind::Is(name, _) => self.name(&name.name)?,
            }
        }
        Ok(())
    }

    /// An expression; nothing is added for a number past the marks.
    pub fn mark(&mut self, e: NodeId)
        ensures adds { e < length self.old.marks.items → (ts : List Tree) → Adds ts self.old self.new (expr_words ts e) }
        ensures past { length self.old.marks.items ≤ e → self.new ≡ self.old }
    {
        if e < self.marks.len() {
            self.marks[e] = true;
        }
    }

    // Expressions.
    fn exprs(&mut self, es: &[NodeId])
        requires { past_numbers es.now ≤ length self.old.marks.items }
        ensures { (ts : List Tree) → Adds ts self.old self.new (flat_map (expr_words ts) es.now) }
    {
        for e in es {
            self.mark(*e);
        }
    }

    // The names that a form binds.
    fn form(&mut self, form: &Form) -> Result<(), AllocError>
        ensures { OnOk result ((ts : List Tree) → Adds ts self.old self.new (bound_words (lists_of (form_of form.now)))) }
    {
        match form {
            Form::Binding(_, groups) => self.names.add_groups(groups),
            Form::Local(names) => self.names.add_all(names),
            _ => Ok(()),
        }
    }

    // The names of an expression: those of its form, and its parts are marked, which have smaller numbers.
    fn open(&mut self, pool: &Pool, e: NodeId) -> Result<(), AllocError>
        requires { length self.old.marks.items ≡ e }
        ensures { OnOk result (Adds pool.now self.old self.new (expr_words pool.now e)) }
    {
        let Some(node) = pool.get(e) else {
            return Ok(());
        };
        self.form(&node.form)?;
        self.exprs(&node.parts);
        Ok(())
    }

    // The names of all that is marked, from the greatest number down.
    fn sweep(&mut self, pool: &Pool) -> Result<(), AllocError>
        requires { length self.old.marks.items ≤ length pool.now }
        ensures { OnOk result ((w : Word) → is_among self.new.names w ≡ holds pool.now self.old w) }
    {
        while let Some(marked) = self.marks.pop() {
            if marked {
                let e = self.marks.len();
                self.open(pool, e)?;
            }
        }
        Ok(())
    }

    // The parameters of a definition outside, and its body; a number past the marks has no names.
    fn read(&mut self, definition: &ReadDefinition) -> Result<(), AllocError>
        ensures { OnOk result ((ts : List Tree) → length ts ≤ length self.old.marks.items → Adds ts self.old self.new (words_within ts definition.now)) }
    {
        self.names(&definition.params)?;
        self.mark(definition.body);
        Ok(())
    }

    // Definitions that were read outside.
    fn reads(&mut self, list: &[ReadDefinition]) -> Result<(), AllocError>
        ensures { OnOk result ((ts : List Tree) → length ts ≤ length self.old.marks.items → Adds ts self.old self.new (flat_map (words_within ts) list.now)) }
    {
        for definition in list {
            self.read(definition)?;
        }
        Ok(())
    }

    // What is outside.
    fn outside(&mut self, outside: &Outside) -> Result<(), AllocError>
        ensures { OnOk result ((ts : List Tree) → length ts ≤ length self.old.marks.items → Adds ts self.old self.new (taken_outside (outside_at ts outside.now))) }
    {
        bind_units(&mut self.names, outside)?;
        self.reads(&outside.definitions)
    }

    /// All names, behind those that were met: what is outside, and what is marked.
    ///
    /// # Errors
    ///
    /// Only for want of memory.
    pub fn all(&mut self, pool: &Pool, outside: &Outside) -> Result<(), AllocError>
        requires { length self.old.marks.items ≡ length pool.now }
        ensures { OnOk result ((w : Word) → is_among self.new.names w ≡ (holds pool.now self.old w || is_among (taken_outside (outside_at pool.now outside.now)) w)) }
    {
        self.outside(outside)?;
        self.sweep(pool)
    }
}

/// No name was met, and of so many expressions none is marked.
///
/// # Errors
///
/// Only for want of memory.
pub fn none_met(alloc: Global, count: usize) -> Result<Met, AllocError>
    ensures { IfOk result (λ k. (k.names ≡ []) × (k.marks.items ≡ replicate count false)) }
{
    Ok(Met {
        marks: vec![in alloc; false; count]?,
        names: Bound::new(alloc),
    })
}
