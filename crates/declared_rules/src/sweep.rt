//! The expressions that are marked are looked at, from the greatest number down: a node hands its mark on to its parts, which have
//! smaller numbers, so each is looked at once.

ghost use Rattle.std.specs.Prelude.{◌≡◌, ◌+◌, ◌&&◌, nat_eq, ◌<◌, ◌≤◌, List, length, replicate, false, None, IfOk, OnOk};
ghost use Rattle.tla_tree.specs.Tree.{Tree, strict as strict_form};
ghost use Rattle.tla_tree.specs.Pool.{at, trees_at, AllBelow};
ghost use Rattle.tla_pool.specs.FormOf.{strict_of, form_of};
ghost use Rattle.declared_rules.specs.Finding.{Joins, Adds, finding, is_strings_of, sign_in, node_offences, tree_offences, trees_offences};
ghost use Rattle.declared_rules.specs.Parts.{expr_parts};

use crate::found::Found;
use algorithm_limits::bound::Bound;
use module_outside::depth::is_member;
use module_outside::modules::Modules;
use std::alloc::{AllocError, Global};
use tla_pool::Pool;
use tla_pool::form::{Form, Strict};
use tla_token::{Place, Rule};
use tla_tree::NodeId;

// Whether it is the set of all strings.
fn is_strings(form: &Form) -> bool
    ensures { result ≡ is_strings_of (form_of form.now) }
{
    matches!(form, Form::Strings)
}

// Whether the part of this number is the last one, in such a form.
fn is_right(member: bool, part: usize, parts: usize) -> bool
    requires { part < parts }
    ensures { result ≡ (member && nat_eq (part + 1) parts) }
{
    member && part + 1 == parts
}

impl Found {
    // A sign at a place.
    fn sign(&mut self, strict: &Strict, place: Place)
        ensures { (ts : List Tree) → Joins ts self.old self.new (sign_in self.old.modules (strict_form (strict_of strict.now)) place) }
    {
        match strict {
            Strict::Operator(op) => {
                self.offence(!self.modules.has_operator(*op), Rule::NeedsModule, place);
            }
            _ => {}
        }
    }

    // A form at a place, its parts aside, elsewhere than directly right of `\in` or `\notin`.
    fn form(&mut self, form: &Form, place: Place) -> Result<(), AllocError>
        ensures { OnOk result ((ts : List Tree) → Joins ts self.old self.new (node_offences self.old.modules false (form_of form.now) place)) }
    {
        match form {
            Form::Binding(_, groups) => self.group_list(groups),
            Form::Local(names) => self.list(names),
            Form::Strings => {
                self.offence(true, Rule::Infinite, place);
                Ok(())
            }
            Form::Strict(strict) => {
                self.sign(strict, place);
                Ok(())
            }
            _ => Ok(()),
        }
    }

    // A part, which may be directly right of `\in` or `\notin`: the set of all strings may be there.
    fn part(&mut self, pool: &Pool, right: bool, e: NodeId)
        requires { e < length self.old.marks.items }
        ensures { Joins pool.now self.old self.new (tree_offences self.old.modules right (at pool.now e)) }
    {
        let Some(node) = pool.get(e) else {
            return;
        };
        if right && is_strings(&node.form) {
            self.exprs(&node.parts);
        } else {
            self.expr(e);
        }
    }

    // The parts of a form, the last one directly right of it.
    fn parts(&mut self, pool: &Pool, member: bool, parts: &[NodeId], past: NodeId)
        requires below { AllBelow past parts.now }
        requires marked { past ≤ length self.old.marks.items }
        ensures { Joins pool.now self.old self.new (trees_offences self.old.modules member (trees_at pool.now parts.now)) }
    {
        for i in 0..parts.len() {
            self.part(pool, is_right(member, i, parts.len()), parts[i]);
        }
    }

    // An expression: its form, and its parts, which have smaller numbers, are still to be looked at.
    fn open(&mut self, pool: &Pool, e: NodeId) -> Result<(), AllocError>
        requires { length self.old.marks.items ≡ e }
        ensures { OnOk result (Adds pool.now self.old self.new (expr_parts pool.now e)) }
    {
        let Some(node) = pool.get(e) else {
            return Ok(());
        };
        self.form(&node.form, node.place)?;
        self.parts(pool, is_member(&node.form), &node.parts, e);
        Ok(())
    }

    /// All that is marked.
    ///
    /// # Errors
    ///
    /// Only for want of memory.
    pub fn sweep(&mut self, pool: &Pool) -> Result<(), AllocError>
        requires { length self.old.marks.items ≤ length pool.now }
        ensures { OnOk result (self.new.first ≡ finding pool.now self.old) }
    {
        while let Some(marked) = self.marks.pop() {
            if marked {
                let e = self.marks.len();
                self.open(pool, e)?;
            }
        }
        Ok(())
    }
}

/// Nothing was found, and of so many expressions none is marked.
///
/// # Errors
///
/// Only for want of memory.
pub fn none_found(alloc: Global, modules: Modules, count: usize) -> Result<Found, AllocError>
    ensures { IfOk result (λ k. (k.modules ≡ modules) × (k.first ≡ None) × (k.marks.items ≡ replicate count false)) }
{
    Ok(Found {
        modules,
        first: None,
        marks: vec![in alloc; false; count]?,
        seen: Bound::new(alloc),
    })
}
