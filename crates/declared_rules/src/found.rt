//! The first offence that was found, and marks of the expressions that are still to be looked at.

ghost use Rattle.std.specs.Prelude.{◌≡◌, ◌<◌, ◌≤◌, ◌∷◌, ◌++◌, List, [], length, map, OnOk, IfSome};
ghost use Rattle.std.specs.List.{flat_map};
ghost use Rattle.tla_tree.specs.Tree.{Tree};
ghost use Rattle.pcal_tree.specs.BoundNames.{all_of};
ghost use Rattle.pcal_tree.specs.InMemory.{past_numbers};
ghost use Rattle.pcal_tree.specs.Offences.{offence_if};
ghost use Rattle.tla_pool.specs.FormOf.{groups_of};
ghost use Rattle.declared_rules.specs.Parts.{bound, declares, labels, bind_name, declaration_names, expr_parts};
ghost use Rattle.declared_rules.specs.Finding.{Joins, Adds, AddsNames};

use crate::own::{is_end, is_reserved};
use algorithm_limits::bound::Bound;
use algorithm_limits::order::or_offence;
use module_outside::modules::Modules;
use pcal_tree::algorithm::{Bind, Declaration};
use std::alloc::AllocError;
use tla_token::{Place, Refusal, Rule};
use tla_tree::{NodeId, PlacedName};

/// The first offence that was found, where these modules are extended; marks of the expressions that are still to be looked
/// at, each once; and the names of the list that is gone through.
#[derive(Drop)]
pub struct Found {
    pub modules: Modules,
    pub first: Option<Refusal>,
    pub marks: Vec<bool>,
    pub seen: Bound,
}

// The name of groups that have no other.
fn only_name(groups: &[Vec<PlacedName>]) -> Option<&PlacedName>
    ensures { IfSome result (λ n. all_of (groups_of groups.now) ≡ n.now ∷ []) }
{
    if groups.len() != 1 {
        return None;
    }
    let names = groups[0].as_slice();
    if names.len() != 1 {
        return None;
    }
    Some(&names[0])
}

impl Found {
    /// An offence of this rule, at a place, if it is one.
    pub fn offence(&mut self, is_offence: bool, rule: Rule, place: Place)
        ensures joins { (ts : List Tree) → Joins ts self.old self.new (offence_if is_offence rule place) }
        ensures seen { self.new.seen ≡ self.old.seen }
    {
        self.first = or_offence(self.first, is_offence, rule, place);
    }

    /// A name that is declared.
    pub fn declares(&mut self, name: &PlacedName)
        ensures adds { (ts : List Tree) → Adds ts self.old self.new (declares name.now ∷ []) }
        ensures seen { self.new.seen ≡ self.old.seen }
    {
        let reserved = is_reserved(self.modules, name.name.bytes());
        self.offence(reserved, Rule::Reserved, name.place);
    }

    /// A label.
    pub fn label(&mut self, name: &PlacedName)
        ensures { (ts : List Tree) → Adds ts self.old self.new (labels name.now ∷ []) }
    {
        self.offence(is_end(name.name.bytes()), Rule::Reserved, name.place);
    }

    /// One more name of a list.
    ///
    /// # Errors
    ///
    /// Only for want of memory.
    pub fn once(&mut self, name: &PlacedName) -> Result<(), AllocError>
        ensures { OnOk result (AddsNames self.old self.new (name.now ∷ [])) }
    {
        self.declares(name);
        let repeated = self.seen.has(&name.name);
        self.offence(repeated, Rule::Duplicate, name.place);
        self.seen.add(&name.name)
    }

    // More of them.
    fn names(&mut self, names: &[PlacedName]) -> Result<(), AllocError>
        ensures { OnOk result (AddsNames self.old self.new names.now) }
    {
        for name in names {
            self.once(name)?;
        }
        Ok(())
    }

    // Those of these groups.
    fn groups(&mut self, groups: &[Vec<PlacedName>]) -> Result<(), AllocError>
        ensures { OnOk result (AddsNames self.old self.new (all_of (groups_of groups.now))) }
    {
        for i in 0..groups.len() {
            self.names(&groups[i])?;
        }
        Ok(())
    }

    // One that a `with` names.
    fn bind_name(&mut self, bind: &Bind) -> Result<(), AllocError>
        ensures { OnOk result (AddsNames self.old self.new (bind_name bind.now ∷ [])) }
    {
        match bind {
            Bind::Among(name, _) => self.once(name),
            Bind::Is(name, _) => self.once(name),
        }
    }

    // Those that a `with` names.
    fn bind_names(&mut self, binds: &[Bind]) -> Result<(), AllocError>
        ensures { OnOk result (AddsNames self.old self.new (map bind_name binds.now)) }
    {
        for bind in binds {
            self.bind_name(bind)?;
        }
        Ok(())
    }

    /// Those of declarations.
    ///
    /// # Errors
    ///
    /// Only for want of memory.
    pub fn declared(&mut self, declarations: &[Declaration]) -> Result<(), AllocError>
        ensures { OnOk result (AddsNames self.old self.new (declaration_names declarations.now)) }
    {
        for declaration in declarations {
            self.once(&declaration.name)?;
        }
        Ok(())
    }

    /// The names of a list.
    ///
    /// # Errors
    ///
    /// Only for want of memory.
    pub fn list(&mut self, names: &[PlacedName]) -> Result<(), AllocError>
        ensures { OnOk result ((ts : List Tree) → Adds ts self.old self.new (bound names.now ∷ [])) }
    {
        self.seen.truncate(0);
        self.names(names)
    }

    /// The names of groups, as one list.
    ///
    /// # Errors
    ///
    /// Only for want of memory.
    pub fn group_list(&mut self, groups: &[Vec<PlacedName>]) -> Result<(), AllocError>
        ensures { OnOk result ((ts : List Tree) → Adds ts self.old self.new (bound (all_of (groups_of groups.now)) ∷ [])) }
    {
        if let Some(name) = only_name(groups) {
            self.declares(name);
            return Ok(());
        }
        self.seen.truncate(0);
        self.groups(groups)
    }

    /// The names of a `with`.
    ///
    /// # Errors
    ///
    /// Only for want of memory.
    pub fn bind_list(&mut self, binds: &[Bind]) -> Result<(), AllocError>
        ensures { OnOk result ((ts : List Tree) → Adds ts self.old self.new (bound (map bind_name binds.now) ∷ [])) }
    {
        self.seen.truncate(0);
        self.bind_names(binds)
    }

    /// The names of parameters and variables.
    ///
    /// # Errors
    ///
    /// Only for want of memory.
    pub fn declared_list(
        &mut self,
        params: &[Declaration],
        variables: &[Declaration],
    ) -> Result<(), AllocError>
        ensures { OnOk result ((ts : List Tree) → Adds ts self.old self.new (bound (declaration_names params.now ++ declaration_names variables.now) ∷ [])) }
    {
        self.seen.truncate(0);
        self.declared(params)?;
        self.declared(variables)
    }

    /// An expression; nothing is added for a number past the marks.
    pub fn expr(&mut self, e: NodeId)
        ensures adds { e < length self.old.marks.items → (ts : List Tree) → Adds ts self.old self.new (expr_parts ts e) }
        ensures past { length self.old.marks.items ≤ e → self.new ≡ self.old }
    {
        if e < self.marks.len() {
            self.marks[e] = true;
        }
    }

    /// Expressions.
    pub fn exprs(&mut self, es: &[NodeId])
        requires { past_numbers es.now ≤ length self.old.marks.items }
        ensures { (ts : List Tree) → Adds ts self.old self.new (flat_map (expr_parts ts) es.now) }
    {
        for e in es {
            self.expr(*e);
        }
    }
}
