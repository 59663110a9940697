//! Calls of macros and procedures: each use that is kept of a macro is looked at again where the call is.

ghost use Rattle.std.specs.Prelude.{◌≡◌, ◌&&◌, nat_lt, List, drop, Some, None, OnOk};
ghost use Rattle.std.specs.List.{flat_map};
ghost use Rattle.tla_tree.specs.Tree.{Word, root_place};
ghost use Rattle.tla_tree.specs.Pool.{at, trees_at};
ghost use Rattle.tla_pool.specs.FormOf.{form_of};
ghost use Rattle.pcal_tree.specs.Algorithm.{Procedure};
ghost use Rattle.pcal_tree.specs.Paths.{root, root_form};
ghost use Rattle.pcal_tree.specs.laws.MacroUses.{offences_as};
ghost use Rattle.pcal_tree.specs.OffencesNames.{seeing_parameters, Calls, call_offences};
ghost use Rattle.declared_rules.specs.UsesTold.{use_as, looked};
ghost use Rattle.name_rules.specs.Finding.{Tells};
ghost use Rattle.name_rules.specs.Calling.{is_subscripted as is_subscripted_of, handed_from, use_through, use_through_first, parameter_number as parameter_number_of, Means};

use crate::found::Found;
use crate::macros::Callees;
use algorithm_limits::order::or_offence;
use declared_rules::using::{Kind, NameUse, Use, offence_as};
use module_outside::standard::is;
use std::alloc::AllocError;
use tla_pool::Pool;
use tla_pool::form::{Form, Strict};
use tla_token::{Place, Rule};
use tla_tree::{Name, NodeId, PlacedName};

// Whether a form with so many parts is a variable with one more subscript or field.
fn is_subscripted(form: &Form, parts: usize) -> bool
    ensures { result ≡ (is_subscripted_of (form_of form.now) && nat_lt 0 parts) }
{
    matches!(
        form,
        Form::Strict(Strict::Apply) | Form::Strict(Strict::Select(_))
    ) && parts > 0
}

// Which parameter has this name.
fn parameter_number(params: &[PlacedName], name: &Name) -> Option<usize>
    ensures { result ≡ parameter_number_of params.now name.now }
{
    for i in 0..params.len() {
        let param = &params[i];
        if is(name.bytes(), param.name.bytes()) {
            return Some(i);
        }
    }
    None
}

impl Found {
    // An argument that a macro assigns and that begins with no name, at its place.
    fn not_variable(&mut self, place: Place)
        ensures { Tells self.old self.new (handed_from None place) }
    {
        self.refuse(or_offence(None, true, Rule::NotVariable, place));
    }

    // What an argument that a macro assigns begins with, at the argument's place.
    fn handed_form(&mut self, form: &Form, place: Place) -> Result<(), AllocError>
        ensures { OnOk result (Tells self.old self.new (handed_from (root_form (form_of form.now) None) place)) }
    {
        match form {
            Form::Name(name) => self.keep(name, Kind::Handed, place),
            _ => {
                self.not_variable(place);
                Ok(())
            }
        }
    }

    // An argument that a macro assigns. It calls itself once for each of its subscripts and fields.
    #[cycle(handed)]
    fn handed(&mut self, pool: &Pool, place: Place, e: NodeId) -> Result<(), AllocError>
        ensures { OnOk result (Tells self.old self.new (handed_from (root (at pool.now e)) place)) }
    {
        let Some(node) = pool.get(e) else {
            self.not_variable(place);
            return Ok(());
        };
        let parts: &[NodeId] = &node.parts;
        if is_subscripted(&node.form, parts.len()) {
            return self.handed(pool, place, parts[0]);
        }
        self.handed_form(&node.form, place)
    }

    // The same, at its place.
    fn handed_whole(&mut self, pool: &Pool, e: NodeId) -> Result<(), AllocError>
        ensures { OnOk result (Tells self.old self.new (handed_from (root (at pool.now e)) (root_place (at pool.now e)))) }
    {
        self.handed(pool, pool.place(e), e)
    }

    // A macro's use of a parameter whose argument is this expression.
    fn argument(
        &mut self,
        pool: &Pool,
        kind: Kind,
        place: Place,
        e: NodeId,
    ) -> Result<(), AllocError>
        ensures { OnOk result ((x : Word) → Tells self.old self.new (λ r. offences_as (Some (use_through (at pool.now e) r)) (use_as kind x place))) }
    {
        match kind {
            Kind::Applied(_, _) => {
                self.refuse(offence_as(Use::Variable, kind, place));
                Ok(())
            }
            Kind::Assigned => self.handed_whole(pool, e),
            Kind::Handed => self.handed_whole(pool, e),
        }
    }

    // A macro's use of the parameter of this number.
    fn parameter(
        &mut self,
        pool: &Pool,
        es: &[NodeId],
        number: usize,
        one: &NameUse,
    ) -> Result<(), AllocError>
        ensures { OnOk result (Tells self.old self.new (λ r. offences_as (Some (use_through_first pool.now (drop number es.now) r)) (use_as one.now.kind one.now.name (record { line = one.now.line; col = one.now.col })))) }
    {
        if number < es.len() {
            self.argument(pool, one.kind, one.place(), es[number])
        } else {
            self.refuse(offence_as(Use::Variable, one.kind, one.place()));
            Ok(())
        }
    }

    // A use in a macro's body, where the macro is called with these arguments.
    fn called(
        &mut self,
        pool: &Pool,
        params: &[PlacedName],
        es: &[NodeId],
        one: &NameUse,
    ) -> Result<(), AllocError>
        ensures { OnOk result (Tells self.old self.new (λ r. looked (seeing_parameters params.now (trees_at pool.now es.now) r r) one.now)) }
    {
        match parameter_number(params, &one.name) {
            Some(number) => self.parameter(pool, es, number, one),
            None => self.keep(&one.name, one.kind, one.place()),
        }
    }

    // All of them.
    fn all_called(
        &mut self,
        pool: &Pool,
        params: &[PlacedName],
        es: &[NodeId],
        uses: &[NameUse],
    ) -> Result<(), AllocError>
        ensures { OnOk result (Tells self.old self.new (λ r. flat_map (looked (seeing_parameters params.now (trees_at pool.now es.now) r r)) uses.now)) }
    {
        for i in 0..uses.len() {
            self.called(pool, params, es, &uses[i])?;
        }
        Ok(())
    }

    /// A macro call, at a place.
    ///
    /// # Errors
    ///
    /// Only for want of memory.
    pub fn call_macro(
        &mut self,
        pool: &Pool,
        callees: &Callees,
        place: Place,
        name: &Name,
        es: &[NodeId],
    ) -> Result<(), AllocError>
        ensures { OnOk result ((C : Calls) (ps : List Procedure) → Means callees.now C ps → Tells self.old self.new (λ r. C r place name.now (trees_at pool.now es.now))) }
    {
        match callees.macros.get(name) {
            Some(kept) => {
                let wrong = kept.params.len() != es.len();
                self.refuse(or_offence(None, wrong, Rule::Arity, place));
                self.refuse(kept.found.first);
                self.all_called(pool, &kept.params, es, kept.found.free.as_slice())
            }
            None => {
                self.refuse(or_offence(None, true, Rule::Unknown, place));
                Ok(())
            }
        }
    }

    /// A call of a procedure, at a place, with so many arguments.
    pub fn call_procedure(
        &mut self,
        callees: &Callees,
        place: Place,
        name: &PlacedName,
        arguments: usize,
    )
        ensures { (C : Calls) (ps : List Procedure) → Means callees.now C ps → Tells self.old self.new (λ r. call_offences ps place name.now arguments) }
    {
        let past = callees.procedures.get(&name.name);
        if past == 0 {
            self.refuse(or_offence(None, true, Rule::Unknown, place));
        } else {
            self.refuse(or_offence(None, past - 1 != arguments, Rule::Arity, name.place));
        }
    }
}
