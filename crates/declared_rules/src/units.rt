//! What is declared and defined, and bodies where they stand.

ghost use Rattle.std.specs.Prelude.{◌++◌, List, map, OnOk};
ghost use Rattle.std.specs.List.{flat_map};
ghost use Rattle.tla_tree.specs.Tree.{Word, words};
ghost use Rattle.pcal_tree.specs.Algorithm.{Procedure as PureProcedure};
ghost use Rattle.pcal_tree.specs.InMemory.{declarations_at, definitions_at, procedure_at};
ghost use Rattle.pcal_tree.specs.OffencesRebind.{any_name, rebound_all, Calls as PureCalls, definitions_rebind, locals_rebind, procedure_rebinds};
ghost use Rattle.declared_rules.specs.Telling.{Adds, AddsNaming};
ghost use Rattle.declared_rules.specs.Keeping.{KnowsCalls};
ghost use Rattle.declared_rules.specs.Units.{declared_names};

use crate::bind_walk::Walk;
use crate::kept::Calls;
use crate::names::add_declared;
use crate::sight::Sight;
use pcal_tree::algorithm::{Declaration, Definition, Procedure};
use std::alloc::AllocError;
use tla_pool::Pool;

impl Walk {
    // The names of declarations.
    fn declared(&mut self, sight: &Sight, list: &[Declaration]) -> Result<(), AllocError>
        ensures { OnOk result (Adds sight.now any_name self.old self.new (λ ms r. rebound_all ms r (declared_names list.now))) }
    {
        for i in 0..list.len() {
            let one = &list[i];
            self.name(sight, &one.name)?;
        }
        Ok(())
    }

    /// The parameters and variables of a unit, which are bound then, and their initial values.
    ///
    /// # Errors
    ///
    /// Only for want of memory.
    pub fn locals(
        &mut self,
        sight: &Sight,
        pool: &Pool,
        params: &[Declaration],
        variables: &[Declaration],
    ) -> Result<(), AllocError>
        ensures { OnOk result (AddsNaming sight.now any_name self.old self.new (words (declared_names params.now) ++ words (declared_names variables.now)) (λ ms r. locals_rebind ms (declarations_at pool.now params.now ++ declarations_at pool.now variables.now) r)) }
    {
        self.declared(sight, params)?;
        self.declared(sight, variables)?;
        add_declared(&mut self.bound, params)?;
        add_declared(&mut self.bound, variables)?;
        self.starts(sight, pool, params)?;
        self.starts(sight, pool, variables)
    }

    /// Definitions, each seen by those after it.
    ///
    /// # Errors
    ///
    /// Only for want of memory.
    pub fn definitions(
        &mut self,
        sight: &Sight,
        pool: &Pool,
        list: &[Definition],
    ) -> Result<(), AllocError>
        ensures { OnOk result (AddsNaming sight.now any_name self.old self.new (map (λ d. d.name.word) (definitions_at pool.now list.now)) (λ ms r. definitions_rebind ms (definitions_at pool.now list.now) r)) }
    {
        for i in 0..list.len() {
            let definition = &list[i];
            self.names(sight, &definition.params)?;
            let around = self.bound.len();
            self.bound.add_all(&definition.params)?;
            self.expr(sight, pool, definition.body)?;
            self.bound.truncate(around);
            self.bound.add(&definition.name.name)?;
        }
        Ok(())
    }

    /// Procedures.
    ///
    /// # Errors
    ///
    /// Only for want of memory.
    pub fn procedures(
        &mut self,
        sight: &Sight,
        calls: &Calls,
        pool: &Pool,
        list: &[Procedure],
    ) -> Result<(), AllocError>
        ensures { OnOk result ((C : List Word → PureCalls) (ps : List PureProcedure) → KnowsCalls sight.now calls.now C ps → Adds sight.now any_name self.old self.new (λ ms r. flat_map (procedure_rebinds ms ps (C ms) r) (map (procedure_at pool.now) list.now))) }
    {
        for i in 0..list.len() {
            let procedure = &list[i];
            let around = self.bound.len();
            self.locals(sight, pool, &procedure.params, &procedure.variables)?;
            self.body(sight, calls, pool, &procedure.body)?;
            self.bound.truncate(around);
        }
        Ok(())
    }
}
