//! Processes, and what runs.

ghost use Rattle.std.specs.Prelude.{false, List, map, OnOk};
ghost use Rattle.std.specs.List.{flat_map};
ghost use Rattle.tla_tree.specs.Tree.{Word};
ghost use Rattle.tla_tree.specs.Pool.{at};
ghost use Rattle.pcal_tree.specs.Algorithm.{Procedure as PureProcedure};
ghost use Rattle.pcal_tree.specs.InMemory.{statements_at, process_at, main_at};
ghost use Rattle.pcal_tree.specs.OffencesRebind.{any_name, body_rebinds, Calls as PureCalls, process_rebinds, main_rebinds};
ghost use Rattle.declared_rules.specs.Telling.{IsNew, Adds};
ghost use Rattle.declared_rules.specs.Keeping.{KnowsCalls};
ghost use Rattle.declared_rules.specs.Processes.{body_scope, Singles};

use crate::bind_walk::Walk;
use crate::kept::Calls;
use crate::pieces::each_brings;
use crate::sight::Sight;
use pcal_tree::algorithm::{Main, Process};
use std::alloc::AllocError;
use tla_pool::Pool;
use tla_token::Place;
use tla_tree::PlacedName;

impl Walk {
    // The body of a single process, in which `self` is its identifier, where nothing was found in it yet.
    fn single(
        &mut self,
        near: &Sight,
        own: &Sight,
        calls: &Calls,
        pool: &Pool,
        process: &Process,
        found: &mut Walk,
    ) -> Result<(), AllocError>
        ensures { OnOk result ((C : List Word → PureCalls) (ps : List PureProcedure) → IsNew found.old → Singles near.now own.now → KnowsCalls own.now calls.now C ps → Adds near.now any_name self.old self.new (λ ms r. body_rebinds ms ps (C ms) (statements_at pool.now process.now.body.items) (body_scope false (at pool.now process.now.identity) r))) }
    {
        found.body(own, calls, pool, &process.body)?;
        let place = Place { line: 1, col: 1 };
        let param = PlacedName {
            name: calls.process.copied()?,
            place,
        };
        let identities = [process.identity];
        let args = each_brings(calls.alloc, pool, &identities)?;
        let outcome = self.put(near, std::slice::from_ref(&param), found, &args);
        drop(args);
        outcome
    }

    // The body of a process.
    fn process_body(
        &mut self,
        near: &Sight,
        own: &Sight,
        calls: &Calls,
        pool: &Pool,
        process: &Process,
    ) -> Result<(), AllocError>
        ensures { OnOk result ((C : List Word → PureCalls) (ps : List PureProcedure) → Singles near.now own.now → KnowsCalls near.now calls.now C ps → KnowsCalls own.now calls.now C ps → Adds near.now any_name self.old self.new (λ ms r. body_rebinds ms ps (C ms) (statements_at pool.now process.now.body.items) (body_scope process.now.several (at pool.now process.now.identity) r))) }
    {
        if process.several {
            return self.body(near, calls, pool, &process.body);
        }
        let mut found = Walk::new(calls.alloc);
        let outcome = self.single(near, own, calls, pool, process, &mut found);
        drop(found);
        outcome
    }

    // Processes.
    fn processes(
        &mut self,
        near: &Sight,
        own: &Sight,
        calls: &Calls,
        pool: &Pool,
        list: &[Process],
    ) -> Result<(), AllocError>
        ensures { OnOk result ((C : List Word → PureCalls) (ps : List PureProcedure) → Singles near.now own.now → KnowsCalls near.now calls.now C ps → KnowsCalls own.now calls.now C ps → Adds near.now any_name self.old self.new (λ ms r. flat_map (process_rebinds ms ps (C ms) r) (map (process_at pool.now) list.now))) }
    {
        for i in 0..list.len() {
            let process = &list[i];
            self.expr(near, pool, process.identity)?;
            let around = self.bound.len();
            self.locals(near, pool, &[], &process.variables)?;
            self.process_body(near, own, calls, pool, process)?;
            self.bound.truncate(around);
        }
        Ok(())
    }

    /// What runs.
    ///
    /// # Errors
    ///
    /// Only for want of memory.
    pub fn main(
        &mut self,
        near: &Sight,
        own: &Sight,
        calls: &Calls,
        pool: &Pool,
        main: &Main,
    ) -> Result<(), AllocError>
        ensures { OnOk result ((C : List Word → PureCalls) (ps : List PureProcedure) → Singles near.now own.now → KnowsCalls near.now calls.now C ps → KnowsCalls own.now calls.now C ps → Adds near.now any_name self.old self.new (λ ms r. main_rebinds ms ps (C ms) r (main_at pool.now main.now))) }
    {
        match main {
            Main::Alone(body) => self.body(near, calls, pool, body),
            Main::Processes(list) => self.processes(near, own, calls, pool, list),
        }
    }
}
