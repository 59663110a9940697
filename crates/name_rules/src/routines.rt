//! What is found in routines, told by what is known where they stand.

ghost use Rattle.std.specs.Prelude.{◌≡◌, ◌++◌, List, map, reverse, IfOk, OnOk};
ghost use Rattle.std.specs.List.{flat_map};
ghost use Rattle.tla_tree.specs.Tree.{Word, words};
ghost use Rattle.tla_tree.specs.Pool.{at};
ghost use Rattle.pcal_tree.specs.Algorithm.{Procedure as PureProcedure};
ghost use Rattle.pcal_tree.specs.InMemory.{start_at, declarations_at, definitions_at, statements_at, procedure_at, process_at, main_at};
ghost use Rattle.pcal_tree.specs.Offences.{first};
ghost use Rattle.pcal_tree.specs.NameUses as names;
ghost use Rattle.pcal_tree.specs.OffencesNames.{Calls, in_start, in_declared, in_whole, in_definitions, in_procedure, in_process, in_main, defined_inside};
ghost use Rattle.module_outside.specs.SightIn.{Binds};
ghost use Rattle.name_rules.specs.Finding.{told, Tells};
ghost use Rattle.name_rules.specs.Calling.{Means};
ghost use Rattle.declared_rules.specs.UsesSeen.{within_use, Sees};
ghost use Rattle.name_rules.specs.Routines.{routine_offences};

use crate::found::Found;
use crate::macros::Callees;
use algorithm_limits::bound::Bound;
use algorithm_limits::order::least;
use declared_rules::use_sight::{Sight, how_many};
use declared_rules::using::{Use, offence_as};
use pcal_tree::algorithm::{Declaration, Definition, Main, Procedure, Process, Start, Stmt};
use read_rules::declared::add_declared;
use std::alloc::AllocError;
use tla_pool::Pool;
use tla_token::Refusal;
use tla_tree::{Name, NodeId, PlacedName};

// ---- first values

impl Found {
    // A first value.
    fn start(&mut self, pool: &Pool, start: &Start) -> Result<(), AllocError>
        ensures { OnOk result (Tells self.old self.new (in_start (start_at pool.now start.now))) }
    {
        match start {
            Start::Unset => Ok(()),
            Start::Equals(e) => self.expr(pool, false, *e),
            Start::Among(e) => self.expr(pool, false, *e),
        }
    }

    // Those of declarations.
    fn declared(&mut self, pool: &Pool, list: &[Declaration]) -> Result<(), AllocError>
        ensures { OnOk result (Tells self.old self.new (in_declared (declarations_at pool.now list.now))) }
    {
        for i in 0..list.len() {
            let one = &list[i];
            self.start(pool, &one.start)?;
        }
        Ok(())
    }
}

// ---- what is found, told

// What a name may be used as, where these are variables besides.
fn use_within(sight: &Sight, own: &Bound, name: &Name) -> Use
    ensures { result ≡ within_use sight.now own.now name.now }
{
    if own.has(name) {
        Use::Variable
    } else {
        sight.look(name)
    }
}

// The first offence of what was found, where names that are bound now are variables.
fn tell(found: &Found, sight: &Sight) -> Option<Refusal>
    ensures { (s : names.Sight) (xs : List Word) → Sees sight.now s → Binds found.now.bound xs → result ≡ told found.now (names.seeing_variables xs s) }
{
    let uses = found.free.as_slice();
    let mut first = found.first;
    for i in 0..uses.len() {
        let one = &uses[i];
        let known = use_within(sight, &found.bound, &one.name);
        first = least(first, offence_as(known, one.kind, one.place()));
    }
    first
}

impl Found {
    // The first offence of a routine.
    fn routine(
        &mut self,
        pool: &Pool,
        callees: &Callees,
        sight: &Sight,
        params: &[Declaration],
        variables: &[Declaration],
        body: &[Stmt],
    ) -> Result<Option<Refusal>, AllocError>
        ensures { IfOk result (λ r. (C : Calls) (ps : List PureProcedure) (s : names.Sight) → Means callees.now C ps → Sees sight.now s → r ≡ first (routine_offences C ps (declarations_at pool.now params.now ++ declarations_at pool.now variables.now) (statements_at pool.now body.now) s)) }
    {
        self.restart();
        self.declared(pool, params)?;
        self.declared(pool, variables)?;
        self.body(pool, callees, body)?;
        add_declared(&mut self.bound, params)?;
        add_declared(&mut self.bound, variables)?;
        Ok(tell(self, sight))
    }

    // The first offence of an expression, where these names are bound.
    fn whole(
        &mut self,
        pool: &Pool,
        sight: &Sight,
        params: &[PlacedName],
        e: NodeId,
    ) -> Result<Option<Refusal>, AllocError>
        ensures { IfOk result (λ r. (s : names.Sight) → Sees sight.now s → r ≡ first (in_whole (at pool.now e) (names.seeing_plain (words params.now) s))) }
    {
        self.restart();
        self.bound.add_all(params)?;
        self.expr(pool, false, e)?;
        self.bound.truncate(0);
        Ok(tell(self, sight))
    }

    /// The first offence of the first values of globals.
    ///
    /// # Errors
    ///
    /// Only for want of memory.
    pub fn of_globals(
        &mut self,
        pool: &Pool,
        sight: &Sight,
        list: &[Declaration],
    ) -> Result<Option<Refusal>, AllocError>
        ensures { IfOk result (λ r. (s : names.Sight) → Sees sight.now s → r ≡ first (in_declared (declarations_at pool.now list.now) s)) }
    {
        self.restart();
        self.declared(pool, list)?;
        Ok(tell(self, sight))
    }

    /// The first offence of definitions, each of which sees those before it; they are known then.
    ///
    /// # Errors
    ///
    /// Only for want of memory.
    pub fn of_definitions(
        &mut self,
        pool: &Pool,
        sight: &mut Sight,
        list: &[Definition],
    ) -> Result<Option<Refusal>, AllocError>
        ensures first { IfOk result (λ r. (s : names.Sight) → Sees sight.old s → r ≡ first (in_definitions (definitions_at pool.now list.now) s)) }
        ensures seen { OnOk result ((s : names.Sight) → Sees sight.old s → Sees sight.new (map defined_inside (reverse (definitions_at pool.now list.now)) ++ s)) }
    {
        let mut found = None;
        for i in 0..list.len() {
            let one = &list[i];
            let offence = self.whole(pool, sight, &one.params, one.body)?;
            found = least(found, offence);
            sight.set(&one.name.name, Use::Takes(how_many(&one.params)))?;
        }
        Ok(found)
    }

    /// The first offence of procedures.
    ///
    /// # Errors
    ///
    /// Only for want of memory.
    pub fn of_procedures(
        &mut self,
        pool: &Pool,
        callees: &Callees,
        sight: &Sight,
        list: &[Procedure],
    ) -> Result<Option<Refusal>, AllocError>
        ensures { IfOk result (λ r. (C : Calls) (ps : List PureProcedure) (s : names.Sight) → Means callees.now C ps → Sees sight.now s → r ≡ first (flat_map (in_procedure C ps s) (map (procedure_at pool.now) list.now))) }
    {
        let mut found = None;
        for one in list {
            let offence = self.routine(
                pool,
                callees,
                sight,
                &one.params,
                &one.variables,
                &one.body,
            )?;
            found = least(found, offence);
        }
        Ok(found)
    }

    // The first offence of processes.
    fn of_processes(
        &mut self,
        pool: &Pool,
        callees: &Callees,
        sight: &Sight,
        list: &[Process],
    ) -> Result<Option<Refusal>, AllocError>
        ensures { IfOk result (λ r. (C : Calls) (ps : List PureProcedure) (s : names.Sight) → Means callees.now C ps → Sees sight.now s → r ≡ first (flat_map (in_process C ps s) (map (process_at pool.now) list.now))) }
    {
        let mut found = None;
        for one in list {
            let head = self.whole(pool, sight, &[], one.identity)?;
            let rest = self.routine(pool, callees, sight, &[], &one.variables, &one.body)?;
            found = least(found, least(head, rest));
        }
        Ok(found)
    }

    /// The first offence of an algorithm's own statements, or of its processes.
    ///
    /// # Errors
    ///
    /// Only for want of memory.
    pub fn of_main(
        &mut self,
        pool: &Pool,
        callees: &Callees,
        sight: &Sight,
        main: &Main,
    ) -> Result<Option<Refusal>, AllocError>
        ensures { IfOk result (λ r. (C : Calls) (ps : List PureProcedure) (s : names.Sight) → Means callees.now C ps → Sees sight.now s → r ≡ first (in_main C ps s (main_at pool.now main.now))) }
    {
        match main {
            Main::Alone(body) => self.routine(pool, callees, sight, &[], &[], body),
            Main::Processes(list) => self.of_processes(pool, callees, sight, list),
        }
    }
}
