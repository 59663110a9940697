//! Names that statements bind, and names for which other text may be put in.

ghost use Rattle.std.specs.Prelude.{◌≡◌, ◌++◌, List, Bool, map, OnOk};
ghost use Rattle.tla_tree.specs.Tree.{Word};
ghost use Rattle.tla_tree.specs.Pool.{trees_at};
ghost use Rattle.pcal_tree.specs.Algorithm.{Procedure as PureProcedure};
ghost use Rattle.pcal_tree.specs.InMemory.{assignments_at, simple_at, statements_at, branches_at, declarations_at};
ghost use Rattle.pcal_tree.specs.OffencesRebind.{any_name, rebound_all, Calls as PureCalls, starts_rebind, assignments_rebind, each_rebinds, one_rebinds, body_rebinds, branches_rebind};
ghost use Rattle.declared_rules.specs.Telling.{Adds};
ghost use Rattle.declared_rules.specs.Keeping.{KnowsCalls};
ghost use Rattle.declared_rules.specs.Parts.{bind_name};
ghost use Rattle.declared_rules.specs.Bodies.{bind_number, AddsBinds, AddsStmt};

use crate::bind_walk::Walk;
use crate::kept::Calls;
use crate::pieces::each_brings;
use crate::sight::Sight;
use pcal_tree::algorithm::{Assignment, Bind, Declaration, Simple, Start, Stmt};
use std::alloc::AllocError;
use tla_pool::Pool;
use tla_tree::{Name, NodeId, PlacedName};

/// The name that one of a `with` binds.
pub fn named(bind: &Bind) -> &PlacedName
    ensures { result.now ≡ bind_name bind.now }
{
    match bind {
        Bind::Among(name, _) => name,
        Bind::Is(name, _) => name,
    }
}

/// The expression of one of a `with`.
pub fn expression(bind: &Bind) -> NodeId
    ensures { result ≡ bind_number bind.now }
{
    match bind {
        Bind::Among(_, e) => *e,
        Bind::Is(_, e) => *e,
    }
}

impl Walk {
    /// First values.
    ///
    /// # Errors
    ///
    /// Only for want of memory.
    pub fn starts(
        &mut self,
        sight: &Sight,
        pool: &Pool,
        list: &[Declaration],
    ) -> Result<(), AllocError>
        ensures { OnOk result ((K : Word → Bool) → Adds sight.now K self.old self.new (λ ms r. starts_rebind ms K (declarations_at pool.now list.now) r)) }
    {
        for i in 0..list.len() {
            match &list[i].start {
                Start::Unset => {}
                Start::Equals(e) => self.expr(sight, pool, *e)?,
                Start::Among(e) => self.expr(sight, pool, *e)?,
            }
        }
        Ok(())
    }

    // Left and right sides.
    fn assignments(
        &mut self,
        sight: &Sight,
        pool: &Pool,
        list: &[Assignment],
    ) -> Result<(), AllocError>
        ensures { OnOk result (Adds sight.now any_name self.old self.new (λ ms r. assignments_rebind ms (assignments_at pool.now list.now) r)) }
    {
        for assignment in list {
            self.expr(sight, pool, assignment.left)?;
            self.expr(sight, pool, assignment.right)?;
        }
        Ok(())
    }

    // The names of all that a `with` names.
    fn bind_names(&mut self, sight: &Sight, list: &[Bind]) -> Result<(), AllocError>
        ensures { OnOk result (Adds sight.now any_name self.old self.new (λ ms r. rebound_all ms r (map bind_name list.now))) }
    {
        for bind in list {
            self.name(sight, named(bind))?;
        }
        Ok(())
    }

    // All that a `with` names, each seen by those after it: its expression, and then it is bound.
    fn binds(&mut self, sight: &Sight, pool: &Pool, list: &[Bind]) -> Result<(), AllocError>
        ensures { OnOk result (AddsBinds sight.now pool.now list.now self.old self.new) }
    {
        for bind in list {
            self.expr(sight, pool, expression(bind))?;
            let name = named(bind);
            self.bound.add(&name.name)?;
        }
        Ok(())
    }

    // A macro call.
    fn macro_call(
        &mut self,
        sight: &Sight,
        calls: &Calls,
        pool: &Pool,
        name: &Name,
        es: &[NodeId],
    ) -> Result<(), AllocError>
        ensures { OnOk result ((C : List Word → PureCalls) (ps : List PureProcedure) → KnowsCalls sight.now calls.now C ps → Adds sight.now any_name self.old self.new (λ ms r. C ms r name.now (trees_at pool.now es.now) ++ each_rebinds ms (trees_at pool.now es.now) r)) }
    {
        let args = each_brings(calls.alloc, pool, es)?;
        self.called(sight, &calls.macros, name, &args)?;
        self.exprs(sight, pool, es)
    }

    // A statement with none in it.
    fn simple(
        &mut self,
        sight: &Sight,
        calls: &Calls,
        pool: &Pool,
        simple: &Simple,
    ) -> Result<(), AllocError>
        ensures { OnOk result ((C : List Word → PureCalls) (ps : List PureProcedure) → KnowsCalls sight.now calls.now C ps → Adds sight.now any_name self.old self.new (λ ms r. one_rebinds ms ps (C ms) (simple_at pool.now simple.now) r)) }
    {
        match simple {
            Simple::Assign(list) => self.assignments(sight, pool, list),
            Simple::Await(e) => self.expr(sight, pool, *e),
            Simple::Print(e) => self.expr(sight, pool, *e),
            Simple::Assert(e) => self.expr(sight, pool, *e),
            Simple::Skip => Ok(()),
            Simple::Goto(_) => self.standing(sight, &calls.process),
            Simple::Macro(name, es) => self.macro_call(sight, calls, pool, name, es),
            Simple::Call(name, es) => {
                self.standing(sight, &calls.process)?;
                self.called(sight, &calls.procedures, &name.name, &[])?;
                self.exprs(sight, pool, es)
            }
            Simple::Return => Ok(()),
        }
    }

    // A statement.
    #[cycle(bodies)]
    fn stmt(
        &mut self,
        sight: &Sight,
        calls: &Calls,
        pool: &Pool,
        stmt: &Stmt,
    ) -> Result<(), AllocError>
        ensures { OnOk result ((C : List Word → PureCalls) (ps : List PureProcedure) → KnowsCalls sight.now calls.now C ps → AddsStmt sight.now C ps pool.now stmt.now self.old self.new) }
    {
        match stmt {
            Stmt::Label(_, _) => Ok(()),
            Stmt::Simple(_, simple) => self.simple(sight, calls, pool, simple),
            Stmt::If(_, e, then, otherwise) => {
                self.expr(sight, pool, *e)?;
                self.body(sight, calls, pool, then)?;
                self.body(sight, calls, pool, otherwise)
            }
            Stmt::Either(_, list) => self.branches(sight, calls, pool, list),
            Stmt::With(_, binds, body) => {
                self.bind_names(sight, binds)?;
                let around = self.bound.len();
                self.binds(sight, pool, binds)?;
                self.body(sight, calls, pool, body)?;
                self.bound.truncate(around);
                Ok(())
            }
            Stmt::While(_, e, body) => {
                self.expr(sight, pool, *e)?;
                self.body(sight, calls, pool, body)
            }
        }
    }

    // Branches.
    #[cycle(bodies)]
    fn branches(
        &mut self,
        sight: &Sight,
        calls: &Calls,
        pool: &Pool,
        list: &[Vec<Stmt>],
    ) -> Result<(), AllocError>
        ensures { OnOk result ((C : List Word → PureCalls) (ps : List PureProcedure) → KnowsCalls sight.now calls.now C ps → Adds sight.now any_name self.old self.new (λ ms r. branches_rebind ms ps (C ms) (branches_at pool.now list.now) r)) }
    {
        for i in 0..list.len() {
            self.body(sight, calls, pool, &list[i])?;
        }
        Ok(())
    }

    /// A list of statements. It calls itself as deep as statements are in statements.
    ///
    /// # Errors
    ///
    /// Only for want of memory.
    #[cycle(bodies)]
    pub fn body(
        &mut self,
        sight: &Sight,
        calls: &Calls,
        pool: &Pool,
        stmts: &[Stmt],
    ) -> Result<(), AllocError>
        ensures { OnOk result ((C : List Word → PureCalls) (ps : List PureProcedure) → KnowsCalls sight.now calls.now C ps → Adds sight.now any_name self.old self.new (λ ms r. body_rebinds ms ps (C ms) (statements_at pool.now stmts.now) r)) }
    {
        for stmt in stmts {
            self.stmt(sight, calls, pool, stmt)?;
        }
        Ok(())
    }
}
