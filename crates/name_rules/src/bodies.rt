//! What is found in statements.

ghost use Rattle.std.specs.Prelude.{List, OnOk};
ghost use Rattle.pcal_tree.specs.Algorithm.{Procedure};
ghost use Rattle.pcal_tree.specs.InMemory.{assignments_at, binds_at, simple_at, statements_at, branches_at};
ghost use Rattle.pcal_tree.specs.OffencesNames.{Calls, in_assignments, in_one, in_body, in_branches};
ghost use Rattle.name_rules.specs.Finding.{Tells};
ghost use Rattle.name_rules.specs.Calling.{Means};
ghost use Rattle.name_rules.specs.Walking.{TellsBinds, TellsStmt};

use crate::found::Found;
use crate::macros::Callees;
use declared_rules::bodies::{expression, named};
use pcal_tree::algorithm::{Assignment, Bind, Simple, Stmt};
use std::alloc::AllocError;
use tla_pool::Pool;
use tla_token::Place;

impl Found {
    // Left and right sides.
    fn assignments(&mut self, pool: &Pool, list: &[Assignment]) -> Result<(), AllocError>
        ensures { OnOk result (Tells self.old self.new (in_assignments (assignments_at pool.now list.now))) }
    {
        for assignment in list {
            self.left(pool, assignment.left)?;
            self.expr(pool, false, assignment.right)?;
        }
        Ok(())
    }

    // A statement with none in it, at a place.
    fn simple(
        &mut self,
        pool: &Pool,
        callees: &Callees,
        place: Place,
        simple: &Simple,
    ) -> Result<(), AllocError>
        ensures { OnOk result ((C : Calls) (ps : List Procedure) → Means callees.now C ps → Tells self.old self.new (in_one C ps place (simple_at pool.now simple.now))) }
    {
        match simple {
            Simple::Assign(list) => self.assignments(pool, list),
            Simple::Await(e) => self.expr(pool, false, *e),
            Simple::Print(e) => self.expr(pool, false, *e),
            Simple::Assert(e) => self.expr(pool, false, *e),
            Simple::Skip => Ok(()),
            Simple::Goto(_) => Ok(()),
            Simple::Macro(name, es) => {
                self.call_macro(pool, callees, place, name, es)?;
                self.exprs(pool, es, 0)
            }
            Simple::Call(name, es) => {
                self.call_procedure(callees, place, name, es.len());
                self.exprs(pool, es, 0)
            }
            Simple::Return => Ok(()),
        }
    }

    // All that a `with` names, each seen by those after it: its expression, and then it is bound.
    fn binds(&mut self, pool: &Pool, list: &[Bind]) -> Result<(), AllocError>
        ensures { OnOk result (TellsBinds (binds_at pool.now list.now) self.old self.new) }
    {
        for bind in list {
            self.expr(pool, false, expression(bind))?;
            let name = named(bind);
            self.bound.add(&name.name)?;
        }
        Ok(())
    }

    // A statement.
    #[cycle(bodies)]
    fn stmt(&mut self, pool: &Pool, callees: &Callees, stmt: &Stmt) -> Result<(), AllocError>
        ensures { OnOk result ((C : Calls) (ps : List Procedure) → Means callees.now C ps → TellsStmt C ps pool.now stmt.now self.old self.new) }
    {
        match stmt {
            Stmt::Label(_, _) => Ok(()),
            Stmt::Simple(span, simple) => self.simple(pool, callees, span.first, simple),
            Stmt::If(_, e, then, otherwise) => {
                self.expr(pool, false, *e)?;
                self.body(pool, callees, then)?;
                self.body(pool, callees, otherwise)
            }
            Stmt::Either(_, list) => self.branches(pool, callees, list),
            Stmt::With(_, binds, body) => {
                let around = self.bound.len();
                self.binds(pool, binds)?;
                self.body(pool, callees, body)?;
                self.bound.truncate(around);
                Ok(())
            }
            Stmt::While(_, e, body) => {
                self.expr(pool, false, *e)?;
                self.body(pool, callees, body)
            }
        }
    }

    // Branches.
    #[cycle(bodies)]
    fn branches(
        &mut self,
        pool: &Pool,
        callees: &Callees,
        list: &[Vec<Stmt>],
    ) -> Result<(), AllocError>
        ensures { OnOk result ((C : Calls) (ps : List Procedure) → Means callees.now C ps → Tells self.old self.new (in_branches C ps (branches_at pool.now list.now))) }
    {
        for i in 0..list.len() {
            self.body(pool, callees, &list[i])?;
        }
        Ok(())
    }

    /// A list of statements. It calls itself as deep as statements are in statements.
    ///
    /// # Errors
    ///
    /// Only for want of memory.
    #[cycle(bodies)]
    pub fn body(&mut self, pool: &Pool, callees: &Callees, stmts: &[Stmt]) -> Result<(), AllocError>
        ensures { OnOk result ((C : Calls) (ps : List Procedure) → Means callees.now C ps → Tells self.old self.new (in_body C ps (statements_at pool.now stmts.now))) }
    {
        for stmt in stmts {
            self.stmt(pool, callees, stmt)?;
        }
        Ok(())
    }
}
