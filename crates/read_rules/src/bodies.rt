//! The names that statements use, and do not bind.

ghost use Rattle.std.specs.Prelude.{OnOk};
ghost use Rattle.tla_tree.specs.Pool.{trees_at};
ghost use Rattle.pcal_tree.specs.InMemory.{assignments_at, simple_at, statements_at, branches_at};
ghost use Rattle.pcal_tree.specs.Reads.{used_by_all, used_by_assignments};
ghost use Rattle.read_rules.specs.BodyNames.{names_in_one, names_in, names_in_some};
ghost use Rattle.read_rules.specs.Using.{Adds};
ghost use Rattle.read_rules.specs.UsingBodies.{AddsBind, AddsBinds, AddsStmt};

use crate::used::Used;
use pcal_tree::algorithm::{Assignment, Bind, Simple, Stmt};
use std::alloc::AllocError;
use tla_pool::Pool;
use tla_tree::NodeId;

impl Used {
    // Expressions.
    fn exprs(&mut self, pool: &Pool, es: &[NodeId]) -> Result<(), AllocError>
        ensures { OnOk result (Adds self.old self.new (used_by_all (trees_at pool.now es.now))) }
    {
        for i in 0..es.len() {
            self.expr(pool, es[i])?;
        }
        Ok(())
    }

    // Left and right sides.
    fn assignments(&mut self, pool: &Pool, list: &[Assignment]) -> Result<(), AllocError>
        ensures { OnOk result (Adds self.old self.new (used_by_assignments (assignments_at pool.now list.now))) }
    {
        for assignment in list {
            self.expr(pool, assignment.left)?;
            self.expr(pool, assignment.right)?;
        }
        Ok(())
    }

    // A statement with none in it.
    fn simple(&mut self, pool: &Pool, simple: &Simple) -> Result<(), AllocError>
        ensures { OnOk result (Adds self.old self.new (names_in_one (simple_at pool.now simple.now))) }
    {
        match simple {
            Simple::Assign(list) => self.assignments(pool, list),
            Simple::Await(e) => self.expr(pool, *e),
            Simple::Print(e) => self.expr(pool, *e),
            Simple::Assert(e) => self.expr(pool, *e),
            Simple::Skip => Ok(()),
            Simple::Goto(_) => Ok(()),
            Simple::Macro(_, es) => self.exprs(pool, es),
            Simple::Call(_, es) => self.exprs(pool, es),
            Simple::Return => Ok(()),
        }
    }

    // What a `with` names: its expression, and then it is bound.
    fn bind(&mut self, pool: &Pool, bind: &Bind) -> Result<(), AllocError>
        ensures { OnOk result (AddsBind pool.now bind.now self.old self.new) }
    {
        match bind {
            Bind::Among(name, e) | Bind::Is(name, e) => {
                self.expr(pool, *e)?;
                self.bound.add(&name.name)
            }
        }
    }

    // All that a `with` names, each seen by those after it.
    fn binds(&mut self, pool: &Pool, list: &[Bind]) -> Result<(), AllocError>
        ensures { OnOk result (AddsBinds pool.now list.now self.old self.new) }
    {
        for bind in list {
            self.bind(pool, bind)?;
        }
        Ok(())
    }

    // A statement.
    #[cycle(bodies)]
    fn stmt(&mut self, pool: &Pool, stmt: &Stmt) -> Result<(), AllocError>
        ensures { OnOk result (AddsStmt pool.now stmt.now self.old self.new) }
    {
        match stmt {
            Stmt::Label(_, _) => Ok(()),
            Stmt::Simple(_, simple) => self.simple(pool, simple),
            Stmt::If(_, e, then, otherwise) => {
                self.expr(pool, *e)?;
                self.body(pool, then)?;
                self.body(pool, otherwise)
            }
            Stmt::Either(_, list) => self.branches(pool, list),
            Stmt::With(_, binds, body) => {
                let around = self.bound.len();
                self.binds(pool, binds)?;
                self.body(pool, body)?;
                self.bound.truncate(around);
                Ok(())
            }
            Stmt::While(_, e, body) => {
                self.expr(pool, *e)?;
                self.body(pool, body)
            }
        }
    }

    // Branches.
    #[cycle(bodies)]
    fn branches(&mut self, pool: &Pool, list: &[Vec<Stmt>]) -> Result<(), AllocError>
        ensures { OnOk result (Adds self.old self.new (names_in_some (branches_at pool.now list.now))) }
    {
        for i in 0..list.len() {
            self.body(pool, &list[i])?;
        }
        Ok(())
    }

    /// A list of statements. It calls itself as deep as statements are in statements.
    ///
    /// # Errors
    ///
    /// Only for want of memory.
    #[cycle(bodies)]
    pub fn body(&mut self, pool: &Pool, stmts: &[Stmt]) -> Result<(), AllocError>
        ensures { OnOk result (Adds self.old self.new (names_in (statements_at pool.now stmts.now))) }
    {
        for stmt in stmts {
            self.stmt(pool, stmt)?;
        }
        Ok(())
    }
}
