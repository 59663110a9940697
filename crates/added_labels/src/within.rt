//! Statements inside a `with`: whether a label is missing among them, or a variable is assigned twice, and the path behind them.

ghost use Rattle.std.specs.Prelude.{◌≡◌, ◌≤◌, false, List, length, IfOk, OnOk};
ghost use Rattle.pcal_tree.specs.Algorithm.{Span as PureSpan, Statement, then};
ghost use Rattle.pcal_tree.specs.InMemory.{simple_at, stmt_at, statements_at, branches_at, past_simple, past_stmt, past_statements, past_branches};
ghost use Rattle.pcal_tree.specs.OffencesSteps.{due_after};
ghost use Rattle.pcal_tree.specs.Run.{Partner};
ghost use Rattle.tla_tree.specs.Tree.{Tree};
ghost use Rattle.pcal_tree.specs.laws.MacroSummaries.{Summary as Found};
ghost use Rattle.label_steps.specs.KnownIn.{AreMacros};
ghost use Rattle.label_steps.specs.PathsIn.{Behind};
ghost use Rattle.added_labels.specs.Sight.{IsNext, effects_of, is_due, SeesOne, SeesList, SeesBranch, SeesBranches, Begins, Finishes, Rounds};

use crate::seen::{Next, Seen, Where, next_of, one_of};
use label_steps::due::jumps;
use label_steps::path::Path;
use pcal_tree::algorithm::{Simple, Stmt};
use placed_labels::place::place_of;
use std::alloc::{AllocError, Global};
use std::mem::replace;
use tla_pool::Pool;

/// Behind a label a path begins anew; kept is the path with which the list began.
pub fn begin(alloc: Global, path: &mut Path, kept: Option<Path>) -> Option<Path>
    ensures { Begins path.old path.new kept result }
{
    let old = replace(path, Path::new(alloc));
    match kept {
        None => Some(old),
        Some(first) => Some(first),
    }
}

/// At the end of a list the path with which it began is there again, if there was a label.
pub fn finish(path: &mut Path, kept: Option<Path>)
    ensures { Finishes path.old path.new kept }
{
    if let Some(first) = kept {
        *path = first;
    }
}

/// Whether a label must come behind a statement with none in it.
pub fn due_behind(next: Next, simple: &Simple) -> bool
    ensures { (ts : List Tree) (j : Partner) → IsNext next j → result ≡ is_due (due_after (simple_at ts simple.now) j) }
{
    match simple {
        Simple::Goto(_) => true,
        Simple::Return => true,
        Simple::Call(_, _) => !next.pairs,
        _ => false,
    }
}

impl Where {
    /// Past a statement with none in it.
    ///
    /// # Errors
    ///
    /// Only for want of memory.
    pub fn simple(
        &self,
        alloc: Global,
        pool: &Pool,
        path: &mut Path,
        seen: Seen,
        next: Next,
        simple: &Simple,
    ) -> Result<Seen, AllocError>
        requires { past_simple simple.now ≤ length pool.now }
        ensures kept { OnOk result (Behind path.old.names.keys path.new.names.keys) }
        ensures sees { IfOk result (λ r. (ms : List Found) → AreMacros self.now.around.known ms → (j : Partner) → IsNext next j → SeesOne (effects_of self.now ms) (simple_at pool.now simple.now) j path.old path.new seen r) }
    {
        let step = self.step(alloc, pool, next, simple)?;
        let met = path.meets(&step);
        let inner = seen.into(false);
        let leaves = jumps(simple);
        path.pass(&step, leaves)?;
        Ok(Seen {
            missing: one_of(inner.missing, met),
            held: one_of(seen.held, leaves),
            labelled: false,
            due: due_behind(next, simple),
        })
    }

    // Past a statement.
    #[cycle(within)]
    fn one(
        &self,
        alloc: Global,
        pool: &Pool,
        path: &mut Path,
        seen: Seen,
        next: Next,
        stmt: &Stmt,
    ) -> Result<Seen, AllocError>
        requires { past_stmt stmt.now ≤ length pool.now }
        ensures kept { OnOk result (Behind path.old.names.keys path.new.names.keys) }
        ensures sees { IfOk result (λ r. (ms : List Found) → AreMacros self.now.around.known ms → (j : Partner) → IsNext next j → (s : PureSpan) (st : Statement) → stmt_at pool.now stmt.now ≡ then s st → SeesOne (effects_of self.now ms) st j path.old path.new seen r) }
    {
        match stmt {
            Stmt::Label(_, _) => Ok(seen),
            Stmt::Simple(_, simple) => self.simple(alloc, pool, path, seen, next, simple),
            Stmt::If(_, _, then, otherwise) => {
                let (first, ends) = self.branch(alloc, pool, path, seen.into(false), None, then)?;
                let (second, all) = self.branch(alloc, pool, path, first, ends, otherwise)?;
                path.close(all)?;
                Ok(seen.out(second, true))
            }
            Stmt::Either(_, list) => {
                let (inner, ends) = self.branches(alloc, pool, path, seen.into(false), list)?;
                path.close(ends)?;
                Ok(seen.out(inner, true))
            }
            Stmt::With(_, _, body) => {
                let inner = self.list(alloc, pool, path, seen.into(false), body)?;
                Ok(seen.out(inner, true))
            }
            Stmt::While(_, _, body) => {
                let (inner, ends) = self.branch(alloc, pool, path, seen.into(true), None, body)?;
                round(path, seen.labelled, ends)?;
                Ok(seen.out(inner, false))
            }
        }
    }

    /// Past a branch, which ends as this tells with those before it; the path is then again that of its beginning.
    ///
    /// # Errors
    ///
    /// Only for want of memory.
    #[cycle(within)]
    pub fn branch(
        &self,
        alloc: Global,
        pool: &Pool,
        path: &mut Path,
        seen: Seen,
        ends: Option<Path>,
        stmts: &[Stmt],
    ) -> Result<(Seen, Option<Path>), AllocError>
        requires { past_statements stmts.now ≤ length pool.now }
        ensures names { OnOk result (path.new.names.keys ≡ path.old.names.keys) }
        ensures reached { OnOk result (path.new.reached ≡ path.old.reached) }
        ensures sees { IfOk result (λ r. (ms : List Found) → AreMacros self.now.around.known ms → SeesBranch (effects_of self.now ms) (statements_at pool.now stmts.now) path.old ends seen r.0 r.1) }
    {
        let start = path.names.len();
        let reached = path.reached;
        let inner = self.list(alloc, pool, path, seen.end(), stmts)?;
        let all = path.leave(start, ends)?;
        path.reached = reached;
        Ok((inner, all))
    }

    // Past branches.
    #[cycle(within)]
    fn branches(
        &self,
        alloc: Global,
        pool: &Pool,
        path: &mut Path,
        seen: Seen,
        list: &[Vec<Stmt>],
    ) -> Result<(Seen, Option<Path>), AllocError>
        requires { past_branches list.now ≤ length pool.now }
        ensures names { OnOk result (path.new.names.keys ≡ path.old.names.keys) }
        ensures reached { OnOk result (path.new.reached ≡ path.old.reached) }
        ensures sees { IfOk result (λ r. (ms : List Found) → AreMacros self.now.around.known ms → SeesBranches (effects_of self.now ms) (branches_at pool.now list.now) path.old seen r.0 r.1) }
    {
        let mut so_far = seen;
        let mut ends = None;
        for i in 0..list.len() {
            let (next, all) = self.branch(alloc, pool, path, so_far, ends, &list[i])?;
            so_far = next;
            ends = all;
        }
        Ok((so_far, ends))
    }

    /// Past a list of statements inside a `with`. It calls itself as deep as statements are in statements.
    ///
    /// # Errors
    ///
    /// Only for want of memory.
    #[cycle(within)]
    pub fn list(
        &self,
        alloc: Global,
        pool: &Pool,
        path: &mut Path,
        seen: Seen,
        stmts: &[Stmt],
    ) -> Result<Seen, AllocError>
        requires { past_statements stmts.now ≤ length pool.now }
        ensures kept { OnOk result (Behind path.old.names.keys path.new.names.keys) }
        ensures sees { IfOk result (λ r. (ms : List Found) → AreMacros self.now.around.known ms → SeesList (effects_of self.now ms) (statements_at pool.now stmts.now) path.old path.new seen r) }
    {
        let mut so_far = seen;
        let mut kept = None;
        for i in 0..stmts.len() {
            let stmt = &stmts[i];
            if place_of(stmt).is_none() {
                kept = begin(alloc, path, kept);
                so_far = so_far.label();
                continue;
            }
            so_far = self.one(alloc, pool, path, so_far, next_of(stmts, i), stmt)?;
        }
        finish(path, kept);
        Ok(so_far.end())
    }
}

// Behind a loop, of which a round ends so; true where a label is before it.
fn round(path: &mut Path, labelled: bool, ends: Option<Path>) -> Result<(), AllocError>
    ensures kept { OnOk result (Behind path.old.names.keys path.new.names.keys) }
    ensures path { OnOk result (Rounds labelled path.old path.new ends) }
{
    if labelled {
        return Ok(());
    }
    if let Some(all) = ends {
        path.add(all.names.as_slice())?;
    }
    Ok(())
}
