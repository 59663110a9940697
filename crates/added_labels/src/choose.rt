//! Before which statements labels are added.

ghost use Rattle.std.specs.Prelude.{◌≡◌, ◌≤◌, ◌++◌, List, [], false, length, IfOk, OnOk};
ghost use Rattle.pcal_tree.specs.Algorithm.{Span as PureSpan, Statement, then};
ghost use Rattle.pcal_tree.specs.InMemory.{stmt_at, statements_at, branches_at, past_stmt, past_statements, past_branches};
ghost use Rattle.pcal_tree.specs.Labelled.{needs_label};
ghost use Rattle.pcal_tree.specs.OffencesSteps.{Before, inside};
ghost use Rattle.pcal_tree.specs.Paths as paths;
ghost use Rattle.pcal_tree.specs.Run.{Partner};
ghost use Rattle.pcal_tree.specs.laws.MacroSummaries.{Summary as Found};
ghost use Rattle.pcal_tree.proofs.EffectLaws.{Alike};
ghost use Rattle.label_steps.specs.KnownIn.{AreMacros};
ghost use Rattle.label_steps.specs.PathsIn.{Behind, path_of};
ghost use Rattle.added_labels.specs.Decided.{chosen};
ghost use Rattle.added_labels.specs.Sight.{IsNext, effects_of, offends};
ghost use Rattle.added_labels.specs.Chosen.{StandsNow, ChoosesOne, ChoosesList, ChoosesBranch, ChoosesBranches, OnPath, begins_with};

use crate::seen::{Next, Seen, Where, next_of};
use crate::within::{begin, finish};
use label_steps::path::Path;
use pcal_tree::algorithm::Stmt;
use placed_labels::place::place_of;
use std::alloc::{AllocError, Global};
use tla_pool::Pool;

// Before a statement, where it is told whether a label is added: then a path begins anew.
fn stand(
    alloc: Global,
    path: &mut Path,
    kept: Option<Path>,
    seen: Seen,
    needs: bool,
) -> (Seen, Option<Path>)
    ensures { StandsNow needs path.old path.new kept result.1 seen result.0 }
{
    if needs {
        let first = begin(alloc, path, kept);
        (seen.label(), first)
    } else {
        (seen, kept)
    }
}

impl Where {
    // Whether a label is missing in a `with`, or a variable is assigned twice; the path is then as before.
    fn lacks(
        &self,
        alloc: Global,
        pool: &Pool,
        path: &mut Path,
        body: &[Stmt],
    ) -> Result<bool, AllocError>
        requires { past_statements body.now ≤ length pool.now }
        ensures names { OnOk result (path.new.names.keys ≡ path.old.names.keys) }
        ensures reached { OnOk result (path.new.reached ≡ path.old.reached) }
        ensures lacks { IfOk result (λ r. (ms : List Found) → AreMacros self.now.around.known ms → (q : paths.Path) → Alike (path_of path.old) q → r ≡ offends (effects_of self.now ms) (inside q) (statements_at pool.now body.now)) }
    {
        let start = Seen {
            missing: false,
            held: false,
            labelled: false,
            due: false,
        };
        let (inner, _) = self.branch(alloc, pool, path, start, None, body)?;
        Ok(inner.missing)
    }

    // Whether a label is added before a statement; the path is then as before.
    fn needs(
        &self,
        alloc: Global,
        pool: &Pool,
        path: &mut Path,
        seen: Seen,
        next: Next,
        stmt: &Stmt,
    ) -> Result<bool, AllocError>
        requires { past_stmt stmt.now ≤ length pool.now }
        ensures names { OnOk result (path.new.names.keys ≡ path.old.names.keys) }
        ensures reached { OnOk result (path.new.reached ≡ path.old.reached) }
        ensures needs { IfOk result (λ r. (ms : List Found) → AreMacros self.now.around.known ms → (j : Partner) → IsNext next j → (s : PureSpan) (st : Statement) → stmt_at pool.now stmt.now ≡ then s st → (p : Before) → OnPath seen path.old p → r ≡ needs_label (effects_of self.now ms) p s st j) }
    {
        if seen.labelled {
            return Ok(false);
        }
        if seen.due {
            return Ok(true);
        }
        match stmt {
            Stmt::Label(_, _) => Ok(false),
            Stmt::Simple(_, simple) => {
                let step = self.step(alloc, pool, next, simple)?;
                Ok(path.meets(&step))
            }
            Stmt::If(_, _, _, _) => Ok(false),
            Stmt::Either(_, _) => Ok(false),
            Stmt::With(_, _, body) => self.lacks(alloc, pool, path, body),
            Stmt::While(_, _, _) => Ok(true),
        }
    }

    // Past a statement, before which it was decided; what is decided of those inside it goes behind the rest.
    #[cycle(choose)]
    fn choose_inside(
        &self,
        alloc: Global,
        pool: &Pool,
        path: &mut Path,
        wanted: &mut Vec<bool>,
        seen: Seen,
        next: Next,
        stmt: &Stmt,
    ) -> Result<Seen, AllocError>
        requires { past_stmt stmt.now ≤ length pool.now }
        ensures kept { OnOk result (Behind path.old.names.keys path.new.names.keys) }
        ensures chooses { IfOk result (λ r. (ms : List Found) → AreMacros self.now.around.known ms → (j : Partner) → IsNext next j → (s : PureSpan) (st : Statement) → stmt_at pool.now stmt.now ≡ then s st → (q : paths.Path) → Alike (path_of path.old) q → seen.due ≡ false → ChoosesOne (effects_of self.now ms) q st j path.old path.new seen r wanted.old.items wanted.new.items) }
    {
        match stmt {
            Stmt::Label(_, _) => Ok(seen),
            Stmt::Simple(_, simple) => self.simple(alloc, pool, path, seen, next, simple),
            Stmt::If(_, _, then, otherwise) => {
                let (first, ends) = self.choose_branch(
                    alloc,
                    pool,
                    path,
                    wanted,
                    seen.into(false),
                    None,
                    then,
                )?;
                let (second, all) = self.choose_branch(
                    alloc, pool, path, wanted, first, ends, otherwise,
                )?;
                path.close(all)?;
                Ok(seen.out(second, true))
            }
            Stmt::Either(_, list) => {
                let (inner, ends) = self.choose_branches(
                    alloc,
                    pool,
                    path,
                    wanted,
                    seen.into(false),
                    list,
                )?;
                path.close(ends)?;
                Ok(seen.out(inner, true))
            }
            Stmt::With(_, _, body) => {
                let inner = self.list(alloc, pool, path, seen.into(false), body)?;
                Ok(seen.out(inner, true))
            }
            Stmt::While(_, _, body) => {
                let (inner, _) = self.choose_branch(
                    alloc,
                    pool,
                    path,
                    wanted,
                    seen.into(false),
                    None,
                    body,
                )?;
                Ok(seen.out(inner, false))
            }
        }
    }

    // Past a branch, which ends as this tells with those before it; the path is then again that of its beginning.
    #[cycle(choose)]
    fn choose_branch(
        &self,
        alloc: Global,
        pool: &Pool,
        path: &mut Path,
        wanted: &mut Vec<bool>,
        seen: Seen,
        ends: Option<Path>,
        stmts: &[Stmt],
    ) -> Result<(Seen, Option<Path>), AllocError>
        requires { past_statements stmts.now ≤ length pool.now }
        ensures names { OnOk result (path.new.names.keys ≡ path.old.names.keys) }
        ensures reached { OnOk result (path.new.reached ≡ path.old.reached) }
        ensures chooses { IfOk result (λ r. (ms : List Found) → AreMacros self.now.around.known ms → (q : paths.Path) → Alike (path_of path.old) q → ChoosesBranch (effects_of self.now ms) q (statements_at pool.now stmts.now) path.old ends seen r.0 r.1 wanted.old.items wanted.new.items) }
    {
        let start = path.names.len();
        let reached = path.reached;
        let inner = self.choose_list(alloc, pool, path, wanted, seen.end(), stmts)?;
        let all = path.leave(start, ends)?;
        path.reached = reached;
        Ok((inner, all))
    }

    // Past branches.
    #[cycle(choose)]
    fn choose_branches(
        &self,
        alloc: Global,
        pool: &Pool,
        path: &mut Path,
        wanted: &mut Vec<bool>,
        seen: Seen,
        list: &[Vec<Stmt>],
    ) -> Result<(Seen, Option<Path>), AllocError>
        requires { past_branches list.now ≤ length pool.now }
        ensures names { OnOk result (path.new.names.keys ≡ path.old.names.keys) }
        ensures reached { OnOk result (path.new.reached ≡ path.old.reached) }
        ensures chooses { IfOk result (λ r. (ms : List Found) → AreMacros self.now.around.known ms → (q : paths.Path) → Alike (path_of path.old) q → ChoosesBranches (effects_of self.now ms) q (branches_at pool.now list.now) path.old seen r.0 r.1 wanted.old.items wanted.new.items) }
    {
        let mut so_far = seen;
        let mut ends = None;
        for i in 0..list.len() {
            let (next, all) = self.choose_branch(
                alloc, pool, path, wanted, so_far, ends, &list[i],
            )?;
            so_far = next;
            ends = all;
        }
        Ok((so_far, ends))
    }

    // Past a list of statements. It calls itself as deep as statements are in statements.
    #[cycle(choose)]
    fn choose_list(
        &self,
        alloc: Global,
        pool: &Pool,
        path: &mut Path,
        wanted: &mut Vec<bool>,
        seen: Seen,
        stmts: &[Stmt],
    ) -> Result<Seen, AllocError>
        requires { past_statements stmts.now ≤ length pool.now }
        ensures kept { OnOk result (Behind path.old.names.keys path.new.names.keys) }
        ensures chooses { IfOk result (λ r. (ms : List Found) → AreMacros self.now.around.known ms → (p : Before) → OnPath seen path.old p → ChoosesList (effects_of self.now ms) p (statements_at pool.now stmts.now) path.new seen r wanted.old.items wanted.new.items) }
    {
        let mut so_far = seen;
        let mut kept = None;
        for i in 0..stmts.len() {
            let stmt = &stmts[i];
            if place_of(stmt).is_none() {
                kept = begin(alloc, path, kept);
                so_far = so_far.label();
                continue;
            }
            let next = next_of(stmts, i);
            let needs = self.needs(alloc, pool, path, so_far, next, stmt)?;
            wanted.push(needs)?;
            let (here, first) = stand(alloc, path, kept, so_far, needs);
            kept = first;
            so_far = self.choose_inside(alloc, pool, path, wanted, here, next, stmt)?;
        }
        finish(path, kept);
        Ok(so_far.end())
    }

    /// What is decided of the statements of a body goes behind the rest; true where a label must be before the first of them.
    ///
    /// # Errors
    ///
    /// Only for want of memory.
    pub fn choose(
        &self,
        alloc: Global,
        pool: &Pool,
        wanted: &mut Vec<bool>,
        due: bool,
        body: &[Stmt],
    ) -> Result<(), AllocError>
        requires { past_statements body.now ≤ length pool.now }
        ensures { OnOk result ((ms : List Found) → AreMacros self.now.around.known ms → (p : Before) → begins_with due p → wanted.new.items ≡ wanted.old.items ++ chosen (effects_of self.now ms) p (statements_at pool.now body.now) []) }
    {
        let mut path = Path::new(alloc);
        let start = Seen {
            missing: false,
            held: false,
            labelled: false,
            due,
        };
        self.choose_list(alloc, pool, &mut path, wanted, start, body)?;
        Ok(())
    }
}
