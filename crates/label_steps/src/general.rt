//! The walk over a macro in which a label is missing: what it assigns on all paths, round loops and behind labels too.

ghost use Rattle.std.specs.Prelude.{◌≡◌, ◌≤◌, ◌++◌, List, Bool, length, IfOk, OnOk};
ghost use Rattle.pcal_tree.specs.Algorithm.{Span as PureSpan, Statement, then};
ghost use Rattle.pcal_tree.specs.InMemory.{simple_at, stmt_at, statements_at, branches_at, past_simple, past_stmt, past_statements, past_branches};
ghost use Rattle.pcal_tree.specs.OffencesSteps.{inside, visits};
ghost use Rattle.pcal_tree.specs.laws.MacroSummaries.{Summary as Found, found_here};
ghost use Rattle.label_steps.specs.Gathered.{assigning};
ghost use Rattle.label_steps.specs.GatheredIn.{AddsSome, names_on, turns_on};
ghost use Rattle.label_steps.specs.KnownIn.{AreMacros};
ghost use Rattle.label_steps.specs.PathsIn.{path_of};
ghost use Rattle.label_steps.specs.WaysIn.{looped, LeadsBoth, Gathers, GoesOne, GoesAll, GoesSome, InMacro};

use crate::around::Around;
use crate::due::jumps;
use crate::gathered::Gathered;
use crate::path::Path;
use crate::sides::Step;
use crate::walk::is_label;
use crate::ways::Ways;
use pcal_tree::algorithm::{Simple, Stmt};
use std::alloc::{AllocError, Global};
use tla_pool::Pool;

impl Around {
    // A statement to which this path leads, and which assigns so, where something is gathered.
    fn meet(
        &self,
        alloc: Global,
        pool: &Pool,
        path: &Path,
        found: &mut Option<Gathered>,
        simple: &Simple,
        step: &Step,
    ) -> Result<(), AllocError>
        requires { past_simple simple.now ≤ length pool.now }
        ensures { OnOk result ((ms : List Found) → AreMacros self.now.known ms → AddsSome self.now.known found.old found.new (names_on (path_of path.now) step.now.names.items) (turns_on (path_of path.now) step.now.names.items ++ (found_here ms (simple_at pool.now simple.now)).pairs)) }
    {
        match found {
            None => Ok(()),
            Some(so_far) => so_far.meet(alloc, &self.known, pool, path, simple, &step.names),
        }
    }

    // A statement with none in it.
    fn along_simple(
        &self,
        alloc: Global,
        pool: &Pool,
        ways: &mut Ways,
        found: &mut Option<Gathered>,
        simple: &Simple,
    ) -> Result<(), AllocError>
        requires { past_simple simple.now ≤ length pool.now }
        ensures { OnOk result (InMacro self.now (λ S. (labelled : Bool) (at : PureSpan) → GoesOne self.now.known S labelled at (simple_at pool.now simple.now) ways.old ways.new found.old found.new)) }
    {
        let step = self.step(alloc, pool, false, simple)?;
        self.meet(alloc, pool, &ways.reached, found, simple, &step)?;
        ways.pass(&step, jumps(simple))
    }

    // The paths at a loop with this body, after any number of rounds; true where a label is right before it.
    #[cycle(along)]
    fn along_rounds(
        &self,
        alloc: Global,
        pool: &Pool,
        labelled: bool,
        ways: &mut Ways,
        body: &[Stmt],
    ) -> Result<(), AllocError>
        requires { past_statements body.now ≤ length pool.now }
        ensures { OnOk result (InMacro self.now (λ S. LeadsBoth (looped (assigning S) (statements_at pool.now body.now) labelled) ways.old ways.new)) }
    {
        if labelled {
            return Ok(());
        }
        let mut round = Ways::new(alloc);
        let mut none = None;
        self.along(alloc, pool, &mut round, &mut none, body)?;
        ways.go_round(alloc, &round)
    }

    // What is in a loop's body, where these paths lead to it.
    #[cycle(along)]
    fn along_inside(
        &self,
        alloc: Global,
        pool: &Pool,
        ways: &Ways,
        found: &mut Option<Gathered>,
        body: &[Stmt],
    ) -> Result<(), AllocError>
        requires { past_statements body.now ≤ length pool.now }
        ensures { OnOk result (InMacro self.now (λ S. Gathers self.now.known S (λ p. visits (assigning S) (inside p) (statements_at pool.now body.now)) ways.now.reached found.old found.new)) }
    {
        if found.is_none() {
            return Ok(());
        }
        let mut copy = ways.copied(alloc)?;
        self.along(alloc, pool, &mut copy, found, body)
    }

    // A statement, and no label; true where a label is right before it.
    #[cycle(along)]
    fn along_stmt(
        &self,
        alloc: Global,
        pool: &Pool,
        labelled: bool,
        ways: &mut Ways,
        found: &mut Option<Gathered>,
        stmt: &Stmt,
    ) -> Result<(), AllocError>
        requires { past_stmt stmt.now ≤ length pool.now }
        ensures { OnOk result ((at : PureSpan) (st : Statement) → stmt_at pool.now stmt.now ≡ then at st → InMacro self.now (λ S. GoesOne self.now.known S labelled at st ways.old ways.new found.old found.new)) }
    {
        match stmt {
            Stmt::Label(_, _) => Ok(()),
            Stmt::Simple(_, simple) => self.along_simple(alloc, pool, ways, found, simple),
            Stmt::If(_, _, then, otherwise) => {
                let mut other = ways.copied(alloc)?;
                self.along(alloc, pool, ways, found, then)?;
                self.along(alloc, pool, &mut other, found, otherwise)?;
                ways.join(other)
            }
            Stmt::Either(_, list) => {
                *ways = self.along_branches(alloc, pool, ways, found, list)?;
                Ok(())
            }
            Stmt::With(_, _, body) => self.along(alloc, pool, ways, found, body),
            Stmt::While(_, _, body) => {
                self.along_rounds(alloc, pool, labelled, ways, body)?;
                self.along_inside(alloc, pool, ways, found, body)
            }
        }
    }

    // All branches of a statement: the paths behind them.
    #[cycle(along)]
    fn along_branches(
        &self,
        alloc: Global,
        pool: &Pool,
        ways: &Ways,
        found: &mut Option<Gathered>,
        list: &[Vec<Stmt>],
    ) -> Result<Ways, AllocError>
        requires { past_branches list.now ≤ length pool.now }
        ensures { IfOk result (λ r. InMacro self.now (λ S. GoesSome self.now.known S (branches_at pool.now list.now) ways.now r found.old found.new)) }
    {
        let mut ends = Ways::none(alloc);
        for i in 0..list.len() {
            let mut one = ways.copied(alloc)?;
            self.along(alloc, pool, &mut one, found, &list[i])?;
            ends.join(one)?;
        }
        Ok(ends)
    }

    /// A list of statements: the paths are then those behind it, and what it assigns is gathered where something is to be.
    ///
    /// # Errors
    ///
    /// Only for want of memory.
    #[cycle(along)]
    pub fn along(
        &self,
        alloc: Global,
        pool: &Pool,
        ways: &mut Ways,
        found: &mut Option<Gathered>,
        stmts: &[Stmt],
    ) -> Result<(), AllocError>
        requires { past_statements stmts.now ≤ length pool.now }
        ensures { OnOk result (InMacro self.now (λ S. GoesAll self.now.known S (statements_at pool.now stmts.now) ways.old ways.new found.old found.new)) }
    {
        let mut labelled = false;
        for i in 0..stmts.len() {
            let stmt = &stmts[i];
            if is_label(stmt) {
                *ways = Ways::behind_label(alloc);
                labelled = true;
                continue;
            }
            self.along_stmt(alloc, pool, labelled, ways, found, stmt)?;
            labelled = false;
        }
        Ok(())
    }
}
