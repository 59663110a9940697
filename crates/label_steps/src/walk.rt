//! The walk over what is assigned: the first variable that is assigned twice on a path, and what is gathered of macros.

ghost use Rattle.std.specs.Prelude.{◌≡◌, ◌≤◌, ◌+◌, ◌++◌, ◌||◌, List, length, drop, IfOk, OnOk};
ghost use Rattle.tla_tree.specs.Tree.{Tree};
ghost use Rattle.pcal_tree.specs.Algorithm.{Span as PureSpan, Statement, Statements, then};
ghost use Rattle.pcal_tree.specs.InMemory.{simple_at, stmt_at, statements_at, branches_at, past_simple, past_stmt, past_statements, past_branches};
ghost use Rattle.pcal_tree.specs.Offences.{offence_if, first};
ghost use Rattle.pcal_tree.specs.Run.{Partner, is_return, partner_of};
ghost use Rattle.tla_token.specs.declared.rule.Rule.TheVariants.{AssignTwice};
ghost use Rattle.algorithm_answer.specs.Joined.{joined};
ghost use Rattle.pcal_tree.proofs.EffectLaws.{Alike};
ghost use Rattle.pcal_tree.specs.Paths.{Path as PurePath, has_assigned};
ghost use Rattle.pcal_tree.specs.laws.MacroSummaries.{Summary as Found, found_here};
ghost use Rattle.label_steps.specs.GatheredIn.{AddsSome, names_on, turns_on};
ghost use Rattle.label_steps.specs.AroundIn.{effects_around};
ghost use Rattle.label_steps.specs.KnownIn.{AreMacros};
ghost use Rattle.label_steps.specs.StraightPaths.{straight_one, straight, straight_twice, straight_met};
ghost use Rattle.label_steps.specs.PathsIn.{Behind, path_of};
ghost use Rattle.label_steps.specs.WalksIn.{IsKind, PassesOne, PassesAll, PassesBehind, PassesArm, PassesArms};

use crate::around::Around;
use crate::due::jumps;
use crate::gathered::Gathered;
use crate::path::Path;
use crate::sides::Step;
use algorithm_limits::order::or_offence;
use pcal_tree::algorithm::{Simple, Stmt};
use std::alloc::{AllocError, Global};
use tla_pool::Pool;
use tla_token::{Place, Refusal, Rule};

/// What was met in statements.
#[derive(Drop)]
pub struct Met {
    /// The first variable that is assigned twice.
    pub first: Option<Refusal>,
    /// In a macro, what is gathered of it.
    pub found: Option<Gathered>,
}

/// Whether it is a label.
pub fn is_label(stmt: &Stmt) -> bool
    ensures { (ts : List Tree) → IsKind result ts stmt.now }
{
    match stmt {
        Stmt::Label(_, _) => true,
        Stmt::Simple(_, _) => false,
        Stmt::If(_, _, _, _) => false,
        Stmt::Either(_, _) => false,
        Stmt::With(_, _, _) => false,
        Stmt::While(_, _, _) => false,
    }
}

// Whether it is a `return`.
fn is_return(stmt: &Stmt) -> bool
    ensures { (ts : List Tree) (rest : Statements) → result ≡ is_return (partner_of (stmt_at ts stmt.now rest)) }
{
    match stmt {
        Stmt::Simple(_, Simple::Return) => true,
        _ => false,
    }
}

/// Whether a `return` comes directly behind the statement of this number.
pub fn returns_behind(stmts: &[Stmt], i: usize) -> bool
    ensures { (ts : List Tree) → result ≡ is_return (partner_of (statements_at ts (drop (i + 1) stmts.now))) }
{
    if i >= stmts.len() {
        return false;
    }
    if i + 1 >= stmts.len() {
        return false;
    }
    is_return(&stmts[i + 1])
}

impl Met {
    // A statement at this place, to which this path leads, and which assigns so.
    fn meet(
        &mut self,
        alloc: Global,
        around: &Around,
        pool: &Pool,
        path: &Path,
        place: Place,
        simple: &Simple,
        step: &Step,
    ) -> Result<(), AllocError>
        requires { past_simple simple.now ≤ length pool.now }
        ensures first { OnOk result (self.new.first ≡ joined self.old.first (first (offence_if (step.now.twice || has_assigned (path_of path.now) step.now.names.items) AssignTwice place))) }
        ensures found { OnOk result ((ms : List Found) → AreMacros around.now.known ms → AddsSome around.now.known self.old.found self.new.found (names_on (path_of path.now) step.now.names.items) (turns_on (path_of path.now) step.now.names.items ++ (found_here ms (simple_at pool.now simple.now)).pairs)) }
    {
        self.first = or_offence(self.first, path.meets(step), Rule::AssignTwice, place);
        match &mut self.found {
            None => Ok(()),
            Some(found) => found.meet(alloc, &around.known, pool, path, simple, &step.names),
        }
    }
}

impl Around {
    // A statement with none in it; true where a `return` comes directly behind it.
    fn simple(
        &self,
        alloc: Global,
        pool: &Pool,
        path: &mut Path,
        met: &mut Met,
        returns: bool,
        place: Place,
        simple: &Simple,
    ) -> Result<(), AllocError>
        requires { past_simple simple.now ≤ length pool.now }
        ensures kept { OnOk result (Behind path.old.names.keys path.new.names.keys) }
        ensures passed { OnOk result ((at : PureSpan) → place ≡ at.first → PassesOne self.now returns at (simple_at pool.now simple.now) path.old path.new met.old met.new) }
    {
        let step = self.step(alloc, pool, returns, simple)?;
        met.meet(alloc, self, pool, path, place, simple, &step)?;
        path.pass(&step, jumps(simple))
    }

    // A statement, and no label; true where a `return` comes directly behind it.
    #[cycle(walk)]
    fn past(
        &self,
        alloc: Global,
        pool: &Pool,
        path: &mut Path,
        met: &mut Met,
        returns: bool,
        stmt: &Stmt,
    ) -> Result<(), AllocError>
        requires { past_stmt stmt.now ≤ length pool.now }
        ensures kept { OnOk result ((at : PureSpan) (st : Statement) → stmt_at pool.now stmt.now ≡ then at st → Behind path.old.names.keys path.new.names.keys) }
        ensures passed { OnOk result ((at : PureSpan) (st : Statement) → stmt_at pool.now stmt.now ≡ then at st → PassesOne self.now returns at st path.old path.new met.old met.new) }
    {
        match stmt {
            Stmt::Label(_, _) => Ok(()),
            Stmt::Simple(span, simple) => {
                self.simple(alloc, pool, path, met, returns, span.first, simple)
            }
            Stmt::If(_, _, then, otherwise) => {
                let first = self.arm(alloc, pool, path, met, None, then)?;
                let second = self.arm(alloc, pool, path, met, first, otherwise)?;
                path.close(second)
            }
            Stmt::Either(_, list) => {
                let ends = self.arms(alloc, pool, path, met, list)?;
                path.close(ends)
            }
            Stmt::With(_, _, body) => self.list(alloc, pool, path, met, body),
            Stmt::While(_, _, body) => {
                self.arm(alloc, pool, path, met, None, body)?;
                Ok(())
            }
        }
    }

    // A branch, behind others that ended so; the path is then as at its beginning.
    #[cycle(walk)]
    fn arm(
        &self,
        alloc: Global,
        pool: &Pool,
        path: &mut Path,
        met: &mut Met,
        before: Option<Path>,
        stmts: &[Stmt],
    ) -> Result<Option<Path>, AllocError>
        requires { past_statements stmts.now ≤ length pool.now }
        ensures names { OnOk result (path.new.names.keys ≡ path.old.names.keys) }
        ensures reached { OnOk result (path.new.reached ≡ path.old.reached) }
        ensures passed { IfOk result (λ r. PassesArm self.now (statements_at pool.now stmts.now) path.old before r met.old met.new) }
    {
        let start = path.names.len();
        let reached = path.reached;
        self.list(alloc, pool, path, met, stmts)?;
        let ends = path.leave(start, before)?;
        path.reached = reached;
        Ok(ends)
    }

    // All branches of a statement; the path is then as at their beginning.
    #[cycle(walk)]
    fn arms(
        &self,
        alloc: Global,
        pool: &Pool,
        path: &mut Path,
        met: &mut Met,
        list: &[Vec<Stmt>],
    ) -> Result<Option<Path>, AllocError>
        requires { past_branches list.now ≤ length pool.now }
        ensures names { OnOk result (path.new.names.keys ≡ path.old.names.keys) }
        ensures reached { OnOk result (path.new.reached ≡ path.old.reached) }
        ensures passed { IfOk result (λ r. PassesArms self.now (branches_at pool.now list.now) path.old r met.old met.new) }
    {
        let mut ends = None;
        for i in 0..list.len() {
            ends = self.arm(alloc, pool, path, met, ends, &list[i])?;
        }
        Ok(ends)
    }

    // A list of statements, from a label on, which has this number in it.
    #[cycle(walk)]
    fn behind(
        &self,
        alloc: Global,
        pool: &Pool,
        met: &mut Met,
        start: usize,
        stmts: &[Stmt],
    ) -> Result<(), AllocError>
        requires { past_statements stmts.now ≤ length pool.now }
        ensures { OnOk result (PassesBehind self.now (statements_at pool.now (drop start stmts.now)) met.old met.new) }
    {
        let mut path = Path::new(alloc);
        for i in start..stmts.len() {
            let stmt = &stmts[i];
            if is_label(stmt) {
                path = Path::new(alloc);
                continue;
            }
            let returns = returns_behind(stmts, i);
            self.past(alloc, pool, &mut path, met, returns, stmt)?;
        }
        Ok(())
    }

    /// A list of statements; the path is then that behind those before its first label.
    ///
    /// # Errors
    ///
    /// Only for want of memory.
    #[cycle(walk)]
    pub fn list(
        &self,
        alloc: Global,
        pool: &Pool,
        path: &mut Path,
        met: &mut Met,
        stmts: &[Stmt],
    ) -> Result<(), AllocError>
        requires { past_statements stmts.now ≤ length pool.now }
        ensures kept { OnOk result (Behind path.old.names.keys path.new.names.keys) }
        ensures passed { OnOk result (PassesAll self.now (statements_at pool.now stmts.now) path.old path.new met.old met.new) }
    {
        for i in 0..stmts.len() {
            let stmt = &stmts[i];
            if is_label(stmt) {
                return self.behind(alloc, pool, met, i, stmts);
            }
            let returns = returns_behind(stmts, i);
            self.past(alloc, pool, path, met, returns, stmt)?;
        }
        Ok(())
    }

    /// The first of what was found and of the variables that are assigned twice in statements; the path is then that behind them,
    /// up to their first label. It calls itself as deep as statements are in statements.
    ///
    /// # Errors
    ///
    /// Only for want of memory.
    pub fn body(
        &self,
        alloc: Global,
        pool: &Pool,
        path: &mut Path,
        found: Option<Refusal>,
        stmts: &[Stmt],
    ) -> Result<Option<Refusal>, AllocError>
        requires { past_statements stmts.now ≤ length pool.now }
        ensures kept { OnOk result (Behind path.old.names.keys path.new.names.keys) }
        ensures path { OnOk result ((ms : List Found) → AreMacros self.now.known ms → (p : PurePath) → Alike p (path_of path.old) → Alike (straight (effects_around self.now ms) (statements_at pool.now stmts.now) p) (path_of path.new)) }
        ensures first { IfOk result (λ r. (ms : List Found) → AreMacros self.now.known ms → (p : PurePath) → Alike p (path_of path.old) → r ≡ joined found (first (straight_twice (effects_around self.now ms) p (statements_at pool.now stmts.now)))) }
    {
        let mut met = Met {
            first: found,
            found: None,
        };
        self.list(alloc, pool, path, &mut met, stmts)?;
        Ok(met.first)
    }

    /// The same of one statement, and no label; true where a `return` comes directly behind it.
    ///
    /// # Errors
    ///
    /// Only for want of memory.
    pub fn stmt(
        &self,
        alloc: Global,
        pool: &Pool,
        path: &mut Path,
        found: Option<Refusal>,
        returns: bool,
        stmt: &Stmt,
    ) -> Result<Option<Refusal>, AllocError>
        requires { past_stmt stmt.now ≤ length pool.now }
        ensures kept { OnOk result ((s : PureSpan) (st : Statement) → stmt_at pool.now stmt.now ≡ then s st → Behind path.old.names.keys path.new.names.keys) }
        ensures path { OnOk result ((s : PureSpan) (st : Statement) → stmt_at pool.now stmt.now ≡ then s st → (ms : List Found) → AreMacros self.now.known ms → (p : PurePath) → Alike p (path_of path.old) → Alike (straight_one (effects_around self.now ms) st p) (path_of path.new)) }
        ensures first { IfOk result (λ r. (s : PureSpan) (st : Statement) → stmt_at pool.now stmt.now ≡ then s st → (ms : List Found) → AreMacros self.now.known ms → (p : PurePath) → Alike p (path_of path.old) → (j : Partner) → returns ≡ is_return j → r ≡ joined found (first (straight_met (effects_around self.now ms) p s.first st j))) }
    {
        let mut met = Met {
            first: found,
            found: None,
        };
        self.past(alloc, pool, path, &mut met, returns, stmt)?;
        Ok(met.first)
    }
}
