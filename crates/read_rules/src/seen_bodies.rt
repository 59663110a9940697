//! What is seen in statements.

ghost use Rattle.std.specs.Prelude.{◌≡◌, false, None, Some, List, [], ◌∷◌, IfOk, OnOk};
ghost use Rattle.tla_tree.specs.Pool.{at};
ghost use Rattle.pcal_tree.specs.Algorithm.{branch, either, with, while, Procedure};
ghost use Rattle.tla_token.specs.declared.place.Place.{Place};
ghost use Rattle.pcal_tree.specs.InMemory.{binds_at, simple_at, statements_at, branches_at};
ghost use Rattle.pcal_tree.specs.laws.MacroSpots.{MacroSeen, earlier, seen_in_call, seen_in_body, starting, unlabelled, uses, uses_of_binds};
ghost use Rattle.read_rules.specs.BodiesIn.{one, GoesStmt, in_some, together};
ghost use Rattle.read_rules.specs.KnownIn.{Knows};
ghost use Rattle.read_rules.specs.UsesIn.{uses_of};
ghost use Rattle.read_rules.specs.WaysIn.{Goes, Begins, Branches};

use crate::known::Known;
use crate::steps::{add_binds, step};
use crate::uses::{Use, add_uses};
use crate::walk::Ways;
use crate::ways::Paths;
use pcal_tree::algorithm::{Bind, Simple, Stmt};
use std::alloc::{AllocError, Global};
use tla_pool::Pool;
use tla_token::Place;
use tla_tree::NodeId;

// What the test of a statement uses.
fn test_uses(alloc: Global, pool: &Pool, e: NodeId) -> Result<Vec<Use>, AllocError>
    ensures { IfOk result (λ r. uses_of r.items ≡ uses (at pool.now e)) }
{
    let mut list = Vec::new(alloc);
    add_uses(&mut list, pool, e)?;
    Ok(list)
}

// What the expressions of a `with` use.
fn bind_uses(alloc: Global, pool: &Pool, binds: &[Bind]) -> Result<Vec<Use>, AllocError>
    ensures { IfOk result (λ r. uses_of r.items ≡ uses_of_binds (binds_at pool.now binds.now)) }
{
    let mut list = Vec::new(alloc);
    add_binds(&mut list, pool, binds)?;
    Ok(list)
}

impl Known {
    // A statement that has none in it.
    fn simple(
        &self,
        alloc: Global,
        pool: &Pool,
        ways: &mut Ways,
        place: Place,
        simple: &Simple,
    ) -> Result<(), AllocError>
        ensures { OnOk result ((ms : List MacroSeen) (ps : List Procedure) → Knows self.now ms ps → Goes ways.old ways.new (one (seen_in_call ms) ps place (simple_at pool.now simple.now))) }
    {
        match simple {
            Simple::Macro(name, args) => self.call(alloc, pool, ways, name, args),
            _ => {
                let step = step(alloc, pool, &self.jumps, place, simple)?;
                let outcome = ways.pass(alloc, pool, &step);
                drop(step);
                outcome
            }
        }
    }

    // A statement.
    #[cycle(bodies)]
    fn stmt(
        &self,
        alloc: Global,
        pool: &Pool,
        ways: &mut Ways,
        stmt: &Stmt,
    ) -> Result<(), AllocError>
        ensures { OnOk result ((ms : List MacroSeen) (ps : List Procedure) → Knows self.now ms ps → GoesStmt (seen_in_call ms) ps pool.now stmt.now ways.old ways.new) }
    {
        match stmt {
            Stmt::Label(_, _) => {
                ways.begin(alloc);
                Ok(())
            }
            Stmt::Simple(span, simple) => self.simple(alloc, pool, ways, span.first, simple),
            Stmt::If(_, e, then, otherwise) => {
                self.choice(alloc, pool, ways, *e, then, otherwise)
            }
            Stmt::Either(_, list) => self.either(alloc, pool, ways, list),
            Stmt::With(_, binds, body) => self.with(alloc, pool, ways, binds, body),
            Stmt::While(_, e, body) => self.repeat(alloc, pool, ways, *e, body),
        }
    }

    // An `if`.
    #[cycle(bodies)]
    fn choice(
        &self,
        alloc: Global,
        pool: &Pool,
        ways: &mut Ways,
        e: NodeId,
        then: &[Stmt],
        otherwise: &[Stmt],
    ) -> Result<(), AllocError>
        ensures { OnOk result ((ms : List MacroSeen) (ps : List Procedure) (p : Place) → Knows self.now ms ps → Goes ways.old ways.new (one (seen_in_call ms) ps p (branch (at pool.now e) (statements_at pool.now then.now) (statements_at pool.now otherwise.now)))) }
    {
        ways.pass_uses(alloc, pool, test_uses(alloc, pool, e)?)?;
        let start = ways.take_paths();
        let mut ends = Paths::none();
        match self.both(alloc, pool, ways, &start, &mut ends, then, otherwise) {
            Ok(()) => {
                drop(start);
                ways.end(ends);
                Ok(())
            }
            Err(error) => {
                drop(start);
                drop(ends);
                Err(error)
            }
        }
    }

    // The two branches of an `if`, from where these paths lead; their ends are joined to those of the branches before.
    #[cycle(bodies)]
    fn both(
        &self,
        alloc: Global,
        pool: &Pool,
        ways: &mut Ways,
        start: &Paths,
        ends: &mut Paths,
        then: &[Stmt],
        otherwise: &[Stmt],
    ) -> Result<(), AllocError>
        ensures { OnOk result ((ms : List MacroSeen) (ps : List Procedure) → Knows self.now ms ps → Branches ways.old ways.new start.now ends.old ends.new (together (λ q. seen_in_body (seen_in_call ms) ps (statements_at pool.now then.now) (unlabelled q)) (λ q. seen_in_body (seen_in_call ms) ps (statements_at pool.now otherwise.now) (unlabelled q)))) }
    {
        self.fork(alloc, pool, ways, start, ends, then)?;
        self.fork(alloc, pool, ways, start, ends, otherwise)
    }

    // An `either`.
    #[cycle(bodies)]
    fn either(
        &self,
        alloc: Global,
        pool: &Pool,
        ways: &mut Ways,
        list: &[Vec<Stmt>],
    ) -> Result<(), AllocError>
        ensures { OnOk result ((ms : List MacroSeen) (ps : List Procedure) (p : Place) → Knows self.now ms ps → Goes ways.old ways.new (one (seen_in_call ms) ps p (either (branches_at pool.now list.now)))) }
    {
        ways.pass_uses(alloc, pool, Vec::new(alloc))?;
        let start = ways.take_paths();
        let mut ends = Paths::none();
        match self.branches(alloc, pool, ways, &start, &mut ends, list) {
            Ok(()) => {
                drop(start);
                ways.end(ends);
                Ok(())
            }
            Err(error) => {
                drop(start);
                drop(ends);
                Err(error)
            }
        }
    }

    // A `with`.
    #[cycle(bodies)]
    fn with(
        &self,
        alloc: Global,
        pool: &Pool,
        ways: &mut Ways,
        binds: &[Bind],
        body: &[Stmt],
    ) -> Result<(), AllocError>
        ensures { OnOk result ((ms : List MacroSeen) (ps : List Procedure) (p : Place) → Knows self.now ms ps → Goes ways.old ways.new (one (seen_in_call ms) ps p (with (binds_at pool.now binds.now) (statements_at pool.now body.now)))) }
    {
        ways.pass_uses(alloc, pool, bind_uses(alloc, pool, binds)?)?;
        self.body(alloc, pool, ways, body)?;
        ways.unlabel();
        Ok(())
    }

    // A loop.
    #[cycle(bodies)]
    fn repeat(
        &self,
        alloc: Global,
        pool: &Pool,
        ways: &mut Ways,
        e: NodeId,
        body: &[Stmt],
    ) -> Result<(), AllocError>
        ensures { OnOk result ((ms : List MacroSeen) (ps : List Procedure) (p : Place) → Knows self.now ms ps → Goes ways.old ways.new (one (seen_in_call ms) ps p (while (at pool.now e) (statements_at pool.now body.now)))) }
    {
        let mut inner = Ways::new(alloc, false);
        let outcome = self.rounds(alloc, pool, ways, &mut inner, e, body);
        drop(inner);
        outcome
    }

    // The rounds of a loop, where nothing was seen in its body yet.
    #[cycle(bodies)]
    fn rounds(
        &self,
        alloc: Global,
        pool: &Pool,
        ways: &mut Ways,
        inner: &mut Ways,
        e: NodeId,
        body: &[Stmt],
    ) -> Result<(), AllocError>
        ensures { OnOk result ((ms : List MacroSeen) (ps : List Procedure) (p : Place) → Begins inner.old.unreached (starting false None) → Begins inner.old.reached (starting false (Some (earlier ∷ []))) → Knows self.now ms ps → Goes ways.old ways.new (one (seen_in_call ms) ps p (while (at pool.now e) (statements_at pool.now body.now)))) }
    {
        self.body(alloc, pool, inner, body)?;
        let uses = test_uses(alloc, pool, e)?;
        ways.go_round(alloc, pool, &uses, &*inner)?;
        Ok(())
    }

    // A branch, from where these paths lead; its end is joined to those of the branches before.
    #[cycle(bodies)]
    fn fork(
        &self,
        alloc: Global,
        pool: &Pool,
        ways: &mut Ways,
        start: &Paths,
        ends: &mut Paths,
        body: &[Stmt],
    ) -> Result<(), AllocError>
        ensures { OnOk result ((ms : List MacroSeen) (ps : List Procedure) → Knows self.now ms ps → Branches ways.old ways.new start.now ends.old ends.new (λ q. seen_in_body (seen_in_call ms) ps (statements_at pool.now body.now) (unlabelled q))) }
    {
        ways.restart(start)?;
        self.body(alloc, pool, ways, body)?;
        ways.join_ends(ends)
    }

    // All branches of a statement, from where these paths lead; their ends are joined to those of the branches before.
    #[cycle(bodies)]
    fn branches(
        &self,
        alloc: Global,
        pool: &Pool,
        ways: &mut Ways,
        start: &Paths,
        ends: &mut Paths,
        list: &[Vec<Stmt>],
    ) -> Result<(), AllocError>
        ensures { OnOk result ((ms : List MacroSeen) (ps : List Procedure) → Knows self.now ms ps → Branches ways.old ways.new start.now ends.old ends.new (in_some (seen_in_call ms) ps (branches_at pool.now list.now))) }
    {
        for i in 0..list.len() {
            self.fork(alloc, pool, ways, start, ends, &list[i])?;
        }
        Ok(())
    }

    /// A list of statements. It calls itself as deep as statements are in statements.
    ///
    /// # Errors
    ///
    /// Only for want of memory.
    #[cycle(bodies)]
    pub fn body(
        &self,
        alloc: Global,
        pool: &Pool,
        ways: &mut Ways,
        stmts: &[Stmt],
    ) -> Result<(), AllocError>
        ensures { OnOk result ((ms : List MacroSeen) (ps : List Procedure) → Knows self.now ms ps → Goes ways.old ways.new (λ z. seen_in_body (seen_in_call ms) ps (statements_at pool.now stmts.now) z)) }
    {
        for stmt in stmts {
            self.stmt(alloc, pool, ways, stmt)?;
        }
        Ok(())
    }
}
