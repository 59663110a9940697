//! Labels put in where it was decided.

ghost use Rattle.std.specs.Prelude.{◌≡◌, ◌≤◌, List, IfOk, OnOk};
ghost use Rattle.tla_tree.specs.Tree.{Tree};
ghost use Rattle.pcal_tree.specs.InMemory.{stmt_at, past_stmt, past_statements, past_branches};
ghost use Rattle.placed_labels.specs.Placed.{Plan as PurePlan, passed};
ghost use Rattle.placed_labels.specs.InMemory.{IsPlan, IsNextWanted, IsLabel, past_label, IsPlaceOf, PutsLabel, PutsInside, PutsBranches, PutsAll};

use crate::names::Names;
use pcal_tree::algorithm::Stmt;
use pcal_tree::mark::Mark;
use std::alloc::{AllocError, Global};
use tla_token::Place;
use tla_tree::PlacedName;

/// Before which statements labels are added, and the names that are left for these.
#[derive(Drop)]
pub struct Plan {
    /// Of each statement, in the order of the text, whether a label is added before it.
    pub wanted: Vec<bool>,
    /// How many statements were passed.
    pub passed: usize,
    /// The names.
    pub names: Names,
}

/// The place of a statement; a label has none.
pub fn place_of(stmt: &Stmt) -> Option<Place>
    ensures { (ts : List Tree) → IsPlaceOf result (stmt_at ts stmt.now) }
{
    match stmt {
        Stmt::Label(_, _) => None,
        Stmt::Simple(span, _) => Some(span.first),
        Stmt::If(span, _, _, _) => Some(span.first),
        Stmt::Either(span, _) => Some(span.first),
        Stmt::With(span, _, _) => Some(span.first),
        Stmt::While(span, _, _) => Some(span.first),
    }
}

impl Plan {
    // Whether a label is added before the next statement, which is then passed.
    fn is_next(&mut self) -> bool
        ensures { (k : PurePlan) → IsPlan self.old k → IsNextWanted self.old self.new result k }
    {
        if self.passed < self.wanted.len() {
            let next = self.wanted[self.passed];
            self.passed += 1;
            next
        } else {
            false
        }
    }

    // The label that is added before the next statement, which is at this place, if one is.
    fn label(&mut self, alloc: Global, place: Place) -> Result<Option<Stmt>, AllocError>
        ensures label { IfOk result (λ r. (k : PurePlan) → IsPlan self.old k → IsLabel r k place) }
        ensures numbers { IfOk result (λ r. past_label r ≡ 0) }
        ensures left { OnOk result ((k : PurePlan) → IsPlan self.old k → IsPlan self.new (passed k)) }
    {
        if !self.is_next() {
            return Ok(None);
        }
        let name = self.names.next(alloc)?;
        let label = PlacedName { name, place };
        Ok(Some(Stmt::Label(label, Mark::Plain)))
    }

    // The label that is added before a statement, if one is, goes behind these.
    fn add_label(
        &mut self,
        alloc: Global,
        stmt: &Stmt,
        out: &mut Vec<Stmt>,
    ) -> Result<(), AllocError>
        ensures { OnOk result (PutsLabel self.old self.new stmt.now out.old.items out.new.items) }
    {
        if let Some(place) = place_of(stmt) {
            if let Some(label) = self.label(alloc, place)? {
                out.push(label)?;
            }
        }
        Ok(())
    }

    // A statement with the labels that are added inside it.
    #[cycle(place)]
    fn inside(&mut self, alloc: Global, stmt: Stmt) -> Result<Stmt, AllocError>
        ensures puts { IfOk result (λ r. PutsInside self.old self.new stmt r) }
        ensures numbers { IfOk result (λ r. past_stmt r ≤ past_stmt stmt) }
    {
        match stmt {
            Stmt::Label(name, mark) => Ok(Stmt::Label(name, mark)),
            Stmt::Simple(span, simple) => Ok(Stmt::Simple(span, simple)),
            Stmt::If(span, test, then, otherwise) => {
                let first = self.statements(alloc, then)?;
                let second = self.statements(alloc, otherwise)?;
                Ok(Stmt::If(span, test, first, second))
            }
            Stmt::Either(span, list) => {
                let branches = self.branches(alloc, list)?;
                Ok(Stmt::Either(span, branches))
            }
            Stmt::With(span, binds, body) => Ok(Stmt::With(span, binds, body)),
            Stmt::While(span, test, body) => {
                let inner = self.statements(alloc, body)?;
                Ok(Stmt::While(span, test, inner))
            }
        }
    }

    // Branches with the labels that are added in them.
    #[cycle(place)]
    fn branches(
        &mut self,
        alloc: Global,
        list: Vec<Vec<Stmt>>,
    ) -> Result<Vec<Vec<Stmt>>, AllocError>
        ensures puts { IfOk result (λ r. PutsBranches self.old self.new list.items r.items) }
        ensures numbers { IfOk result (λ r. past_branches r.items ≤ past_branches list.items) }
    {
        let mut out = Vec::new(alloc);
        for stmts in list {
            out.push(self.statements(alloc, stmts)?)?;
        }
        Ok(out)
    }

    /// Statements with the labels that are added to them. It calls itself as deep as statements are in statements.
    ///
    /// # Errors
    ///
    /// Only for want of memory.
    #[cycle(place)]
    pub fn statements(&mut self, alloc: Global, stmts: Vec<Stmt>) -> Result<Vec<Stmt>, AllocError>
        ensures puts { IfOk result (λ r. PutsAll self.old self.new stmts.items r.items) }
        ensures numbers { IfOk result (λ r. past_statements r.items ≤ past_statements stmts.items) }
    {
        let mut out = Vec::new(alloc);
        for stmt in stmts {
            self.add_label(alloc, &stmt, &mut out)?;
            out.push(self.inside(alloc, stmt)?)?;
        }
        Ok(out)
    }
}
