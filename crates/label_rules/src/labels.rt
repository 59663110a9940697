//! The labels of a body, and all that second ones of a statement or a name offend.

ghost use Rattle.std.specs.Prelude.{◌≡◌, ◌||◌, ◌∷◌, [], List, false, OnOk, IfOk};
ghost use Rattle.tla_tree.specs.Tree.{Tree};
ghost use Rattle.pcal_tree.specs.InMemory.{statements_at, branches_at};
ghost use Rattle.pcal_tree.specs.OffencesLabels.{labels, labels_of_some};
ghost use Rattle.label_jumps.specs.Meeting.{is_met};
ghost use Rattle.label_rules.specs.Meeting.{Meets, MeetsStmt};

use algorithm_limits::table::Table;
use pcal_tree::algorithm::Stmt;
use std::alloc::{AllocError, Global};
use step_offences::offence::push_offence;
use tla_token::{Refusal, Rule};
use tla_tree::{Name, PlacedName};

/// The labels that were met in a body, and what second ones offend.
#[derive(Drop)]
pub struct Labels {
    /// The names that were met have the number 1.
    pub met: Table,
    /// The offences, in the order of the text.
    pub seconds: Vec<Refusal>,
}

impl Labels {
    /// None was met.
    pub fn new(alloc: Global) -> Labels
        ensures met { result.met ≡ [] }
        ensures seconds { result.seconds.items ≡ [] }
    {
        Labels {
            met: Table::new(alloc),
            seconds: Vec::new(alloc),
        }
    }

    // Whether a label is a second one: another one is right before it, or its name was met.
    fn is_second(&self, before: bool, name: &Name) -> bool
        ensures { result ≡ (before || is_met self.now.met name.now) }
    {
        before || self.met.get(name) > 0
    }

    // A label; true where another one is right before it.
    #[tactic(auto, using(crate::proofs::MeetLaws::met_one))]
    fn label(&mut self, before: bool, name: &PlacedName) -> Result<(), AllocError>
        ensures { OnOk result (Meets self.old self.new (record { name = name.now; second = before } ∷ [])) }
    {
        let second = self.is_second(before, &name.name);
        push_offence(&mut self.seconds, second, Rule::DoubleLabel, name.place)?;
        self.met.set(name.name.copied()?, 1)?;
        Ok(())
    }

    // A label or a statement; true where a label is right before it. It answers whether it is a label.
    #[cycle(labels)]
    fn stmt(&mut self, before: bool, stmt: &Stmt) -> Result<bool, AllocError>
        ensures { IfOk result (λ r. (ts : List Tree) → MeetsStmt ts stmt.now before r self.old self.new) }
    {
        match stmt {
            Stmt::Label(name, _) => {
                self.label(before, name)?;
                return Ok(true);
            }
            Stmt::Simple(_, _) => {}
            Stmt::If(_, _, then, otherwise) => {
                self.body(then)?;
                self.body(otherwise)?;
            }
            Stmt::Either(_, list) => self.branches(list)?,
            Stmt::With(_, _, body) => self.body(body)?,
            Stmt::While(_, _, body) => self.body(body)?,
        }
        Ok(false)
    }

    // Branches.
    #[cycle(labels)]
    fn branches(&mut self, list: &[Vec<Stmt>]) -> Result<(), AllocError>
        ensures { OnOk result ((ts : List Tree) → Meets self.old self.new (labels_of_some (branches_at ts list.now))) }
    {
        for i in 0..list.len() {
            self.body(&list[i])?;
        }
        Ok(())
    }

    /// A list of statements. It calls itself as deep as statements are in statements.
    ///
    /// # Errors
    ///
    /// Only for want of memory.
    #[cycle(labels)]
    pub fn body(&mut self, stmts: &[Stmt]) -> Result<(), AllocError>
        ensures { OnOk result ((ts : List Tree) → Meets self.old self.new (labels false (statements_at ts stmts.now))) }
    {
        let mut before = false;
        for stmt in stmts {
            before = self.stmt(before, stmt)?;
        }
        Ok(())
    }
}
