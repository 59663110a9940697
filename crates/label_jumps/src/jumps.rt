//! Labels, jumps and calls where none may be.

ghost use Rattle.std.specs.Prelude.{◌≡◌, List, Bool, ◌||◌, bytes_eq, codes};
ghost use Rattle.tla_tree.specs.Tree.{Tree};
ghost use Rattle.pcal_tree.specs.Algorithm.{Statements};
ghost use Rattle.pcal_tree.specs.InMemory.{simple_at, stmt_at, statements_at, branches_at};
ghost use Rattle.pcal_tree.specs.Offences.{first};
ghost use Rattle.pcal_tree.specs.OffencesLabels.{Within, jump_offences_here, jump_offences, jump_offences_of_some};
ghost use Rattle.algorithm_answer.specs.Joined.{joined};
ghost use Rattle.label_jumps.specs.Meeting.{is_met};
ghost use Rattle.label_jumps.specs.Standing.{Stands};

use algorithm_limits::order::or_offence;
use algorithm_limits::table::Table;
use pcal_tree::algorithm::{Simple, Stmt};
use tla_token::{Place, Refusal, Rule};
use tla_tree::Name;

/// Where a body stands, and its labels.
#[derive(Drop)]
pub struct Body {
    /// It is that of a macro.
    pub in_macro: bool,
    /// It is that of a procedure.
    pub in_procedure: bool,
    /// Its labels have the number 1.
    pub labels: Table,
}

// Whether a name is that of the end of a process.
fn is_done(name: &Name) -> bool
    ensures { result ≡ bytes_eq (codes "Done") name.now }
{
    name.bytes() == b"Done".as_slice()
}

impl Body {
    // Whether no label may be here; true in a `with`.
    fn bars_labels(&self, in_with: bool) -> bool
        ensures { result ≡ (self.now.in_macro || in_with) }
    {
        self.in_macro || in_with
    }

    // Whether `goto` may lead to this name.
    fn is_target(&self, name: &Name) -> bool
        ensures { result ≡ (bytes_eq (codes "Done") name.now || is_met self.now.labels name.now) }
    {
        is_done(name) || self.labels.get(name) > 0
    }

    // The first of what was found and of the offences of a statement with none in it.
    fn simple(&self, found: Option<Refusal>, place: Place, simple: &Simple) -> Option<Refusal>
        ensures { (ts : List Tree) (b : Bool) (w : Within) → Stands self.now b w → result ≡ joined found (first (jump_offences_here w place (simple_at ts simple.now))) }
    {
        match simple {
            Simple::Goto(name) => {
                let inside = or_offence(found, self.in_macro, Rule::LabelInside, place);
                or_offence(inside, !self.is_target(name), Rule::UnknownLabel, place)
            }
            Simple::Call(_, _) => or_offence(found, self.in_macro, Rule::LabelInside, place),
            Simple::Return => {
                let inside = or_offence(found, self.in_macro, Rule::LabelInside, place);
                or_offence(inside, !self.in_procedure, Rule::ReturnOutside, place)
            }
            _ => found,
        }
    }

    // The same of a label or a statement; true in a `with`.
    #[cycle(jumps)]
    fn stmt(&self, found: Option<Refusal>, in_with: bool, stmt: &Stmt) -> Option<Refusal>
        ensures { (ts : List Tree) (w : Within) → Stands self.now in_with w → (rest : Statements) → joined result (first (jump_offences w rest)) ≡ joined found (first (jump_offences w (stmt_at ts stmt.now rest))) }
    {
        match stmt {
            Stmt::Label(name, _) => {
                let bars = self.bars_labels(in_with);
                or_offence(found, bars, Rule::LabelInside, name.place)
            }
            Stmt::Simple(span, simple) => self.simple(found, span.first, simple),
            Stmt::If(_, _, then, otherwise) => {
                let first = self.body(found, in_with, then);
                self.body(first, in_with, otherwise)
            }
            Stmt::Either(_, list) => self.branches(found, in_with, list),
            Stmt::With(_, _, body) => self.body(found, true, body),
            Stmt::While(span, _, body) => {
                let here = or_offence(found, self.in_macro, Rule::LabelInside, span.first);
                self.body(here, in_with, body)
            }
        }
    }

    // The same of branches.
    #[cycle(jumps)]
    fn branches(&self, found: Option<Refusal>, in_with: bool, list: &[Vec<Stmt>]) -> Option<Refusal>
        ensures { (ts : List Tree) (w : Within) → Stands self.now in_with w → result ≡ joined found (first (jump_offences_of_some w (branches_at ts list.now))) }
    {
        let mut so_far = found;
        for i in 0..list.len() {
            so_far = self.body(so_far, in_with, &list[i]);
        }
        so_far
    }

    /// The first of what was found and of the offences of a list of statements; true in a `with`. It calls itself as deep as
    /// statements are in statements.
    #[cycle(jumps)]
    pub fn body(&self, found: Option<Refusal>, in_with: bool, stmts: &[Stmt]) -> Option<Refusal>
        ensures { (ts : List Tree) (w : Within) → Stands self.now in_with w → result ≡ joined found (first (jump_offences w (statements_at ts stmts.now))) }
    {
        let mut so_far = found;
        for stmt in stmts {
            so_far = self.stmt(so_far, in_with, stmt);
        }
        so_far
    }
}
