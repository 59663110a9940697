//! What follows a statement in its list: a label, or what a call is one statement with.

ghost use Rattle.std.specs.Prelude.{◌≡◌, [], List};
ghost use Rattle.tla_tree.specs.Tree.{Tree};
ghost use Rattle.pcal_tree.specs.Algorithm.{Span, Statements, then};
ghost use Rattle.pcal_tree.specs.InMemory.{simple_at, stmt_at, statements_at};
ghost use Rattle.pcal_tree.specs.Run.{label_of, partner_of};
ghost use Rattle.step_items.specs.Partners.{IsPartner};

use pcal_tree::algorithm::{Simple, Stmt};
use tla_tree::Name;

/// What a call is one statement with.
#[derive(Clone, Copy)]
pub enum Partner<'a> {
    /// Nothing.
    None,
    /// A jump to a label.
    Goto(&'a Name),
    /// A return.
    Return,
}

/// The label of what follows: of the next statement, which is the empty name where it has none, or the exit.
pub fn follow<'n>(rest: &'n [Stmt], exit: &'n Name, unlabelled: &'n Name) -> &'n Name
    ensures { (ts : List Tree) → unlabelled.now ≡ [] → result.now ≡ label_of (statements_at ts rest.now) exit.now }
{
    match rest.first() {
        None => exit,
        Some(Stmt::Label(label, _)) => &label.name,
        Some(_) => unlabelled,
    }
}

// What a call before a statement that has no statements in it is one statement with.
fn simple_partner(one: &Simple) -> Partner<'_>
    ensures { (ts : List Tree) (at : Span) (rest : Statements) → IsPartner result (partner_of (then at (simple_at ts one.now) rest)) }
{
    match one {
        Simple::Goto(label) => Partner::Goto(label),
        Simple::Return => Partner::Return,
        Simple::Assign(_) => Partner::None,
        Simple::Await(_) => Partner::None,
        Simple::Print(_) => Partner::None,
        Simple::Assert(_) => Partner::None,
        Simple::Skip => Partner::None,
        Simple::Macro(_, _) => Partner::None,
        Simple::Call(_, _) => Partner::None,
    }
}

// What a call before a statement is one statement with.
fn partner_at(stmt: &Stmt) -> Partner<'_>
    ensures { (ts : List Tree) (rest : Statements) → IsPartner result (partner_of (stmt_at ts stmt.now rest)) }
{
    match stmt {
        Stmt::Simple(_, one) => simple_partner(one),
        Stmt::Label(_, _) => Partner::None,
        Stmt::If(_, _, _, _) => Partner::None,
        Stmt::Either(_, _) => Partner::None,
        Stmt::With(_, _, _) => Partner::None,
        Stmt::While(_, _, _) => Partner::None,
    }
}

/// What a call before these statements is one statement with.
pub fn partner_in(rest: &[Stmt]) -> Partner<'_>
    ensures { (ts : List Tree) → IsPartner result (partner_of (statements_at ts rest.now)) }
{
    match rest.first() {
        None => Partner::None,
        Some(stmt) => partner_at(stmt),
    }
}
