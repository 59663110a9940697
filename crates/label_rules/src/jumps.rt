//! Labels, jumps and calls where none may be, all of them.

ghost use Rattle.std.specs.Prelude.{◌≡◌, ◌++◌, List, Bool, ◌||◌, bytes_eq, codes, OnOk};
ghost use Rattle.tla_tree.specs.Tree.{Tree};
ghost use Rattle.pcal_tree.specs.Algorithm.{Statements};
ghost use Rattle.pcal_tree.specs.InMemory.{simple_at, stmt_at, statements_at, branches_at};
ghost use Rattle.pcal_tree.specs.OffencesLabels.{Within, jump_offences_here, jump_offences, jump_offences_of_some};
ghost use Rattle.label_jumps.specs.Meeting.{is_met};
ghost use Rattle.label_jumps.specs.Standing.{Stands};

use label_jumps::jumps::Body;
use pcal_tree::algorithm::{Simple, Stmt};
use std::alloc::AllocError;
use step_offences::offence::push_offence;
use tla_token::{Place, Refusal, Rule};
use tla_tree::Name;

// Whether `goto` may lead to this name.
fn is_target(body: &Body, name: &Name) -> bool
    ensures { result ≡ (bytes_eq (codes "Done") name.now || is_met body.now.labels name.now) }
{
    name.bytes() == b"Done".as_slice() || body.labels.get(name) > 0
}

// What a statement with none in it offends, behind what was found.
fn of_simple(
    body: &Body,
    found: &mut Vec<Refusal>,
    place: Place,
    simple: &Simple,
) -> Result<(), AllocError>
    ensures { OnOk result ((ts : List Tree) (b : Bool) (w : Within) → Stands body.now b w → found.new.items ≡ found.old.items ++ jump_offences_here w place (simple_at ts simple.now)) }
{
    match simple {
        Simple::Goto(name) => {
            push_offence(found, body.in_macro, Rule::LabelInside, place)?;
            push_offence(found, !is_target(body, name), Rule::UnknownLabel, place)?;
        }
        Simple::Call(_, _) => push_offence(found, body.in_macro, Rule::LabelInside, place)?,
        Simple::Return => {
            push_offence(found, body.in_macro, Rule::LabelInside, place)?;
            push_offence(found, !body.in_procedure, Rule::ReturnOutside, place)?;
        }
        _ => {}
    }
    Ok(())
}

// The same of a label or a statement; true in a `with`.
#[cycle(jumps)]
fn of_stmt(
    body: &Body,
    found: &mut Vec<Refusal>,
    in_with: bool,
    stmt: &Stmt,
) -> Result<(), AllocError>
    ensures { OnOk result ((ts : List Tree) (w : Within) → Stands body.now in_with w → (rest : Statements) → found.new.items ++ jump_offences w rest ≡ found.old.items ++ jump_offences w (stmt_at ts stmt.now rest)) }
{
    match stmt {
        Stmt::Label(name, _) => {
            push_offence(
                found,
                body.in_macro || in_with,
                Rule::LabelInside,
                name.place,
            )?;
        }
        Stmt::Simple(span, simple) => of_simple(body, found, span.first, simple)?,
        Stmt::If(_, _, then, otherwise) => {
            of_statements(body, found, in_with, then)?;
            of_statements(body, found, in_with, otherwise)?;
        }
        Stmt::Either(_, list) => of_branches(body, found, in_with, list)?,
        Stmt::With(_, _, inner) => of_statements(body, found, true, inner)?,
        Stmt::While(span, _, inner) => {
            push_offence(found, body.in_macro, Rule::LabelInside, span.first)?;
            of_statements(body, found, in_with, inner)?;
        }
    }
    Ok(())
}

// The same of branches.
#[cycle(jumps)]
fn of_branches(
    body: &Body,
    found: &mut Vec<Refusal>,
    in_with: bool,
    list: &[Vec<Stmt>],
) -> Result<(), AllocError>
    ensures { OnOk result ((ts : List Tree) (w : Within) → Stands body.now in_with w → found.new.items ≡ found.old.items ++ jump_offences_of_some w (branches_at ts list.now)) }
{
    for i in 0..list.len() {
        of_statements(body, found, in_with, &list[i])?;
    }
    Ok(())
}

/// Puts what a list of statements of a body offends behind what was found; true in a `with`. It calls itself as deep as statements are in
/// statements.
///
/// # Errors
///
/// Only for want of memory.
#[cycle(jumps)]
pub fn of_statements(
    body: &Body,
    found: &mut Vec<Refusal>,
    in_with: bool,
    stmts: &[Stmt],
) -> Result<(), AllocError>
    ensures { OnOk result ((ts : List Tree) (w : Within) → Stands body.now in_with w → found.new.items ≡ found.old.items ++ jump_offences w (statements_at ts stmts.now)) }
{
    for stmt in stmts {
        of_stmt(body, found, in_with, stmt)?;
    }
    Ok(())
}
