//! The labels of a body, in the order of the text.

ghost use Rattle.std.specs.Prelude.{◌≡◌, ◌++◌, List, IfOk, OnOk};
ghost use Rattle.tla_tree.specs.Tree.{Tree, words};
ghost use Rattle.pcal_tree.specs.Algorithm.{Statements};
ghost use Rattle.pcal_tree.specs.InMemory.{stmt_at, statements_at, branches_at};
ghost use Rattle.pcal_tree.specs.OffencesLabels.{label_words as label_words_of};
ghost use Rattle.algorithm_limits.specs.LabelNames.{label_names, names_of_some};

use pcal_tree::algorithm::Stmt;
use std::alloc::{AllocError, Global};
use tla_tree::NameList;

// Adds a label, or those in a statement, which come before those of the rest of its list.
#[cycle(labels)]
fn add_stmt(stmt: &Stmt, into: &mut NameList) -> Result<(), AllocError>
    ensures { OnOk result ((ts : List Tree) (rest : Statements) → into.new ++ words (label_names rest) ≡ into.old ++ words (label_names (stmt_at ts stmt.now rest))) }
{
    match stmt {
        Stmt::Label(name, _) => into.push(name.name.copied()?),
        Stmt::Simple(_, _) => Ok(()),
        Stmt::If(_, _, then, otherwise) => {
            add_statements(then, into)?;
            add_statements(otherwise, into)
        }
        Stmt::Either(_, list) => add_branches(list, into),
        Stmt::With(_, _, body) => add_statements(body, into),
        Stmt::While(_, _, body) => add_statements(body, into),
    }
}

// Adds those in branches.
#[cycle(labels)]
fn add_branches(list: &[Vec<Stmt>], into: &mut NameList) -> Result<(), AllocError>
    ensures { OnOk result ((ts : List Tree) → into.new ≡ into.old ++ words (names_of_some (branches_at ts list.now))) }
{
    for i in 0..list.len() {
        add_statements(&list[i], into)?;
    }
    Ok(())
}

// Adds those of a list of statements. It calls itself as deep as statements are in statements.
#[cycle(labels)]
fn add_statements(stmts: &[Stmt], into: &mut NameList) -> Result<(), AllocError>
    ensures { OnOk result ((ts : List Tree) → into.new ≡ into.old ++ words (label_names (statements_at ts stmts.now))) }
{
    for stmt in stmts {
        add_stmt(stmt, into)?;
    }
    Ok(())
}

/// The labels of a body as they stand in the text.
///
/// # Errors
///
/// Only for want of memory.
pub fn label_words(alloc: Global, body: &[Stmt]) -> Result<NameList, AllocError>
    ensures { IfOk result (λ r. (ts : List Tree) → r ≡ label_words_of (statements_at ts body.now)) }
{
    let mut labels = NameList::new(alloc);
    add_statements(body, &mut labels)?;
    Ok(labels)
}
