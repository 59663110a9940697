//! The macros that statements call.

ghost use Rattle.std.specs.Prelude.{List, OnOk};
ghost use Rattle.tla_tree.specs.Tree.{Tree};
ghost use Rattle.pcal_tree.specs.InMemory.{simple_at, statements_at, branches_at};
ghost use Rattle.pcal_tree.specs.OffencesCounts.{calls_in, calls_of, calls_of_some};
ghost use Rattle.read_rules.specs.Calls.{AddsCalls, AddsStmtCalls};

use algorithm_limits::table::Table;
use pcal_tree::algorithm::{Simple, Stmt};
use std::alloc::AllocError;

// The macro that a statement with none in it calls, if it calls one.
fn add_simple(called: &mut Table, simple: &Simple) -> Result<(), AllocError>
    ensures { OnOk result ((ts : List Tree) → AddsCalls called.old called.new (calls_in (simple_at ts simple.now))) }
{
    match simple {
        Simple::Macro(name, _) => called.set(name.copied()?, 1),
        _ => Ok(()),
    }
}

// Those of a statement.
#[cycle(calls)]
fn add_stmt(called: &mut Table, stmt: &Stmt) -> Result<(), AllocError>
    ensures { OnOk result ((ts : List Tree) → AddsStmtCalls ts stmt.now called.old called.new) }
{
    match stmt {
        Stmt::Label(_, _) => Ok(()),
        Stmt::Simple(_, simple) => add_simple(called, simple),
        Stmt::If(_, _, then, otherwise) => {
            add_calls(called, then)?;
            add_calls(called, otherwise)
        }
        Stmt::Either(_, list) => add_branches(called, list),
        Stmt::With(_, _, body) => add_calls(called, body),
        Stmt::While(_, _, body) => add_calls(called, body),
    }
}

// Those of branches.
#[cycle(calls)]
fn add_branches(called: &mut Table, list: &[Vec<Stmt>]) -> Result<(), AllocError>
    ensures { OnOk result ((ts : List Tree) → AddsCalls called.old called.new (calls_of_some (branches_at ts list.now))) }
{
    for i in 0..list.len() {
        add_calls(called, &list[i])?;
    }
    Ok(())
}

/// Marks the macros that a list of statements calls. It calls itself as deep as statements are in statements.
///
/// # Errors
///
/// Only for want of memory.
#[cycle(calls)]
pub fn add_calls(called: &mut Table, stmts: &[Stmt]) -> Result<(), AllocError>
    ensures { OnOk result ((ts : List Tree) → AddsCalls called.old called.new (calls_of (statements_at ts stmts.now))) }
{
    for stmt in stmts {
        add_stmt(called, stmt)?;
    }
    Ok(())
}
