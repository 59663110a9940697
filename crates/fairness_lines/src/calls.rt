//! The procedures that statements call, by the numbers of their names.

ghost use Rattle.std.specs.Prelude.{◌≡◌, ◌++◌, ◌<◌, List, length, OnOk};
ghost use Rattle.tla_tree.specs.Tree.{Tree};
ghost use Rattle.pcal_tree.specs.InMemory.{simple_at, statements_at, branches_at};
ghost use Rattle.fairness.specs.ReachedProcedures.{calls_in, calls, calls_some};
ghost use Rattle.fairness_lines.specs.Numbers.{number_in, numbers_in};
ghost use Rattle.marked_labels.specs.Added.{AddsAt};

use name_bits::Order;
use pcal_tree::algorithm::{Simple, Stmt};
use std::alloc::AllocError;
use tla_tree::Name;

// The number of a name, if it has one.
fn add_number(names: &Order, into: &mut Vec<usize>, name: &Name) -> Result<(), AllocError>
    ensures { OnOk result (into.new.items ≡ into.old.items ++ number_in names.now name.now) }
{
    if let Some(number) = names.number(name) {
        into.push(number)?;
    }
    Ok(())
}

// That of what a statement calls that has no statements in it.
fn add_call(names: &Order, into: &mut Vec<usize>, one: &Simple) -> Result<(), AllocError>
    ensures { OnOk result ((ts : List Tree) → into.new.items ≡ into.old.items ++ numbers_in names.now (calls_in (simple_at ts one.now))) }
{
    match one {
        Simple::Call(name, _) => add_number(names, into, &name.name),
        _ => Ok(()),
    }
}

// Those of the label or the statement of this number.
#[cycle(calls)]
fn stmt(names: &Order, into: &mut Vec<usize>, stmts: &[Stmt], at: usize) -> Result<(), AllocError>
    requires { at < length stmts.now }
    ensures { OnOk result ((ts : List Tree) → AddsAt (λ b. numbers_in names.now (calls b)) ts stmts.now at into.old.items into.new.items) }
{
    match &stmts[at] {
        Stmt::Label(_, _) => Ok(()),
        Stmt::Simple(_, one) => add_call(names, into, one),
        Stmt::If(_, _, then, otherwise) => {
            statements(names, into, then)?;
            statements(names, into, otherwise)
        }
        Stmt::Either(_, list) => branches(names, into, list),
        Stmt::With(_, _, body) => statements(names, into, body),
        Stmt::While(_, _, body) => statements(names, into, body),
    }
}

// Those of branches.
#[cycle(calls)]
fn branches(names: &Order, into: &mut Vec<usize>, list: &[Vec<Stmt>]) -> Result<(), AllocError>
    ensures { OnOk result ((ts : List Tree) → into.new.items ≡ into.old.items ++ numbers_in names.now (calls_some (branches_at ts list.now))) }
{
    for i in 0..list.len() {
        statements(names, into, &list[i])?;
    }
    Ok(())
}

/// Adds the numbers of what a list of statements calls. It calls itself as deep as statements are in statements.
///
/// # Errors
///
/// Only for want of memory.
#[cycle(calls)]
pub fn statements(names: &Order, into: &mut Vec<usize>, stmts: &[Stmt]) -> Result<(), AllocError>
    ensures { OnOk result ((ts : List Tree) → into.new.items ≡ into.old.items ++ numbers_in names.now (calls (statements_at ts stmts.now))) }
{
    for i in 0..stmts.len() {
        stmt(names, into, stmts, i)?;
    }
    Ok(())
}
