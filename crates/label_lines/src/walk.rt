//! The labels of a routine, each with its line, in the order of the text.

ghost use Rattle.std.specs.Prelude.{◌≡◌, ◌∷◌, ◌<◌, [], List, length, OnOk};
ghost use Rattle.tla_tree.specs.Tree.{Tree};
ghost use Rattle.pcal_tree.specs.InMemory.{statements_at, branches_at};
ghost use Rattle.written_names.specs.Units.{naming_of};
ghost use Rattle.label_lines.specs.Found.{Adds, AddsAt, unit_lines, branch_lines};

use crate::line::{Line, last_token};
use pcal_tree::algorithm::Stmt;
use std::alloc::AllocError;
use tla_token::Place;
use tla_tree::{Name, PlacedName};
use written_names::naming::Naming;

/// A routine: a procedure, a process or the one body.
#[derive(Drop)]
pub struct Unit {
    /// Its number: macros are counted first, then procedures, then processes or the one body, from 0.
    pub number: usize,
    /// Its written name.
    pub title: Name,
}

// The line of a label that stands there, where what is done from it ends there.
fn add_line(
    naming: &Naming,
    unit: &Unit,
    into: &mut Vec<Line>,
    label: &PlacedName,
    last: Place,
) -> Result<(), AllocError>
    ensures { OnOk result (Adds into.old.items into.new.items (record { label = (naming_of naming.now).label unit.now.number label.now.word; unit = unit.now.title; first = label.now.place; last = last } ∷ [])) }
{
    let written = naming.label(unit.number, &label.name);
    into.push(Line {
        label: written.copied()?,
        unit: unit.title.copied()?,
        first: label.place,
        last,
    })?;
    Ok(())
}

// Those of the label or the statement of this number.
#[cycle(labels)]
fn stmt(
    naming: &Naming,
    unit: &Unit,
    into: &mut Vec<Line>,
    stmts: &[Stmt],
    at: usize,
) -> Result<(), AllocError>
    requires { at < length stmts.now }
    ensures { OnOk result ((ts : List Tree) → AddsAt (naming_of naming.now) unit.now ts stmts.now at into.old.items into.new.items) }
{
    match &stmts[at] {
        Stmt::Label(name, _) => {
            let last = last_token(name.place, stmts, at + 1);
            add_line(naming, unit, into, name, last)
        }
        Stmt::Simple(_, _) => Ok(()),
        Stmt::If(_, _, then, otherwise) => {
            statements(naming, unit, into, then)?;
            statements(naming, unit, into, otherwise)
        }
        Stmt::Either(_, list) => branches(naming, unit, into, list),
        Stmt::With(_, _, body) => statements(naming, unit, into, body),
        Stmt::While(_, _, body) => statements(naming, unit, into, body),
    }
}

// Those of branches.
#[cycle(labels)]
fn branches(
    naming: &Naming,
    unit: &Unit,
    into: &mut Vec<Line>,
    list: &[Vec<Stmt>],
) -> Result<(), AllocError>
    ensures { OnOk result ((ts : List Tree) → Adds into.old.items into.new.items (branch_lines (naming_of naming.now) unit.now (branches_at ts list.now))) }
{
    for i in 0..list.len() {
        statements(naming, unit, into, &list[i])?;
    }
    Ok(())
}

/// Adds the lines of a list of statements of a routine. It calls itself as deep as statements are in statements.
///
/// # Errors
///
/// Only for want of memory.
#[cycle(labels)]
pub fn statements(
    naming: &Naming,
    unit: &Unit,
    into: &mut Vec<Line>,
    stmts: &[Stmt],
) -> Result<(), AllocError>
    ensures { OnOk result ((ts : List Tree) → Adds into.old.items into.new.items (unit_lines (naming_of naming.now) unit.now (statements_at ts stmts.now))) }
{
    for i in 0..stmts.len() {
        stmt(naming, unit, into, stmts, i)?;
    }
    Ok(())
}
