//! The labels of statements, by their written names.

ghost use Rattle.std.specs.Prelude.{◌≡◌, ◌++◌, ◌<◌, List, map, length, OnOk};
ghost use Rattle.tla_tree.specs.Tree.{Tree};
ghost use Rattle.pcal_tree.specs.InMemory.{statements_at, branches_at};
ghost use Rattle.written_names.specs.Units.{naming_of};
ghost use Rattle.fairness.specs.MarkedLabels.{marked_some};
ghost use Rattle.marked_labels.specs.Added.{AddsAt};
ghost use Rattle.marked_labels.specs.Wanted.{wants, if_wanted, written_label, written_labels, labels_of};

use draft::Draft;
use pcal_tree::algorithm::Stmt;
use pcal_tree::mark::Mark;
use std::alloc::AllocError;
use tla_tree::{NameList, PlacedName};

/// Which labels are wanted, by their marks.
#[derive(Clone, Copy)]
pub enum Wanted {
    /// All.
    All,
    /// Those that aren't left out.
    Kept,
    /// Those that are left out.
    LeftOut,
    /// Those with strong fairness of their own.
    Strong,
}

// Whether a label with this mark is wanted.
fn is_wanted(wanted: Wanted, mark: Mark) -> bool
    ensures { result ≡ wants wanted mark }
{
    match wanted {
        Wanted::All => true,
        Wanted::Kept => !matches!(mark, Mark::LeftOut),
        Wanted::LeftOut => matches!(mark, Mark::LeftOut),
        Wanted::Strong => matches!(mark, Mark::Strong),
    }
}

// The written name of a label, if it is wanted.
fn add_label(
    draft: &Draft<'_>,
    unit: usize,
    wanted: Wanted,
    into: &mut NameList,
    label: &PlacedName,
    mark: Mark,
) -> Result<(), AllocError>
    ensures { OnOk result (into.new ≡ into.old ++ map (written_label (naming_of draft.now.naming.now) unit) (if_wanted wanted label.now.word mark)) }
{
    if !is_wanted(wanted, mark) {
        return Ok(());
    }
    let written = draft.label_name(unit, &label.name);
    into.push(written.copied()?)
}

// Those of the label or the statement of this number.
#[cycle(labels)]
fn stmt(
    draft: &Draft<'_>,
    unit: usize,
    wanted: Wanted,
    into: &mut NameList,
    stmts: &[Stmt],
    at: usize,
) -> Result<(), AllocError>
    requires { at < length stmts.now }
    ensures { OnOk result ((ts : List Tree) → AddsAt (labels_of (naming_of draft.now.naming.now) unit wanted) ts stmts.now at into.old into.new) }
{
    match &stmts[at] {
        Stmt::Label(name, mark) => add_label(draft, unit, wanted, into, name, *mark),
        Stmt::Simple(_, _) => Ok(()),
        Stmt::If(_, _, then, otherwise) => {
            statements(draft, unit, wanted, into, then)?;
            statements(draft, unit, wanted, into, otherwise)
        }
        Stmt::Either(_, list) => branches(draft, unit, wanted, into, list),
        Stmt::With(_, _, body) => statements(draft, unit, wanted, into, body),
        Stmt::While(_, _, body) => statements(draft, unit, wanted, into, body),
    }
}

// Those of branches.
#[cycle(labels)]
fn branches(
    draft: &Draft<'_>,
    unit: usize,
    wanted: Wanted,
    into: &mut NameList,
    list: &[Vec<Stmt>],
) -> Result<(), AllocError>
    ensures { OnOk result ((ts : List Tree) → into.new ≡ into.old ++ written_labels (naming_of draft.now.naming.now) unit wanted (marked_some (branches_at ts list.now))) }
{
    for i in 0..list.len() {
        statements(draft, unit, wanted, into, &list[i])?;
    }
    Ok(())
}

/// Adds the written names of the labels of a list of statements of a routine that are wanted, in the order of the text. It calls
/// itself as deep as statements are in statements.
///
/// # Errors
///
/// Only for want of memory.
#[cycle(labels)]
pub fn statements(
    draft: &Draft<'_>,
    unit: usize,
    wanted: Wanted,
    into: &mut NameList,
    stmts: &[Stmt],
) -> Result<(), AllocError>
    ensures { OnOk result ((ts : List Tree) → into.new ≡ into.old ++ labels_of (naming_of draft.now.naming.now) unit wanted (statements_at ts stmts.now)) }
{
    for i in 0..stmts.len() {
        stmt(draft, unit, wanted, into, stmts, i)?;
    }
    Ok(())
}
