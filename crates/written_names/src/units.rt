//! Written names of routines: each gets its own, then those of its variables, then those of its labels, in the order of the text.

ghost use Rattle.std.specs.Prelude.{◌≡◌, ◌++◌, ◌∷◌, [], List, IfOk, OnOk};
ghost use Rattle.tla_tree.specs.Tree.{Tree, words};
ghost use Rattle.pcal_tree.specs.InMemory.{statements_at, branches_at, procedure_at, process_at};
ghost use Rattle.algorithm_limits.specs.Counting.{declared_names};
ghost use Rattle.algorithm_limits.specs.LabelNames.{label_names, names_of_some};
ghost use Rattle.written_names.specs.Giving.{Gives};
ghost use Rattle.written_names.specs.Units.{NamesWithin, NamesUnit, NamesStmt, asked_procedure, asked_process, asked_alone};

use crate::giver::Giver;
use crate::naming::{Renamed, UnitNames};
use pcal_tree::algorithm::{Declaration, Procedure, Process, Stmt};
use std::alloc::{AllocError, Global};
use tla_tree::Name;

// A word gets its name, which is kept.
fn name_one(
    alloc: Global,
    giver: &mut Giver,
    into: &mut Renamed,
    name: &Name,
) -> Result<(), AllocError>
    ensures { OnOk result (Gives giver.old giver.new into.old into.new (name.now ∷ [])) }
{
    let written = giver.give(alloc, name)?;
    into.keep(name, written)
}

// So do the names of declarations.
#[tactic(auto, using(crate::proofs::Given::gives_none))]
fn name_declared(
    alloc: Global,
    giver: &mut Giver,
    into: &mut Renamed,
    declarations: &[Declaration],
) -> Result<(), AllocError>
    ensures { OnOk result (Gives giver.old giver.new into.old into.new (words (declared_names declarations.now))) }
{
    for declaration in declarations {
        name_one(alloc, giver, into, &declaration.name.name)?;
    }
    Ok(())
}

// So does a label, or do those in a statement.
#[cycle(labels)]
fn name_stmt(
    alloc: Global,
    giver: &mut Giver,
    into: &mut Renamed,
    stmt: &Stmt,
) -> Result<(), AllocError>
    ensures { OnOk result ((ts : List Tree) → NamesStmt ts stmt.now giver.old giver.new into.old into.new) }
{
    match stmt {
        Stmt::Label(name, _) => name_one(alloc, giver, into, &name.name),
        Stmt::Simple(_, _) => Ok(()),
        Stmt::If(_, _, then, otherwise) => {
            name_statements(alloc, giver, into, then)?;
            name_statements(alloc, giver, into, otherwise)
        }
        Stmt::Either(_, list) => name_branches(alloc, giver, into, list),
        Stmt::With(_, _, body) => name_statements(alloc, giver, into, body),
        Stmt::While(_, _, body) => name_statements(alloc, giver, into, body),
    }
}

// So do those in branches.
#[cycle(labels)]
fn name_branches(
    alloc: Global,
    giver: &mut Giver,
    into: &mut Renamed,
    list: &[Vec<Stmt>],
) -> Result<(), AllocError>
    ensures { OnOk result ((ts : List Tree) → Gives giver.old giver.new into.old into.new (words (names_of_some (branches_at ts list.now)))) }
{
    for i in 0..list.len() {
        name_statements(alloc, giver, into, &list[i])?;
    }
    Ok(())
}

// So do those of a list of statements. It calls itself as deep as statements are in statements.
#[cycle(labels)]
fn name_statements(
    alloc: Global,
    giver: &mut Giver,
    into: &mut Renamed,
    stmts: &[Stmt],
) -> Result<(), AllocError>
    ensures { OnOk result ((ts : List Tree) → Gives giver.old giver.new into.old into.new (words (label_names (statements_at ts stmts.now)))) }
{
    for stmt in stmts {
        name_stmt(alloc, giver, into, stmt)?;
    }
    Ok(())
}

// The names of a routine's variables and labels, where none has one.
fn name_parts(
    alloc: Global,
    giver: &mut Giver,
    names: &mut UnitNames,
    params: &[Declaration],
    variables: &[Declaration],
    body: &[Stmt],
) -> Result<(), AllocError>
    ensures { OnOk result (names.old.variables ≡ [] → names.old.labels ≡ [] → (names.new.title ≡ names.old.title) × ((ts : List Tree) → NamesWithin giver.old giver.new (words (declared_names params.now ++ declared_names variables.now)) (words (label_names (statements_at ts body.now))) names.new)) }
{
    name_declared(alloc, giver, &mut names.variables, params)?;
    name_declared(alloc, giver, &mut names.variables, variables)?;
    name_statements(alloc, giver, &mut names.labels, body)
}

// The names of a routine that has its own.
fn names_within(
    alloc: Global,
    giver: &mut Giver,
    title: Name,
    params: &[Declaration],
    variables: &[Declaration],
    body: &[Stmt],
) -> Result<UnitNames, AllocError>
    ensures { IfOk result (λ u. (u.title ≡ title) × ((ts : List Tree) → NamesWithin giver.old giver.new (words (declared_names params.now ++ declared_names variables.now)) (words (label_names (statements_at ts body.now))) u)) }
{
    let mut names = UnitNames {
        title,
        variables: Renamed::new(alloc),
        labels: Renamed::new(alloc),
    };
    match name_parts(alloc, giver, &mut names, params, variables, body) {
        Ok(()) => Ok(names),
        Err(error) => {
            drop(names);
            Err(error)
        }
    }
}

/// The names of a procedure.
///
/// # Errors
///
/// Only for want of memory.
pub fn procedure_names(
    alloc: Global,
    giver: &mut Giver,
    procedure: &Procedure,
) -> Result<UnitNames, AllocError>
    ensures { IfOk result (λ u. (ts : List Tree) → NamesUnit giver.old giver.new (asked_procedure (procedure_at ts procedure.now)) u) }
{
    let title = giver.give(alloc, &procedure.name.name)?;
    names_within(
        alloc,
        giver,
        title,
        &procedure.params,
        &procedure.variables,
        &procedure.body,
    )
}

/// The names of a process.
///
/// # Errors
///
/// Only for want of memory.
pub fn process_names(
    alloc: Global,
    giver: &mut Giver,
    process: &Process,
) -> Result<UnitNames, AllocError>
    ensures { IfOk result (λ u. (ts : List Tree) → NamesUnit giver.old giver.new (asked_process (process_at ts process.now)) u) }
{
    let title = giver.give(alloc, &process.name.name)?;
    names_within(alloc, giver, title, &[], &process.variables, &process.body)
}

/// The names of the one body of a uniprocess algorithm, which has no name itself.
///
/// # Errors
///
/// Only for want of memory.
pub fn alone_names(alloc: Global, giver: &mut Giver, body: &[Stmt]) -> Result<UnitNames, AllocError>
    ensures { IfOk result (λ u. (ts : List Tree) → NamesUnit giver.old giver.new (asked_alone (statements_at ts body.now)) u) }
{
    names_within(alloc, giver, Name::new(Vec::new(alloc)), &[], &[], body)
}
