//! The procedures of an algorithm by their names, with what each calls.

ghost use Rattle.std.specs.Prelude.{◌≡◌, ◌++◌, ◌∷◌, ◌<◌, ℕ, [], List, Vec, length, get_or, set, replicate, map, filter, IfOk, OnOk};
ghost use Rattle.tla_token.specs.Signs.{is_among};
ghost use Rattle.tla_tree.specs.Tree.{Word, Tree};
ghost use Rattle.pcal_tree.specs.Algorithm as pure;
ghost use Rattle.pcal_tree.specs.InMemory.{statements_at, procedure_at};
ghost use Rattle.fairness.specs.ReachedProcedures.{calls, reached as reached_by};
ghost use Rattle.fairness_lines.specs.Numbers.{numbers_in};
ghost use Rattle.fairness_lines.specs.Tables.{rows_of, IsTable, marked_word};

use crate::calls::statements;
use crate::reach::reach;
use name_bits::Order;
use pcal_tree::algorithm::{Procedure, Stmt};
use std::alloc::{AllocError, Global};
use tla_tree::{Name, NameList};

/// The names of procedures, each once, and for each of them the numbers of the names that the procedures of that name call.
#[derive(Drop)]
pub struct Table {
    /// The names.
    pub names: Order,
    /// What is called, in the order of the names.
    pub rows: Vec<Vec<usize>>,
}

// The names of procedures.
fn names_of(alloc: Global, procedures: &[Procedure]) -> Result<NameList, AllocError>
    ensures { IfOk result (λ names. names ≡ map (λ p. p.name.word) procedures.now) }
{
    let mut names = NameList::new(alloc);
    for procedure in procedures {
        names.push(procedure.name.name.copied()?)?;
    }
    Ok(names)
}

// So many rows, with nothing in them.
fn no_rows(alloc: Global, count: usize) -> Result<Vec<Vec<usize>>, AllocError>
    ensures { IfOk result (λ rows. map (λ row. row.items) rows.items ≡ replicate count []) }
{
    let mut rows = Vec::new(alloc);
    for _ in 0..count {
        rows.push(Vec::new(alloc))?;
    }
    Ok(rows)
}

// Adds what statements call to the row of this number.
fn add_to_row(
    names: &Order,
    rows: &mut Vec<Vec<usize>>,
    number: usize,
    body: &[Stmt],
) -> Result<(), AllocError>
    requires { number < length rows.old.items }
    ensures { OnOk result ((ts : List Tree) → map (λ row. row.items) rows.new.items ≡ set (map (λ row. row.items) rows.old.items) number (get_or (map (λ row. row.items) rows.old.items) number [] ++ numbers_in names.now (calls (statements_at ts body.now)))) }
{
    statements(names, &mut rows[number], body)
}

// Adds what a procedure calls to the row of its name.
fn add_procedure(
    names: &Order,
    rows: &mut Vec<Vec<usize>>,
    procedure: &Procedure,
) -> Result<(), AllocError>
    requires { length rows.old.items ≡ length names.now }
    ensures long { OnOk result (length rows.new.items ≡ length rows.old.items) }
    ensures rows { OnOk result ((ts : List Tree) (ps : List pure.Procedure) → map (λ row. row.items) rows.old.items ≡ rows_of names.now ps → map (λ row. row.items) rows.new.items ≡ rows_of names.now (ps ++ procedure_at ts procedure.now ∷ [])) }
{
    names.apart();
    match names.number(&procedure.name.name) {
        None => Ok(()),
        Some(number) => add_to_row(names, rows, number, &procedure.body),
    }
}

// Adds what each of these calls, where the rows have nothing in them.
fn add_procedures(
    names: &Order,
    rows: &mut Vec<Vec<usize>>,
    procedures: &[Procedure],
) -> Result<(), AllocError>
    requires { length rows.old.items ≡ length names.now }
    ensures { OnOk result ((ts : List Tree) → map (λ row. row.items) rows.old.items ≡ rows_of names.now [] → map (λ row. row.items) rows.new.items ≡ rows_of names.now (map (procedure_at ts) procedures.now)) }
{
    for procedure in procedures {
        add_procedure(names, rows, procedure)?;
    }
    Ok(())
}

/// The table of these procedures.
///
/// # Errors
///
/// Only for want of memory.
pub fn table_of(alloc: Global, procedures: &[Procedure]) -> Result<Table, AllocError>
    ensures { IfOk result (λ t. (ts : List Tree) → IsTable (map (procedure_at ts) procedures.now) t.names (map (λ row. row.items) t.rows.items)) }
{
    let list = names_of(alloc, procedures)?;
    let names = Order::new(alloc, list.as_slice())?;
    names.apart();
    let mut rows = no_rows(alloc, names.len())?;
    add_procedures(&names, &mut rows, procedures)?;
    Ok(Table { names, rows })
}

/// Which numbers of names the procedures have that a routine with this body can reach by calls.
///
/// # Errors
///
/// Only for want of memory.
pub fn reached(alloc: Global, table: &Table, body: &[Stmt]) -> Result<Vec<bool>, AllocError>
    ensures { IfOk result (λ marks. (ts : List Tree) (a : pure.Algorithm) (u : pure.Routine) → IsTable a.procedures table.now.names (map (λ row. row.items) table.now.rows.items) → u.body ≡ statements_at ts body.now → reached_by a u ≡ filter (λ p. marked_word table.now.names marks.items p.name.word) (pure.procedure_routines a)) }
{
    let mut start = Vec::new(alloc);
    statements(&table.names, &mut start, body)?;
    reach(alloc, &table.rows, &start)
}

/// Whether a name's number is marked.
pub fn is_marked(names: &Order, marks: &[bool], name: &Name) -> bool
    ensures { result ≡ marked_word names.now marks.now name.now }
{
    match names.number(name) {
        None => false,
        Some(number) => number < marks.len() && marks[number],
    }
}
