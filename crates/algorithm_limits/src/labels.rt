//! How many labels an algorithm has.

ghost use Rattle.std.specs.Prelude.{◌≡◌, List};
ghost use Rattle.std.specs.List.{flat_map};
ghost use Rattle.tla_tree.specs.Tree.{Tree};
ghost use Rattle.pcal_tree.specs.Algorithm.{Statements};
ghost use Rattle.pcal_tree.specs.InMemory.{stmt_at, statements_at, branches_at};
ghost use Rattle.algorithm_limits.specs.Counting.{none_of, counted};
ghost use Rattle.algorithm_limits.specs.LabelNames.{label_names, names_of_some};
ghost use Rattle.algorithm_limits.specs.LabelsIn.{macro_labels, procedure_labels, process_labels, main_labels, labels_in};

use crate::count::Count;
use pcal_tree::algorithm::{Algorithm, Macro, Main, Procedure, Process, Stmt};

/// How many labels an algorithm may have, those in macros too.
pub const MOST_LABELS: usize = 8192;

// With a label, or with those in a statement.
#[cycle(labels)]
fn with_stmt(count: Count, stmt: &Stmt) -> Count
    ensures { (ts : List Tree) (rest : Statements) → counted result (label_names rest) ≡ counted count (label_names (stmt_at ts stmt.now rest)) }
{
    match stmt {
        Stmt::Label(name, _) => count.with(name.place),
        Stmt::Simple(_, _) => count,
        Stmt::If(_, _, then, otherwise) => {
            let first = with_statements(count, then);
            with_statements(first, otherwise)
        }
        Stmt::Either(_, list) => with_branches(count, list),
        Stmt::With(_, _, body) => with_statements(count, body),
        Stmt::While(_, _, body) => with_statements(count, body),
    }
}

// With those in branches.
#[cycle(labels)]
fn with_branches(count: Count, list: &[Vec<Stmt>]) -> Count
    ensures { (ts : List Tree) → result ≡ counted count (names_of_some (branches_at ts list.now)) }
{
    let mut so_far = count;
    for i in 0..list.len() {
        so_far = with_statements(so_far, &list[i]);
    }
    so_far
}

// With those of a list of statements. It calls itself as deep as statements are in statements.
#[cycle(labels)]
fn with_statements(count: Count, stmts: &[Stmt]) -> Count
    ensures { (ts : List Tree) → result ≡ counted count (label_names (statements_at ts stmts.now)) }
{
    let mut so_far = count;
    for stmt in stmts {
        so_far = with_stmt(so_far, stmt);
    }
    so_far
}

// With those of these macros.
fn with_macros(count: Count, macros: &[Macro]) -> Count
    ensures { (ts : List Tree) → result ≡ counted count (flat_map (macro_labels ts) macros.now) }
{
    let mut so_far = count;
    for one in macros {
        so_far = with_statements(so_far, &one.body);
    }
    so_far
}

// With those of these procedures.
fn with_procedures(count: Count, procedures: &[Procedure]) -> Count
    ensures { (ts : List Tree) → result ≡ counted count (flat_map (procedure_labels ts) procedures.now) }
{
    let mut so_far = count;
    for procedure in procedures {
        so_far = with_statements(so_far, &procedure.body);
    }
    so_far
}

// With those of these processes.
fn with_processes(count: Count, processes: &[Process]) -> Count
    ensures { (ts : List Tree) → result ≡ counted count (flat_map (process_labels ts) processes.now) }
{
    let mut so_far = count;
    for process in processes {
        so_far = with_statements(so_far, &process.body);
    }
    so_far
}

// With those of what runs.
fn with_main(count: Count, main: &Main) -> Count
    ensures { (ts : List Tree) → result ≡ counted count (main_labels ts main.now) }
{
    match main {
        Main::Alone(body) => with_statements(count, body),
        Main::Processes(processes) => with_processes(count, processes),
    }
}

/// The labels of an algorithm.
pub fn labels(algorithm: &Algorithm) -> Count
    ensures { (ts : List Tree) → result ≡ counted (none_of MOST_LABELS) (labels_in ts algorithm.now) }
{
    let macros = with_macros(Count::none_of(MOST_LABELS), &algorithm.macros);
    let procedures = with_procedures(macros, &algorithm.procedures);
    with_main(procedures, &algorithm.main)
}
