//! `self` where no process is, in an algorithm.

ghost use Rattle.std.specs.Prelude.{◌≡◌, List, [], map, reverse, bytes_eq, codes, IfOk, OnOk};
ghost use Rattle.std.specs.List.{flat_map};
ghost use Rattle.tla_tree.specs.Tree.{Word, Tree, words};
ghost use Rattle.tla_tree.specs.Pool.{at};
ghost use Rattle.pcal_tree.specs.Algorithm as tree;
ghost use Rattle.pcal_tree.specs.InMemory.{start_at, statements_at, declarations_at, definitions_at, macro_at, procedure_at, process_at, algorithm_at};
ghost use Rattle.pcal_tree.specs.Offences.{first};
ghost use Rattle.pcal_tree.specs.OffencesSelf.{selves, used_by_starts, used_in_macros, used_by_procedure, used_outside, reached, self_offences};
ghost use Rattle.pcal_tree.specs.Reads.{used, initial};
ghost use Rattle.pcal_tree.specs.Spots.{used_in_body};
ghost use Rattle.algorithm_answer.specs.Joined.{joined};
ghost use Rattle.read_rules.specs.Calls.{AddsCalls, AreCalled};
ghost use Rattle.read_rules.specs.Selves.{calls_of_procedure};

use crate::calls::add_calls;
use crate::used::{Used, free_names, used_names};
use algorithm_limits::bound::Bound;
use algorithm_limits::order::or_offence;
use algorithm_limits::table::Table;
use pcal_tree::algorithm::{
    Algorithm, Declaration, Definition, Macro, Main, Procedure, Process, Start, Stmt,
};
use std::alloc::{AllocError, Global};
use tla_pool::Pool;
use tla_token::{Refusal, Rule};
use tla_tree::{NodeId, PlacedName};

// ---- names

// Whether a name is `self`.
fn is_self(one: &PlacedName) -> bool
    ensures { result ≡ bytes_eq (codes "self") one.now.word }
{
    one.name.bytes() == b"self".as_slice()
}

// The first of what was found and of the offences of these names.
fn with_names(so_far: Option<Refusal>, names: &[PlacedName]) -> Option<Refusal>
    ensures { result ≡ joined so_far (first (selves names.now)) }
{
    let mut found = so_far;
    for one in names {
        let is_self = is_self(one);
        found = or_offence(found, is_self, Rule::SelfOutside, one.place);
    }
    found
}

// The same of an expression.
fn with_tree(
    alloc: Global,
    pool: &Pool,
    so_far: Option<Refusal>,
    e: NodeId,
) -> Result<Option<Refusal>, AllocError>
    ensures { IfOk result (λ r. r ≡ joined so_far (first (selves (used (at pool.now e) [])))) }
{
    let names = free_names(alloc, pool, e)?;
    Ok(with_names(so_far, &names))
}

// The same of statements.
fn with_body(
    alloc: Global,
    pool: &Pool,
    so_far: Option<Refusal>,
    stmts: &[Stmt],
) -> Result<Option<Refusal>, AllocError>
    ensures { IfOk result (λ r. r ≡ joined so_far (first (selves (used_in_body (statements_at pool.now stmts.now))))) }
{
    let mut used = Used {
        only_self: true,
        names: Vec::new(alloc),
        bound: Bound::new(alloc),
    };
    match used.body(pool, stmts) {
        Ok(()) => {
            let found = with_names(so_far, &used.names);
            drop(used);
            Ok(found)
        }
        Err(error) => {
            drop(used);
            Err(error)
        }
    }
}

// ---- declarations

// The first of what was found and of the offences of a first value.
fn with_start(
    alloc: Global,
    pool: &Pool,
    so_far: Option<Refusal>,
    start: &Start,
) -> Result<Option<Refusal>, AllocError>
    ensures { IfOk result (λ r. r ≡ joined so_far (first (selves (flat_map (λ e. used e []) (initial (start_at pool.now start.now)))))) }
{
    match start {
        Start::Unset => Ok(so_far),
        Start::Equals(e) => with_tree(alloc, pool, so_far, *e),
        Start::Among(e) => with_tree(alloc, pool, so_far, *e),
    }
}

// The same of declarations.
fn with_starts(
    alloc: Global,
    pool: &Pool,
    so_far: Option<Refusal>,
    list: &[Declaration],
) -> Result<Option<Refusal>, AllocError>
    ensures { IfOk result (λ r. r ≡ joined so_far (first (selves (used_by_starts (declarations_at pool.now list.now))))) }
{
    let mut found = so_far;
    for i in 0..list.len() {
        let declaration = &list[i];
        found = with_start(alloc, pool, found, &declaration.start)?;
    }
    Ok(found)
}

// The same of definitions, whose parameters are bound.
fn with_definitions(
    alloc: Global,
    pool: &Pool,
    so_far: Option<Refusal>,
    list: &[Definition],
) -> Result<Option<Refusal>, AllocError>
    ensures { IfOk result (λ r. r ≡ joined so_far (first (selves (flat_map (λ d. used d.body (words d.params)) (definitions_at pool.now list.now))))) }
{
    let mut found = so_far;
    for i in 0..list.len() {
        let definition = &list[i];
        let names = used_names(alloc, pool, &definition.params, definition.body)?;
        found = with_names(found, &names);
    }
    Ok(found)
}

// ---- procedures and processes

// The first of what was found and of the offences of a procedure.
fn with_procedure(
    alloc: Global,
    pool: &Pool,
    so_far: Option<Refusal>,
    procedure: &Procedure,
) -> Result<Option<Refusal>, AllocError>
    ensures { IfOk result (λ r. r ≡ joined so_far (first (selves (used_by_procedure (procedure_at pool.now procedure.now))))) }
{
    let params = with_starts(alloc, pool, so_far, &procedure.params)?;
    let variables = with_starts(alloc, pool, params, &procedure.variables)?;
    with_body(alloc, pool, variables, &procedure.body)
}

// The same of procedures.
fn with_procedures(
    alloc: Global,
    pool: &Pool,
    so_far: Option<Refusal>,
    procedures: &[Procedure],
) -> Result<Option<Refusal>, AllocError>
    ensures { IfOk result (λ r. r ≡ joined so_far (first (selves (flat_map used_by_procedure (map (procedure_at pool.now) procedures.now))))) }
{
    let mut found = so_far;
    for procedure in procedures {
        found = with_procedure(alloc, pool, found, procedure)?;
    }
    Ok(found)
}

// The same of the identifiers of processes.
fn with_processes(
    alloc: Global,
    pool: &Pool,
    so_far: Option<Refusal>,
    processes: &[Process],
) -> Result<Option<Refusal>, AllocError>
    ensures { IfOk result (λ r. r ≡ joined so_far (first (selves (flat_map (λ p. used p.identity []) (map (process_at pool.now) processes.now))))) }
{
    let mut found = so_far;
    for process in processes {
        found = with_tree(alloc, pool, found, process.identity)?;
    }
    Ok(found)
}

// ---- macros

// Marks the macros that procedures call.
fn add_procedures(called: &mut Table, procedures: &[Procedure]) -> Result<(), AllocError>
    ensures { OnOk result ((ts : List Tree) → AddsCalls called.old called.new (flat_map calls_of_procedure (map (procedure_at ts) procedures.now))) }
{
    for procedure in procedures {
        add_calls(called, &procedure.body)?;
    }
    Ok(())
}

// The same of the macros that are reached: each is looked at after those that may call it.
fn with_macros(
    alloc: Global,
    pool: &Pool,
    called: &mut Table,
    so_far: Option<Refusal>,
    macros: &[Macro],
) -> Result<Option<Refusal>, AllocError>
    ensures { IfOk result (λ r. (calls : List Word) → AreCalled called.old calls → r ≡ joined so_far (first (selves (used_in_macros (reached calls (reverse (map (macro_at pool.now) macros.now))))))) }
{
    let mut found = so_far;
    for i in 0..macros.len() {
        let one = &macros[macros.len() - 1 - i];
        if called.get(&one.name.name) > 0 {
            called.set(one.name.name.copied()?, 0)?;
            add_calls(called, &one.body)?;
            found = with_body(alloc, pool, found, &one.body)?;
        }
    }
    Ok(found)
}

// ---- algorithms

// The first of what was found and of the offences of a uniprocess algorithm: its procedures, its body and the macros that they call.
fn with_alone(
    alloc: Global,
    pool: &Pool,
    so_far: Option<Refusal>,
    algorithm: &Algorithm,
    body: &[Stmt],
) -> Result<Option<Refusal>, AllocError>
    ensures { IfOk result (λ r. r ≡ joined so_far (first (selves (used_outside (algorithm_at pool.now algorithm.now) (tree.alone (statements_at pool.now body.now)))))) }
{
    let mut called = Table::new(alloc);
    let found = with_calls(alloc, pool, &mut called, so_far, algorithm, body);
    drop(called);
    found
}

// The same, where no macro is marked as called yet.
fn with_calls(
    alloc: Global,
    pool: &Pool,
    called: &mut Table,
    so_far: Option<Refusal>,
    algorithm: &Algorithm,
    body: &[Stmt],
) -> Result<Option<Refusal>, AllocError>
    ensures { IfOk result (λ r. called.old ≡ [] → r ≡ joined so_far (first (selves (used_outside (algorithm_at pool.now algorithm.now) (tree.alone (statements_at pool.now body.now)))))) }
{
    add_procedures(called, &algorithm.procedures)?;
    add_calls(called, body)?;
    let procedures = with_procedures(alloc, pool, so_far, &algorithm.procedures)?;
    let found = with_body(alloc, pool, procedures, body)?;
    with_macros(alloc, pool, called, found, &algorithm.macros)
}

/// The first `self` of an algorithm where no process is: in first values of globals, in definitions, in identifiers of processes,
/// and everywhere in a uniprocess algorithm, but for macros that nothing calls.
///
/// # Errors
///
/// Only for want of memory.
pub fn self_refusal(
    alloc: Global,
    pool: &Pool,
    algorithm: &Algorithm,
) -> Result<Option<Refusal>, AllocError>
    ensures { IfOk result (λ r. r ≡ first (self_offences (algorithm_at pool.now algorithm.now))) }
{
    let globals = with_starts(alloc, pool, None, &algorithm.globals)?;
    let found = with_definitions(alloc, pool, globals, &algorithm.definitions)?;
    match &algorithm.main {
        Main::Alone(body) => with_alone(alloc, pool, found, algorithm, body),
        Main::Processes(processes) => with_processes(alloc, pool, found, processes),
    }
}
