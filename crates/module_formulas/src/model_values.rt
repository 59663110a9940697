//! The model value of variables that are declared without a first value.

ghost use Rattle.std.specs.Prelude.{◌≡◌, List, IfOk};
ghost use Rattle.std.specs.List.{flat_map};
ghost use Rattle.tla_tree.specs.Tree.{Tree};
ghost use Rattle.pcal_tree.specs.InMemory.{start_at, declarations_at, algorithm_at};
ghost use Rattle.pcal_tree.specs.Expressions.{all_declarations};
ghost use Rattle.pcal_tree.specs.Program.{Program};
ghost use Rattle.action_builder.specs.ModelValues.{is_unset as is_unset_of, model_values as model_values_of};
ghost use Rattle.draft.specs.Drafts.{IsDraft};
ghost use Rattle.module_formulas.specs.Unset.{some_unset, procedure_declarations, process_declarations, main_unset};

use crate::names::word;
use draft::Draft;
use pcal_tree::algorithm::{Algorithm, Declaration, Main, Procedure, Process, Start};
use std::alloc::{AllocError, Global};
use tla_tree::NameList;

// Whether a variable has no first value.
fn is_unset(start: &Start) -> bool
    ensures { (ts : List Tree) → result ≡ is_unset_of (start_at ts start.now) }
{
    match start {
        Start::Unset => true,
        Start::Equals(_) => false,
        Start::Among(_) => false,
    }
}

// Whether one of these has none.
fn any_unset(list: &[Declaration]) -> bool
    ensures { (ts : List Tree) → result ≡ some_unset (declarations_at ts list.now) }
{
    for one in list {
        if is_unset(&one.start) {
            return true;
        }
    }
    false
}

// Whether a variable or parameter of a procedure has none.
fn in_procedure(one: &Procedure) -> bool
    ensures { (ts : List Tree) → result ≡ some_unset (procedure_declarations ts one.now) }
{
    if any_unset(&one.params) {
        return true;
    }
    any_unset(&one.variables)
}

// Whether a variable or parameter of these procedures has none.
fn in_procedures(list: &[Procedure]) -> bool
    ensures { (ts : List Tree) → result ≡ some_unset (flat_map (procedure_declarations ts) list.now) }
{
    for one in list {
        if in_procedure(one) {
            return true;
        }
    }
    false
}

// Whether a variable of these processes has none.
fn in_processes(list: &[Process]) -> bool
    ensures { (ts : List Tree) → result ≡ some_unset (flat_map (process_declarations ts) list.now) }
{
    for one in list {
        if any_unset(&one.variables) {
            return true;
        }
    }
    false
}

// Whether a variable of what runs has none; the one body has no variables.
fn in_main(main: &Main) -> bool
    ensures { (ts : List Tree) → result ≡ main_unset ts main.now }
{
    match main {
        Main::Alone(_) => false,
        Main::Processes(list) => in_processes(list),
    }
}

// Whether a variable or parameter of an algorithm has none.
fn in_algorithm(algorithm: &Algorithm) -> bool
    ensures { (ts : List Tree) → result ≡ some_unset (all_declarations (algorithm_at ts algorithm.now)) }
{
    if any_unset(&algorithm.globals) {
        return true;
    }
    if in_procedures(&algorithm.procedures) {
        return true;
    }
    in_main(&algorithm.main)
}

/// The names of CONSTANT: `defaultInitValue`, where some variable or parameter has no first value.
///
/// # Errors
///
/// Only for want of memory.
pub fn model_values(alloc: Global, draft: &Draft<'_>) -> Result<NameList, AllocError>
    ensures { IfOk result (λ r. (ts : List Tree) (P : Program) → IsDraft ts draft.now P → r ≡ model_values_of P.algorithm) }
{
    let mut names = NameList::new(alloc);
    if !in_algorithm(draft.algorithm) {
        return Ok(names);
    }
    let name = word(alloc, b"defaultInitValue")?;
    names.push(name)?;
    Ok(names)
}
