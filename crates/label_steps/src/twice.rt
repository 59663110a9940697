//! Variables that are assigned twice in an algorithm, by what is known of its macros.

ghost use Rattle.std.specs.Prelude.{◌≡◌, ◌≤◌, ◌++◌, List, [], Some, None, length, map, IfOk, OnOk};
ghost use Rattle.std.specs.List.{flat_map};
ghost use Rattle.tla_tree.specs.Nesting.{greatest};
ghost use Rattle.pcal_tree.specs.InMemory.{statements_at, procedure_at, process_at, main_at, algorithm_at, past_statements, past_procedure, past_process, past_main, past_algorithm};
ghost use Rattle.pcal_tree.specs.Offences.{first};
ghost use Rattle.pcal_tree.specs.OffencesSteps.{procedure_effects, outer_effects};
ghost use Rattle.pcal_tree.specs.laws.MacroSummaries.{Summary as Found, summary_effect};
ghost use Rattle.algorithm_answer.specs.Joined.{joined};
ghost use Rattle.label_steps.specs.AroundIn.{effects_around, names_of};
ghost use Rattle.label_steps.specs.KnownIn.{AreMacros};
ghost use Rattle.label_steps.specs.StraightPaths.{straight_twice, straight_in_main, straight_offences};

use crate::around::Around;
use crate::known::Known;
use crate::path::Path;
use pcal_tree::algorithm::{Algorithm, Declaration, Main, Procedure, Process, Stmt};
use std::alloc::{AllocError, Global};
use tla_pool::Pool;
use tla_token::Refusal;
use tla_tree::Name;

// The names of these too.
fn add_names(list: &mut Vec<Name>, declarations: &[Declaration]) -> Result<(), AllocError>
    ensures { OnOk result (list.new.items ≡ list.old.items ++ names_of declarations.now) }
{
    for one in declarations {
        list.push(one.name.name.copied()?)?;
    }
    Ok(())
}

/// The parameters and variables of a procedure.
///
/// # Errors
///
/// Only for want of memory.
pub fn own_names(alloc: Global, one: &Procedure) -> Result<Vec<Name>, AllocError>
    ensures { IfOk result (λ r. r.items ≡ names_of one.now.params.items ++ names_of one.now.variables.items) }
{
    let mut list = Vec::new(alloc);
    add_names(&mut list, &one.params)?;
    add_names(&mut list, &one.variables)?;
    Ok(list)
}

// The first of what was found and of the variables that are assigned twice in a body.
fn with_body(
    alloc: Global,
    pool: &Pool,
    around: &Around,
    found: Option<Refusal>,
    stmts: &[Stmt],
) -> Result<Option<Refusal>, AllocError>
    requires { past_statements stmts.now ≤ length pool.now }
    ensures { IfOk result (λ r. (ms : List Found) → AreMacros around.now.known ms → r ≡ joined found (first (straight_twice (effects_around around.now ms) (Some []) (statements_at pool.now stmts.now)))) }
{
    let mut path = Path::new(alloc);
    around.body(alloc, pool, &mut path, found, stmts)
}

// The same of a procedure.
fn with_procedure(
    alloc: Global,
    pool: &Pool,
    around: &mut Around,
    found: Option<Refusal>,
    one: &Procedure,
) -> Result<Option<Refusal>, AllocError>
    requires { past_procedure one.now ≤ length pool.now }
    ensures known { OnOk result (around.new.known ≡ around.old.known) }
    ensures first { IfOk result (λ r. (ms : List Found) → AreMacros around.old.known ms → r ≡ joined found (first (straight_twice (procedure_effects (summary_effect ms) (procedure_at pool.now one.now)) (Some []) (statements_at pool.now one.now.body.items)))) }
{
    around.name = Some(one.name.copied()?);
    around.own = own_names(alloc, one)?;
    with_body(alloc, pool, around, found, &one.body)
}

// The same of procedures.
fn with_procedures(
    alloc: Global,
    pool: &Pool,
    around: &mut Around,
    list: &[Procedure],
) -> Result<Option<Refusal>, AllocError>
    requires { greatest (map past_procedure list.now) ≤ length pool.now }
    ensures known { OnOk result (around.new.known ≡ around.old.known) }
    ensures first { IfOk result (λ r. (ms : List Found) → AreMacros around.old.known ms → r ≡ joined None (first (flat_map (λ p. straight_twice (procedure_effects (summary_effect ms) p) (Some []) p.body) (map (procedure_at pool.now) list.now)))) }
{
    let mut so_far = None;
    for i in 0..list.len() {
        so_far = with_procedure(alloc, pool, around, so_far, &list[i])?;
    }
    Ok(so_far)
}

// The same of processes.
fn with_processes(
    alloc: Global,
    pool: &Pool,
    around: &Around,
    found: Option<Refusal>,
    list: &[Process],
) -> Result<Option<Refusal>, AllocError>
    requires { greatest (map past_process list.now) ≤ length pool.now }
    ensures { IfOk result (λ r. (ms : List Found) → AreMacros around.now.known ms → r ≡ joined found (first (flat_map (λ p. straight_twice (effects_around around.now ms) (Some []) p.body) (map (process_at pool.now) list.now)))) }
{
    let mut so_far = found;
    for i in 0..list.len() {
        let one = &list[i];
        so_far = with_body(alloc, pool, around, so_far, &one.body)?;
    }
    Ok(so_far)
}

// The same of what runs.
fn with_main(
    alloc: Global,
    pool: &Pool,
    around: &Around,
    found: Option<Refusal>,
    main: &Main,
) -> Result<Option<Refusal>, AllocError>
    requires inside { past_main main.now ≤ length pool.now }
    requires name { around.now.name ≡ None }
    requires own { around.now.own.items ≡ [] }
    ensures { IfOk result (λ r. (ms : List Found) → AreMacros around.now.known ms → r ≡ joined found (first (straight_in_main (summary_effect ms) (main_at pool.now main.now)))) }
{
    match main {
        Main::Alone(body) => with_body(alloc, pool, around, found, body),
        Main::Processes(list) => with_processes(alloc, pool, around, found, list),
    }
}

/// The first variable that is assigned twice in an algorithm where no label is missing and these are its macros.
///
/// # Errors
///
/// Only for want of memory.
pub fn twice_refusal(
    alloc: Global,
    pool: &Pool,
    known: Known,
    algorithm: &Algorithm,
) -> Result<Option<Refusal>, AllocError>
    requires { past_algorithm algorithm.now ≤ length pool.now }
    ensures { IfOk result (λ r. (ms : List Found) → AreMacros known ms → r ≡ first (straight_offences (summary_effect ms) (algorithm_at pool.now algorithm.now))) }
{
    let mut around = Around {
        known,
        name: None,
        own: Vec::new(alloc),
    };
    let procedures = with_procedures(alloc, pool, &mut around, &algorithm.procedures)?;
    around.name = None;
    around.own = Vec::new(alloc);
    with_main(alloc, pool, &around, procedures, &algorithm.main)
}
