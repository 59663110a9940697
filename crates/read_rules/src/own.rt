//! What is of one process alone, in the sets of a process set's variables.

ghost use Rattle.std.specs.Prelude.{◌≡◌, [], map, IfOk};
ghost use Rattle.std.specs.List.{flat_map};
ghost use Rattle.pcal_tree.specs.Algorithm as tree;
ghost use Rattle.pcal_tree.specs.InMemory.{start_at, declarations_at, process_at, main_at};
ghost use Rattle.pcal_tree.specs.Offences.{first};
ghost use Rattle.pcal_tree.specs.OffencesReads.{processes_of, of_one_process, own_in_start, own_in_sets};
ghost use Rattle.pcal_tree.specs.Variables.{declared};
ghost use Rattle.algorithm_answer.specs.Joined.{joined};
ghost use Rattle.module_outside.specs.SightIn.{Binds};
ghost use Rattle.read_rules.specs.Own.{own_name, own_in_declaration};

use crate::declared::add_declared;
use crate::used::free_names;
use algorithm_limits::bound::Bound;
use algorithm_limits::order::or_offence;
use pcal_tree::algorithm::{Declaration, Main, Process, Start};
use std::alloc::{AllocError, Global};
use tla_pool::Pool;
use tla_token::{Refusal, Rule};
use tla_tree::PlacedName;

// Whether a name is of one process alone.
fn is_own(variables: &Bound, one: &PlacedName) -> bool
    ensures { (p : tree.Process) → Binds variables.now (declared p.variables) → result ≡ of_one_process p one.now }
{
    one.name.bytes() == b"self".as_slice() || variables.has(&one.name)
}

// The first of what was found and of the offences of these names.
fn with_names(variables: &Bound, so_far: Option<Refusal>, names: &[PlacedName]) -> Option<Refusal>
    ensures { (p : tree.Process) → Binds variables.now (declared p.variables) → result ≡ joined so_far (first (flat_map (own_name p) names.now)) }
{
    let mut found = so_far;
    for one in names {
        let own = is_own(variables, one);
        found = or_offence(found, own, Rule::InitSelf, one.place);
    }
    found
}

// The same of a first value.
fn with_start(
    alloc: Global,
    pool: &Pool,
    variables: &Bound,
    so_far: Option<Refusal>,
    start: &Start,
) -> Result<Option<Refusal>, AllocError>
    ensures { IfOk result (λ r. (p : tree.Process) → Binds variables.now (declared p.variables) → r ≡ joined so_far (first (own_in_start p (start_at pool.now start.now)))) }
{
    match start {
        Start::Among(e) => {
            let names = free_names(alloc, pool, *e)?;
            Ok(with_names(variables, so_far, &names))
        }
        _ => Ok(so_far),
    }
}

// The same of declarations.
fn with_declarations(
    alloc: Global,
    pool: &Pool,
    variables: &Bound,
    so_far: Option<Refusal>,
    list: &[Declaration],
) -> Result<Option<Refusal>, AllocError>
    ensures { IfOk result (λ r. (p : tree.Process) → Binds variables.now (declared p.variables) → r ≡ joined so_far (first (flat_map (own_in_declaration p) (declarations_at pool.now list.now)))) }
{
    let mut found = so_far;
    for i in 0..list.len() {
        let declaration = &list[i];
        found = with_start(alloc, pool, variables, found, &declaration.start)?;
    }
    Ok(found)
}

// The same of a process that is one of a set, where no name is of one process yet.
fn with_variables(
    alloc: Global,
    pool: &Pool,
    variables: &mut Bound,
    so_far: Option<Refusal>,
    process: &Process,
) -> Result<Option<Refusal>, AllocError>
    ensures { IfOk result (λ r. variables.old ≡ [] → r ≡ joined so_far (first (flat_map (own_in_declaration (process_at pool.now process.now)) (declarations_at pool.now process.now.variables.items)))) }
{
    add_declared(variables, &process.variables)?;
    with_declarations(alloc, pool, &*variables, so_far, &process.variables)
}

// The same of a process.
fn with_process(
    alloc: Global,
    pool: &Pool,
    so_far: Option<Refusal>,
    process: &Process,
) -> Result<Option<Refusal>, AllocError>
    ensures { IfOk result (λ r. r ≡ joined so_far (first (own_in_sets (process_at pool.now process.now)))) }
{
    if !process.several {
        return Ok(so_far);
    }
    let mut variables = Bound::new(alloc);
    let found = with_variables(alloc, pool, &mut variables, so_far, process);
    drop(variables);
    found
}

// The first offence of these processes.
fn of_processes(
    alloc: Global,
    pool: &Pool,
    processes: &[Process],
) -> Result<Option<Refusal>, AllocError>
    ensures { IfOk result (λ r. r ≡ first (flat_map own_in_sets (map (process_at pool.now) processes.now))) }
{
    let mut found = None;
    for process in processes {
        found = with_process(alloc, pool, found, process)?;
    }
    Ok(found)
}

/// The first name that is of one process alone, in the sets of a process set's variables.
///
/// # Errors
///
/// Only for want of memory.
pub fn own_refusal(alloc: Global, pool: &Pool, main: &Main) -> Result<Option<Refusal>, AllocError>
    ensures { IfOk result (λ r. r ≡ first (flat_map own_in_sets (processes_of (main_at pool.now main.now)))) }
{
    match main {
        Main::Alone(_) => Ok(None),
        Main::Processes(processes) => of_processes(alloc, pool, processes),
    }
}
