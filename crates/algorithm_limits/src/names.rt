//! How many variables, processes and procedures an algorithm has.

ghost use Rattle.std.specs.Prelude.{◌≡◌, map};
ghost use Rattle.pcal_tree.specs.declared.algorithm.Process as pure;
ghost use Rattle.std.specs.List.{flat_map};
ghost use Rattle.algorithm_limits.specs.Counting.{none_of, counted, declared_names, procedure_variables, process_variables, main_variables, variables_in, processes_in, procedures_in};

use crate::count::Count;
use pcal_tree::algorithm::{Algorithm, Declaration, Main, Procedure, Process};

/// How many variables an algorithm may have, parameters of procedures among them.
pub const MOST_VARIABLES: usize = 1024;

/// How many processes an algorithm may have.
pub const MOST_PROCESSES: usize = 100;

/// How many procedures an algorithm may have.
pub const MOST_PROCEDURES: usize = 100;

// With the names of these declarations.
#[tactic(auto, using(crate::proofs::Counts::counted_next, crate::proofs::Counts::counted_each))]
fn with_declarations(count: Count, declarations: &[Declaration]) -> Count
    ensures { result ≡ counted count (declared_names declarations.now) }
{
    let mut so_far = count;
    for declaration in declarations {
        so_far = so_far.with(declaration.name.place);
    }
    so_far
}

// With the parameters and variables of a procedure.
#[tactic(auto, using(crate::proofs::Counts::counted_append))]
fn with_procedure(count: Count, procedure: &Procedure) -> Count
    ensures { result ≡ counted count (procedure_variables procedure.now) }
{
    let params = with_declarations(count, &procedure.params);
    with_declarations(params, &procedure.variables)
}

// With those of these procedures.
#[tactic(auto, using(crate::proofs::Counts::counted_more, crate::proofs::Counts::counted_all))]
fn with_procedures(count: Count, procedures: &[Procedure]) -> Count
    ensures { result ≡ counted count (flat_map procedure_variables procedures.now) }
{
    let mut so_far = count;
    for procedure in procedures {
        so_far = with_procedure(so_far, procedure);
    }
    so_far
}

// With the variables of these processes.
#[tactic(auto, using(crate::proofs::Counts::counted_more, crate::proofs::Counts::counted_all))]
fn with_processes(count: Count, processes: &[Process]) -> Count
    ensures { result ≡ counted count (flat_map process_variables processes.now) }
{
    let mut so_far = count;
    for process in processes {
        so_far = with_declarations(so_far, &process.variables);
    }
    so_far
}

// With the variables of what runs.
fn with_main(count: Count, main: &Main) -> Count
    ensures { result ≡ counted count (main_variables main.now) }
{
    match main {
        Main::Alone(_) => count,
        Main::Processes(processes) => with_processes(count, processes),
    }
}

/// The variables of an algorithm, and the parameters of its procedures.
#[tactic(auto, using(crate::proofs::Counts::counted_append))]
pub fn variables(algorithm: &Algorithm) -> Count
    ensures { result ≡ counted (none_of MOST_VARIABLES) (variables_in algorithm.now) }
{
    let globals = with_declarations(Count::none_of(MOST_VARIABLES), &algorithm.globals);
    let procedures = with_procedures(globals, &algorithm.procedures);
    with_main(procedures, &algorithm.main)
}

// With the names of these processes.
#[tactic(auto, using(crate::proofs::Counts::counted_next, crate::proofs::Counts::counted_each))]
fn with_names(count: Count, processes: &[Process]) -> Count
    ensures { result ≡ counted count (map (λ (p : pure.Process). p.name) processes.now) }
{
    let mut so_far = count;
    for process in processes {
        so_far = so_far.with(process.name.place);
    }
    so_far
}

/// The processes of an algorithm.
pub fn processes(main: &Main) -> Count
    ensures { result ≡ counted (none_of MOST_PROCESSES) (processes_in main.now) }
{
    let none = Count::none_of(MOST_PROCESSES);
    match main {
        Main::Alone(_) => none,
        Main::Processes(processes) => with_names(none, processes),
    }
}

/// The procedures of an algorithm.
#[tactic(auto, using(crate::proofs::Counts::counted_next, crate::proofs::Counts::counted_each))]
pub fn procedures(algorithm: &Algorithm) -> Count
    ensures { result ≡ counted (none_of MOST_PROCEDURES) (procedures_in algorithm.now) }
{
    let mut so_far = Count::none_of(MOST_PROCEDURES);
    for procedure in &algorithm.procedures {
        so_far = so_far.with(procedure.name.place);
    }
    so_far
}
