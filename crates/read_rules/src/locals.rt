//! The variables of procedures and processes: their names, and those that are read before they are declared.

ghost use Rattle.std.specs.Prelude.{◌≡◌, List, [], map, IfOk, OnOk};
ghost use Rattle.std.specs.List.{flat_map};
ghost use Rattle.tla_tree.specs.Tree.{Word, Tree};
ghost use Rattle.pcal_tree.specs.InMemory.{procedure_at, process_at, main_at, algorithm_at};
ghost use Rattle.pcal_tree.specs.Offences.{first};
ghost use Rattle.pcal_tree.specs.OffencesReads.{processes_of};
ghost use Rattle.algorithm_limits.specs.DepthsIn.{Hides};
ghost use Rattle.algorithm_answer.specs.Joined.{joined};
ghost use Rattle.read_rules.specs.EarlyReads.{early_in_locals, variables_of};
ghost use Rattle.module_outside.specs.SightIn.{Binds};
ghost use Rattle.read_rules.specs.Order.{Knows};
ghost use Rattle.read_rules.specs.Locals.{procedure_words, process_words, main_words, algorithm_words, procedure_list, process_list, order_by};
ghost use Rattle.read_rules.specs.NumbersIn.{AreLevels};
ghost use Rattle.read_rules.specs.Levels.{Levels};

use crate::declared::add_declared;
use crate::order::{Known, with_declarations};
use algorithm_limits::bound::Bound;
use algorithm_limits::table::Table;
use pcal_tree::algorithm::{Algorithm, Declaration, Main, Procedure, Process};
use std::alloc::{AllocError, Global};
use tla_pool::Pool;
use tla_token::Refusal;

// ---- names

// Adds the parameters and variables of procedures.
fn add_procedures(names: &mut Bound, procedures: &[Procedure]) -> Result<(), AllocError>
    ensures { OnOk result (Hides names.old names.new (flat_map procedure_words procedures.now)) }
{
    for procedure in procedures {
        add_declared(names, &procedure.params)?;
        add_declared(names, &procedure.variables)?;
    }
    Ok(())
}

// Adds the variables of processes.
fn add_processes(names: &mut Bound, processes: &[Process]) -> Result<(), AllocError>
    ensures { OnOk result (Hides names.old names.new (flat_map process_words processes.now)) }
{
    for process in processes {
        add_declared(names, &process.variables)?;
    }
    Ok(())
}

// Adds the variables of what runs.
fn add_main(names: &mut Bound, main: &Main) -> Result<(), AllocError>
    ensures { OnOk result (Hides names.old names.new (main_words main.now)) }
{
    match main {
        Main::Alone(_) => Ok(()),
        Main::Processes(processes) => add_processes(names, processes),
    }
}

// Adds all variables of an algorithm, and the parameters of its procedures.
fn add_variables(names: &mut Bound, algorithm: &Algorithm) -> Result<(), AllocError>
    ensures { OnOk result (Hides names.old names.new (algorithm_words algorithm.now)) }
{
    add_declared(names, &algorithm.globals)?;
    add_procedures(names, &algorithm.procedures)?;
    add_main(names, &algorithm.main)
}

/// All variables of an algorithm, and the parameters of its procedures.
///
/// # Errors
///
/// Only for want of memory.
pub fn all_variables(alloc: Global, algorithm: &Algorithm) -> Result<Bound, AllocError>
    ensures { IfOk result (λ names. (ts : List Tree) → Binds names (variables_of (algorithm_at ts algorithm.now))) }
{
    let mut names = Bound::new(alloc);
    match add_variables(&mut names, algorithm) {
        Ok(()) => Ok(names),
        Err(error) => {
            drop(names);
            Err(error)
        }
    }
}

// ---- offences

// The first of what was found and of the offences of a procedure's parameters and variables.
fn with_procedure(
    alloc: Global,
    pool: &Pool,
    known: &mut Known,
    so_far: Option<Refusal>,
    procedure: &Procedure,
) -> Result<Option<Refusal>, AllocError>
    ensures found { IfOk result (λ r. (all : List Word) (before : List Word) → Knows known.old all [] before → r ≡ joined so_far (first (early_in_locals all before (procedure_list (procedure_at pool.now procedure.now))))) }
    ensures kept { OnOk result (known.new ≡ known.old) }
{
    let around = known.before.len();
    let params = with_declarations(alloc, pool, known, so_far, &procedure.params)?;
    let found = with_declarations(alloc, pool, known, params, &procedure.variables)?;
    known.before.truncate(around);
    Ok(found)
}

// The same of a process's variables.
fn with_process(
    alloc: Global,
    pool: &Pool,
    known: &mut Known,
    so_far: Option<Refusal>,
    process: &Process,
) -> Result<Option<Refusal>, AllocError>
    ensures found { IfOk result (λ r. (all : List Word) (before : List Word) → Knows known.old all [] before → r ≡ joined so_far (first (early_in_locals all before (process_list (process_at pool.now process.now))))) }
    ensures kept { OnOk result (known.new ≡ known.old) }
{
    let around = known.before.len();
    let found = with_declarations(alloc, pool, known, so_far, &process.variables)?;
    known.before.truncate(around);
    Ok(found)
}

// The same of procedures.
fn with_procedures(
    alloc: Global,
    pool: &Pool,
    known: &mut Known,
    so_far: Option<Refusal>,
    procedures: &[Procedure],
) -> Result<Option<Refusal>, AllocError>
    ensures found { IfOk result (λ r. (all : List Word) (before : List Word) → Knows known.old all [] before → r ≡ joined so_far (first (flat_map (early_in_locals all before) (map procedure_list (map (procedure_at pool.now) procedures.now))))) }
    ensures kept { OnOk result (known.new ≡ known.old) }
{
    let mut found = so_far;
    for procedure in procedures {
        found = with_procedure(alloc, pool, known, found, procedure)?;
    }
    Ok(found)
}

// The same of processes.
fn with_processes(
    alloc: Global,
    pool: &Pool,
    known: &mut Known,
    so_far: Option<Refusal>,
    processes: &[Process],
) -> Result<Option<Refusal>, AllocError>
    ensures found { IfOk result (λ r. (all : List Word) (before : List Word) → Knows known.old all [] before → r ≡ joined so_far (first (flat_map (early_in_locals all before) (map process_list (map (process_at pool.now) processes.now))))) }
    ensures kept { OnOk result (known.new ≡ known.old) }
{
    let mut found = so_far;
    for process in processes {
        found = with_process(alloc, pool, known, found, process)?;
    }
    Ok(found)
}

// The same of what runs.
fn with_main(
    alloc: Global,
    pool: &Pool,
    known: &mut Known,
    so_far: Option<Refusal>,
    main: &Main,
) -> Result<Option<Refusal>, AllocError>
    ensures { IfOk result (λ r. (all : List Word) (before : List Word) → Knows known.old all [] before → r ≡ joined so_far (first (flat_map (early_in_locals all before) (map process_list (processes_of (main_at pool.now main.now)))))) }
{
    match main {
        Main::Alone(_) => Ok(so_far),
        Main::Processes(processes) => with_processes(alloc, pool, known, so_far, processes),
    }
}

// The same of an algorithm, by all its variables and the levels of its definitions, where nothing is declared yet.
fn order_in(
    alloc: Global,
    pool: &Pool,
    known: &mut Known,
    algorithm: &Algorithm,
) -> Result<Option<Refusal>, AllocError>
    ensures { IfOk result (λ r. (ls : Levels) → Binds known.old.all (variables_of (algorithm_at pool.now algorithm.now)) → AreLevels known.old.levels ls → known.old.before ≡ [] → r ≡ first (order_by ls (algorithm_at pool.now algorithm.now))) }
{
    let globals = with_declarations(alloc, pool, known, None, &algorithm.globals)?;
    known.levels = Table::new(alloc);
    let procedures = with_procedures(alloc, pool, known, globals, &algorithm.procedures)?;
    with_main(alloc, pool, known, procedures, &algorithm.main)
}

/// The first variable that is read before it is declared, in an initial value; by the levels of definitions.
///
/// # Errors
///
/// Only for want of memory.
pub fn order_refusal(
    alloc: Global,
    pool: &Pool,
    levels: Table,
    algorithm: &Algorithm,
) -> Result<Option<Refusal>, AllocError>
    ensures { IfOk result (λ r. (ls : Levels) → AreLevels levels ls → r ≡ first (order_by ls (algorithm_at pool.now algorithm.now))) }
{
    let all = all_variables(alloc, algorithm)?;
    let mut known = Known {
        all,
        before: Bound::new(alloc),
        levels,
    };
    let found = order_in(alloc, pool, &mut known, algorithm);
    drop(known);
    found
}
