//! Init: the variables that all processes share, those of procedures and processes, the stack, and pc.

ghost use Rattle.std.specs.Prelude.{◌≡◌, ◌<◌, ◌≤◌, ◌+◌, ◌*◌, ◌∷◌, ◌++◌, [], ℕ, List, codes, length, IfOk, OnOk};
ghost use Rattle.std.specs.Prelude as prelude;
ghost use Rattle.std.specs.List.{flat_map};
ghost use Rattle.tla_tree.specs.Tree.{Tree};
ghost use Rattle.tla_tree.specs.Pool.{at, AllBelow, Keeps};
ghost use Rattle.tla_tree.specs.Nesting.{greatest};
ghost use Rattle.module_tree.specs.Formulas.{self, named, quoted as quoted_of, equal as equal_of, empty_tuple as empty_tuple_tree};
ghost use Rattle.pcal_tree.specs.Algorithm.{Routine, numbered, procedure_routine, procedure_routines, first_process as first_process_of};
ghost use Rattle.pcal_tree.specs.InMemory.{statements_at, start_at, past_start, declaration_at as tree_of, declarations_at, procedure_at, process_at, main_at, past_declaration, past_declarations, past_process, past_main, past_algorithm};
ghost use Rattle.pcal_tree.specs.Takers.{taken_process, taken_main};
ghost use Rattle.pcal_tree.specs.Program.{Program};
ghost use Rattle.pcal_tree.specs.Calls.{label_name, first_label};
ghost use Rattle.pcal_tree.specs.Variables.{stack};
ghost use Rattle.written_names.specs.Units.{naming_of};
ghost use Rattle.action_builder.specs.LabelActions.{taken_procedures};
ghost use Rattle.action_builder.specs.InitialFormulas.{globals_start, locals_start, for_all_processes, stack_start, arms as arms_of, pc_value as pc_value_of, pc_start as pc_start_of, init as init_of};
ghost use Rattle.draft.specs.Drafts.{IsDraft};
ghost use Rattle.module_formulas.specs.TakersIn.{Runs};
ghost use Rattle.module_formulas.specs.Added.{Adds};
ghost use Rattle.module_formulas.specs.Starts.{first_value as first_value_of, global_start as global_start_of, arm, cases_of};

use crate::forms::{choice, empty_tuple};
use crate::names::{name_of, string_of};
use crate::numbers::{after, first_procedure, first_process};
use crate::starts::{add_procedures, add_processes, formula, is_choice};
use crate::takers::{is_taker, procedure_taker, taker_of};
use draft::Draft;
use module_write::formulas::{binds_self, equal};
use pcal_tree::algorithm::{Declaration, Main, Procedure, Process, Start, Stmt};
use std::alloc::{AllocError, Global};
use tla_pool::Pool;
use tla_tree::{Binder, NodeId};

// ---- variables that all processes share

// The value of such a variable, or the set of which it is one.
fn global_value(alloc: Global, pool: &mut Pool, start: &Start) -> Result<NodeId, AllocError>
    requires { past_start start.now ≤ length pool.old }
    ensures tree { IfOk result (λ r. at pool.new r ≡ first_value_of (λ e. e) (λ e. e) (start_at pool.old start.now)) }
    ensures within { IfOk result (λ r. r < length pool.new) }
    ensures kept { Keeps pool.old pool.new }
{
    match start {
        Start::Unset => name_of(alloc, pool, b"defaultInitValue"),
        Start::Equals(e) => Ok(*e),
        Start::Among(e) => Ok(*e),
    }
}

// The conjunct of such a variable.
fn global_start(alloc: Global, pool: &mut Pool, one: &Declaration) -> Result<NodeId, AllocError>
    requires { past_declaration one.now ≤ length pool.old }
    ensures tree { IfOk result (λ r. at pool.new r ≡ global_start_of (tree_of pool.old one.now)) }
    ensures within { IfOk result (λ r. r < length pool.new) }
    ensures kept { Keeps pool.old pool.new }
{
    let is_set = is_choice(&one.start);
    let value = global_value(alloc, pool, &one.start)?;
    formula(alloc, pool, &one.name.name, is_set, value)
}

// Adds the conjuncts of such variables.
fn add_globals(
    alloc: Global,
    pool: &mut Pool,
    list: &[Declaration],
    out: &mut Vec<NodeId>,
) -> Result<(), AllocError>
    requires there { past_declarations list.now ≤ length pool.old }
    requires below { AllBelow (length pool.old) out.old.items }
    ensures made { OnOk result (Adds pool.old pool.new out.old.items out.new.items (globals_start (declarations_at pool.old list.now))) }
    ensures below { OnOk result (AllBelow (length pool.new) out.new.items) }
    ensures kept { Keeps pool.old pool.new }
{
    for one in list {
        let made = global_start(alloc, pool, one)?;
        out.push(made)?;
    }
    Ok(())
}

// ---- the stack

// The same value for all processes, or the one value.
fn for_all(alloc: Global, pool: &mut Pool, main: &Main, value: NodeId) -> Result<NodeId, AllocError>
    requires { value < length pool.old }
    ensures tree { IfOk result (λ r. (ts : List Tree) → at pool.new r ≡ for_all_processes (main_at ts main.now) (at pool.old value)) }
    ensures within { IfOk result (λ r. r < length pool.new) }
    ensures kept { Keeps pool.old pool.new }
{
    match main {
        Main::Alone(_) => Ok(value),
        Main::Processes(_) => {
            let set = name_of(alloc, pool, b"ProcSet")?;
            binds_self(alloc, pool, Binder::Function, set, value)
        }
    }
}

// The conjunct of the stack.
fn empty_stack(alloc: Global, pool: &mut Pool, main: &Main) -> Result<NodeId, AllocError>
    ensures tree { IfOk result (λ r. (ts : List Tree) → at pool.new r ≡ equal_of (named stack) (for_all_processes (main_at ts main.now) empty_tuple_tree)) }
    ensures within { IfOk result (λ r. r < length pool.new) }
    ensures kept { Keeps pool.old pool.new }
{
    let none = empty_tuple(alloc, pool)?;
    let value = for_all(alloc, pool, main, none)?;
    let name = name_of(alloc, pool, b"stack")?;
    equal(alloc, pool, name, value)
}

// Adds it where there are procedures.
fn add_stack(
    alloc: Global,
    pool: &mut Pool,
    main: &Main,
    procedures: &[Procedure],
    out: &mut Vec<NodeId>,
) -> Result<(), AllocError>
    requires { AllBelow (length pool.old) out.old.items }
    ensures made { OnOk result ((ts : List Tree) (n : ℕ) → Adds pool.old pool.new out.old.items out.new.items (stack_start (main_at ts main.now) (numbered procedure_routine n (prelude.map (procedure_at ts) procedures.now)))) }
    ensures below { OnOk result (AllBelow (length pool.new) out.new.items) }
    ensures kept { Keeps pool.old pool.new }
{
    if procedures.is_empty() {
        return Ok(());
    }
    let made = empty_stack(alloc, pool, main)?;
    out.push(made)?;
    Ok(())
}

// ---- pc

// The first value of pc in a routine with this number and body, which ends in "Done".
fn first_pc(
    alloc: Global,
    pool: &mut Pool,
    draft: &Draft<'_>,
    unit: usize,
    body: &[Stmt],
) -> Result<NodeId, AllocError>
    ensures tree { IfOk result (λ r. (ts : List Tree) (P : Program) (u : Routine) → naming_of draft.now.naming.now ≡ P.naming → u.number ≡ unit → u.body ≡ statements_at ts body.now → u.exit ≡ codes "Done" → at pool.new r ≡ quoted_of (label_name P u (first_label u))) }
    ensures within { IfOk result (λ r. r < length pool.new) }
    ensures kept { Keeps pool.old pool.new }
{
    let label = draft.first_label(alloc, unit, body, b"Done")?;
    string_of(alloc, pool, label.bytes())
}

// Adds the arm of a process with this number: that it is one of those, and its first value of pc; `this` is the name `self`.
fn add_arm(
    alloc: Global,
    pool: &mut Pool,
    draft: &Draft<'_>,
    this: NodeId,
    unit: usize,
    process: &Process,
    out: &mut Vec<NodeId>,
) -> Result<(), AllocError>
    requires there { past_process process.now ≤ length pool.old }
    requires name { this < length pool.old }
    requires below { AllBelow (length pool.old) out.old.items }
    ensures made { OnOk result ((P : Program) → IsDraft pool.old draft.now P → at pool.old this ≡ named self → Adds pool.old pool.new out.old.items out.new.items (arm P (taken_process unit (process_at pool.old process.now)))) }
    ensures below { OnOk result (AllBelow (length pool.new) out.new.items) }
    ensures paired { OnOk result (length out.new.items ≡ length out.old.items + 2) }
    ensures kept { Keeps pool.old pool.new }
{
    let test = is_taker(alloc, pool, taker_of(process), this)?;
    let value = first_pc(alloc, pool, draft, unit, &process.body)?;
    out.extend_from_slice(&[test, value])?;
    Ok(())
}

// Adds the arms of processes, of which the first has this number.
fn add_arms(
    alloc: Global,
    pool: &mut Pool,
    draft: &Draft<'_>,
    this: NodeId,
    first: usize,
    list: &[Process],
    out: &mut Vec<NodeId>,
) -> Result<(), AllocError>
    requires there { greatest (prelude.map past_process list.now) ≤ length pool.old }
    requires name { this < length pool.old }
    requires below { AllBelow (length pool.old) out.old.items }
    ensures made { OnOk result ((P : Program) → IsDraft pool.old draft.now P → at pool.old this ≡ named self → Adds pool.old pool.new out.old.items out.new.items (arms_of P (numbered taken_process first (prelude.map (process_at pool.old) list.now)))) }
    ensures below { OnOk result (AllBelow (length pool.new) out.new.items) }
    ensures paired { OnOk result (length out.new.items ≡ length out.old.items + 2 * length list.now) }
    ensures kept { Keeps pool.old pool.new }
{
    let mut number = first;
    for one in list {
        add_arm(alloc, pool, draft, this, number, one, out)?;
        number = after(number)?;
    }
    Ok(())
}

// The first value of pc by cases, of processes of which the first has this number.
fn by_cases(
    alloc: Global,
    pool: &mut Pool,
    draft: &Draft<'_>,
    first: usize,
    list: &[Process],
) -> Result<NodeId, AllocError>
    requires there { greatest (prelude.map past_process list.now) ≤ length pool.old }
    requires some { 0 < length list.now }
    ensures tree { IfOk result (λ r. (P : Program) → IsDraft pool.old draft.now P → at pool.new r ≡ cases_of P (numbered taken_process first (prelude.map (process_at pool.old) list.now))) }
    ensures within { IfOk result (λ r. r < length pool.new) }
    ensures kept { Keeps pool.old pool.new }
{
    let this = name_of(alloc, pool, b"self")?;
    let mut arms = Vec::new(alloc);
    add_arms(alloc, pool, draft, this, first, list, &mut arms)?;
    choice(pool, arms)
}

// The first value of pc of processes, of which the first has this number. No algorithm is without processes and without a body.
fn of_processes(
    alloc: Global,
    pool: &mut Pool,
    draft: &Draft<'_>,
    first: usize,
    list: &[Process],
) -> Result<NodeId, AllocError>
    requires { greatest (prelude.map past_process list.now) ≤ length pool.old }
    ensures tree { IfOk result (λ r. (P : Program) → IsDraft pool.old draft.now P → 0 < length list.now → at pool.new r ≡ pc_value_of P (numbered taken_process first (prelude.map (process_at pool.old) list.now))) }
    ensures within { IfOk result (λ r. r < length pool.new) }
    ensures kept { Keeps pool.old pool.new }
{
    if list.is_empty() {
        string_of(alloc, pool, b"Done")
    } else if list.len() == 1 {
        first_pc(alloc, pool, draft, first, &list[0].body)
    } else {
        by_cases(alloc, pool, draft, first, list)
    }
}

// The first value of pc, where the first of what runs has this number.
fn pc_value(
    alloc: Global,
    pool: &mut Pool,
    draft: &Draft<'_>,
    number: usize,
    main: &Main,
) -> Result<NodeId, AllocError>
    requires { past_main main.now ≤ length pool.old }
    ensures tree { IfOk result (λ r. (P : Program) → IsDraft pool.old draft.now P → Runs (main_at pool.old main.now) → number ≡ first_process_of P.algorithm → at pool.new r ≡ pc_value_of P (taken_main P.algorithm (main_at pool.old main.now))) }
    ensures within { IfOk result (λ r. r < length pool.new) }
    ensures kept { Keeps pool.old pool.new }
{
    match main {
        Main::Alone(body) => first_pc(alloc, pool, draft, number, body),
        Main::Processes(list) => of_processes(alloc, pool, draft, number, list),
    }
}

// The conjunct of pc.
fn pc_start(
    alloc: Global,
    pool: &mut Pool,
    draft: &Draft<'_>,
    number: usize,
) -> Result<NodeId, AllocError>
    requires { past_algorithm draft.now.algorithm.now ≤ length pool.old }
    ensures tree { IfOk result (λ r. (P : Program) → IsDraft pool.old draft.now P → Runs P.algorithm.main → number ≡ first_process_of P.algorithm → at pool.new r ≡ pc_start_of P) }
    ensures within { IfOk result (λ r. r < length pool.new) }
    ensures kept { Keeps pool.old pool.new }
{
    let main = &draft.algorithm.main;
    let value = pc_value(alloc, pool, draft, number, main)?;
    let all = for_all(alloc, pool, main, value)?;
    let name = name_of(alloc, pool, b"pc")?;
    equal(alloc, pool, name, all)
}

// ---- all

// Adds the conjuncts of the variables of what runs, of which the first has this number; the one body has none.
fn add_main(
    alloc: Global,
    pool: &mut Pool,
    draft: &Draft<'_>,
    number: usize,
    main: &Main,
    out: &mut Vec<NodeId>,
) -> Result<(), AllocError>
    requires there { past_main main.now ≤ length pool.old }
    requires below { AllBelow (length pool.old) out.old.items }
    ensures made { OnOk result ((P : Program) → IsDraft pool.old draft.now P → number ≡ first_process_of P.algorithm → Adds pool.old pool.new out.old.items out.new.items (flat_map (locals_start P) (taken_main P.algorithm (main_at pool.old main.now)))) }
    ensures below { OnOk result (AllBelow (length pool.new) out.new.items) }
    ensures kept { Keeps pool.old pool.new }
{
    match main {
        Main::Alone(_) => Ok(()),
        Main::Processes(list) => add_processes(alloc, pool, draft, number, list, out),
    }
}

// Adds the conjuncts of all variables of procedures and of what runs, of which the first has this number.
fn add_locals(
    alloc: Global,
    pool: &mut Pool,
    draft: &Draft<'_>,
    number: usize,
    out: &mut Vec<NodeId>,
) -> Result<(), AllocError>
    requires there { past_algorithm draft.now.algorithm.now ≤ length pool.old }
    requires below { AllBelow (length pool.old) out.old.items }
    ensures made { OnOk result ((P : Program) → IsDraft pool.old draft.now P → number ≡ first_process_of P.algorithm → Adds pool.old pool.new out.old.items out.new.items (flat_map (locals_start P) (taken_procedures P.algorithm) ++ flat_map (locals_start P) (taken_main P.algorithm P.algorithm.main))) }
    ensures below { OnOk result (AllBelow (length pool.new) out.new.items) }
    ensures kept { Keeps pool.old pool.new }
{
    let algorithm = draft.algorithm;
    let taker = procedure_taker(alloc, pool, &algorithm.main)?;
    let first = first_procedure(algorithm);
    add_procedures(alloc, pool, draft, taker, first, &algorithm.procedures, out)?;
    add_main(alloc, pool, draft, number, &algorithm.main, out)
}

// Adds the conjuncts of the stack and of pc, where the first of what runs has this number.
fn add_control(
    alloc: Global,
    pool: &mut Pool,
    draft: &Draft<'_>,
    number: usize,
    out: &mut Vec<NodeId>,
) -> Result<(), AllocError>
    requires there { past_algorithm draft.now.algorithm.now ≤ length pool.old }
    requires below { AllBelow (length pool.old) out.old.items }
    ensures made { OnOk result ((P : Program) → IsDraft pool.old draft.now P → Runs P.algorithm.main → number ≡ first_process_of P.algorithm → Adds pool.old pool.new out.old.items out.new.items (stack_start P.algorithm.main (procedure_routines P.algorithm) ++ pc_start_of P ∷ [])) }
    ensures below { OnOk result (AllBelow (length pool.new) out.new.items) }
    ensures kept { Keeps pool.old pool.new }
{
    let algorithm = draft.algorithm;
    add_stack(alloc, pool, &algorithm.main, &algorithm.procedures, out)?;
    let made = pc_start(alloc, pool, draft, number)?;
    out.push(made)?;
    Ok(())
}

/// The conjuncts of Init.
///
/// # Errors
///
/// Only for want of memory; the pool may then have more nodes than before.
pub fn build_init(
    alloc: Global,
    pool: &mut Pool,
    draft: &Draft<'_>,
) -> Result<Vec<NodeId>, AllocError>
    requires { past_algorithm draft.now.algorithm.now ≤ length pool.old }
    ensures made { IfOk result (λ r. (P : Program) → IsDraft pool.old draft.now P → Runs P.algorithm.main → prelude.map (at pool.new) r.items ≡ init_of P) }
    ensures below { IfOk result (λ r. AllBelow (length pool.new) r.items) }
    ensures kept { Keeps pool.old pool.new }
{
    let algorithm = draft.algorithm;
    let mut all = Vec::new(alloc);
    let number = first_process(algorithm)?;
    add_globals(alloc, pool, &algorithm.globals, &mut all)?;
    add_locals(alloc, pool, draft, number, &mut all)?;
    add_control(alloc, pool, draft, number, &mut all)?;
    Ok(all)
}
