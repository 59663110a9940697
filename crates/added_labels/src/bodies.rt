//! Labels added in bodies, one after another.

ghost use Rattle.std.specs.Prelude.{◌≡◌, ◌≤◌, List, false, true, length, map, None, [], IfOk, OnOk};
ghost use Rattle.tla_tree.specs.Nesting.{greatest};
ghost use Rattle.pcal_tree.specs.InMemory.{macro_at, procedure_at, process_at, main_at, past_statements, past_macro, past_procedure, past_process, past_main};
ghost use Rattle.pcal_tree.specs.OffencesSteps.{Before};
ghost use Rattle.pcal_tree.specs.laws.MacroSummaries.{Summary as Found, summary_effect};
ghost use Rattle.label_steps.specs.KnownIn.{AreMacros};
ghost use Rattle.added_labels.specs.Chosen.{begins_with};
ghost use Rattle.added_labels.specs.Bodies.{macro_with, past_macro as names_past_macro, procedure_with, past_procedure as names_past_procedure, process_with, past_process as names_past_process, main_with};
ghost use Rattle.added_labels.specs.Sight.{effects_of};
ghost use Rattle.added_labels.specs.WithLabels.{BodyWith, OneWith, EachWith, MainWith, IsSilent, IsOutside};

use crate::seen::Where;
use label_steps::twice::own_names;
use pcal_tree::algorithm::{Macro, Main, Procedure, Process, Stmt};
use placed_labels::place::Plan;
use std::alloc::{AllocError, Global};
use tla_pool::Pool;

// A body with its labels; true where a label must be before its first statement.
fn in_body(
    alloc: Global,
    pool: &Pool,
    plan: &mut Plan,
    place: &Where,
    due: bool,
    body: Vec<Stmt>,
) -> Result<Vec<Stmt>, AllocError>
    requires { past_statements body.items ≤ length pool.now }
    ensures with { IfOk result (λ r. (ms : List Found) → AreMacros place.now.around.known ms → (p : Before) → begins_with due p → BodyWith (effects_of place.now ms) p pool.now plan.old plan.new body.items r.items) }
    ensures numbers { IfOk result (λ r. past_statements r.items ≤ past_statements body.items) }
{
    let mut wanted = Vec::new(alloc);
    place.choose(alloc, pool, &mut wanted, due, &body)?;
    plan.wanted = wanted;
    plan.passed = 0;
    plan.statements(alloc, body)
}

// A macro with its labels.
fn in_macro(
    alloc: Global,
    pool: &Pool,
    plan: &mut Plan,
    place: &Where,
    one: Macro,
) -> Result<Macro, AllocError>
    requires numbers { past_macro one ≤ length pool.now }
    requires silent { IsSilent place.now }
    ensures with { IfOk result (λ r. OneWith (macro_at pool.now) macro_with names_past_macro plan.old plan.new one r) }
    ensures numbers { IfOk result (λ r. past_macro r ≤ past_macro one) }
{
    let Macro { name, params, body } = one;
    let with = in_body(alloc, pool, plan, place, false, body)?;
    Ok(Macro {
        name,
        params,
        body: with,
    })
}

/// Macros with their labels.
///
/// # Errors
///
/// Only for want of memory.
pub fn in_macros(
    alloc: Global,
    pool: &Pool,
    plan: &mut Plan,
    place: &Where,
    list: Vec<Macro>,
) -> Result<Vec<Macro>, AllocError>
    requires numbers { greatest (map past_macro list.items) ≤ length pool.now }
    requires silent { IsSilent place.now }
    ensures with { IfOk result (λ r. EachWith (macro_at pool.now) macro_with names_past_macro plan.old plan.new list.items r.items) }
    ensures numbers { IfOk result (λ r. greatest (map past_macro r.items) ≤ greatest (map past_macro list.items)) }
{
    let mut out = Vec::new(alloc);
    for one in list {
        out.push(in_macro(alloc, pool, plan, place, one)?)?;
    }
    Ok(out)
}

// A procedure with its labels.
fn in_procedure(
    alloc: Global,
    pool: &Pool,
    plan: &mut Plan,
    place: &mut Where,
    one: Procedure,
) -> Result<Procedure, AllocError>
    requires numbers { past_procedure one ≤ length pool.now }
    requires loud { place.old.silent ≡ false }
    ensures loud { OnOk result (place.new.silent ≡ false) }
    ensures known { OnOk result (place.new.around.known ≡ place.old.around.known) }
    ensures with { IfOk result (λ r. (ms : List Found) → AreMacros place.old.around.known ms → OneWith (procedure_at pool.now) (procedure_with (summary_effect ms)) (names_past_procedure (summary_effect ms)) plan.old plan.new one r) }
    ensures numbers { IfOk result (λ r. past_procedure r ≤ past_procedure one) }
{
    place.around.name = Some(one.name.copied()?);
    place.around.own = own_names(alloc, &one)?;
    let Procedure {
        name,
        params,
        variables,
        body,
    } = one;
    let with = in_body(alloc, pool, plan, place, true, body)?;
    Ok(Procedure {
        name,
        params,
        variables,
        body: with,
    })
}

/// Procedures with their labels.
///
/// # Errors
///
/// Only for want of memory.
pub fn in_procedures(
    alloc: Global,
    pool: &Pool,
    plan: &mut Plan,
    place: &mut Where,
    list: Vec<Procedure>,
) -> Result<Vec<Procedure>, AllocError>
    requires numbers { greatest (map past_procedure list.items) ≤ length pool.now }
    requires loud { place.old.silent ≡ false }
    ensures loud { OnOk result (place.new.silent ≡ false) }
    ensures known { OnOk result (place.new.around.known ≡ place.old.around.known) }
    ensures with { IfOk result (λ r. (ms : List Found) → AreMacros place.old.around.known ms → EachWith (procedure_at pool.now) (procedure_with (summary_effect ms)) (names_past_procedure (summary_effect ms)) plan.old plan.new list.items r.items) }
    ensures numbers { IfOk result (λ r. greatest (map past_procedure r.items) ≤ greatest (map past_procedure list.items)) }
{
    let mut out = Vec::new(alloc);
    for one in list {
        out.push(in_procedure(alloc, pool, plan, place, one)?)?;
    }
    Ok(out)
}

// A process with its labels.
fn in_process(
    alloc: Global,
    pool: &Pool,
    plan: &mut Plan,
    place: &Where,
    one: Process,
) -> Result<Process, AllocError>
    requires numbers { past_process one ≤ length pool.now }
    requires outside { IsOutside place.now }
    ensures with { IfOk result (λ r. (ms : List Found) → AreMacros place.now.around.known ms → OneWith (process_at pool.now) (process_with (summary_effect ms)) (names_past_process (summary_effect ms)) plan.old plan.new one r) }
    ensures numbers { IfOk result (λ r. past_process r ≤ past_process one) }
{
    let Process {
        name,
        fairness,
        several,
        identity,
        variables,
        body,
    } = one;
    let with = in_body(alloc, pool, plan, place, true, body)?;
    Ok(Process {
        name,
        fairness,
        several,
        identity,
        variables,
        body: with,
    })
}

// Processes with their labels.
fn in_processes(
    alloc: Global,
    pool: &Pool,
    plan: &mut Plan,
    place: &Where,
    list: Vec<Process>,
) -> Result<Vec<Process>, AllocError>
    requires numbers { greatest (map past_process list.items) ≤ length pool.now }
    requires outside { IsOutside place.now }
    ensures with { IfOk result (λ r. (ms : List Found) → AreMacros place.now.around.known ms → EachWith (process_at pool.now) (process_with (summary_effect ms)) (names_past_process (summary_effect ms)) plan.old plan.new list.items r.items) }
    ensures numbers { IfOk result (λ r. greatest (map past_process r.items) ≤ greatest (map past_process list.items)) }
{
    let mut out = Vec::new(alloc);
    for one in list {
        out.push(in_process(alloc, pool, plan, place, one)?)?;
    }
    Ok(out)
}

/// What runs, with its labels.
///
/// # Errors
///
/// Only for want of memory.
pub fn in_main(
    alloc: Global,
    pool: &Pool,
    plan: &mut Plan,
    place: &Where,
    main: Main,
) -> Result<Main, AllocError>
    requires numbers { past_main main ≤ length pool.now }
    requires outside { IsOutside place.now }
    ensures with { IfOk result (λ r. (ms : List Found) → AreMacros place.now.around.known ms → MainWith (summary_effect ms) pool.now plan.old main r) }
    ensures numbers { IfOk result (λ r. past_main r ≤ past_main main) }
{
    match main {
        Main::Alone(body) => {
            let with = in_body(alloc, pool, plan, place, true, body)?;
            Ok(Main::Alone(with))
        }
        Main::Processes(list) => {
            let with = in_processes(alloc, pool, plan, place, list)?;
            Ok(Main::Processes(with))
        }
    }
}
