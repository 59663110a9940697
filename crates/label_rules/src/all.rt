//! All offences of an algorithm against the rules on labels.

ghost use Rattle.std.specs.Prelude.{◌≡◌, ◌≤◌, ◌++◌, false, true, List, Some, None, length, OnOk, IfOk};
ghost use Rattle.std.specs.Prelude as prelude;
ghost use Rattle.std.specs.List.{flat_map};
ghost use Rattle.tla_token.specs.declared.rule.Rule.TheVariants.{FirstLabel};
ghost use Rattle.tla_tree.specs.Nesting.{greatest};
ghost use Rattle.pcal_tree.specs.InMemory.{statements_at, macro_at, procedure_at, process_at, main_at, algorithm_at, past_statements, past_macro, past_procedure, past_process, past_main, past_algorithm};
ghost use Rattle.pcal_tree.specs.OffencesLabels as pure;
ghost use Rattle.pcal_tree.specs.OffencesLabels.{misplaced, label_offences};
ghost use Rattle.pcal_tree.specs.OffencesSteps.{at_first, step_offences, missing_in_body};
ghost use Rattle.pcal_tree.specs.laws.MacroSummaries.{Summary as Found, summary_effect};
ghost use Rattle.label_steps.specs.AroundIn.{effects_around};
ghost use Rattle.label_steps.specs.KnownIn.{AreMacros};
ghost use Rattle.added_labels.specs.Sight.{effects_of};
ghost use Rattle.added_labels.specs.WithLabels.{IsOutside};

use crate::bodies::of_body;
use added_labels::seen::Where;
use label_steps::around::Around;
use label_steps::macros::known_macros;
use label_steps::twice::own_names;
use label_steps::ways::Ways;
use pcal_tree::algorithm::{Algorithm, Macro, Main, Procedure, Process, Stmt};
use std::alloc::{AllocError, Global};
use step_offences::steps::of_list;
use tla_pool::Pool;
use tla_token::{Refusal, Rule};

// What is missing in a body, or assigned twice, behind what was found, where a label must be before its first statement by this rule.
fn add_missing(
    alloc: Global,
    pool: &Pool,
    place: &Where,
    due: Option<Rule>,
    found: &mut Vec<Refusal>,
    stmts: &[Stmt],
) -> Result<(), AllocError>
    requires { past_statements stmts.now ≤ length pool.now }
    ensures { OnOk result ((ms : List Found) → AreMacros place.now.around.known ms → found.new.items ≡ found.old.items ++ step_offences (effects_of place.now ms) (at_first due) (statements_at pool.now stmts.now)) }
{
    let list = Vec::new(alloc);
    let mut ways = Ways::new(alloc);
    let mut missing = Some(list);
    of_list(place, alloc, pool, due, &mut ways, &mut missing, stmts)?;
    match missing {
        None => Ok(()),
        Some(all) => found.extend_from_slice(&all),
    }
}

// All that a macro offends.
fn add_macro(
    alloc: Global,
    pool: &Pool,
    place: &Where,
    found: &mut Vec<Refusal>,
    one: &Macro,
) -> Result<(), AllocError>
    requires inside { past_macro one.now ≤ length pool.now }
    requires silent { place.now.silent ≡ true }
    ensures { OnOk result ((ms : List Found) → AreMacros place.now.around.known ms → found.new.items ≡ found.old.items ++ pure.of_macro (macro_at pool.now one.now)) }
{
    add_missing(alloc, pool, place, None, found, &one.body)?;
    of_body(alloc, found, true, false, &one.body)
}

// All that macros offend.
fn add_macros(
    alloc: Global,
    pool: &Pool,
    place: &Where,
    found: &mut Vec<Refusal>,
    list: &[Macro],
) -> Result<(), AllocError>
    requires inside { greatest (prelude.map past_macro list.now) ≤ length pool.now }
    requires silent { place.now.silent ≡ true }
    ensures { OnOk result ((ms : List Found) → AreMacros place.now.around.known ms → found.new.items ≡ found.old.items ++ flat_map pure.of_macro (prelude.map (macro_at pool.now) list.now)) }
{
    for one in list {
        add_macro(alloc, pool, place, found, one)?;
    }
    Ok(())
}

// All that a body with steps of its own offends; true in a procedure.
fn add_body(
    alloc: Global,
    pool: &Pool,
    place: &Where,
    in_procedure: bool,
    found: &mut Vec<Refusal>,
    stmts: &[Stmt],
) -> Result<(), AllocError>
    requires inside { past_statements stmts.now ≤ length pool.now }
    requires loud { place.now.silent ≡ false }
    ensures { OnOk result ((ms : List Found) → AreMacros place.now.around.known ms → found.new.items ≡ found.old.items ++ (missing_in_body (effects_around place.now.around ms) (statements_at pool.now stmts.now) ++ misplaced false in_procedure (statements_at pool.now stmts.now))) }
{
    add_missing(alloc, pool, place, Some(Rule::FirstLabel), found, stmts)?;
    of_body(alloc, found, false, in_procedure, stmts)
}

// All that a procedure offends.
fn add_procedure(
    alloc: Global,
    pool: &Pool,
    place: &mut Where,
    found: &mut Vec<Refusal>,
    one: &Procedure,
) -> Result<(), AllocError>
    requires inside { past_procedure one.now ≤ length pool.now }
    requires loud { place.old.silent ≡ false }
    ensures loud { OnOk result (place.new.silent ≡ false) }
    ensures known { OnOk result (place.new.around.known ≡ place.old.around.known) }
    ensures told { OnOk result ((ms : List Found) → AreMacros place.old.around.known ms → found.new.items ≡ found.old.items ++ pure.of_procedure (summary_effect ms) (procedure_at pool.now one.now)) }
{
    place.around.name = Some(one.name.copied()?);
    place.around.own = own_names(alloc, one)?;
    add_body(alloc, pool, place, true, found, &one.body)
}

// All that procedures offend.
fn add_procedures(
    alloc: Global,
    pool: &Pool,
    place: &mut Where,
    found: &mut Vec<Refusal>,
    list: &[Procedure],
) -> Result<(), AllocError>
    requires inside { greatest (prelude.map past_procedure list.now) ≤ length pool.now }
    requires loud { place.old.silent ≡ false }
    ensures loud { OnOk result (place.new.silent ≡ false) }
    ensures known { OnOk result (place.new.around.known ≡ place.old.around.known) }
    ensures told { OnOk result ((ms : List Found) → AreMacros place.old.around.known ms → found.new.items ≡ found.old.items ++ flat_map (pure.of_procedure (summary_effect ms)) (prelude.map (procedure_at pool.now) list.now)) }
{
    for one in list {
        add_procedure(alloc, pool, place, found, one)?;
    }
    Ok(())
}

// All that processes offend.
fn add_processes(
    alloc: Global,
    pool: &Pool,
    place: &Where,
    found: &mut Vec<Refusal>,
    list: &[Process],
) -> Result<(), AllocError>
    requires inside { greatest (prelude.map past_process list.now) ≤ length pool.now }
    requires loud { place.now.silent ≡ false }
    ensures { OnOk result ((ms : List Found) → AreMacros place.now.around.known ms → found.new.items ≡ found.old.items ++ flat_map (λ p. missing_in_body (effects_around place.now.around ms) p.body ++ misplaced false false p.body) (prelude.map (process_at pool.now) list.now)) }
{
    for one in list {
        add_body(alloc, pool, place, false, found, &one.body)?;
    }
    Ok(())
}

// All that what runs offends.
fn add_main(
    alloc: Global,
    pool: &Pool,
    place: &Where,
    found: &mut Vec<Refusal>,
    main: &Main,
) -> Result<(), AllocError>
    requires inside { past_main main.now ≤ length pool.now }
    requires outside { IsOutside place.now }
    ensures { OnOk result ((ms : List Found) → AreMacros place.now.around.known ms → found.new.items ≡ found.old.items ++ pure.of_main (summary_effect ms) (main_at pool.now main.now)) }
{
    match main {
        Main::Alone(body) => add_body(alloc, pool, place, false, found, body),
        Main::Processes(list) => add_processes(alloc, pool, place, found, list),
    }
}

// All that procedures and what runs offend.
fn add_routines(
    alloc: Global,
    pool: &Pool,
    place: &mut Where,
    found: &mut Vec<Refusal>,
    algorithm: &Algorithm,
) -> Result<(), AllocError>
    requires inside { past_algorithm algorithm.now ≤ length pool.now }
    requires loud { place.old.silent ≡ false }
    ensures { OnOk result ((ms : List Found) → AreMacros place.old.around.known ms → found.new.items ≡ found.old.items ++ (flat_map (pure.of_procedure (summary_effect ms)) (algorithm_at pool.now algorithm.now).procedures ++ pure.of_main (summary_effect ms) (algorithm_at pool.now algorithm.now).main)) }
{
    add_procedures(alloc, pool, place, found, &algorithm.procedures)?;
    place.around.name = None;
    place.around.own = Vec::new(alloc);
    add_main(alloc, pool, place, found, &algorithm.main)
}

/// All offences of an algorithm against the rules on labels: of macros first, then of procedures, then of what runs, and of each body
/// first the labels that are missing and the variables that are assigned twice in a step, then what is elsewhere than it may be, then
/// second labels, each in the order of the text. Each macro is gone through once to know what it assigns, and once for what it offends.
///
/// # Errors
///
/// Only for want of memory.
pub fn offences(
    alloc: Global,
    pool: &Pool,
    algorithm: &Algorithm,
) -> Result<Vec<Refusal>, AllocError>
    requires { past_algorithm algorithm.now ≤ length pool.now }
    ensures { IfOk result (λ r. r.items ≡ label_offences (algorithm_at pool.now algorithm.now)) }
{
    let known = known_macros(alloc, pool, &algorithm.macros)?;
    let mut place = Where {
        around: Around {
            known,
            name: None,
            own: Vec::new(alloc),
        },
        silent: true,
    };
    let mut found = Vec::new(alloc);
    add_macros(alloc, pool, &place, &mut found, &algorithm.macros)?;
    place.silent = false;
    add_routines(alloc, pool, &mut place, &mut found, algorithm)?;
    Ok(found)
}
