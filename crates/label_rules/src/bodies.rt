//! All that is misplaced in an algorithm.

ghost use Rattle.std.specs.Prelude.{◌≡◌, ◌++◌, List, true, false, OnOk, IfOk};
ghost use Rattle.std.specs.Prelude as prelude;
ghost use Rattle.std.specs.List.{flat_map};
ghost use Rattle.tla_tree.specs.Tree.{Tree};
ghost use Rattle.pcal_tree.specs.InMemory.{statements_at, macro_at, procedure_at, process_at, main_at, algorithm_at};
ghost use Rattle.pcal_tree.specs.OffencesLabels.{misplaced};
ghost use Rattle.label_jumps.specs.Parted.{misplaced_in_main, misplaced_in};

use crate::jumps::of_statements;
use crate::labels::Labels;
use label_jumps::jumps::Body;
use pcal_tree::algorithm::{Algorithm, Macro, Main, Procedure, Process, Stmt};
use std::alloc::{AllocError, Global};
use tla_token::Refusal;

/// Puts what is misplaced in the body of a macro, of a procedure or of neither behind what was found.
///
/// # Errors
///
/// Only for want of memory.
pub fn of_body(
    alloc: Global,
    found: &mut Vec<Refusal>,
    in_macro: bool,
    in_procedure: bool,
    stmts: &[Stmt],
) -> Result<(), AllocError>
    ensures { OnOk result ((ts : List Tree) → found.new.items ≡ found.old.items ++ misplaced in_macro in_procedure (statements_at ts stmts.now)) }
{
    let mut labels = Labels::new(alloc);
    labels.body(stmts)?;
    let Labels { met, seconds } = labels;
    let body = Body {
        in_macro,
        in_procedure,
        labels: met,
    };
    of_statements(&body, found, false, stmts)?;
    found.extend_from_slice(&seconds)?;
    Ok(())
}

// The same of macros.
fn of_macros(alloc: Global, found: &mut Vec<Refusal>, list: &[Macro]) -> Result<(), AllocError>
    ensures { OnOk result ((ts : List Tree) → found.new.items ≡ found.old.items ++ flat_map (λ d. misplaced true false d.body) (prelude.map (macro_at ts) list.now)) }
{
    for one in list {
        of_body(alloc, found, true, false, &one.body)?;
    }
    Ok(())
}

// The same of procedures.
fn of_procedures(
    alloc: Global,
    found: &mut Vec<Refusal>,
    list: &[Procedure],
) -> Result<(), AllocError>
    ensures { OnOk result ((ts : List Tree) → found.new.items ≡ found.old.items ++ flat_map (λ p. misplaced false true p.body) (prelude.map (procedure_at ts) list.now)) }
{
    for one in list {
        of_body(alloc, found, false, true, &one.body)?;
    }
    Ok(())
}

// The same of processes.
fn of_processes(alloc: Global, found: &mut Vec<Refusal>, list: &[Process]) -> Result<(), AllocError>
    ensures { OnOk result ((ts : List Tree) → found.new.items ≡ found.old.items ++ flat_map (λ p. misplaced false false p.body) (prelude.map (process_at ts) list.now)) }
{
    for one in list {
        of_body(alloc, found, false, false, &one.body)?;
    }
    Ok(())
}

// The same of what runs.
fn of_main(alloc: Global, found: &mut Vec<Refusal>, main: &Main) -> Result<(), AllocError>
    ensures { OnOk result ((ts : List Tree) → found.new.items ≡ found.old.items ++ misplaced_in_main (main_at ts main.now)) }
{
    match main {
        Main::Alone(body) => of_body(alloc, found, false, false, body)?,
        Main::Processes(list) => of_processes(alloc, found, list)?,
    }
    Ok(())
}

/// All that is elsewhere than it may be in an algorithm: labels in macros and in `with`, jumps and calls in macros, `return` outside
/// procedures, `goto` to no label, and second labels of one statement or of one name; of macros first, then of procedures, then of what
/// runs, and of each body first all but second labels, then these, in the order of the text.
///
/// # Errors
///
/// Only for want of memory.
pub fn misplaced_offences(alloc: Global, algorithm: &Algorithm) -> Result<Vec<Refusal>, AllocError>
    ensures { IfOk result (λ r. (ts : List Tree) → r.items ≡ misplaced_in (algorithm_at ts algorithm.now)) }
{
    let mut found = Vec::new(alloc);
    of_macros(alloc, &mut found, &algorithm.macros)?;
    of_procedures(alloc, &mut found, &algorithm.procedures)?;
    of_main(alloc, &mut found, &algorithm.main)?;
    Ok(found)
}
