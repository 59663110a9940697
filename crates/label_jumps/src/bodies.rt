//! The first of what is misplaced in an algorithm.

ghost use Rattle.std.specs.Prelude.{◌≡◌, List, true, false, map, IfOk};
ghost use Rattle.std.specs.List.{flat_map};
ghost use Rattle.tla_tree.specs.Tree.{Tree};
ghost use Rattle.pcal_tree.specs.InMemory.{statements_at, macro_at, procedure_at, process_at, main_at, algorithm_at};
ghost use Rattle.pcal_tree.specs.Offences.{first};
ghost use Rattle.pcal_tree.specs.OffencesLabels.{misplaced};
ghost use Rattle.algorithm_answer.specs.Joined.{joined};
ghost use Rattle.label_jumps.specs.Parted.{misplaced_in_main, misplaced_in};

use crate::jumps::Body;
use crate::labels::Labels;
use algorithm_limits::order::least;
use pcal_tree::algorithm::{Algorithm, Macro, Main, Procedure, Process, Stmt};
use std::alloc::{AllocError, Global};
use tla_token::Refusal;

// The first of what was found and of what is misplaced in the body of a macro, of a procedure or of neither.
fn with_body(
    alloc: Global,
    found: Option<Refusal>,
    in_macro: bool,
    in_procedure: bool,
    stmts: &[Stmt],
) -> Result<Option<Refusal>, AllocError>
    ensures { IfOk result (λ r. (ts : List Tree) → r ≡ joined found (first (misplaced in_macro in_procedure (statements_at ts stmts.now)))) }
{
    let mut labels = Labels::new(alloc);
    labels.body(stmts)?;
    let Labels { met, first } = labels;
    let body = Body {
        in_macro,
        in_procedure,
        labels: met,
    };
    let jumps = body.body(found, false, stmts);
    Ok(least(jumps, first))
}

// The same of macros.
fn with_macros(
    alloc: Global,
    found: Option<Refusal>,
    list: &[Macro],
) -> Result<Option<Refusal>, AllocError>
    ensures { IfOk result (λ r. (ts : List Tree) → r ≡ joined found (first (flat_map (λ d. misplaced true false d.body) (map (macro_at ts) list.now)))) }
{
    let mut so_far = found;
    for one in list {
        so_far = with_body(alloc, so_far, true, false, &one.body)?;
    }
    Ok(so_far)
}

// The same of procedures.
fn with_procedures(
    alloc: Global,
    found: Option<Refusal>,
    list: &[Procedure],
) -> Result<Option<Refusal>, AllocError>
    ensures { IfOk result (λ r. (ts : List Tree) → r ≡ joined found (first (flat_map (λ p. misplaced false true p.body) (map (procedure_at ts) list.now)))) }
{
    let mut so_far = found;
    for one in list {
        so_far = with_body(alloc, so_far, false, true, &one.body)?;
    }
    Ok(so_far)
}

// The same of processes.
fn with_processes(
    alloc: Global,
    found: Option<Refusal>,
    list: &[Process],
) -> Result<Option<Refusal>, AllocError>
    ensures { IfOk result (λ r. (ts : List Tree) → r ≡ joined found (first (flat_map (λ p. misplaced false false p.body) (map (process_at ts) list.now)))) }
{
    let mut so_far = found;
    for one in list {
        so_far = with_body(alloc, so_far, false, false, &one.body)?;
    }
    Ok(so_far)
}

// The same of what runs.
fn with_main(
    alloc: Global,
    found: Option<Refusal>,
    main: &Main,
) -> Result<Option<Refusal>, AllocError>
    ensures { IfOk result (λ r. (ts : List Tree) → r ≡ joined found (first (misplaced_in_main (main_at ts main.now)))) }
{
    match main {
        Main::Alone(body) => with_body(alloc, found, false, false, body),
        Main::Processes(list) => with_processes(alloc, found, list),
    }
}

/// The first of what is elsewhere than it may be in an algorithm: a label in a macro or in a `with`, a jump or a call in a macro, a
/// `return` outside procedures, a `goto` to no label, and a second label of one statement or of one name.
///
/// # Errors
///
/// Only for want of memory.
pub fn misplaced_refusal(
    alloc: Global,
    algorithm: &Algorithm,
) -> Result<Option<Refusal>, AllocError>
    ensures { IfOk result (λ r. (ts : List Tree) → r ≡ first (misplaced_in (algorithm_at ts algorithm.now))) }
{
    let macros = with_macros(alloc, None, &algorithm.macros)?;
    let procedures = with_procedures(alloc, macros, &algorithm.procedures)?;
    with_main(alloc, procedures, &algorithm.main)
}
