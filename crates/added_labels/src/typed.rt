//! The labels that the user typed.

ghost use Rattle.std.specs.Prelude.{◌≡◌, List, false, map, IfOk, OnOk};
ghost use Rattle.std.specs.List.{flat_map};
ghost use Rattle.tla_tree.specs.Tree.{Tree};
ghost use Rattle.pcal_tree.specs.InMemory.{macro_at, procedure_at, process_at, main_at, algorithm_at};
ghost use Rattle.pcal_tree.specs.Labelled.{typed_labels};
ghost use Rattle.pcal_tree.specs.OffencesLabels.{labels, labels_of_main};
ghost use Rattle.label_jumps.specs.Meeting.{Meets, AreMet};

use algorithm_limits::table::Table;
use label_jumps::labels::Labels;
use pcal_tree::algorithm::{Algorithm, Macro, Main, Procedure, Process};
use std::alloc::{AllocError, Global};

// Those in macros.
fn in_macros(met: &mut Labels, list: &[Macro]) -> Result<(), AllocError>
    ensures { OnOk result ((ts : List Tree) → Meets met.old met.new (flat_map (λ d. labels false d.body) (map (macro_at ts) list.now))) }
{
    for i in 0..list.len() {
        let one = &list[i];
        met.body(&one.body)?;
    }
    Ok(())
}

// Those in procedures.
fn in_procedures(met: &mut Labels, list: &[Procedure]) -> Result<(), AllocError>
    ensures { OnOk result ((ts : List Tree) → Meets met.old met.new (flat_map (λ p. labels false p.body) (map (procedure_at ts) list.now))) }
{
    for i in 0..list.len() {
        let one = &list[i];
        met.body(&one.body)?;
    }
    Ok(())
}

// Those in processes.
fn in_processes(met: &mut Labels, list: &[Process]) -> Result<(), AllocError>
    ensures { OnOk result ((ts : List Tree) → Meets met.old met.new (flat_map (λ p. labels false p.body) (map (process_at ts) list.now))) }
{
    for i in 0..list.len() {
        let one = &list[i];
        met.body(&one.body)?;
    }
    Ok(())
}

// Those of what runs.
fn in_main(met: &mut Labels, main: &Main) -> Result<(), AllocError>
    ensures { OnOk result ((ts : List Tree) → Meets met.old met.new (labels_of_main (main_at ts main.now))) }
{
    match main {
        Main::Alone(body) => met.body(body),
        Main::Processes(list) => in_processes(met, list),
    }
}

/// The names of an algorithm's labels; each has the number 1.
///
/// # Errors
///
/// Only for want of memory.
pub fn typed_names(alloc: Global, algorithm: &Algorithm) -> Result<Table, AllocError>
    ensures { IfOk result (λ r. (ts : List Tree) → AreMet r (typed_labels (algorithm_at ts algorithm.now))) }
{
    let mut labels = Labels::new(alloc);
    in_macros(&mut labels, &algorithm.macros)?;
    in_procedures(&mut labels, &algorithm.procedures)?;
    in_main(&mut labels, &algorithm.main)?;
    let Labels { met, .. } = labels;
    Ok(met)
}
