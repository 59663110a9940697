//! The lines of the labels of an algorithm.

ghost use Rattle.std.specs.Prelude.{◌≡◌, ◌+◌, ◌++◌, List, IfOk, OnOk};
ghost use Rattle.std.specs.Prelude as prelude;
ghost use Rattle.std.specs.List.{flat_map};
ghost use Rattle.tla_tree.specs.Tree.{Tree};
ghost use Rattle.pcal_tree.specs.Algorithm.{numbered, procedure_routine, process_routine};
ghost use Rattle.pcal_tree.specs.InMemory.{procedure_at, process_at, algorithm_at};
ghost use Rattle.source_map.specs.Lines.{lines_of_unit, lines};
ghost use Rattle.written_names.specs.Units.{naming_of};
ghost use Rattle.label_lines.specs.Found.{Adds, lines_seen};
ghost use Rattle.label_lines.specs.Mains.{main_lines};

use crate::line::Line;
use crate::walk::{Unit, statements};
use pcal_tree::algorithm::{Algorithm, Main, Procedure, Process};
use std::alloc::{AllocError, Global};
use tla_tree::{Name, PlacedName};
use written_names::naming::Naming;

// The sum of two numbers. One past the largest number is more routines than memory has.
fn sum(m: usize, n: usize) -> Result<usize, AllocError>
    ensures { IfOk result (λ s. s ≡ m + n) }
{
    m.checked_add(n).ok_or(AllocError)
}

// The procedure or process of a number.
fn unit_of(alloc: Global, naming: &Naming, number: usize) -> Result<Unit, AllocError>
    ensures { IfOk result (λ u. (u.number ≡ number) × (u.title ≡ (naming_of naming.now).title number)) }
{
    let title = Name::new(Vec::from_slice(alloc, naming.title(number))?);
    Ok(Unit { number, title })
}

// The lines of procedures, of which the first has this number.
fn of_procedures(
    alloc: Global,
    naming: &Naming,
    into: &mut Vec<Line>,
    first: usize,
    list: &[Procedure],
) -> Result<(), AllocError>
    ensures { OnOk result ((ts : List Tree) → Adds into.old.items into.new.items (flat_map (lines_of_unit (naming_of naming.now)) (numbered procedure_routine first (prelude.map (procedure_at ts) list.now)))) }
{
    let mut number = first;
    for procedure in list {
        let unit = unit_of(alloc, naming, number)?;
        statements(naming, &unit, into, &procedure.body)?;
        number = sum(number, 1)?;
    }
    Ok(())
}

// The same of processes.
fn of_processes(
    alloc: Global,
    naming: &Naming,
    into: &mut Vec<Line>,
    first: usize,
    list: &[Process],
) -> Result<(), AllocError>
    ensures { OnOk result ((ts : List Tree) → Adds into.old.items into.new.items (flat_map (lines_of_unit (naming_of naming.now)) (numbered process_routine first (prelude.map (process_at ts) list.now)))) }
{
    let mut number = first;
    for process in list {
        let unit = unit_of(alloc, naming, number)?;
        statements(naming, &unit, into, &process.body)?;
        number = sum(number, 1)?;
    }
    Ok(())
}

// The lines of what runs, which has this number, or whose first process has it; the one body has the algorithm's name.
fn of_main(
    alloc: Global,
    naming: &Naming,
    into: &mut Vec<Line>,
    number: usize,
    name: &PlacedName,
    main: &Main,
) -> Result<(), AllocError>
    ensures { OnOk result ((ts : List Tree) → Adds into.old.items into.new.items (main_lines (naming_of naming.now) number name.now.word ts main.now)) }
{
    match main {
        Main::Alone(body) => {
            let title = name.name.copied()?;
            statements(naming, &Unit { number, title }, into, body)
        }
        Main::Processes(list) => of_processes(alloc, naming, into, number, list),
    }
}

/// Where each label of an algorithm is, in the order of the text, by its written names. Macro calls are not written out.
///
/// # Errors
///
/// Only for want of memory.
pub fn map(alloc: Global, algorithm: &Algorithm, naming: &Naming) -> Result<Vec<Line>, AllocError>
    ensures { IfOk result (λ ls. (ts : List Tree) → lines_seen ls.items ≡ lines (algorithm_at ts algorithm.now) (naming_of naming.now)) }
{
    let mut found = Vec::new(alloc);
    let first = algorithm.macros.len();
    of_procedures(alloc, naming, &mut found, first, &algorithm.procedures)?;
    let number = sum(first, algorithm.procedures.len())?;
    of_main(
        alloc,
        naming,
        &mut found,
        number,
        &algorithm.name,
        &algorithm.main,
    )?;
    Ok(found)
}
