//! The written names of an algorithm: its routines get theirs one after another, in the order of the text.

ghost use Rattle.std.specs.Prelude.{◌≡◌, List, map, replicate, IfOk, OnOk};
ghost use Rattle.tla_tree.specs.Tree.{Tree, Word};
ghost use Rattle.pcal_tree.specs.InMemory.{procedure_at, process_at, main_at, algorithm_at};
ghost use Rattle.pcal_tree.specs.Names.{give as give_of, wanted, naming_by};
ghost use Rattle.written_names.specs.Giving.{SameNames, Knows};
ghost use Rattle.written_names.specs.Units.{no_names, naming_of, asked, asked_procedure, asked_process, asked_main, AddsUnits};

use crate::giver::Giver;
use crate::naming::{Naming, Renamed, UnitNames};
use crate::units::{alone_names, procedure_names, process_names};
use algorithm_limits::bound::Bound;
use pcal_tree::algorithm::{Algorithm, Main, Procedure, Process};
use std::alloc::{AllocError, Global};
use tla_tree::Name;

// So many units without names: macros have none.
fn nameless(alloc: Global, count: usize) -> Result<Vec<UnitNames>, AllocError>
    ensures { IfOk result (λ us. us.items ≡ replicate count no_names) }
{
    let mut units = Vec::new(alloc);
    for _i in 0..count {
        units.push(UnitNames {
            title: Name::new(Vec::new(alloc)),
            variables: Renamed::new(alloc),
            labels: Renamed::new(alloc),
        })?;
    }
    Ok(units)
}

// Adds the names of procedures.
fn add_procedures(
    alloc: Global,
    giver: &mut Giver,
    units: &mut Vec<UnitNames>,
    procedures: &[Procedure],
) -> Result<(), AllocError>
    ensures { OnOk result ((ts : List Tree) → AddsUnits giver.old giver.new units.old.items units.new.items (map asked_procedure (map (procedure_at ts) procedures.now))) }
{
    for procedure in procedures {
        let names = procedure_names(alloc, giver, procedure)?;
        units.push(names)?;
    }
    Ok(())
}

// Adds the names of processes.
fn add_processes(
    alloc: Global,
    giver: &mut Giver,
    units: &mut Vec<UnitNames>,
    processes: &[Process],
) -> Result<(), AllocError>
    ensures { OnOk result ((ts : List Tree) → AddsUnits giver.old giver.new units.old.items units.new.items (map asked_process (map (process_at ts) processes.now))) }
{
    for process in processes {
        let names = process_names(alloc, giver, process)?;
        units.push(names)?;
    }
    Ok(())
}

// Adds the names of what runs.
fn add_main(
    alloc: Global,
    giver: &mut Giver,
    units: &mut Vec<UnitNames>,
    main: &Main,
) -> Result<(), AllocError>
    ensures { OnOk result ((ts : List Tree) → AddsUnits giver.old giver.new units.old.items units.new.items (asked_main (main_at ts main.now))) }
{
    match main {
        Main::Alone(body) => {
            let names = alone_names(alloc, giver, body)?;
            units.push(names)?;
        }
        Main::Processes(processes) => add_processes(alloc, giver, units, processes)?,
    }
    Ok(())
}

// Adds the names of an algorithm's routines.
fn add_units(
    alloc: Global,
    giver: &mut Giver,
    units: &mut Vec<UnitNames>,
    algorithm: &Algorithm,
) -> Result<(), AllocError>
    ensures { OnOk result ((ts : List Tree) → AddsUnits giver.old giver.new units.old.items units.new.items (asked (algorithm_at ts algorithm.now))) }
{
    add_procedures(alloc, giver, units, &algorithm.procedures)?;
    add_main(alloc, giver, units, &algorithm.main)
}

// The written names of an algorithm, by what is known of names.
fn named_by(alloc: Global, giver: &mut Giver, algorithm: &Algorithm) -> Result<Naming, AllocError>
    ensures { IfOk result (λ r. (ts : List Tree) (extended taken : List Word) → Knows giver.old extended taken → naming_of r ≡ naming_by (give_of extended taken (wanted (algorithm_at ts algorithm.now)))) }
{
    let mut units = nameless(alloc, algorithm.macros.len())?;
    add_units(alloc, giver, &mut units, algorithm)?;
    Ok(Naming::new(units))
}

/// The written names of an algorithm in a module that extends these, where these names are taken.
///
/// # Errors
///
/// Only for want of memory.
pub fn name_units(
    alloc: Global,
    algorithm: &Algorithm,
    extended: &[Name],
    names: Bound,
) -> Result<Naming, AllocError>
    ensures { IfOk result (λ r. (ts : List Tree) (taken : List Word) → SameNames names taken → naming_of r ≡ naming_by (give_of extended.now taken (wanted (algorithm_at ts algorithm.now)))) }
{
    let mut giver = Giver::new(alloc, extended, names);
    named_by(alloc, &mut giver, algorithm)
}
