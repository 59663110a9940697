//! What Spec demands of fair steps, in its order.

ghost use Rattle.std.specs.Prelude.{◌≡◌, ◌++◌, ◌<◌, ◌≤◌, ℕ, [], ◌∷◌, List, cond, map, filter, IfOk, OnOk};
ghost use Rattle.std.specs.List.{flat_map};
ghost use Rattle.tla_tree.specs.Tree.{Tree};
ghost use Rattle.tla_tree.specs.Nesting.{greatest};
ghost use Rattle.pcal_tree.specs.Algorithm as pure;
ghost use Rattle.pcal_tree.specs.InMemory.{statements_at, procedure_at, process_at, algorithm_at, past_process, past_main, past_algorithm, main_at};
ghost use Rattle.written_names.specs.Units.{naming_of};
ghost use Rattle.fairness.specs.ReachedProcedures.{reached as reached_by};
ghost use Rattle.fairness.specs.Demands.{demands as demands_of_algorithm};
ghost use Rattle.fairness_lines.specs.Tables.{IsTable, marked_word};
ghost use Rattle.marked_labels.specs.Wanted.{labels_of};
ghost use Rattle.marked_labels.specs.declared.labels.Wanted.TheVariants.{Strong};
ghost use Rattle.fairness_lines.specs.Asked.{of_all, of_label, asked, asked_of, asked_in, asked_of_process, asked_of_processes, asked_of_main, strength_of};
ghost use Rattle.fairness_lines.specs.DemandsAt.{takers_at, all_asked, AllDemandsIn};

use crate::numbers::sum;
use crate::table::{Table, is_marked, reached, table_of};
use draft::Draft;
use marked_labels::labels::{Wanted, statements};
use name_bits::Order;
use pcal_tree::algorithm::{Main, Procedure, Process, Stmt};
use pcal_tree::mark::Fairness;
use std::alloc::{AllocError, Global};
use tla_tree::{Name, NameList, NodeId};

/// A process that fairness is asked of.
#[derive(Clone, Copy)]
pub struct Owner {
    /// Its number among the routines.
    pub number: usize,
    /// One for each member of a set, and not a single one.
    pub several: bool,
    /// The set, or the one identifier.
    pub identity: NodeId,
    /// Whether its fairness is strong.
    pub strong: bool,
}

/// A demand.
#[derive(Drop)]
pub enum Demand<'a> {
    /// Of all processes together.
    All,
    /// Of a process's steps from the labels that aren't left out of the routine with this number and body.
    Routine(Owner, usize, &'a [Stmt]),
    /// Of a process's steps from one label, by its written name, of the routine with this number.
    Label(Owner, usize, Name),
}

// Names, and which of their numbers are marked.
#[derive(Clone, Copy)]
struct Marks<'a> {
    names: &'a Order,
    marks: &'a [bool],
}

// Those of single labels.
fn add_labels(
    into: &mut Vec<Demand<'_>>,
    owner: Owner,
    unit: usize,
    names: &[Name],
) -> Result<(), AllocError>
    ensures asked { OnOk result ((ts : List Tree) → all_asked ts into.new.items ≡ all_asked ts into.old.items ++ map (of_label (takers_at ts owner) owner.number unit) names.now) }
    ensures within { OnOk result ((m : ℕ) → AllDemandsIn m into.old.items → owner.identity < m → AllDemandsIn m into.new.items) }
{
    for name in names {
        into.push(Demand::Label(owner, unit, name.copied()?))?;
    }
    Ok(())
}

// Those of labels with strong fairness of their own; in a strongly fair process they ask for nothing more.
fn add_strong_labels(
    alloc: Global,
    draft: &Draft<'_>,
    into: &mut Vec<Demand<'_>>,
    owner: Owner,
    unit: usize,
    body: &[Stmt],
) -> Result<(), AllocError>
    ensures asked { OnOk result ((ts : List Tree) → all_asked ts into.new.items ≡ all_asked ts into.old.items ++ cond owner.strong [] (map (of_label (takers_at ts owner) owner.number unit) (labels_of (naming_of draft.now.naming.now) unit Strong (statements_at ts body.now)))) }
    ensures within { OnOk result ((m : ℕ) → AllDemandsIn m into.old.items → owner.identity < m → AllDemandsIn m into.new.items) }
{
    if owner.strong {
        return Ok(());
    }
    let mut names = NameList::new(alloc);
    statements(draft, unit, Wanted::Strong, &mut names, body)?;
    add_labels(into, owner, unit, names.as_slice())
}

// Those of the steps of a routine.
fn add_routine<'a>(
    alloc: Global,
    draft: &Draft<'_>,
    into: &mut Vec<Demand<'a>>,
    owner: Owner,
    unit: usize,
    body: &'a [Stmt],
) -> Result<(), AllocError>
    ensures asked { OnOk result ((ts : List Tree) → all_asked ts into.new.items ≡ all_asked ts into.old.items ++ asked_of (naming_of draft.now.naming.now) (takers_at ts owner) owner.number owner.strong unit (statements_at ts body.now)) }
    ensures within { OnOk result ((m : ℕ) → AllDemandsIn m into.old.items → owner.identity < m → AllDemandsIn m into.new.items) }
{
    into.push(Demand::Routine(owner, unit, body))?;
    add_strong_labels(alloc, draft, into, owner, unit, body)
}

// Those of the steps of a procedure, if it is reached.
fn add_if_reached<'a>(
    alloc: Global,
    draft: &Draft<'_>,
    into: &mut Vec<Demand<'a>>,
    owner: Owner,
    unit: usize,
    procedure: &'a Procedure,
    reached: bool,
) -> Result<(), AllocError>
    ensures asked { OnOk result ((ts : List Tree) → all_asked ts into.new.items ≡ all_asked ts into.old.items ++ cond reached (asked_of (naming_of draft.now.naming.now) (takers_at ts owner) owner.number owner.strong unit (statements_at ts procedure.now.body.items)) []) }
    ensures within { OnOk result ((m : ℕ) → AllDemandsIn m into.old.items → owner.identity < m → AllDemandsIn m into.new.items) }
{
    if !reached {
        return Ok(());
    }
    add_routine(alloc, draft, into, owner, unit, &procedure.body)
}

// Those of the steps of the procedures whose names are marked, where the first has this number.
fn add_procedures<'a>(
    alloc: Global,
    draft: &Draft<'_>,
    into: &mut Vec<Demand<'a>>,
    owner: Owner,
    marks: &Marks<'_>,
    first: usize,
    procedures: &'a [Procedure],
) -> Result<(), AllocError>
    ensures asked { OnOk result ((ts : List Tree) → all_asked ts into.new.items ≡ all_asked ts into.old.items ++ flat_map (asked_in (naming_of draft.now.naming.now) (takers_at ts owner) owner.number owner.strong) (filter (λ u. marked_word marks.now.names.now marks.now.marks.now u.name.word) (pure.numbered pure.procedure_routine first (map (procedure_at ts) procedures.now)))) }
    ensures within { OnOk result ((m : ℕ) → AllDemandsIn m into.old.items → owner.identity < m → AllDemandsIn m into.new.items) }
{
    let mut unit = first;
    for procedure in procedures {
        let reached = is_marked(marks.names, marks.marks, &procedure.name.name);
        add_if_reached(alloc, draft, into, owner, unit, procedure, reached)?;
        unit = sum(unit, 1)?;
    }
    Ok(())
}

// Those of a process with this body that is fair.
fn add_fair<'a>(
    alloc: Global,
    draft: &Draft<'a>,
    table: &Table,
    into: &mut Vec<Demand<'a>>,
    owner: Owner,
    body: &'a [Stmt],
) -> Result<(), AllocError>
    ensures asked { OnOk result ((ts : List Tree) (u : pure.Routine) → IsTable (map (procedure_at ts) draft.now.algorithm.now.procedures.items) table.now.names (map (λ row. row.items) table.now.rows.items) → u.number ≡ owner.number → u.body ≡ statements_at ts body.now → all_asked ts into.new.items ≡ all_asked ts into.old.items ++ flat_map (asked_in (naming_of draft.now.naming.now) (takers_at ts owner) owner.number owner.strong) (u ∷ reached_by (algorithm_at ts draft.now.algorithm.now) u)) }
    ensures within { OnOk result ((m : ℕ) → AllDemandsIn m into.old.items → owner.identity < m → AllDemandsIn m into.new.items) }
{
    add_routine(alloc, draft, into, owner, owner.number, body)?;
    let marks = reached(alloc, table, body)?;
    let algorithm = draft.algorithm;
    let first = algorithm.macros.len();
    let marks = Marks {
        names: &table.names,
        marks: &marks,
    };
    add_procedures(
        alloc,
        draft,
        into,
        owner,
        &marks,
        first,
        &algorithm.procedures,
    )
}

// Whether a process has fairness, and whether it is strong.
fn strength(fairness: Fairness) -> Option<bool>
    ensures { result ≡ strength_of fairness }
{
    match fairness {
        Fairness::Unfair => None,
        Fairness::Weak => Some(false),
        Fairness::Strong => Some(true),
    }
}

// Those of a process.
fn add_process<'a>(
    alloc: Global,
    draft: &Draft<'a>,
    table: &Table,
    into: &mut Vec<Demand<'a>>,
    number: usize,
    process: &'a Process,
) -> Result<(), AllocError>
    ensures asked { OnOk result ((ts : List Tree) → IsTable (map (procedure_at ts) draft.now.algorithm.now.procedures.items) table.now.names (map (λ row. row.items) table.now.rows.items) → all_asked ts into.new.items ≡ all_asked ts into.old.items ++ asked_of_process (naming_of draft.now.naming.now) (algorithm_at ts draft.now.algorithm.now) number (process_at ts process.now)) }
    ensures within { OnOk result ((m : ℕ) → AllDemandsIn m into.old.items → process.now.identity < m → AllDemandsIn m into.new.items) }
{
    match strength(process.fairness) {
        None => Ok(()),
        Some(strong) => {
            let owner = Owner {
                number,
                several: process.several,
                identity: process.identity,
                strong,
            };
            add_fair(alloc, draft, table, into, owner, &process.body)
        }
    }
}

// Those of processes, of which the first has this number.
fn add_processes<'a>(
    alloc: Global,
    draft: &Draft<'a>,
    table: &Table,
    into: &mut Vec<Demand<'a>>,
    first: usize,
    list: &'a [Process],
) -> Result<(), AllocError>
    ensures asked { OnOk result ((ts : List Tree) → IsTable (map (procedure_at ts) draft.now.algorithm.now.procedures.items) table.now.names (map (λ row. row.items) table.now.rows.items) → all_asked ts into.new.items ≡ all_asked ts into.old.items ++ asked_of_processes (naming_of draft.now.naming.now) (algorithm_at ts draft.now.algorithm.now) first (map (process_at ts) list.now)) }
    ensures within { OnOk result ((m : ℕ) → AllDemandsIn m into.old.items → greatest (map past_process list.now) ≤ m → AllDemandsIn m into.new.items) }
{
    let mut number = first;
    for process in list {
        add_process(alloc, draft, table, into, number, process)?;
        number = sum(number, 1)?;
    }
    Ok(())
}

// That of all processes together, which `--fair` asks for.
fn add_all(into: &mut Vec<Demand<'_>>, fair: bool) -> Result<(), AllocError>
    ensures asked { OnOk result ((ts : List Tree) → all_asked ts into.new.items ≡ all_asked ts into.old.items ++ cond fair (of_all ∷ []) []) }
    ensures within { OnOk result ((m : ℕ) → AllDemandsIn m into.old.items → AllDemandsIn m into.new.items) }
{
    if !fair {
        return Ok(());
    }
    into.push(Demand::All)?;
    Ok(())
}

// Those of processes; marks have no effect in a uniprocess algorithm.
fn add_main<'a>(
    alloc: Global,
    draft: &Draft<'a>,
    into: &mut Vec<Demand<'a>>,
    main: &'a Main,
) -> Result<(), AllocError>
    ensures asked { OnOk result ((ts : List Tree) → all_asked ts into.new.items ≡ all_asked ts into.old.items ++ asked_of_main (naming_of draft.now.naming.now) (algorithm_at ts draft.now.algorithm.now) (main_at ts main.now)) }
    ensures within { OnOk result ((m : ℕ) → AllDemandsIn m into.old.items → past_main main.now ≤ m → AllDemandsIn m into.new.items) }
{
    match main {
        Main::Alone(_) => Ok(()),
        Main::Processes(list) => {
            let algorithm = draft.algorithm;
            let table = table_of(alloc, &algorithm.procedures)?;
            let first = sum(algorithm.macros.len(), algorithm.procedures.len())?;
            add_processes(alloc, draft, &table, into, first, list)
        }
    }
}

/// Adds all demands of an algorithm, in their order.
///
/// # Errors
///
/// Only for want of memory.
pub fn add_demands<'a>(
    alloc: Global,
    draft: &Draft<'a>,
    into: &mut Vec<Demand<'a>>,
) -> Result<(), AllocError>
    ensures asked { OnOk result ((ts : List Tree) → all_asked ts into.new.items ≡ all_asked ts into.old.items ++ map (asked (naming_of draft.now.naming.now)) (demands_of_algorithm (algorithm_at ts draft.now.algorithm.now))) }
    ensures within { OnOk result ((m : ℕ) → AllDemandsIn m into.old.items → past_algorithm draft.now.algorithm.now ≤ m → AllDemandsIn m into.new.items) }
{
    let algorithm = draft.algorithm;
    add_all(into, algorithm.fair)?;
    add_main(alloc, draft, into, &algorithm.main)
}
