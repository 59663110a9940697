//! The obligations of Spec: which steps have weak or strong fairness.

ghost use Rattle.std.specs.Prelude.{◌≡◌, ◌++◌, ◌∷◌, [], true, Some, List, map, IfOk, OnOk};
ghost use Rattle.tla_tree.specs.Tree.{Word, Tree};
ghost use Rattle.pcal_tree.specs.Algorithm as pure;
ghost use Rattle.pcal_tree.specs.InMemory.{statements_at, procedure_at, process_at, main_at, algorithm_at};
ghost use Rattle.pcal_tree.specs.Program.{Program};
ghost use Rattle.written_names.specs.Units.{naming_of};
ghost use Rattle.fairness.specs.Obligations.{obligations as obligations_of_program};
ghost use Rattle.draft.specs.Drafts.{IsDraft};
ghost use Rattle.fairness_lines.specs.Asked.{of_all, of_routine, of_label};
ghost use Rattle.fairness_lines.specs.DemandsAt.{takers_at, asked_at, all_asked};
ghost use Rattle.fairness_lines.specs.LinesOf.{obligation_for, every_in, obligation_seen};

use crate::demands::{Demand, Owner, add_demands};
use crate::numbers::sum;
use draft::Draft;
use marked_labels::labels::{Wanted, statements};
use pcal_tree::algorithm::{Main, Procedure, Process, Stmt};
use std::alloc::{AllocError, Global};
use tla_tree::{Name, NameList};

/// What has fairness ("A PlusCal User's Manual", sections 2.6 and 3.7).
#[derive(Drop)]
pub struct Obligation {
    /// Whether it is strong.
    pub strong: bool,
    /// The number of its process among the routines, taken for each identifier by itself; none: all processes together.
    pub process: Option<usize>,
    /// The written names of labels: steps from these.
    pub labels: NameList,
}

// ---- all labels

// Those of procedures, of which the first has this number.
fn add_procedures(
    draft: &Draft<'_>,
    into: &mut NameList,
    first: usize,
    list: &[Procedure],
) -> Result<(), AllocError>
    ensures { OnOk result ((ts : List Tree) → into.new ≡ into.old ++ every_in (naming_of draft.now.naming.now) (pure.numbered pure.procedure_routine first (map (procedure_at ts) list.now))) }
{
    let mut unit = first;
    for procedure in list {
        statements(draft, unit, Wanted::All, into, &procedure.body)?;
        unit = sum(unit, 1)?;
    }
    Ok(())
}

// Those of processes, of which the first has this number.
fn add_processes(
    draft: &Draft<'_>,
    into: &mut NameList,
    first: usize,
    list: &[Process],
) -> Result<(), AllocError>
    ensures { OnOk result ((ts : List Tree) → into.new ≡ into.old ++ every_in (naming_of draft.now.naming.now) (pure.numbered pure.process_routine first (map (process_at ts) list.now))) }
{
    let mut unit = first;
    for process in list {
        statements(draft, unit, Wanted::All, into, &process.body)?;
        unit = sum(unit, 1)?;
    }
    Ok(())
}

// Those of what runs, which has this number, or whose first process has it.
fn add_main(
    draft: &Draft<'_>,
    into: &mut NameList,
    number: usize,
    main: &Main,
) -> Result<(), AllocError>
    ensures { OnOk result ((ts : List Tree) (a : pure.Algorithm) → pure.first_process a ≡ number → into.new ≡ into.old ++ every_in (naming_of draft.now.naming.now) (pure.main_routines a (main_at ts main.now))) }
{
    match main {
        Main::Alone(body) => statements(draft, number, Wanted::All, into, body),
        Main::Processes(list) => add_processes(draft, into, number, list),
    }
}

// Those of an algorithm.
fn add_every(draft: &Draft<'_>, into: &mut NameList) -> Result<(), AllocError>
    ensures { OnOk result ((ts : List Tree) → into.new ≡ into.old ++ every_in (naming_of draft.now.naming.now) (pure.routines (algorithm_at ts draft.now.algorithm.now))) }
{
    let algorithm = draft.algorithm;
    let first = algorithm.macros.len();
    let number = sum(first, algorithm.procedures.len())?;
    add_procedures(draft, into, first, &algorithm.procedures)?;
    add_main(draft, into, number, &algorithm.main)
}

// ---- each demand

// What is asked of all processes together.
fn of_all_steps(alloc: Global, draft: &Draft<'_>) -> Result<Obligation, AllocError>
    ensures { IfOk result (λ r. (ts : List Tree) → obligation_seen r ≡ obligation_for (naming_of draft.now.naming.now) (every_in (naming_of draft.now.naming.now) (pure.routines (algorithm_at ts draft.now.algorithm.now))) of_all) }
{
    let mut labels = NameList::new(alloc);
    add_every(draft, &mut labels)?;
    Ok(Obligation {
        strong: false,
        process: None,
        labels,
    })
}

// What is asked of the steps of a routine.
fn of_routine_steps(
    alloc: Global,
    draft: &Draft<'_>,
    owner: Owner,
    unit: usize,
    body: &[Stmt],
) -> Result<Obligation, AllocError>
    ensures { IfOk result (λ r. (ts : List Tree) (every : List Word) → obligation_seen r ≡ obligation_for (naming_of draft.now.naming.now) every (of_routine (takers_at ts owner) owner.number owner.strong unit (statements_at ts body.now))) }
{
    let mut labels = NameList::new(alloc);
    statements(draft, unit, Wanted::Kept, &mut labels, body)?;
    Ok(Obligation {
        strong: owner.strong,
        process: Some(owner.number),
        labels,
    })
}

// What is asked of the steps from one label.
fn of_label_steps(alloc: Global, owner: Owner, label: &Name) -> Result<Obligation, AllocError>
    ensures { IfOk result (λ r. obligation_seen r ≡ record { strong = true; process = Some owner.number; labels = label.now ∷ [] }) }
{
    let mut labels = NameList::new(alloc);
    labels.push(label.copied()?)?;
    Ok(Obligation {
        strong: true,
        process: Some(owner.number),
        labels,
    })
}

// The obligation of a demand.
fn of_demand(
    alloc: Global,
    draft: &Draft<'_>,
    demand: &Demand<'_>,
) -> Result<Obligation, AllocError>
    ensures { IfOk result (λ r. (ts : List Tree) → obligation_seen r ≡ obligation_for (naming_of draft.now.naming.now) (every_in (naming_of draft.now.naming.now) (pure.routines (algorithm_at ts draft.now.algorithm.now))) (asked_at ts demand.now)) }
{
    match demand {
        Demand::All => of_all_steps(alloc, draft),
        Demand::Routine(owner, unit, body) => {
            of_routine_steps(alloc, draft, *owner, *unit, body)
        }
        Demand::Label(owner, _, label) => of_label_steps(alloc, *owner, label),
    }
}

// Those of demands, in their order.
fn each(
    alloc: Global,
    draft: &Draft<'_>,
    demands: &[Demand<'_>],
) -> Result<Vec<Obligation>, AllocError>
    ensures { IfOk result (λ r. (ts : List Tree) → map obligation_seen r.items ≡ map (obligation_for (naming_of draft.now.naming.now) (every_in (naming_of draft.now.naming.now) (pure.routines (algorithm_at ts draft.now.algorithm.now)))) (all_asked ts demands.now)) }
{
    let mut made = Vec::new(alloc);
    for demand in demands {
        made.push(of_demand(alloc, draft, demand)?)?;
    }
    Ok(made)
}

/// The obligations of Spec, in its order: one for each formula of fairness.
///
/// # Errors
///
/// Only for want of memory.
pub fn obligations(alloc: Global, draft: &Draft<'_>) -> Result<Vec<Obligation>, AllocError>
    ensures { IfOk result (λ r. (ts : List Tree) (P : Program) → IsDraft ts draft.now P → map obligation_seen r.items ≡ obligations_of_program P) }
{
    let mut demands = Vec::new(alloc);
    add_demands(alloc, draft, &mut demands)?;
    each(alloc, draft, &demands)
}
