//! All actions of a translation.

ghost use Rattle.std.specs.Prelude.{◌≡◌, ◌≤◌, ◌++◌, List, length, IfOk, OnOk};
ghost use Rattle.std.specs.Prelude as prelude;
ghost use Rattle.std.specs.List.{flat_map};
ghost use Rattle.tla_tree.specs.Tree.{Tree, Word};
ghost use Rattle.tla_tree.specs.Nesting.{greatest};
ghost use Rattle.tla_tree.specs.Pool.{Keeps};
ghost use Rattle.pcal_tree.specs.Algorithm.{numbered, procedure_routine, process_routine, routines, first_process as first_process_of, Routine};
ghost use Rattle.pcal_tree.specs.InMemory.{procedure_at, process_at, main_at, past_procedure, past_process, past_main, past_algorithm};
ghost use Rattle.pcal_tree.specs.Processes.{OneOf};
ghost use Rattle.pcal_tree.specs.Program.{Program};
ghost use Rattle.pcal_tree.specs.Takers.{taken_process};
ghost use Rattle.module_write.specs.InMemory.{actions_at, ActionsIn};
ghost use Rattle.name_bits.specs.NamesIn.{AllApart};
ghost use Rattle.draft.specs.Drafts.{IsDraft};
ghost use Rattle.step_forms.specs.Steps.{routine_steps, main_steps, actions_by_steps};
ghost use Rattle.module_formulas.specs.TakersIn.{taker_at, TakerIn, taken_procedure};
ghost use Rattle.label_actions.specs.Fitting.{IsActable};
ghost use Rattle.label_actions.specs.Units.{IsBasis, BasisIn, titles_of};

use crate::unit::{Basis, Unit, add_routine, add_steps};
use draft::Draft;
use module_formulas::names::name_of;
use module_formulas::numbers::{after, first_procedure, first_process};
use module_formulas::takers::{Taker, procedure_taker, taker_of};
use module_write::module::Action;
use name_bits::Order;
use pcal_tree::algorithm::{Main, Procedure, Process};
use std::alloc::{AllocError, Global};
use tla_pool::Pool;
use tla_tree::{Name, NameList};

// The names of procedures.
fn procedure_names(alloc: Global, list: &[Procedure]) -> Result<NameList, AllocError>
    ensures { IfOk result (λ r. r ≡ titles_of list.now) }
{
    let mut names = NameList::new(alloc);
    for one in list {
        names.push(one.name.name.copied()?)?;
    }
    Ok(names)
}

// The same as an order.
fn procedure_order(alloc: Global, list: &[Procedure]) -> Result<Order, AllocError>
    ensures { IfOk result (λ r. AllApart (titles_of list.now) → r ≡ titles_of list.now) }
{
    let names = procedure_names(alloc, list)?;
    Order::new(alloc, names.as_slice())
}

// Adds the actions of procedures, of which the first has this number.
fn add_procedures(
    alloc: Global,
    pool: &mut Pool,
    basis: &Basis<'_>,
    taker: Taker,
    first: usize,
    list: &[Procedure],
    out: &mut Vec<Action>,
) -> Result<(), AllocError>
    requires basis { BasisIn (length pool.old) basis.now }
    requires taker { TakerIn (length pool.old) taker }
    requires there { greatest (prelude.map past_procedure list.now) ≤ length pool.old }
    requires before { ActionsIn (length pool.old) out.old.items }
    ensures made { OnOk result ((P : Program) → IsActable P → IsBasis pool.old basis.now P → ((u : Routine) → OneOf u (numbered procedure_routine first (prelude.map (procedure_at pool.old) list.now)) → OneOf u (routines P.algorithm)) → actions_at pool.new out.new.items ≡ actions_at pool.old out.old.items ++ flat_map (routine_steps P) (numbered (taken_procedure (taker_at pool.old taker)) first (prelude.map (procedure_at pool.old) list.now))) }
    ensures within { OnOk result (ActionsIn (length pool.new) out.new.items) }
    ensures kept { Keeps pool.old pool.new }
{
    let mut number = first;
    for one in list {
        let unit = Unit {
            number,
            taker,
            params: &one.params,
            variables: &one.variables,
            body: &one.body,
            exit: b"Error",
        };
        add_routine(alloc, pool, basis, &unit, out)?;
        number = after(number)?;
    }
    Ok(())
}

// Adds those of processes, of which the first has this number.
fn add_processes(
    alloc: Global,
    pool: &mut Pool,
    basis: &Basis<'_>,
    first: usize,
    list: &[Process],
    out: &mut Vec<Action>,
) -> Result<(), AllocError>
    requires basis { BasisIn (length pool.old) basis.now }
    requires there { greatest (prelude.map past_process list.now) ≤ length pool.old }
    requires before { ActionsIn (length pool.old) out.old.items }
    ensures made { OnOk result ((P : Program) → IsActable P → IsBasis pool.old basis.now P → ((u : Routine) → OneOf u (numbered process_routine first (prelude.map (process_at pool.old) list.now)) → OneOf u (routines P.algorithm)) → actions_at pool.new out.new.items ≡ actions_at pool.old out.old.items ++ flat_map (routine_steps P) (numbered taken_process first (prelude.map (process_at pool.old) list.now))) }
    ensures within { OnOk result (ActionsIn (length pool.new) out.new.items) }
    ensures kept { Keeps pool.old pool.new }
{
    let mut number = first;
    for one in list {
        let unit = Unit {
            number,
            taker: taker_of(one),
            params: &[],
            variables: &one.variables,
            body: &one.body,
            exit: b"Done",
        };
        add_routine(alloc, pool, basis, &unit, out)?;
        number = after(number)?;
    }
    Ok(())
}

// Adds those of what runs, of which the first has this number; the one body has no own action.
fn add_main(
    alloc: Global,
    pool: &mut Pool,
    basis: &Basis<'_>,
    number: usize,
    main: &Main,
    out: &mut Vec<Action>,
) -> Result<(), AllocError>
    requires basis { BasisIn (length pool.old) basis.now }
    requires there { past_main main.now ≤ length pool.old }
    requires before { ActionsIn (length pool.old) out.old.items }
    ensures made { OnOk result ((P : Program) → IsActable P → IsBasis pool.old basis.now P → main_at pool.old main.now ≡ P.algorithm.main → number ≡ first_process_of P.algorithm → actions_at pool.new out.new.items ≡ actions_at pool.old out.old.items ++ main_steps P P.algorithm.main) }
    ensures within { OnOk result (ActionsIn (length pool.new) out.new.items) }
    ensures kept { Keeps pool.old pool.new }
{
    match main {
        Main::Alone(body) => {
            let unit = Unit {
                number,
                taker: Taker::Lone,
                params: &[],
                variables: &[],
                body,
                exit: b"Done",
            };
            add_steps(alloc, pool, basis, &unit, out)
        }
        Main::Processes(list) => add_processes(alloc, pool, basis, number, list, out),
    }
}

// Adds all.
fn add_all(
    alloc: Global,
    pool: &mut Pool,
    basis: &Basis<'_>,
    out: &mut Vec<Action>,
) -> Result<(), AllocError>
    requires basis { BasisIn (length pool.old) basis.now }
    requires before { ActionsIn (length pool.old) out.old.items }
    ensures made { OnOk result ((P : Program) → IsActable P → IsBasis pool.old basis.now P → actions_at pool.new out.new.items ≡ actions_at pool.old out.old.items ++ actions_by_steps P) }
    ensures within { OnOk result (ActionsIn (length pool.new) out.new.items) }
    ensures kept { Keeps pool.old pool.new }
{
    let algorithm = basis.draft.algorithm;
    let taker = procedure_taker(alloc, pool, &algorithm.main)?;
    let first = first_procedure(algorithm);
    add_procedures(alloc, pool, basis, taker, first, &algorithm.procedures, out)?;
    let number = first_process(algorithm)?;
    add_main(alloc, pool, basis, number, &algorithm.main, out)
}

/// All actions of a translation: of each procedure and process those of its labels, and then its own ("A PlusCal User's Manual",
/// sections 3.3, 3.4 and 3.7).
///
/// # Errors
///
/// Only for want of memory; the pool may then have more nodes than before.
pub fn actions(alloc: Global, pool: &mut Pool, draft: &Draft<'_>) -> Result<Vec<Action>, AllocError>
    requires { past_algorithm draft.now.algorithm.now ≤ length pool.old }
    ensures made { (P : Program) → IsDraft pool.old draft.now P → IsActable P → IfOk result (λ r. actions_at pool.new r.items ≡ actions_by_steps P) }
    ensures within { IfOk result (λ r. ActionsIn (length pool.new) r.items) }
    ensures kept { Keeps pool.old pool.new }
{
    let procedures = procedure_order(alloc, &draft.algorithm.procedures)?;
    let unlabelled = Name::new(Vec::new(alloc));
    let this = name_of(alloc, pool, b"self")?;
    let basis = Basis {
        draft,
        procedures: &procedures,
        unlabelled: &unlabelled,
        this,
    };
    let mut made = Vec::new(alloc);
    add_all(alloc, pool, &basis, &mut made)?;
    Ok(made)
}
