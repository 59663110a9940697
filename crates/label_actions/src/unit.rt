//! The actions of one procedure, one process or the one body.

ghost use Rattle.std.specs.Prelude.{◌≡◌, ◌≤◌, ◌++◌, ◌∷◌, [], ℕ, List, length, IfOk, OnOk};
ghost use Rattle.std.specs.Option.{option_map};
ghost use Rattle.tla_tree.specs.Tree.{Tree};
ghost use Rattle.tla_tree.specs.Pool.{at, Keeps};
ghost use Rattle.pcal_tree.specs.Algorithm.{locals as locals_of, routines};
ghost use Rattle.pcal_tree.specs.Processes.{OneOf};
ghost use Rattle.pcal_tree.specs.Program.{Program};
ghost use Rattle.pcal_tree.specs.Takers.{Taken};
ghost use Rattle.pcal_tree.specs.Variables.{declared};
ghost use Rattle.module_write.specs.InMemory.{actions_at, ActionsIn, MaybeIn};
ghost use Rattle.action_builder.specs.LabelActions.{own_action as own_action_of};
ghost use Rattle.draft.specs.RoutineNames.{words_of};
ghost use Rattle.step_forms.specs.Steps.{step_actions, routine_steps};
ghost use Rattle.module_formulas.specs.TakersIn.{taker_at, TakerIn};
ghost use Rattle.label_actions.specs.Fitting.{IsActable};
ghost use Rattle.label_actions.specs.Added.{self_of};
ghost use Rattle.label_actions.specs.Units.{IsBasis, BasisIn, IsUnit, UnitIn};

use crate::walk::statements;
use draft::Draft;
use module_formulas::names::word;
use module_formulas::takers::Taker;
use module_formulas::ways::{Caller, own_action};
use module_write::module::Action;
use name_bits::Order;
use pcal_tree::algorithm::{Declaration, Stmt};
use std::alloc::{AllocError, Global};
use step_items::desk::Desk;
use tla_pool::Pool;
use tla_tree::{Name, NameList, NodeId};

/// What the actions of all routines are written from.
#[derive(Clone, Copy)]
pub struct Basis<'a> {
    /// The algorithm with its written names.
    pub draft: &'a Draft<'a>,
    /// The names of the procedures.
    pub procedures: &'a Order,
    /// The empty name, for where there is no label.
    pub unlabelled: &'a Name,
    /// The name `self` in the pool.
    pub this: NodeId,
}

/// A procedure, a process or the one body, with those who take its steps.
#[derive(Clone, Copy)]
pub struct Unit<'a> {
    /// Its number among the routines.
    pub number: usize,
    /// Who takes its steps.
    pub taker: Taker,
    /// Its parameters.
    pub params: &'a [Declaration],
    /// Its own variables.
    pub variables: &'a [Declaration],
    /// Its labels and statements.
    pub body: &'a [Stmt],
    /// The label to which the end of its body goes.
    pub exit: &'a [u8],
}

// The expression that stands for `self` where a single process takes the steps.
fn single_of(taker: Taker) -> Option<NodeId>
    ensures stands { (ts : List Tree) → option_map (at ts) result ≡ self_of (taker_at ts taker) }
    ensures within { (m : ℕ) → TakerIn m taker → MaybeIn m result }
{
    match taker {
        Taker::Each(_) => None,
        Taker::Single(identity) => Some(identity),
        Taker::Lone => None,
    }
}

// Adds the names of declarations.
fn add_names(list: &[Declaration], into: &mut NameList) -> Result<(), AllocError>
    ensures { OnOk result (into.new ≡ into.old ++ words_of list.now) }
{
    for one in list {
        into.push(one.name.name.copied()?)?;
    }
    Ok(())
}

// The names of parameters, and then those of variables.
fn local_names(
    alloc: Global,
    params: &[Declaration],
    variables: &[Declaration],
) -> Result<NameList, AllocError>
    ensures { IfOk result (λ r. r ≡ words_of params.now ++ words_of variables.now) }
{
    let mut names = NameList::new(alloc);
    add_names(params, &mut names)?;
    add_names(variables, &mut names)?;
    Ok(names)
}

// Adds the actions of the labels of a unit, whose parameters and variables have these names.
fn add_with_names(
    alloc: Global,
    pool: &mut Pool,
    basis: &Basis<'_>,
    unit: &Unit<'_>,
    locals: &Order,
    names: &[Name],
    out: &mut Vec<Action>,
) -> Result<(), AllocError>
    requires basis { BasisIn (length pool.old) basis.now }
    requires unit { UnitIn (length pool.old) unit.now }
    requires before { ActionsIn (length pool.old) out.old.items }
    ensures made { OnOk result ((P : Program) (t : Taken) → IsActable P → OneOf t.routine (routines P.algorithm) → IsBasis pool.old basis.now P → IsUnit pool.old unit.now t → declared (locals_of t.routine) ≡ locals.now → declared (locals_of t.routine) ≡ names.now → actions_at pool.new out.new.items ≡ actions_at pool.old out.old.items ++ step_actions P t) }
    ensures within { OnOk result (ActionsIn (length pool.new) out.new.items) }
    ensures kept { Keeps pool.old pool.new }
{
    let exit = word(alloc, unit.exit)?;
    let desk = Desk {
        draft: basis.draft,
        unit: unit.number,
        locals,
        names,
        procedures: basis.procedures,
        unlabelled: basis.unlabelled,
        single: single_of(unit.taker),
    };
    statements(
        alloc,
        pool,
        &desk,
        unit.taker,
        basis.unlabelled,
        &exit,
        unit.body,
        out,
    )
}

/// Adds the actions of the labels of a unit.
///
/// # Errors
///
/// Only for want of memory; the pool may then have more nodes than before.
pub fn add_steps(
    alloc: Global,
    pool: &mut Pool,
    basis: &Basis<'_>,
    unit: &Unit<'_>,
    out: &mut Vec<Action>,
) -> Result<(), AllocError>
    requires basis { BasisIn (length pool.old) basis.now }
    requires unit { UnitIn (length pool.old) unit.now }
    requires before { ActionsIn (length pool.old) out.old.items }
    ensures made { OnOk result ((P : Program) (t : Taken) → IsActable P → OneOf t.routine (routines P.algorithm) → IsBasis pool.old basis.now P → IsUnit pool.old unit.now t → actions_at pool.new out.new.items ≡ actions_at pool.old out.old.items ++ step_actions P t) }
    ensures within { OnOk result (ActionsIn (length pool.new) out.new.items) }
    ensures kept { Keeps pool.old pool.new }
{
    let names = local_names(alloc, unit.params, unit.variables)?;
    let locals = Order::new(alloc, names.as_slice())?;
    add_with_names(alloc, pool, basis, unit, &locals, names.as_slice(), out)
}

// Adds the own action of a procedure or process: one of those of its labels.
fn add_own(
    alloc: Global,
    basis: &Basis<'_>,
    unit: &Unit<'_>,
    out: &mut Vec<Action>,
) -> Result<(), AllocError>
    ensures made { OnOk result ((ts : List Tree) (P : Program) (t : Taken) → IsBasis ts basis.now P → IsUnit ts unit.now t → actions_at ts out.new.items ≡ actions_at ts out.old.items ++ own_action_of P t ∷ []) }
    ensures within { OnOk result ((m : ℕ) → BasisIn m basis.now → ActionsIn m out.old.items → ActionsIn m out.new.items) }
{
    let caller = Caller {
        this: basis.this,
        taker: unit.taker,
    };
    let action = own_action(alloc, basis.draft, caller, unit.number, unit.body)?;
    out.push(action)?;
    Ok(())
}

/// Adds all actions of a procedure or process.
///
/// # Errors
///
/// Only for want of memory; the pool may then have more nodes than before.
pub fn add_routine(
    alloc: Global,
    pool: &mut Pool,
    basis: &Basis<'_>,
    unit: &Unit<'_>,
    out: &mut Vec<Action>,
) -> Result<(), AllocError>
    requires basis { BasisIn (length pool.old) basis.now }
    requires unit { UnitIn (length pool.old) unit.now }
    requires before { ActionsIn (length pool.old) out.old.items }
    ensures made { OnOk result ((P : Program) (t : Taken) → IsActable P → OneOf t.routine (routines P.algorithm) → IsBasis pool.old basis.now P → IsUnit pool.old unit.now t → actions_at pool.new out.new.items ≡ actions_at pool.old out.old.items ++ routine_steps P t) }
    ensures within { OnOk result (ActionsIn (length pool.new) out.new.items) }
    ensures kept { Keeps pool.old pool.new }
{
    add_steps(alloc, pool, basis, unit, out)?;
    add_own(alloc, basis, unit, out)
}
