//! Disjuncts that call actions: of each label, and of procedures and processes; and the actions of these.

ghost use Rattle.std.specs.Prelude.{◌≡◌, ◌<◌, ◌≤◌, ◌++◌, ℕ, List, IfOk, OnOk};
ghost use Rattle.std.specs.Prelude as prelude;
ghost use Rattle.tla_tree.specs.Tree.{Tree};
ghost use Rattle.tla_tree.specs.Pool.{at};
ghost use Rattle.module_tree.specs.Formulas.{self, named};
ghost use Rattle.pcal_tree.specs.Algorithm.{Routine, numbered};
ghost use Rattle.pcal_tree.specs.InMemory.{statements_at, procedure_at, process_at, past_process};
ghost use Rattle.tla_tree.specs.Nesting.{greatest};
ghost use Rattle.pcal_tree.specs.Takers.{taken_process};
ghost use Rattle.pcal_tree.specs.OffencesLabels.{label_words as label_words_of};
ghost use Rattle.pcal_tree.specs.Program.{Program};
ghost use Rattle.module_write.specs.InMemory.{way_at, ways_at, action_at, WayIn, WaysIn, BodyIn};
ghost use Rattle.written_names.specs.Units.{naming_of};
ghost use Rattle.action_builder.specs.LabelActions.{own_action as own_action_of};
ghost use Rattle.action_builder.specs.NextFormula.{own_way as own_way_of};
ghost use Rattle.module_formulas.specs.TakersIn.{taker_at, TakerIn, taken, taken_procedure};
ghost use Rattle.module_formulas.specs.LabelWays.{label_way};

use crate::labels::label_words;
use crate::names::word;
use crate::numbers::after;
use crate::takers::{Taker, call_by, parameter_of, taker_of};
use draft::Draft;
use module_write::module::{Action, Body, Way};
use pcal_tree::algorithm::{Procedure, Process, Stmt};
use std::alloc::{AllocError, Global};
use tla_tree::{Name, NodeId};

/// The name `self` in the pool, and who takes the steps.
#[derive(Clone, Copy)]
pub struct Caller {
    /// The name `self`.
    pub this: NodeId,
    /// Who takes the steps.
    pub taker: Taker,
}

// ---- labels

// The call of a label's action.
fn label_call(
    draft: &Draft<'_>,
    caller: Caller,
    unit: usize,
    label: &Name,
) -> Result<Way, AllocError>
    ensures made { IfOk result (λ r. (ts : List Tree) (P : Program) (u : Routine) → at ts caller.this ≡ named self → naming_of draft.now.naming.now ≡ P.naming → u.number ≡ unit → way_at ts r ≡ label_way P (taken (taker_at ts caller.taker) u) label.now) }
    ensures within { IfOk result (λ r. (m : ℕ) → caller.this < m → WayIn m r) }
{
    let title = draft.label_name(unit, label).copied()?;
    Ok(Way::One(call_by(caller.taker, caller.this, title)))
}

// Adds the calls of the actions of labels.
fn add_calls(
    draft: &Draft<'_>,
    caller: Caller,
    unit: usize,
    labels: &[Name],
    out: &mut Vec<Way>,
) -> Result<(), AllocError>
    ensures made { OnOk result ((ts : List Tree) (P : Program) (u : Routine) → at ts caller.this ≡ named self → naming_of draft.now.naming.now ≡ P.naming → u.number ≡ unit → ways_at ts out.new.items ≡ ways_at ts out.old.items ++ prelude.map (label_way P (taken (taker_at ts caller.taker) u)) labels.now) }
    ensures within { OnOk result ((m : ℕ) → caller.this < m → WaysIn m out.old.items → WaysIn m out.new.items) }
{
    for label in labels {
        let way = label_call(draft, caller, unit, label)?;
        out.push(way)?;
    }
    Ok(())
}

/// Adds the calls of the actions of the labels of a body of a routine with this number, in the order of the text.
///
/// # Errors
///
/// Only for want of memory.
pub fn add_label_ways(
    alloc: Global,
    draft: &Draft<'_>,
    caller: Caller,
    unit: usize,
    body: &[Stmt],
    out: &mut Vec<Way>,
) -> Result<(), AllocError>
    ensures made { OnOk result ((ts : List Tree) (P : Program) (u : Routine) → at ts caller.this ≡ named self → naming_of draft.now.naming.now ≡ P.naming → u.number ≡ unit → ways_at ts out.new.items ≡ ways_at ts out.old.items ++ prelude.map (label_way P (taken (taker_at ts caller.taker) u)) (label_words_of (statements_at ts body.now))) }
    ensures within { OnOk result ((m : ℕ) → caller.this < m → WaysIn m out.old.items → WaysIn m out.new.items) }
{
    let labels = label_words(alloc, body)?;
    add_calls(draft, caller, unit, labels.as_slice(), out)
}

/// The action of a procedure or process with this number: one of those of its labels.
///
/// # Errors
///
/// Only for want of memory.
pub fn own_action(
    alloc: Global,
    draft: &Draft<'_>,
    caller: Caller,
    unit: usize,
    body: &[Stmt],
) -> Result<Action, AllocError>
    ensures made { IfOk result (λ r. (ts : List Tree) (P : Program) (u : Routine) → at ts caller.this ≡ named self → naming_of draft.now.naming.now ≡ P.naming → u.number ≡ unit → u.body ≡ statements_at ts body.now → action_at ts r ≡ own_action_of P (taken (taker_at ts caller.taker) u)) }
    ensures within { IfOk result (λ r. (m : ℕ) → caller.this < m → BodyIn m r.body) }
{
    let title = word(alloc, draft.naming.title(unit))?;
    let parameter = parameter_of(alloc, caller.taker)?;
    let mut calls = Vec::new(alloc);
    add_label_ways(alloc, draft, caller, unit, body, &mut calls)?;
    Ok(Action {
        title,
        parameter,
        body: Body::Any(calls),
    })
}

// ---- procedures and processes

// The disjunct of Next for a procedure or process with this number.
fn own_way(alloc: Global, draft: &Draft<'_>, caller: Caller, unit: usize) -> Result<Way, AllocError>
    ensures made { IfOk result (λ r. (ts : List Tree) (P : Program) (u : Routine) → at ts caller.this ≡ named self → naming_of draft.now.naming.now ≡ P.naming → u.number ≡ unit → way_at ts r ≡ own_way_of P (taken (taker_at ts caller.taker) u)) }
    ensures within { IfOk result (λ r. (m : ℕ) → caller.this < m → TakerIn m caller.taker → WayIn m r) }
{
    let title = word(alloc, draft.naming.title(unit))?;
    match caller.taker {
        Taker::Each(set) => {
            let name = word(alloc, b"self")?;
            Ok(Way::Among(name, set, call_by(caller.taker, caller.this, title)))
        }
        Taker::Single(_) => Ok(Way::One(call_by(caller.taker, caller.this, title))),
        Taker::Lone => Ok(Way::One(call_by(caller.taker, caller.this, title))),
    }
}

/// Adds the disjuncts of procedures, of which the first has this number.
///
/// # Errors
///
/// Only for want of memory.
pub fn add_procedure_ways(
    alloc: Global,
    draft: &Draft<'_>,
    caller: Caller,
    first: usize,
    list: &[Procedure],
    out: &mut Vec<Way>,
) -> Result<(), AllocError>
    ensures made { OnOk result ((ts : List Tree) (P : Program) → at ts caller.this ≡ named self → naming_of draft.now.naming.now ≡ P.naming → ways_at ts out.new.items ≡ ways_at ts out.old.items ++ prelude.map (own_way_of P) (numbered (taken_procedure (taker_at ts caller.taker)) first (prelude.map (procedure_at ts) list.now))) }
    ensures within { OnOk result ((m : ℕ) → caller.this < m → TakerIn m caller.taker → WaysIn m out.old.items → WaysIn m out.new.items) }
{
    let mut number = first;
    for _one in list {
        let way = own_way(alloc, draft, caller, number)?;
        out.push(way)?;
        number = after(number)?;
    }
    Ok(())
}

/// Adds the disjuncts of processes, of which the first has this number; `this` is the name `self`.
///
/// # Errors
///
/// Only for want of memory.
pub fn add_process_ways(
    alloc: Global,
    draft: &Draft<'_>,
    this: NodeId,
    first: usize,
    list: &[Process],
    out: &mut Vec<Way>,
) -> Result<(), AllocError>
    ensures made { OnOk result ((ts : List Tree) (P : Program) → at ts this ≡ named self → naming_of draft.now.naming.now ≡ P.naming → ways_at ts out.new.items ≡ ways_at ts out.old.items ++ prelude.map (own_way_of P) (numbered taken_process first (prelude.map (process_at ts) list.now))) }
    ensures within { OnOk result ((m : ℕ) → this < m → greatest (prelude.map past_process list.now) ≤ m → WaysIn m out.old.items → WaysIn m out.new.items) }
{
    let mut number = first;
    for one in list {
        let taker = taker_of(one);
        let way = own_way(alloc, draft, Caller { this, taker }, number)?;
        out.push(way)?;
        number = after(number)?;
    }
    Ok(())
}
