//! The actions of the labels of a routine, in the order of the text.

ghost use Rattle.std.specs.Prelude.{◌≡◌, ◌<◌, ◌≤◌, ◌∷◌, [], List, length, drop, IfOk, OnOk};
ghost use Rattle.tla_tree.specs.Tree.{Tree};
ghost use Rattle.tla_tree.specs.Pool.{Keeps};
ghost use Rattle.pcal_tree.specs.InMemory.{statements_at, branches_at, past_statements, past_branches};
ghost use Rattle.pcal_tree.specs.Program.{Program};
ghost use Rattle.pcal_tree.specs.Takers.{Taken};
ghost use Rattle.module_write.specs.InMemory.{action_at, BodyIn, ActionsIn};
ghost use Rattle.step_forms.specs.Steps.{steps, steps_some, step_action};
ghost use Rattle.step_items.specs.Desks.{DeskIn};
ghost use Rattle.module_formulas.specs.TakersIn.{TakerIn};
ghost use Rattle.label_actions.specs.Fitting.{step_from, first_steps, here_at, StepFits};
ghost use Rattle.label_actions.specs.Added.{Works, AddsSteps};

use module_formulas::takers::{Taker, parameter_of};
use module_write::module::{Action, Body};
use pcal_tree::algorithm::Stmt;
use std::alloc::{AllocError, Global};
use step_items::desk::Desk;
use step_items::partner::follow;
use step_items::step::step_items;
use tla_pool::Pool;
use tla_tree::Name;

// The action of a label before these statements.
fn label_action(
    alloc: Global,
    pool: &mut Pool,
    desk: &Desk<'_>,
    taker: Taker,
    label: &Name,
    exit: &Name,
    rest: &[Stmt],
) -> Result<Action, AllocError>
    requires statements { past_statements rest.now ≤ length pool.old }
    requires desk { DeskIn (length pool.old) desk.now }
    ensures made { IfOk result (λ r. (P : Program) (t : Taken) → Works pool.old desk.now taker P t → StepFits P t.routine (step_from pool.old label.now exit.now rest.now) → action_at pool.new r ≡ step_action P t (step_from pool.old label.now exit.now rest.now)) }
    ensures within { IfOk result (λ r. BodyIn (length pool.new) r.body) }
    ensures kept { Keeps pool.old pool.new }
{
    let title = desk.draft.label_name(desk.unit, label).copied()?;
    let parameter = parameter_of(alloc, taker)?;
    let items = step_items(alloc, pool, desk, label, exit, rest)?;
    Ok(Action {
        title,
        parameter,
        body: Body::All(items),
    })
}

// Adds it.
fn add_action(
    alloc: Global,
    pool: &mut Pool,
    desk: &Desk<'_>,
    taker: Taker,
    label: &Name,
    exit: &Name,
    rest: &[Stmt],
    out: &mut Vec<Action>,
) -> Result<(), AllocError>
    requires statements { past_statements rest.now ≤ length pool.old }
    requires desk { DeskIn (length pool.old) desk.now }
    requires before { ActionsIn (length pool.old) out.old.items }
    ensures made { OnOk result (AddsSteps pool.old pool.new desk.now taker out.old.items out.new.items (step_from pool.old label.now exit.now rest.now ∷ [])) }
    ensures within { OnOk result (ActionsIn (length pool.new) out.new.items) }
    ensures kept { Keeps pool.old pool.new }
{
    let action = label_action(alloc, pool, desk, taker, label, exit, rest)?;
    out.push(action)?;
    Ok(())
}

// The label at which the statement of this number is: that before it, or of the first the label at which its list is.
fn label_at<'n>(
    stmts: &'n [Stmt],
    number: usize,
    here: &'n Name,
    exit: &'n Name,
    unlabelled: &'n Name,
) -> &'n Name
    requires { number < length stmts.now }
    ensures { (ts : List Tree) → unlabelled.now ≡ [] → result.now ≡ here_at ts here.now exit.now stmts.now number }
{
    if number == 0 {
        here
    } else {
        follow(&stmts[number - 1..], exit, unlabelled)
    }
}

// Adds those of the label or the statement of this number; `here` is the label at which it is.
#[cycle(actions)]
fn stmt(
    alloc: Global,
    pool: &mut Pool,
    desk: &Desk<'_>,
    taker: Taker,
    here: &Name,
    exit: &Name,
    stmts: &[Stmt],
    number: usize,
    out: &mut Vec<Action>,
) -> Result<(), AllocError>
    requires there { number < length stmts.now }
    requires statements { past_statements stmts.now ≤ length pool.old }
    requires desk { DeskIn (length pool.old) desk.now }
    requires taker { TakerIn (length pool.old) taker }
    requires before { ActionsIn (length pool.old) out.old.items }
    ensures made { OnOk result (AddsSteps pool.old pool.new desk.now taker out.old.items out.new.items (first_steps here.now (statements_at pool.old (drop number stmts.now)) exit.now)) }
    ensures within { OnOk result (ActionsIn (length pool.new) out.new.items) }
    ensures kept { Keeps pool.old pool.new }
{
    let rest = &stmts[number + 1..];
    let next = follow(rest, exit, desk.unlabelled);
    let none = desk.unlabelled;
    match &stmts[number] {
        Stmt::Label(name, _) => {
            add_action(alloc, pool, desk, taker, &name.name, exit, rest, out)
        }
        Stmt::Simple(_, _) => Ok(()),
        Stmt::If(_, _, then, otherwise) => {
            statements(alloc, pool, desk, taker, none, next, then, out)?;
            statements(alloc, pool, desk, taker, none, next, otherwise, out)
        }
        Stmt::Either(_, list) => branches(alloc, pool, desk, taker, next, list, out),
        Stmt::With(_, _, body) => statements(alloc, pool, desk, taker, none, next, body, out),
        Stmt::While(_, _, body) => statements(alloc, pool, desk, taker, none, here, body, out),
    }
}

// Adds those of branches.
#[cycle(actions)]
fn branches(
    alloc: Global,
    pool: &mut Pool,
    desk: &Desk<'_>,
    taker: Taker,
    exit: &Name,
    list: &[Vec<Stmt>],
    out: &mut Vec<Action>,
) -> Result<(), AllocError>
    requires statements { past_branches list.now ≤ length pool.old }
    requires desk { DeskIn (length pool.old) desk.now }
    requires taker { TakerIn (length pool.old) taker }
    requires before { ActionsIn (length pool.old) out.old.items }
    ensures made { OnOk result (AddsSteps pool.old pool.new desk.now taker out.old.items out.new.items (steps_some (branches_at pool.old list.now) exit.now)) }
    ensures within { OnOk result (ActionsIn (length pool.new) out.new.items) }
    ensures kept { Keeps pool.old pool.new }
{
    for i in 0..list.len() {
        statements(
            alloc,
            pool,
            desk,
            taker,
            desk.unlabelled,
            exit,
            &list[i],
            out,
        )?;
    }
    Ok(())
}

/// Adds the actions of the labels of a list of statements, whose end goes to `exit`; `here` is the label at which it is. It calls
/// itself as deep as statements are in statements.
///
/// # Errors
///
/// Only for want of memory; the pool may then have more nodes than before.
#[cycle(actions)]
pub fn statements(
    alloc: Global,
    pool: &mut Pool,
    desk: &Desk<'_>,
    taker: Taker,
    here: &Name,
    exit: &Name,
    stmts: &[Stmt],
    out: &mut Vec<Action>,
) -> Result<(), AllocError>
    requires statements { past_statements stmts.now ≤ length pool.old }
    requires desk { DeskIn (length pool.old) desk.now }
    requires taker { TakerIn (length pool.old) taker }
    requires before { ActionsIn (length pool.old) out.old.items }
    ensures made { OnOk result (AddsSteps pool.old pool.new desk.now taker out.old.items out.new.items (steps here.now (statements_at pool.old stmts.now) exit.now)) }
    ensures within { OnOk result (ActionsIn (length pool.new) out.new.items) }
    ensures kept { Keeps pool.old pool.new }
{
    for i in 0..stmts.len() {
        let label = label_at(stmts, i, here, exit, desk.unlabelled);
        stmt(alloc, pool, desk, taker, label, exit, stmts, i, out)?;
    }
    Ok(())
}
