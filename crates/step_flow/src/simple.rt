//! Statements that have none in them ("A PlusCal User's Manual", section 3.2).

ghost use Rattle.std.specs.Prelude.{◌≡◌, ◌≤◌, length, OnOk, IfOk};
ghost use Rattle.tla_tree.specs.Pool.{trees_at, AllBelow};
ghost use Rattle.pcal_tree.specs.Algorithm as pure;
ghost use Rattle.pcal_tree.specs.Algorithm.{Routine};
ghost use Rattle.pcal_tree.specs.InMemory.{simple_at, past_simple};
ghost use Rattle.pcal_tree.specs.Program.{Actor};
ghost use Rattle.step_spots.specs.Targets.{target_word};
ghost use Rattle.step_moves.specs.Runners.{IsRunner, partner_of};
ghost use Rattle.step_flow.specs.Ends.{Ends, one_from, root_places, Stands, Rebound};

use crate::going::{End, Going, go_to};
use pcal_tree::algorithm::{Simple, Span};
use std::alloc::{AllocError, Global};
use step_choices::Pause;
use step_moves::{Partner, Runner, all_values, assigned, call, leave, truth, value};
use step_spots::Target;
use tla_pool::Pool;
use tla_token::Place;
use tla_tree::{NodeId, PlacedName};
use tla_value::fault::FaultKind;

// The places of expressions.
fn places(alloc: Global, pool: &Pool, list: &[NodeId]) -> Result<Vec<Place>, AllocError>
    requires { AllBelow (length pool.now) list.now }
    ensures { IfOk result (λ r. r.items ≡ root_places (trees_at pool.now list.now)) }
{
    let mut all = Vec::new(alloc);
    for e in list {
        all.push(pool.node(*e).place)?;
    }
    Ok(all)
}

// A call of a procedure, where a label is of what follows, and a partner.
fn called(
    alloc: Global,
    runner: &Runner<'_>,
    choices: &[u32],
    span: Span,
    name: &PlacedName,
    arguments: &[NodeId],
    here: Target<'_>,
    exit: Target<'_>,
    partner: Partner<'_>,
    going: &mut Going,
) -> Result<End, Pause>
    requires below { AllBelow (length runner.now.program.pool.now) arguments.now }
    requires stands { Stands runner.now going.old }
    ensures ends { (v : Actor) (u : Routine) → IsRunner runner.now v u → Ends result going.new choices.now (one_from runner.now v u (target_word here.entry) span.first (pure.call name.now (trees_at runner.now.program.pool.now arguments.now)) (target_word exit.entry) (partner_of partner.entry) going.old choices.now) }
    ensures stands { OnOk result (Stands runner.now going.new) }
    ensures bound { OnOk result (Rebound going.old going.new) }
{
    let values = all_values(
        alloc,
        &runner.program,
        &going.state,
        &going.bound,
        arguments,
    )?;
    let places = places(alloc, runner.program.pool, arguments)?;
    let state = &mut going.state;
    if call(
        alloc, runner, state, span.first, &name.name, &places, values, exit, partner,
    )? {
        Ok(End::Over)
    } else {
        Err(Pause::Held(span.first))
    }
}

/// What comes of a statement that has none in it; `exit` is the label of what follows it, and `partner` what a call is one statement
/// with.
///
/// # Errors
///
/// For want of memory, and exactly where the statement can't be taken, or meets a fault or a limit.
pub fn simple(
    alloc: Global,
    runner: &Runner<'_>,
    choices: &[u32],
    span: Span,
    one: &Simple,
    here: Target<'_>,
    exit: Target<'_>,
    partner: Partner<'_>,
    going: &mut Going,
) -> Result<End, Pause>
    requires below { past_simple one.now ≤ length runner.now.program.pool.now }
    requires stands { Stands runner.now going.old }
    ensures ends { (v : Actor) (u : Routine) → IsRunner runner.now v u → Ends result going.new choices.now (one_from runner.now v u (target_word here.entry) span.first (simple_at runner.now.program.pool.now one.now) (target_word exit.entry) (partner_of partner.entry) going.old choices.now) }
    ensures stands { OnOk result (Stands runner.now going.new) }
    ensures bound { OnOk result (Rebound going.old going.new) }
{
    let at = span.first;
    match one {
        Simple::Assign(list) => {
            assigned(alloc, &runner.program, &mut going.state, &going.bound, list)?;
            Ok(End::Falls)
        }
        Simple::Await(e) => {
            if truth(alloc, &runner.program, &going.state, &going.bound, *e)? {
                Ok(End::Falls)
            } else {
                Err(Pause::Held(at))
            }
        }
        Simple::Print(e) => {
            let _shown = value(alloc, &runner.program, &going.state, &going.bound, *e)?;
            Ok(End::Falls)
        }
        Simple::Assert(e) => {
            if truth(alloc, &runner.program, &going.state, &going.bound, *e)? {
                Ok(End::Falls)
            } else {
                Err(Pause::Fault(FaultKind::AssertFailed, at))
            }
        }
        Simple::Skip => Ok(End::Falls),
        Simple::Goto(label) => go_to(alloc, runner, choices, Target::Label(label), going),
        Simple::Macro(_, _) => Err(Pause::Held(at)),
        Simple::Call(name, arguments) => called(
            alloc, runner, choices, span, name, arguments, here, exit, partner, going,
        ),
        Simple::Return => {
            leave(alloc, runner, &mut going.state, at)?;
            Ok(End::Over)
        }
    }
}
