//! Statements that have others in them, and lists of statements ("A PlusCal User's Manual", section 3.2).

ghost use Rattle.std.specs.Prelude.{◌≡◌, ◌<◌, ◌≤◌, max, length, List, OnOk, IfOk, Option, None, Some, Ok};
ghost use Rattle.tla_tree.specs.Tree.{Tree};
ghost use Rattle.tla_tree.specs.Pool.{at};
ghost use Rattle.pcal_tree.specs.Algorithm.{Routine, branch as pure_branch, either as pure_either, with as pure_with, while as pure_while};
ghost use Rattle.pcal_tree.specs.InMemory.{statements_at, branches_at, binds_at, past_stmt, past_statements, past_branches, past_binds};
ghost use Rattle.pcal_tree.specs.Program.{Actor};
ghost use Rattle.pcal_tree.specs.Run.{Partner as PurePartner, partner_of as pure_partner_of};
ghost use Rattle.step_spots.specs.Targets.{target_word};
ghost use Rattle.step_moves.specs.Runners.{IsRunner, partner_of};
ghost use Rattle.step_flow.specs.Ends.{Ends, item_from, list_from, one_from, Stands, Rebound};

use crate::binds::bind_all;
use crate::going::{End, Going, go_to};
use crate::simple::simple;
use pcal_tree::algorithm::{Bind, Simple, Span, Stmt};
use std::alloc::Global;
use step_choices::{Pause, picked};
use step_moves::{Partner, Runner, truth};
use step_spots::Target;
use step_spots::target::next_target;
use tla_tree::NodeId;

// What the statements behind a call begin with, if that is one statement with it.
fn partner_before<'a>(rest: &'a [Stmt]) -> Partner<'a>
    ensures { (ts : List Tree) → partner_of result ≡ pure_partner_of (statements_at ts rest.now) }
{
    match rest.first() {
        Some(Stmt::Simple(_, Simple::Goto(label))) => Partner::Goto(label),
        Some(Stmt::Simple(span, Simple::Return)) => Partner::Return(*span),
        _ => Partner::None,
    }
}

// `if e`, with its two lists.
#[cycle(flow)]
fn branch(
    alloc: Global,
    runner: &Runner<'_>,
    choices: &[u32],
    span: Span,
    test: NodeId,
    yes: &[Stmt],
    no: &[Stmt],
    here: Target<'_>,
    exit: Target<'_>,
    going: &mut Going,
) -> Result<End, Pause>
    requires test { test < length runner.now.program.pool.now }
    requires yes { past_statements yes.now ≤ length runner.now.program.pool.now }
    requires no { past_statements no.now ≤ length runner.now.program.pool.now }
    requires stands { Stands runner.now going.old }
    ensures ends { (v : Actor) (u : Routine) (j : PurePartner) → IsRunner runner.now v u → Ends result going.new choices.now (one_from runner.now v u (target_word here.entry) span.first (pure_branch (at runner.now.program.pool.now test) (statements_at runner.now.program.pool.now yes.now) (statements_at runner.now.program.pool.now no.now)) (target_word exit.entry) j going.old choices.now) }
    ensures stands { OnOk result (Stands runner.now going.new) }
    ensures bound { OnOk result (Rebound going.old going.new) }
{
    let taken = if truth(alloc, &runner.program, &going.state, &going.bound, test)? {
        yes
    } else {
        no
    };
    statements(alloc, runner, choices, taken, Target::Nowhere, exit, going)
}

// `either`, of which the next choice takes one.
#[cycle(flow)]
fn either(
    alloc: Global,
    runner: &Runner<'_>,
    choices: &[u32],
    span: Span,
    branches: &[Vec<Stmt>],
    here: Target<'_>,
    exit: Target<'_>,
    going: &mut Going,
) -> Result<End, Pause>
    requires below { past_branches branches.now ≤ length runner.now.program.pool.now }
    requires stands { Stands runner.now going.old }
    ensures ends { (v : Actor) (u : Routine) (j : PurePartner) → IsRunner runner.now v u → Ends result going.new choices.now (one_from runner.now v u (target_word here.entry) span.first (pure_either (branches_at runner.now.program.pool.now branches.now)) (target_word exit.entry) j going.old choices.now) }
    ensures stands { OnOk result (Stands runner.now going.new) }
    ensures bound { OnOk result (Rebound going.old going.new) }
{
    let i = picked(choices, branches.len(), span.first, &mut going.used)?;
    statements(
        alloc,
        runner,
        choices,
        &branches[i],
        Target::Nowhere,
        exit,
        going,
    )
}

// `with`: its names are bound in its body alone.
#[cycle(flow)]
fn with(
    alloc: Global,
    runner: &Runner<'_>,
    choices: &[u32],
    span: Span,
    binds: &[Bind],
    body: &[Stmt],
    here: Target<'_>,
    exit: Target<'_>,
    going: &mut Going,
) -> Result<End, Pause>
    requires binds { past_binds binds.now ≤ length runner.now.program.pool.now }
    requires body { past_statements body.now ≤ length runner.now.program.pool.now }
    requires stands { Stands runner.now going.old }
    ensures ends { (v : Actor) (u : Routine) (j : PurePartner) → IsRunner runner.now v u → Ends result going.new choices.now (one_from runner.now v u (target_word here.entry) span.first (pure_with (binds_at runner.now.program.pool.now binds.now) (statements_at runner.now.program.pool.now body.now)) (target_word exit.entry) j going.old choices.now) }
    ensures stands { OnOk result (Stands runner.now going.new) }
    ensures bound { OnOk result (Rebound going.old going.new) }
{
    let many = going.bound.names.len();
    bind_all(alloc, runner, choices, span.first, binds, going)?;
    let end = statements(alloc, runner, choices, body, Target::Nowhere, exit, going)?;
    going.bound.names.truncate(many);
    going.bound.values.truncate(many);
    Ok(end)
}

// `while e`: the end of its body goes back to its label.
#[cycle(flow)]
fn repeat(
    alloc: Global,
    runner: &Runner<'_>,
    choices: &[u32],
    span: Span,
    test: NodeId,
    body: &[Stmt],
    here: Target<'_>,
    exit: Target<'_>,
    going: &mut Going,
) -> Result<End, Pause>
    requires test { test < length runner.now.program.pool.now }
    requires body { past_statements body.now ≤ length runner.now.program.pool.now }
    requires stands { Stands runner.now going.old }
    ensures ends { (v : Actor) (u : Routine) (j : PurePartner) → IsRunner runner.now v u → Ends result going.new choices.now (one_from runner.now v u (target_word here.entry) span.first (pure_while (at runner.now.program.pool.now test) (statements_at runner.now.program.pool.now body.now)) (target_word exit.entry) j going.old choices.now) }
    ensures stands { OnOk result (Stands runner.now going.new) }
    ensures bound { OnOk result (Rebound going.old going.new) }
{
    if !truth(alloc, &runner.program, &going.state, &going.bound, test)? {
        return Ok(End::Falls);
    }
    let end = statements(alloc, runner, choices, body, Target::Nowhere, here, going)?;
    match end {
        End::Falls => go_to(alloc, runner, choices, here, going),
        End::Over => Ok(End::Over),
    }
}

// A statement, or a label, at which the step is over.
#[cycle(flow)]
fn one(
    alloc: Global,
    runner: &Runner<'_>,
    choices: &[u32],
    stmt: &Stmt,
    here: Target<'_>,
    exit: Target<'_>,
    partner: Partner<'_>,
    going: &mut Going,
) -> Result<End, Pause>
    requires below { past_stmt stmt.now ≤ length runner.now.program.pool.now }
    requires stands { Stands runner.now going.old }
    ensures ends { (v : Actor) (u : Routine) → IsRunner runner.now v u → Ends result going.new choices.now (item_from runner.now v u (target_word here.entry) stmt.now (target_word exit.entry) (partner_of partner.entry) going.old choices.now) }
    ensures stands { OnOk result (Stands runner.now going.new) }
    ensures bound { OnOk result (Rebound going.old going.new) }
{
    match stmt {
        Stmt::Label(name, _) => go_to(alloc, runner, choices, Target::Label(&name.name), going),
        Stmt::Simple(span, one) => simple(
            alloc, runner, choices, *span, one, here, exit, partner, going,
        ),
        Stmt::If(span, test, yes, no) => branch(
            alloc, runner, choices, *span, *test, yes, no, here, exit, going,
        ),
        Stmt::Either(span, branches) => either(
            alloc, runner, choices, *span, branches, here, exit, going,
        ),
        Stmt::With(span, binds, body) => with(
            alloc, runner, choices, *span, binds, body, here, exit, going,
        ),
        Stmt::While(span, test, body) => repeat(
            alloc, runner, choices, *span, *test, body, here, exit, going,
        ),
    }
}

/// What comes of a list of statements, at the label `here` if it has one; `exit` is the label of what follows it. It
/// calls itself as deep as statements stand in statements.
///
/// # Errors
///
/// For want of memory, and exactly where a statement can't be taken, or meets a fault or a limit.
#[cycle(flow)]
pub fn statements(
    alloc: Global,
    runner: &Runner<'_>,
    choices: &[u32],
    list: &[Stmt],
    here: Target<'_>,
    exit: Target<'_>,
    going: &mut Going,
) -> Result<End, Pause>
    requires below { past_statements list.now ≤ length runner.now.program.pool.now }
    requires stands { Stands runner.now going.old }
    ensures ends { (v : Actor) (u : Routine) (j : PurePartner) → IsRunner runner.now v u → Ends result going.new choices.now (list_from runner.now v u (target_word here.entry) list.now (target_word exit.entry) j going.old choices.now) }
    ensures stands { OnOk result (Stands runner.now going.new) }
    ensures bound { OnOk result (Rebound going.old going.new) }
{
    let mut label = here;
    for i in 0..list.len() {
        let rest = &list[i + 1..];
        let next = next_target(rest, exit);
        let partner = partner_before(rest);
        let end = one(
            alloc, runner, choices, &list[i], label, next, partner, going,
        )?;
        match end {
            End::Falls => label = Target::Nowhere,
            End::Over => return Ok(End::Over),
        }
    }
    Ok(End::Falls)
}
