//! Labels that are missing, and variables that are assigned twice, all of them, along all paths.

ghost use Rattle.std.specs.Prelude.{◌≡◌, ◌≤◌, ◌++◌, [], List, Some, None, false, true, length, cond, IfOk, OnOk};
ghost use Rattle.tla_tree.specs.Tree.{Tree};
ghost use Rattle.tla_token.specs.declared.rule.Rule.TheVariants.{AfterBranch};
ghost use Rattle.pcal_tree.specs.Algorithm.{Span as PureSpan, Statement, then};
ghost use Rattle.pcal_tree.specs.InMemory.{simple_at, stmt_at, statements_at, branches_at, past_simple, past_stmt, past_statements, past_branches};
ghost use Rattle.pcal_tree.specs.OffencesSteps.{holds_one, holds, inside, visits, due_after};
ghost use Rattle.pcal_tree.specs.Paths as paths;
ghost use Rattle.pcal_tree.specs.Run.{Partner};
ghost use Rattle.pcal_tree.specs.laws.MacroSummaries.{Summary as Found};
ghost use Rattle.pcal_tree.proofs.EffectLaws.{Alike};
ghost use Rattle.label_steps.specs.KnownIn.{AreMacros};
ghost use Rattle.label_steps.specs.PathsIn.{path_of};
ghost use Rattle.label_steps.specs.WaysIn.{looped, LeadsBoth};
ghost use Rattle.added_labels.specs.Sight.{IsNext, effects_of};
ghost use Rattle.step_offences.specs.Stepping.{is_told, here, Tells, TellsVisits, GoesOne, GoesAll, GoesSome};

use crate::offence::push_offence;
use added_labels::seen::{Next, Where, next_of};
use label_steps::due::jumps;
use label_steps::truths::either;
use label_steps::walk::is_label;
use label_steps::ways::Ways;
use pcal_tree::algorithm::{Simple, Stmt};
use std::alloc::{AllocError, Global};
use tla_pool::Pool;
use tla_token::{Place, Refusal, Rule};

/// What is before and behind a statement.
#[derive(Clone, Copy)]
pub struct Spot {
    /// A label is before it.
    pub labelled: bool,
    /// None is, and the rule by which one must be there.
    pub due: Option<Rule>,
    /// What comes behind it.
    pub next: Next,
}

/// What a statement means for those behind it.
#[derive(Clone, Copy)]
pub struct Behind {
    /// It is a label or a jump, or one is in it.
    pub held: bool,
    /// The rule by which a label must be behind it.
    pub due: Option<Rule>,
}

// What a statement offends itself: whether it is a loop, and whether it assigns a variable twice.
fn push_here(
    list: &mut Vec<Refusal>,
    spot: Spot,
    loops: bool,
    twice: bool,
    place: Place,
) -> Result<(), AllocError>
    ensures { OnOk result (list.new.items ≡ list.old.items ++ here spot loops twice place) }
{
    if !spot.labelled {
        if let Some(rule) = spot.due {
            push_offence(list, true, rule, place)?;
        }
        push_offence(list, loops, Rule::WhileLabel, place)?;
    }
    push_offence(list, twice, Rule::AssignTwice, place)
}

// The same where something is told.
fn tell(
    found: &mut Option<Vec<Refusal>>,
    spot: Spot,
    loops: bool,
    twice: bool,
    place: Place,
) -> Result<(), AllocError>
    ensures { OnOk result (Tells found.old found.new (here spot loops twice place)) }
{
    match found {
        None => Ok(()),
        Some(list) => push_here(list, spot, loops, twice, place),
    }
}

// What a statement with none in it means for those behind it.
fn behind_simple(simple: &Simple, next: Next) -> Behind
    ensures held { (ts : List Tree) → result.held ≡ holds_one (simple_at ts simple.now) }
    ensures due { (ts : List Tree) (j : Partner) → IsNext next j → result.due ≡ due_after (simple_at ts simple.now) j }
{
    let due = match simple {
        Simple::Goto(_) => Some(Rule::AfterJump),
        Simple::Return => Some(Rule::AfterJump),
        Simple::Call(_, _) => {
            if next.pairs {
                None
            } else {
                Some(Rule::AfterJump)
            }
        }
        _ => None,
    };
    Behind {
        held: jumps(simple),
        due,
    }
}

// The same of one with branches or a body that is gone through once, which hold a label or a jump, or none.
fn behind_branches(held: bool) -> Behind
    ensures held { result.held ≡ held }
    ensures due { result.due ≡ cond held (Some AfterBranch) None }
{
    let due = if held { Some(Rule::AfterBranch) } else { None };
    Behind { held, due }
}

// A statement with none in it.
fn of_simple(
    at: &Where,
    alloc: Global,
    pool: &Pool,
    spot: Spot,
    ways: &mut Ways,
    found: &mut Option<Vec<Refusal>>,
    place: Place,
    simple: &Simple,
) -> Result<Behind, AllocError>
    requires { past_simple simple.now ≤ length pool.now }
    ensures { IfOk result (λ b. (ms : List Found) → AreMacros at.now.around.known ms → (j : Partner) → IsNext spot.next j → (s : PureSpan) → place ≡ s.first → GoesOne (effects_of at.now ms) spot.labelled spot.due s (simple_at pool.now simple.now) j ways.old ways.new found.old found.new b) }
{
    let step = at.step(alloc, pool, spot.next, simple)?;
    let twice = ways.reached.meets(&step);
    tell(found, spot, false, twice, place)?;
    let behind = behind_simple(simple, spot.next);
    ways.pass(&step, behind.held)?;
    Ok(behind)
}

// The paths at a loop with this body, after any number of rounds; true where a label is right before it.
#[cycle(steps)]
fn of_rounds(
    at: &Where,
    alloc: Global,
    pool: &Pool,
    labelled: bool,
    ways: &mut Ways,
    body: &[Stmt],
) -> Result<(), AllocError>
    requires { past_statements body.now ≤ length pool.now }
    ensures { OnOk result ((ms : List Found) → AreMacros at.now.around.known ms → LeadsBoth (looped (effects_of at.now ms) (statements_at pool.now body.now) labelled) ways.old ways.new) }
{
    if labelled {
        return Ok(());
    }
    let mut round = Ways::new(alloc);
    let mut none = None;
    of_list(at, alloc, pool, None, &mut round, &mut none, body)?;
    ways.go_round(alloc, &round)
}

// What is in a loop's body, where these paths lead to it, and whether a label or a jump is, where something is told.
#[cycle(steps)]
fn of_inside(
    at: &Where,
    alloc: Global,
    pool: &Pool,
    ways: &Ways,
    found: &mut Option<Vec<Refusal>>,
    body: &[Stmt],
) -> Result<bool, AllocError>
    requires { past_statements body.now ≤ length pool.now }
    ensures told { OnOk result ((ms : List Found) → AreMacros at.now.around.known ms → (p : paths.Path) → Alike p (path_of ways.now.reached) → TellsVisits (effects_of at.now ms) found.old found.new (visits (effects_of at.now ms) (inside p) (statements_at pool.now body.now))) }
    ensures held { IfOk result (λ r. (ms : List Found) → AreMacros at.now.around.known ms → is_told found.old ≡ true → r ≡ holds (statements_at pool.now body.now)) }
{
    if found.is_none() {
        return Ok(false);
    }
    let mut copy = ways.copied(alloc)?;
    of_list(at, alloc, pool, None, &mut copy, found, body)
}

// A statement, and no label.
#[cycle(steps)]
fn of_stmt(
    at: &Where,
    alloc: Global,
    pool: &Pool,
    spot: Spot,
    ways: &mut Ways,
    found: &mut Option<Vec<Refusal>>,
    stmt: &Stmt,
) -> Result<Behind, AllocError>
    requires { past_stmt stmt.now ≤ length pool.now }
    ensures { IfOk result (λ b. (ms : List Found) → AreMacros at.now.around.known ms → (j : Partner) → IsNext spot.next j → (s : PureSpan) (st : Statement) → stmt_at pool.now stmt.now ≡ then s st → GoesOne (effects_of at.now ms) spot.labelled spot.due s st j ways.old ways.new found.old found.new b) }
{
    match stmt {
        Stmt::Label(_, _) => Ok(behind_branches(true)),
        Stmt::Simple(span, simple) => {
            of_simple(at, alloc, pool, spot, ways, found, span.first, simple)
        }
        Stmt::If(span, _, then, otherwise) => {
            tell(found, spot, false, false, span.first)?;
            let mut other = ways.copied(alloc)?;
            let first = of_list(at, alloc, pool, None, ways, found, then)?;
            let second = of_list(at, alloc, pool, None, &mut other, found, otherwise)?;
            ways.join(other)?;
            Ok(behind_branches(either(first, second)))
        }
        Stmt::Either(span, list) => {
            tell(found, spot, false, false, span.first)?;
            let held = of_branches(at, alloc, pool, ways, found, list)?;
            Ok(behind_branches(held))
        }
        Stmt::With(span, _, body) => {
            tell(found, spot, false, false, span.first)?;
            let held = of_list(at, alloc, pool, None, ways, found, body)?;
            Ok(behind_branches(held))
        }
        Stmt::While(span, _, body) => {
            tell(found, spot, true, false, span.first)?;
            of_rounds(at, alloc, pool, spot.labelled, ways, body)?;
            let held = of_inside(at, alloc, pool, ways, found, body)?;
            Ok(Behind { held, due: None })
        }
    }
}

// All branches of a statement; the paths are then those behind them.
#[cycle(steps)]
fn of_branches(
    at: &Where,
    alloc: Global,
    pool: &Pool,
    ways: &mut Ways,
    found: &mut Option<Vec<Refusal>>,
    list: &[Vec<Stmt>],
) -> Result<bool, AllocError>
    requires { past_branches list.now ≤ length pool.now }
    ensures { IfOk result (λ r. (ms : List Found) → AreMacros at.now.around.known ms → GoesSome (effects_of at.now ms) (branches_at pool.now list.now) ways.old ways.new found.old found.new r) }
{
    let mut ends = Ways::none(alloc);
    let mut held = false;
    for i in 0..list.len() {
        let mut one = ways.copied(alloc)?;
        let inner = of_list(at, alloc, pool, None, &mut one, found, &list[i])?;
        held = either(held, inner);
        ends.join(one)?;
    }
    *ways = ends;
    Ok(held)
}

/// What a list of statements offends, behind what was found where something is told, where a label must be before its first statement by
/// this rule; the paths are then those behind it. It answers whether a label or a jump is in it, where something is told. It calls itself
/// as deep as statements are in statements.
///
/// # Errors
///
/// Only for want of memory.
#[cycle(steps)]
pub fn of_list(
    at: &Where,
    alloc: Global,
    pool: &Pool,
    due: Option<Rule>,
    ways: &mut Ways,
    found: &mut Option<Vec<Refusal>>,
    stmts: &[Stmt],
) -> Result<bool, AllocError>
    requires { past_statements stmts.now ≤ length pool.now }
    ensures { IfOk result (λ r. (ms : List Found) → AreMacros at.now.around.known ms → GoesAll (effects_of at.now ms) due (statements_at pool.now stmts.now) ways.old ways.new found.old found.new r) }
{
    let mut held = false;
    let mut labelled = false;
    let mut due = due;
    for i in 0..stmts.len() {
        let stmt = &stmts[i];
        if is_label(stmt) {
            *ways = Ways::behind_label(alloc);
            held = true;
            labelled = true;
            due = None;
            continue;
        }
        let next = next_of(stmts, i);
        let spot = Spot {
            labelled,
            due,
            next,
        };
        let behind = of_stmt(at, alloc, pool, spot, ways, found, stmt)?;
        held = either(held, behind.held);
        labelled = false;
        due = behind.due;
    }
    Ok(held)
}
