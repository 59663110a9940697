//! Reading formulas of fairness, and the conjuncts of Spec.

ghost use Rattle.std.specs.Prelude.{◌≡◌, ◌≤◌, Bool, IfOk, List, Option, Some, length};
ghost use Rattle.tla_token.specs.declared.place.Place.{Place};
ghost use Rattle.tla_tree.specs.Tree.{Tree};
ghost use Rattle.tla_tree.specs.Pool.{Keeps};
ghost use Rattle.tla_tree.specs.Reader as reader;
ghost use Rattle.module_tree.specs.Units.{OverForm, GuardForm};
ghost use Rattle.expr_nodes.specs.Ahead.{ahead};
ghost use Rattle.expr_nodes.specs.ReadIn.{Told};
ghost use Rattle.region_reading.specs.CallReader.{strong_of, over_by, behind_over, guard_by, behind_guard, fair_end as fair_end_in, fair_from as fair_from_in, fair_in, steps_from as steps_from_in, spec_in};
ghost use Rattle.region_items.specs.Begins.{MayBegin, bound};
ghost use Rattle.region_calls.specs.Told.{IsOver, IsGuard, IsFair, IsSpec, behind_bracket};

use crate::calls::{among, call};
use crate::titles::{is_keyword, past_title};
use expr_nodes::cursor::Halt;
use expr_nodes::spot::{Spot, after, after_mark, deeper, next_at, past_mark, past_sign, refused};
use expr_nodes::view::{Key, Mark};
use expr_rows::on_next::{after_key, after_word};
use module_write::module::Fairness;
use region_items::opening::past_opening_mark;
use region_items::operands::expression;
use std::alloc::Global;
use tla_pool::Pool;
use tla_token::{Rule, Tokens};
use tla_tree::{Name, NodeId, Op};

/// A conjunct of Spec.
#[derive(Drop)]
pub enum SpecLine {
    /// `Init`
    Start,
    /// `[][Next]_vars`
    Steps,
    /// `WF_vars(action)`
    Fair(Fairness),
}

// `WF_vars` or `SF_vars`: whether it is strong.
#[tactic(auto, using(crate::proofs::FairSteps::strong_sf, crate::proofs::FairSteps::strong_wf, crate::proofs::FairSteps::strong_no))]
fn strength(tokens: &Tokens, s: Spot) -> Result<(bool, usize), Halt>
    requires { s.at ≤ length tokens.now.items.items }
    ensures read { Told (λ x (b : Place × Bool). b.1 ≡ x.0) (λ x. ahead tokens.now x.1) result (reader.take s.edge strong_of (ahead tokens.now s.at)) }
    ensures inside { IfOk result (λ x. x.1 ≤ length tokens.now.items.items) }
    ensures further { IfOk result (λ x. s.at ≤ x.1) }
{
    let view = next_at(tokens, s).view;
    if is_keyword(tokens, view, b"SF_vars") {
        Ok((true, after(tokens, s)))
    } else if is_keyword(tokens, view, b"WF_vars") {
        Ok((false, after(tokens, s)))
    } else {
        Err(refused(tokens, s, Rule::Syntax))
    }
}

// `\A x \in S :`, if it is there, and how many forms may open behind it.
fn over(
    alloc: Global,
    tokens: &Tokens,
    pool: &mut Pool,
    s: Spot,
) -> Result<(Option<(Name, NodeId)>, u32, usize), Halt>
    requires given { MayBegin tokens.now s }
    ensures read { Told (λ x (f : Option OverForm). IsOver pool.new x.0 f × (behind_over (bound s.left) f ≡ bound x.1)) (λ x. ahead tokens.now x.2) result (reader.peek s.edge (over_by (bound s.left) s.edge) (ahead tokens.now s.at)) }
    ensures kept { Keeps pool.old pool.new }
    ensures fewer { IfOk result (λ x. x.1 ≤ s.left) }
    ensures inside { IfOk result (λ x. x.2 ≤ length tokens.now.items.items) }
    ensures further { IfOk result (λ x. s.at ≤ x.2) }
{
    let Some(from) = after_key(tokens, s, Key::ForAll) else {
        return Ok((None, s.left, s.at));
    };
    let d = deeper(tokens, s, 0)?;
    let (set, at) = among(alloc, tokens, pool, Spot { at: from, ..d })?;
    Ok((Some(set), d.left, at))
}

// `e) /\` behind `(`
fn guard_from(
    alloc: Global,
    tokens: &Tokens,
    pool: &mut Pool,
    s: Spot,
) -> Result<(NodeId, usize), Halt>
    requires given { MayBegin tokens.now s }
    ensures read { (p : Place) → Told (λ x (g : Option GuardForm). IsGuard pool.new (Some x.0) g) (λ x. ahead tokens.now x.1) result (behind_bracket (bound s.left) s.edge p (ahead tokens.now s.at)) }
    ensures kept { Keeps pool.old pool.new }
    ensures inside { IfOk result (λ x. x.1 ≤ length tokens.now.items.items) }
    ensures further { IfOk result (λ x. s.at ≤ x.1) }
{
    let (test, at) = expression(alloc, tokens, pool, s)?;
    let (_, at) = past_mark(tokens, Spot { at, ..s }, Mark::CloseBracket)?;
    let (_, at) = past_sign(tokens, Spot { at, ..s }, Op::And)?;
    Ok((test, at))
}

// `(e) /\`, if it is there, and how many forms may open behind it.
fn guard(
    alloc: Global,
    tokens: &Tokens,
    pool: &mut Pool,
    s: Spot,
) -> Result<(Option<NodeId>, u32, usize), Halt>
    requires given { MayBegin tokens.now s }
    ensures read { Told (λ x (g : Option GuardForm). IsGuard pool.new x.0 g × (behind_guard (bound s.left) g ≡ bound x.1)) (λ x. ahead tokens.now x.2) result (reader.peek s.edge (guard_by (bound s.left) s.edge) (ahead tokens.now s.at)) }
    ensures kept { Keeps pool.old pool.new }
    ensures fewer { IfOk result (λ x. x.1 ≤ s.left) }
    ensures inside { IfOk result (λ x. x.2 ≤ length tokens.now.items.items) }
    ensures further { IfOk result (λ x. s.at ≤ x.2) }
{
    let Some(from) = after_mark(tokens, s, Mark::OpenBracket) else {
        return Ok((None, s.left, s.at));
    };
    let d = deeper(tokens, s, 0)?;
    let (test, at) = guard_from(alloc, tokens, pool, Spot { at: from, ..d })?;
    Ok((Some(test), d.left, at))
}

// `A(e))` of a formula of fairness, behind its guard.
#[tactic(auto, using(crate::proofs::Kept::fair_told))]
fn fair_end(
    alloc: Global,
    tokens: &Tokens,
    pool: &mut Pool,
    s: Spot,
    over: Option<(Name, NodeId)>,
    strong: bool,
    guard: Option<NodeId>,
) -> Result<(Fairness, usize), Halt>
    requires given { MayBegin tokens.now s }
    ensures read { (o : Option OverForm) (b : Place × Bool) (p : Place) (g : Option GuardForm) → IsOver pool.old over o → b.1 ≡ strong → IsGuard pool.old guard g →
        Told (λ x f. IsFair pool.new x.0 f) (λ x. ahead tokens.now x.1) result (fair_end_in (bound s.left) s.edge o b p g (ahead tokens.now s.at)) }
    ensures kept { Keeps pool.old pool.new }
    ensures inside { IfOk result (λ x. x.1 ≤ length tokens.now.items.items) }
    ensures further { IfOk result (λ x. s.at ≤ x.1) }
{
    let (action, at) = call(alloc, tokens, pool, s)?;
    let (_, at) = past_mark(tokens, Spot { at, ..s }, Mark::CloseBracket)?;
    let fair = Fairness {
        over,
        strong,
        guard,
        action,
    };
    Ok((fair, at))
}

// `WF_vars((e) /\ A(e))` behind `\A x \in S :`
fn fair_from(
    alloc: Global,
    tokens: &Tokens,
    pool: &mut Pool,
    s: Spot,
    over: Option<(Name, NodeId)>,
) -> Result<(Fairness, usize), Halt>
    requires given { MayBegin tokens.now s }
    ensures read { (o : Option OverForm) → IsOver pool.old over o → Told (λ x f. IsFair pool.new x.0 f) (λ x. ahead tokens.now x.1) result (fair_from_in (bound s.left) s.edge o (ahead tokens.now s.at)) }
    ensures kept { Keeps pool.old pool.new }
    ensures inside { IfOk result (λ x. x.1 ≤ length tokens.now.items.items) }
    ensures further { IfOk result (λ x. s.at ≤ x.1) }
{
    let (strong, at) = strength(tokens, s)?;
    let (_, d) = past_opening_mark(tokens, Spot { at, ..s }, Mark::OpenBracket)?;
    let (test, left, at) = guard(alloc, tokens, pool, d)?;
    fair_end(
        alloc,
        tokens,
        pool,
        Spot { at, left, ..s },
        over,
        strong,
        test,
    )
}

/// `\A x \in S : WF_vars((e) /\ A(x))`, or with `SF_vars`; what stands before `WF_vars` and the test may be left out.
///
/// # Errors
///
/// The rule by which it is refused, and how many tokens are left from there on; or want of memory.
pub fn fair(
    alloc: Global,
    tokens: &Tokens,
    pool: &mut Pool,
    s: Spot,
) -> Result<(Fairness, usize), Halt>
    requires given { MayBegin tokens.now s }
    ensures read { Told (λ x f. IsFair pool.new x.0 f) (λ x. ahead tokens.now x.1) result (fair_in (bound s.left) s.edge (ahead tokens.now s.at)) }
    ensures kept { Keeps pool.old pool.new }
    ensures inside { IfOk result (λ x. x.1 ≤ length tokens.now.items.items) }
    ensures further { IfOk result (λ x. s.at ≤ x.1) }
{
    let (all, left, at) = over(alloc, tokens, pool, s)?;
    fair_from(alloc, tokens, pool, Spot { at, left, ..s }, all)
}

// `[Next]_vars` behind `[]`
fn steps_from(tokens: &Tokens, s: Spot) -> Result<(SpecLine, usize), Halt>
    requires { s.at ≤ length tokens.now.items.items }
    ensures read { (p : Place) (ts : List Tree) → Told (λ x f. IsSpec ts x.0 f) (λ x. ahead tokens.now x.1) result (steps_from_in (bound s.left) s.edge p (ahead tokens.now s.at)) }
    ensures inside { IfOk result (λ x. x.1 ≤ length tokens.now.items.items) }
    ensures further { IfOk result (λ x. s.at ≤ x.1) }
{
    let (_, from) = past_opening_mark(tokens, s, Mark::OpenSquare)?;
    let (_, at) = past_title(tokens, Spot { at: from.at, ..s }, b"Next")?;
    let (_, at) = past_mark(tokens, Spot { at, ..s }, Mark::CloseSquare)?;
    let (_, at) = past_title(tokens, Spot { at, ..s }, b"_vars")?;
    Ok((SpecLine::Steps, at))
}

/// A conjunct of Spec: `Init`, `[][Next]_vars` or a formula of fairness.
///
/// # Errors
///
/// The rule by which it is refused, and how many tokens are left from there on; or want of memory.
pub fn spec_line(
    alloc: Global,
    tokens: &Tokens,
    pool: &mut Pool,
    s: Spot,
) -> Result<(SpecLine, usize), Halt>
    requires given { MayBegin tokens.now s }
    ensures read { Told (λ x f. IsSpec pool.new x.0 f) (λ x. ahead tokens.now x.1) result (spec_in (bound s.left) s.edge (ahead tokens.now s.at)) }
    ensures kept { Keeps pool.old pool.new }
    ensures inside { IfOk result (λ x. x.1 ≤ length tokens.now.items.items) }
    ensures further { IfOk result (λ x. s.at ≤ x.1) }
{
    if let Some((_, _)) = after_word(tokens, s) {
        let (_, at) = past_title(tokens, s, b"Init")?;
        return Ok((SpecLine::Start, at));
    }
    if let Some(from) = after_mark(tokens, s, Mark::Box) {
        let d = deeper(tokens, s, 0)?;
        return steps_from(tokens, Spot { at: from, ..d });
    }
    let (formula, at) = fair(alloc, tokens, pool, s)?;
    Ok((SpecLine::Fair(formula), at))
}
