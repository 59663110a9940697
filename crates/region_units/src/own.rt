//! Units of a translation with titles of their own, each behind its title.

ghost use Rattle.std.specs.Prelude.{◌≡◌, ◌≤◌, IfOk, List, length};
ghost use Rattle.tla_token.specs.declared.place.Place.{Place};
ghost use Rattle.tla_token.specs.TokensSeen.{span_bytes};
ghost use Rattle.tla_tree.specs.Tree.{Tree};
ghost use Rattle.tla_tree.specs.Pool.{Keeps};
ghost use Rattle.expr_nodes.specs.Ahead.{ahead};
ghost use Rattle.expr_nodes.specs.ReadIn.{Told};
ghost use Rattle.region_reading.specs.UnitReader.{vars_from, process_set_from, init_from, terminating_from, next_from, spec_from, termination_from, own_from};
ghost use Rattle.region_items.specs.Begins.{MayBegin, bound};
ghost use Rattle.region_items.specs.Stand.{IsTree};
ghost use Rattle.region_units.specs.Stands.{IsUnitOf};
ghost use Rattle.region_units.specs.Brackets.{BracketForm, closed_in, bracketed_in, behind_bullet};

use crate::words::{EDGE, is_word, past_opening_keyword};
use expr_nodes::cursor::Halt;
use expr_nodes::spot::{Spot, past_mark, past_sign, refused};
use expr_nodes::view::Mark;
use expr_rows::on_next::past_bullet;
use region_calls::bulleted::{conjuncts, ways};
use region_calls::order::spec as fairness;
use region_calls::titles::past_title;
use region_items::names::past_names;
use region_items::opening::{past_opening_mark, past_opening_sign};
use region_items::operands::expression;
use region_made::unit::Unit;
use std::alloc::Global;
use tla_pool::Pool;
use tla_token::{Place, Rule, Span, Tokens};
use tla_tree::{NodeId, Op};

// `== <<x, y>>` behind `vars`.
fn vars(alloc: Global, tokens: &Tokens, s: Spot) -> Result<(Unit, usize), Halt>
    requires { s.at ≤ length tokens.now.items.items }
    ensures read { (p : Place) (ts : List Tree) → Told (λ x f. IsUnitOf ts x.0 f) (λ x. ahead tokens.now x.1) result (vars_from (bound s.left) p (ahead tokens.now s.at)) }
    ensures inside { IfOk result (λ x. x.1 ≤ length tokens.now.items.items) }
{
    let s = Spot { edge: EDGE, ..s };
    let (_, at) = past_mark(tokens, s, Mark::Defines)?;
    let (_, from) = past_opening_mark(tokens, Spot { at, ..s }, Mark::OpenTuple)?;
    let (names, at) = past_names(alloc, tokens, Spot { at: from.at, ..s })?;
    let (_, at) = past_mark(tokens, Spot { at, ..s }, Mark::CloseTuple)?;
    Ok((Unit::Vars(names), at))
}

// `== e` behind `ProcSet`.
fn process_set(
    alloc: Global,
    tokens: &Tokens,
    pool: &mut Pool,
    s: Spot,
) -> Result<(Unit, usize), Halt>
    requires given { MayBegin tokens.now s }
    ensures read { (p : Place) → Told (λ x f. IsUnitOf pool.new x.0 f) (λ x. ahead tokens.now x.1) result (process_set_from (bound s.left) p (ahead tokens.now s.at)) }
    ensures kept { Keeps pool.old pool.new }
    ensures inside { IfOk result (λ x. x.1 ≤ length tokens.now.items.items) }
{
    let s = Spot { edge: EDGE, ..s };
    let (_, at) = past_mark(tokens, s, Mark::Defines)?;
    let (set, at) = expression(alloc, tokens, pool, Spot { at, ..s })?;
    Ok((Unit::ProcessSet(set), at))
}

// `==` and conjuncts behind `Init`.
fn init(alloc: Global, tokens: &Tokens, pool: &mut Pool, s: Spot) -> Result<(Unit, usize), Halt>
    requires given { MayBegin tokens.now s }
    ensures read { (p : Place) → Told (λ x f. IsUnitOf pool.new x.0 f) (λ x. ahead tokens.now x.1) result (init_from (bound s.left) p (ahead tokens.now s.at)) }
    ensures kept { Keeps pool.old pool.new }
    ensures inside { IfOk result (λ x. x.1 ≤ length tokens.now.items.items) }
{
    let s = Spot { edge: EDGE, ..s };
    let (_, at) = past_mark(tokens, s, Mark::Defines)?;
    let (list, at) = conjuncts(alloc, tokens, pool, Spot { at, ..s })?;
    Ok((Unit::Init(list), at))
}

// `e)` behind `(`.
fn closed(alloc: Global, tokens: &Tokens, pool: &mut Pool, s: Spot) -> Result<(NodeId, usize), Halt>
    requires given { MayBegin tokens.now s }
    ensures read { (p : Place) → Told (λ x (f : BracketForm). IsTree pool.new x.0 f.inner) (λ x. ahead tokens.now x.1) result (closed_in (bound s.left) s.edge p (ahead tokens.now s.at)) }
    ensures kept { Keeps pool.old pool.new }
    ensures inside { IfOk result (λ x. x.1 ≤ length tokens.now.items.items) }
{
    let (e, at) = expression(alloc, tokens, pool, s)?;
    let (_, at) = past_mark(tokens, Spot { at, ..s }, Mark::CloseBracket)?;
    Ok((e, at))
}

// `(e)`
fn bracketed(
    alloc: Global,
    tokens: &Tokens,
    pool: &mut Pool,
    s: Spot,
) -> Result<(NodeId, usize), Halt>
    requires given { MayBegin tokens.now s }
    ensures read { Told (λ x (f : BracketForm). IsTree pool.new x.0 f.inner) (λ x. ahead tokens.now x.1) result (bracketed_in (bound s.left) s.edge (ahead tokens.now s.at)) }
    ensures kept { Keeps pool.old pool.new }
    ensures inside { IfOk result (λ x. x.1 ≤ length tokens.now.items.items) }
{
    let (_, from) = past_opening_mark(tokens, s, Mark::OpenBracket)?;
    let edge = s.edge;
    closed(alloc, tokens, pool, Spot { edge, ..from })
}

// `(e) /\ UNCHANGED vars` behind this `/\`, in whose column the other stands.
fn terminating_after(
    alloc: Global,
    tokens: &Tokens,
    pool: &mut Pool,
    s: Spot,
    bullet: Place,
) -> Result<(Unit, usize), Halt>
    requires given { MayBegin tokens.now s }
    ensures read { (p q : Place) → Told (λ x f. IsUnitOf pool.new x.0 f) (λ x. ahead tokens.now x.1) result (behind_bullet (bound s.left) p q bullet (ahead tokens.now s.at)) }
    ensures kept { Keeps pool.old pool.new }
    ensures inside { IfOk result (λ x. x.1 ≤ length tokens.now.items.items) }
{
    let edge = bullet.col;
    let s = Spot { edge, ..s };
    let (test, at) = bracketed(alloc, tokens, pool, s)?;
    let margin = Spot {
        at,
        edge: EDGE,
        ..s
    };
    let (_, at) = past_bullet(tokens, margin, Op::And, edge)?;
    let (_, from) = past_opening_keyword(tokens, Spot { at, ..s }, b"UNCHANGED")?;
    let (_, at) = past_title(tokens, Spot { at: from.at, ..s }, b"vars")?;
    Ok((Unit::Terminating(test), at))
}

// `== /\ (e) /\ UNCHANGED vars` behind `Terminating`.
fn terminating(
    alloc: Global,
    tokens: &Tokens,
    pool: &mut Pool,
    s: Spot,
) -> Result<(Unit, usize), Halt>
    requires given { MayBegin tokens.now s }
    ensures read { (p : Place) → Told (λ x f. IsUnitOf pool.new x.0 f) (λ x. ahead tokens.now x.1) result (terminating_from (bound s.left) p (ahead tokens.now s.at)) }
    ensures kept { Keeps pool.old pool.new }
    ensures inside { IfOk result (λ x. x.1 ≤ length tokens.now.items.items) }
{
    let s = Spot { edge: EDGE, ..s };
    let (_, at) = past_mark(tokens, s, Mark::Defines)?;
    let (bullet, from) = past_opening_sign(tokens, Spot { at, ..s }, Op::And)?;
    terminating_after(alloc, tokens, pool, from, bullet)
}

// `==` and ways behind `Next`.
fn next(alloc: Global, tokens: &Tokens, pool: &mut Pool, s: Spot) -> Result<(Unit, usize), Halt>
    requires given { MayBegin tokens.now s }
    ensures read { (p : Place) → Told (λ x f. IsUnitOf pool.new x.0 f) (λ x. ahead tokens.now x.1) result (next_from (bound s.left) p (ahead tokens.now s.at)) }
    ensures kept { Keeps pool.old pool.new }
    ensures inside { IfOk result (λ x. x.1 ≤ length tokens.now.items.items) }
{
    let s = Spot { edge: EDGE, ..s };
    let (_, at) = past_mark(tokens, s, Mark::Defines)?;
    let (list, at) = ways(alloc, tokens, pool, Spot { at, ..s })?;
    Ok((Unit::Next(list), at))
}

// `==` and conjuncts behind `Spec`.
fn spec(alloc: Global, tokens: &Tokens, pool: &mut Pool, s: Spot) -> Result<(Unit, usize), Halt>
    requires given { MayBegin tokens.now s }
    ensures read { (p : Place) → Told (λ x f. IsUnitOf pool.new x.0 f) (λ x. ahead tokens.now x.1) result (spec_from (bound s.left) p (ahead tokens.now s.at)) }
    ensures kept { Keeps pool.old pool.new }
    ensures inside { IfOk result (λ x. x.1 ≤ length tokens.now.items.items) }
{
    let s = Spot { edge: EDGE, ..s };
    let (_, at) = past_mark(tokens, s, Mark::Defines)?;
    let (list, at) = fairness(alloc, tokens, pool, Spot { at, ..s })?;
    Ok((Unit::Spec(list), at))
}

// `== <>(e)` behind `Termination`.
fn termination(
    alloc: Global,
    tokens: &Tokens,
    pool: &mut Pool,
    s: Spot,
) -> Result<(Unit, usize), Halt>
    requires given { MayBegin tokens.now s }
    ensures read { (p : Place) → Told (λ x f. IsUnitOf pool.new x.0 f) (λ x. ahead tokens.now x.1) result (termination_from (bound s.left) p (ahead tokens.now s.at)) }
    ensures kept { Keeps pool.old pool.new }
    ensures inside { IfOk result (λ x. x.1 ≤ length tokens.now.items.items) }
{
    let s = Spot { edge: EDGE, ..s };
    let (_, at) = past_mark(tokens, s, Mark::Defines)?;
    let (_, from) = past_opening_sign(tokens, Spot { at, ..s }, Op::Less)?;
    let left = from.left;
    let (_, at) = past_sign(tokens, Spot { at: from.at, ..s }, Op::Greater)?;
    let (ended, at) = bracketed(alloc, tokens, pool, Spot { at, left, ..s })?;
    Ok((Unit::Termination(ended), at))
}

/// A unit with a title of its own, behind this title.
///
/// # Errors
///
/// The rule by which it is refused, and how many tokens are left from there on; or want of memory.
pub fn own(
    alloc: Global,
    tokens: &Tokens,
    pool: &mut Pool,
    s: Spot,
    title: Span,
) -> Result<(Unit, usize), Halt>
    requires given { MayBegin tokens.now s }
    ensures read { (p : Place) → Told (λ x f. IsUnitOf pool.new x.0 f) (λ x. ahead tokens.now x.1) result (own_from (bound s.left) p (span_bytes tokens.now.bytes.items title) (ahead tokens.now s.at)) }
    ensures kept { Keeps pool.old pool.new }
    ensures inside { IfOk result (λ x. x.1 ≤ length tokens.now.items.items) }
{
    if is_word(tokens, title, b"vars") {
        vars(alloc, tokens, s)
    } else if is_word(tokens, title, b"ProcSet") {
        process_set(alloc, tokens, pool, s)
    } else if is_word(tokens, title, b"Init") {
        init(alloc, tokens, pool, s)
    } else if is_word(tokens, title, b"Terminating") {
        terminating(alloc, tokens, pool, s)
    } else if is_word(tokens, title, b"Next") {
        next(alloc, tokens, pool, s)
    } else if is_word(tokens, title, b"Spec") {
        spec(alloc, tokens, pool, s)
    } else if is_word(tokens, title, b"Termination") {
        termination(alloc, tokens, pool, s)
    } else {
        Err(refused(tokens, s, Rule::Syntax))
    }
}
