//! Reading lists of forms behind bullets that stand in one column: ways, conjuncts of Spec, and expressions.

ghost use Rattle.std.specs.Prelude.{◌≡◌, suc, ◌<◌, ◌≤◌, IfErr, IfOk, IfSome, IfNone, true, false, length};
ghost use Rattle.tla_tree.specs.declared.op.Op.TheVariants as op;
ghost use Rattle.tla_tree.specs.Pool.{Keeps};
ghost use Rattle.tla_tree.specs.Reader as reader;
ghost use Rattle.expr_nodes.specs.Ahead.{ahead};
ghost use Rattle.expr_nodes.specs.ReadIn.{Told, Fails};
ghost use Rattle.region_reading.specs.Bound.{a_phrase};
ghost use Rattle.region_reading.specs.NameReader.{is_bullet_in, bulleted_from, bulleted_in};
ghost use Rattle.region_reading.specs.CallReader.{way_in, spec_in};
ghost use Rattle.region_items.specs.Begins.{MayBegin, bound};
ghost use Rattle.region_items.specs.Stand.{IsTree};
ghost use Rattle.region_calls.specs.Told.{IsWay, IsSpec};
ghost use Rattle.region_calls.specs.Lists.{AreAll, column_in};

use crate::calls::way;
use crate::fairness::{SpecLine, spec_line};
use expr_nodes::cursor::{Halt, is_sign};
use expr_nodes::spot::{Spot, deeper, next_at, refused};
use expr_rows::on_next::{is_bullet_next, past_bullet};
use module_write::module::Way;
use region_items::operands::expression;
use std::alloc::Global;
use tla_pool::Pool;
use tla_token::{Rule, Tokens};
use tla_tree::{NodeId, Op};

// Right of column 1.
const EDGE: u32 = 1;

// The number of the token after a sign of this operator in this column, where it is next.
#[tactic(auto, using(crate::proofs::ReadBullets::bullet_at_end, expr_nodes::proofs::AheadLemmas::ahead_tail))]
fn after_bullet(tokens: &Tokens, s: Spot, op: Op, col: u32) -> Option<usize>
    requires { s.at ≤ length tokens.now.items.items }
    ensures there { IfSome result (λ i. is_bullet_in op col (reader.next s.edge (ahead tokens.now s.at)).place (reader.next s.edge (ahead tokens.now s.at)).kind ≡ true) }
    ensures rest { IfSome result (λ i. ahead tokens.now i ≡ reader.tail (ahead tokens.now s.at)) }
    ensures inside { IfSome result (λ i. i ≤ length tokens.now.items.items) }
    ensures further { IfSome result (λ i. s.at < i) }
    ensures none { IfNone result (is_bullet_in op col (reader.next s.edge (ahead tokens.now s.at)).place (reader.next s.edge (ahead tokens.now s.at)).kind ≡ false) }
{
    if s.at < tokens.items.len() && is_bullet_next(tokens, s, op, col) {
        Some(s.at + 1)
    } else {
        None
    }
}

// At a list behind this sign: how many forms may open in it, and the column of its bullets.
fn column(tokens: &Tokens, s: Spot, op: Op) -> Result<(u32, u32), Halt>
    requires { s.at ≤ length tokens.now.items.items }
    ensures there { IfOk result (λ x. reader.is_sign op (reader.next 1 (ahead tokens.now s.at)).kind ≡ true) }
    ensures left { IfOk result (λ x. suc x.0 ≡ s.left) }
    ensures column { IfOk result (λ x. x.1 ≡ (reader.next 1 (ahead tokens.now s.at)).place.col) }
    ensures none { IfErr result (λ w. Fails w (column_in (bound s.left) op (ahead tokens.now s.at))) }
{
    let s = Spot { edge: EDGE, ..s };
    let t = next_at(tokens, s);
    if !is_sign(op, t.view) {
        return Err(refused(tokens, s, Rule::Syntax));
    }
    let left = deeper(tokens, s, 0)?.left;
    Ok((left, t.place.col))
}

// Ways behind `\/` in this column.
fn ways_from(
    alloc: Global,
    tokens: &Tokens,
    pool: &mut Pool,
    s: Spot,
    col: u32,
) -> Result<(Vec<Way>, usize), Halt>
    requires given { MayBegin tokens.now s }
    ensures read { Told (λ x fs. AreAll (IsWay pool.new) x.0.items fs) (λ x. ahead tokens.now x.1) result (bulleted_from op.Or (way_in (bound s.left)) col (ahead tokens.now s.at)) }
    ensures kept { Keeps pool.old pool.new }
    ensures inside { IfOk result (λ x. x.1 ≤ length tokens.now.items.items) }
    ensures further { IfOk result (λ x. s.at ≤ x.1) }
{
    let mut list = Vec::new(alloc);
    let (_, mut at) = past_bullet(tokens, Spot { edge: EDGE, ..s }, Op::Or, col)?;
    loop {
        let (one, next) = way(alloc, tokens, pool, Spot { at, edge: col, ..s })?;
        list.push(one)?;
        let end = Spot {
            at: next,
            edge: EDGE,
            ..s
        };
        let Some(from) = after_bullet(tokens, end, Op::Or, col) else {
            return Ok((list, next));
        };
        at = from;
    }
}

/// Ways behind `\/`, all in the column of the first, which is right of column 1 and of no other edge.
///
/// # Errors
///
/// The rule by which it is refused, and how many tokens are left from there on; or want of memory.
pub fn ways(
    alloc: Global,
    tokens: &Tokens,
    pool: &mut Pool,
    s: Spot,
) -> Result<(Vec<Way>, usize), Halt>
    requires given { MayBegin tokens.now s }
    ensures read { Told (λ x fs. AreAll (IsWay pool.new) x.0.items fs) (λ x. ahead tokens.now x.1) result (bulleted_in (bound s.left) op.Or way_in (ahead tokens.now s.at)) }
    ensures kept { Keeps pool.old pool.new }
    ensures inside { IfOk result (λ x. x.1 ≤ length tokens.now.items.items) }
    ensures further { IfOk result (λ x. s.at ≤ x.1) }
{
    let (left, col) = column(tokens, s, Op::Or)?;
    ways_from(alloc, tokens, pool, Spot { left, ..s }, col)
}

// Conjuncts of Spec behind `/\` in this column.
fn spec_lines_from(
    alloc: Global,
    tokens: &Tokens,
    pool: &mut Pool,
    s: Spot,
    col: u32,
) -> Result<(Vec<SpecLine>, usize), Halt>
    requires given { MayBegin tokens.now s }
    ensures read { Told (λ x fs. AreAll (IsSpec pool.new) x.0.items fs) (λ x. ahead tokens.now x.1) result (bulleted_from op.And (spec_in (bound s.left)) col (ahead tokens.now s.at)) }
    ensures kept { Keeps pool.old pool.new }
    ensures inside { IfOk result (λ x. x.1 ≤ length tokens.now.items.items) }
    ensures further { IfOk result (λ x. s.at ≤ x.1) }
{
    let mut list = Vec::new(alloc);
    let (_, mut at) = past_bullet(tokens, Spot { edge: EDGE, ..s }, Op::And, col)?;
    loop {
        let (one, next) = spec_line(alloc, tokens, pool, Spot { at, edge: col, ..s })?;
        list.push(one)?;
        let end = Spot {
            at: next,
            edge: EDGE,
            ..s
        };
        let Some(from) = after_bullet(tokens, end, Op::And, col) else {
            return Ok((list, next));
        };
        at = from;
    }
}

/// Conjuncts of Spec behind `/\`, all in the column of the first, which is right of column 1 and of no other edge.
///
/// # Errors
///
/// The rule by which it is refused, and how many tokens are left from there on; or want of memory.
pub fn spec_lines(
    alloc: Global,
    tokens: &Tokens,
    pool: &mut Pool,
    s: Spot,
) -> Result<(Vec<SpecLine>, usize), Halt>
    requires given { MayBegin tokens.now s }
    ensures read { Told (λ x fs. AreAll (IsSpec pool.new) x.0.items fs) (λ x. ahead tokens.now x.1) result (bulleted_in (bound s.left) op.And spec_in (ahead tokens.now s.at)) }
    ensures kept { Keeps pool.old pool.new }
    ensures inside { IfOk result (λ x. x.1 ≤ length tokens.now.items.items) }
    ensures further { IfOk result (λ x. s.at ≤ x.1) }
{
    let (left, col) = column(tokens, s, Op::And)?;
    spec_lines_from(alloc, tokens, pool, Spot { left, ..s }, col)
}

// Expressions behind `/\` in this column.
fn conjuncts_from(
    alloc: Global,
    tokens: &Tokens,
    pool: &mut Pool,
    s: Spot,
    col: u32,
) -> Result<(Vec<NodeId>, usize), Halt>
    requires given { MayBegin tokens.now s }
    ensures read { Told (λ x fs. AreAll (IsTree pool.new) x.0.items fs) (λ x. ahead tokens.now x.1) result (bulleted_from op.And (a_phrase (bound s.left)) col (ahead tokens.now s.at)) }
    ensures kept { Keeps pool.old pool.new }
    ensures inside { IfOk result (λ x. x.1 ≤ length tokens.now.items.items) }
    ensures further { IfOk result (λ x. s.at ≤ x.1) }
{
    let mut list = Vec::new(alloc);
    let (_, mut at) = past_bullet(tokens, Spot { edge: EDGE, ..s }, Op::And, col)?;
    loop {
        let (one, next) = expression(alloc, tokens, pool, Spot { at, edge: col, ..s })?;
        list.push(one)?;
        let end = Spot {
            at: next,
            edge: EDGE,
            ..s
        };
        let Some(from) = after_bullet(tokens, end, Op::And, col) else {
            return Ok((list, next));
        };
        at = from;
    }
}

/// Expressions behind `/\`, all in the column of the first, which is right of column 1 and of no other edge.
///
/// # Errors
///
/// The rule by which it is refused, and how many tokens are left from there on; or want of memory.
pub fn conjuncts(
    alloc: Global,
    tokens: &Tokens,
    pool: &mut Pool,
    s: Spot,
) -> Result<(Vec<NodeId>, usize), Halt>
    requires given { MayBegin tokens.now s }
    ensures read { Told (λ x fs. AreAll (IsTree pool.new) x.0.items fs) (λ x. ahead tokens.now x.1) result (bulleted_in (bound s.left) op.And a_phrase (ahead tokens.now s.at)) }
    ensures kept { Keeps pool.old pool.new }
    ensures inside { IfOk result (λ x. x.1 ≤ length tokens.now.items.items) }
    ensures further { IfOk result (λ x. s.at ≤ x.1) }
{
    let (left, col) = column(tokens, s, Op::And)?;
    conjuncts_from(alloc, tokens, pool, Spot { left, ..s }, col)
}
