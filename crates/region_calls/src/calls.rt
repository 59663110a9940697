//! Reading calls of actions, and the ways of a step.

ghost use Rattle.std.specs.Prelude.{◌≤◌, IfOk, length};
ghost use Rattle.tla_token.specs.declared.place.Place.{Place};
ghost use Rattle.tla_tree.specs.Pool.{Keeps};
ghost use Rattle.expr_nodes.specs.Ahead.{ahead};
ghost use Rattle.expr_nodes.specs.ReadIn.{Told};
ghost use Rattle.region_reading.specs.CallReader.{call_from as call_from_in, call_in, way_in};
ghost use Rattle.region_items.specs.Begins.{MayBegin, bound};
ghost use Rattle.region_calls.specs.Told.{IsCall, IsWay, IsAmong, among_in, behind_exists};

use expr_nodes::cursor::Halt;
use expr_nodes::spot::{Spot, after_mark, deeper, past_mark, past_sign};
use expr_nodes::view::{Key, Mark};
use expr_rows::on_next::after_key;
use module_write::module::{Call, Way};
use region_items::names::past_name;
use region_items::operands::expression;
use std::alloc::Global;
use tla_pool::Pool;
use tla_token::Tokens;
use tla_tree::{Name, NodeId, Op};

// `e)` behind `A(`
fn call_from(
    alloc: Global,
    tokens: &Tokens,
    pool: &mut Pool,
    s: Spot,
    title: Name,
) -> Result<(Call, usize), Halt>
    requires given { MayBegin tokens.now s }
    ensures read { (p q : Place) → Told (λ x f. IsCall pool.new x.0 f) (λ x. ahead tokens.now x.1) result (call_from_in (bound s.left) s.edge p title q (ahead tokens.now s.at)) }
    ensures kept { Keeps pool.old pool.new }
    ensures inside { IfOk result (λ x. x.1 ≤ length tokens.now.items.items) }
    ensures further { IfOk result (λ x. s.at ≤ x.1) }
{
    let (e, at) = expression(alloc, tokens, pool, s)?;
    let (_, at) = past_mark(tokens, Spot { at, ..s }, Mark::CloseBracket)?;
    Ok((Call::With(title, e), at))
}

/// `A`, or `A(e)`.
///
/// # Errors
///
/// The rule by which it is refused, and how many tokens are left from there on; or want of memory.
pub fn call(alloc: Global, tokens: &Tokens, pool: &mut Pool, s: Spot) -> Result<(Call, usize), Halt>
    requires given { MayBegin tokens.now s }
    ensures read { Told (λ x f. IsCall pool.new x.0 f) (λ x. ahead tokens.now x.1) result (call_in (bound s.left) s.edge (ahead tokens.now s.at)) }
    ensures kept { Keeps pool.old pool.new }
    ensures inside { IfOk result (λ x. x.1 ≤ length tokens.now.items.items) }
    ensures further { IfOk result (λ x. s.at ≤ x.1) }
{
    let ((_, title), at) = past_name(alloc, tokens, s)?;
    let Some(from) = after_mark(tokens, Spot { at, ..s }, Mark::OpenBracket) else {
        return Ok((Call::Bare(title), at));
    };
    let d = deeper(tokens, Spot { at, ..s }, 0)?;
    call_from(alloc, tokens, pool, Spot { at: from, ..d }, title)
}

/// `x \in S :`, the name and the number of the set.
///
/// # Errors
///
/// The rule by which it is refused, and how many tokens are left from there on; or want of memory.
pub fn among(
    alloc: Global,
    tokens: &Tokens,
    pool: &mut Pool,
    s: Spot,
) -> Result<((Name, NodeId), usize), Halt>
    requires given { MayBegin tokens.now s }
    ensures read { Told (λ x f. IsAmong pool.new x.0 f) (λ x. ahead tokens.now x.1) result (among_in (bound s.left) s.edge (ahead tokens.now s.at)) }
    ensures kept { Keeps pool.old pool.new }
    ensures inside { IfOk result (λ x. x.1 ≤ length tokens.now.items.items) }
    ensures further { IfOk result (λ x. s.at ≤ x.1) }
{
    let ((_, name), at) = past_name(alloc, tokens, s)?;
    let (_, at) = past_sign(tokens, Spot { at, ..s }, Op::In)?;
    let (set, at) = expression(alloc, tokens, pool, Spot { at, ..s })?;
    let (_, at) = past_mark(tokens, Spot { at, ..s }, Mark::Colon)?;
    Ok(((name, set), at))
}

// `x \in S : A(x)` behind `\E`
#[tactic(auto, using(crate::proofs::Kept::way_told))]
fn way_from(alloc: Global, tokens: &Tokens, pool: &mut Pool, s: Spot) -> Result<(Way, usize), Halt>
    requires given { MayBegin tokens.now s }
    ensures read { (p : Place) → Told (λ x f. IsWay pool.new x.0 f) (λ x. ahead tokens.now x.1) result (behind_exists (bound s.left) s.edge p (ahead tokens.now s.at)) }
    ensures kept { Keeps pool.old pool.new }
    ensures inside { IfOk result (λ x. x.1 ≤ length tokens.now.items.items) }
    ensures further { IfOk result (λ x. s.at ≤ x.1) }
{
    let ((name, set), at) = among(alloc, tokens, pool, s)?;
    let (action, at) = call(alloc, tokens, pool, Spot { at, ..s })?;
    Ok((Way::Among(name, set, action), at))
}

/// `A(e)`, or `\E x \in S : A(x)`.
///
/// # Errors
///
/// The rule by which it is refused, and how many tokens are left from there on; or want of memory.
pub fn way(alloc: Global, tokens: &Tokens, pool: &mut Pool, s: Spot) -> Result<(Way, usize), Halt>
    requires given { MayBegin tokens.now s }
    ensures read { Told (λ x f. IsWay pool.new x.0 f) (λ x. ahead tokens.now x.1) result (way_in (bound s.left) s.edge (ahead tokens.now s.at)) }
    ensures kept { Keeps pool.old pool.new }
    ensures inside { IfOk result (λ x. x.1 ≤ length tokens.now.items.items) }
    ensures further { IfOk result (λ x. s.at ≤ x.1) }
{
    let Some(from) = after_key(tokens, s, Key::Exists) else {
        let (action, at) = call(alloc, tokens, pool, s)?;
        return Ok((Way::One(action), at));
    };
    let d = deeper(tokens, s, 0)?;
    way_from(alloc, tokens, pool, Spot { at: from, ..d })
}
