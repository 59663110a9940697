//! Expressions of a translation, and those that need no brackets as an operand.

ghost use Rattle.std.specs.Prelude.{◌<◌, ◌≤◌, IfOk, length};
ghost use Rattle.tla_tree.specs.Pool.{Keeps};
ghost use Rattle.expr_nodes.specs.Ahead.{ahead};
ghost use Rattle.expr_nodes.specs.ReadIn.{Told};
ghost use Rattle.region_reading.specs.Bound.{a_phrase};
ghost use Rattle.region_reading.specs.ItemReader.{an_operand};
ghost use Rattle.region_items.specs.Begins.{MayBegin, bound};
ghost use Rattle.region_items.specs.Stand.{IsTree};

use expr_nodes::cursor::Halt;
use expr_nodes::shape::stands_alone;
use expr_nodes::spot::{Spot, refused};
use std::alloc::Global;
use tla_expr::read_parts::read_bounded;
use tla_pool::Pool;
use tla_token::{Rule, Tokens};
use tla_tree::NodeId;

/// An expression: its number in the pool.
///
/// # Errors
///
/// The rule of the first token that no expression has there, where those before it are none, or at which too many forms are
/// open, and how many tokens are left from it on; or want of memory.
pub fn expression(
    alloc: Global,
    tokens: &Tokens,
    pool: &mut Pool,
    s: Spot,
) -> Result<(NodeId, usize), Halt>
    requires given { MayBegin tokens.now s }
    ensures read { Told (λ x a. IsTree pool.new x.0 a) (λ x. ahead tokens.now x.1) result (a_phrase (bound s.left) s.edge (ahead tokens.now s.at)) }
    ensures kept { Keeps pool.old pool.new }
    ensures inside { IfOk result (λ x. x.1 ≤ length tokens.now.items.items) }
    ensures further { IfOk result (λ x. s.at < x.1) }
{
    let (e, end) = read_bounded(alloc, tokens, pool, s.at, s.edge, s.left)?;
    Ok((e.id, end))
}

/// An expression that needs no brackets as an operand.
///
/// # Errors
///
/// As of `expression`; and after an expression that needs brackets, by the rule of syntax.
pub fn operand(
    alloc: Global,
    tokens: &Tokens,
    pool: &mut Pool,
    s: Spot,
) -> Result<(NodeId, usize), Halt>
    requires given { MayBegin tokens.now s }
    ensures read { Told (λ x a. IsTree pool.new x.0 a) (λ x. ahead tokens.now x.1) result (an_operand (bound s.left) s.edge (ahead tokens.now s.at)) }
    ensures kept { Keeps pool.old pool.new }
    ensures inside { IfOk result (λ x. x.1 ≤ length tokens.now.items.items) }
    ensures further { IfOk result (λ x. s.at < x.1) }
{
    let (e, end) = read_bounded(alloc, tokens, pool, s.at, s.edge, s.left)?;
    if stands_alone(e.shape) {
        Ok((e.id, end))
    } else {
        Err(refused(tokens, Spot { at: end, ..s }, Rule::Syntax))
    }
}
