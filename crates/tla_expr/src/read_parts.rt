//! Reading what algorithms have of expressions: one from a token on, or a row of them.

ghost use Rattle.std.specs.Prelude.{◌<◌, ◌≤◌, false, length, IfOk};
ghost use Rattle.tla_tree.specs.Nesting.{deepest_in_module};
ghost use Rattle.tla_tree.specs.Pool.{AllBelow, Keeps};
ghost use Rattle.expr_rows.specs.HasRead.{ReadsThere};
ghost use Rattle.tla_tree.specs.Whole.{read_bounded as read_bounded_of};
ghost use Rattle.expr_nodes.specs.Ahead.{ahead};
ghost use Rattle.expr_nodes.specs.ReadIn.{IsIn, Told};
ghost use Rattle.tla_expr.specs.Numbers.{NumbersFit};
ghost use Rattle.tla_expr.specs.ReadTrees.{ReadsTree, ReadsTrees};

use crate::read_knot::read_at;
use expr_nodes::cursor::Halt;
use expr_nodes::make::Read;
use expr_nodes::shape::Context;
use expr_nodes::spot::Spot;
use expr_rows::read_row::phrases;
use std::alloc::Global;
use tla_pool::Pool;
use tla_token::Tokens;
use tla_tree::NodeId;

/// The expression that begins at a token, where so many forms may be open in it: its number in the pool, and the number of
/// the first token that isn't in it.
///
/// # Errors
///
/// The rule of the first token that no expression has there, where those before it are none, or at which too many forms are
/// open, and how many tokens are left from it on; or want of memory.
pub fn read_expression_at(
    alloc: Global,
    tokens: &Tokens,
    pool: &mut Pool,
    at: usize,
    left: u32,
) -> Result<(NodeId, usize), Halt>
    requires there { at ≤ length tokens.now.items.items }
    requires numbers { NumbersFit tokens.now }
    requires limited { left ≤ deepest_in_module }
    ensures read { ReadsTree tokens.now pool.new at left result }
    ensures kept { Keeps pool.old pool.new }
    ensures within { IfOk result (λ x. x.0 < length pool.new) }
    ensures inside { IfOk result (λ x. x.1 ≤ length tokens.now.items.items) }
    ensures further { IfOk result (λ x. at < x.1) }
{
    let s = Spot {
        at,
        edge: 0,
        left,
        linked: true,
    };
    let (e, end) = read_at(alloc, tokens, pool, Context::Free, s)?;
    Ok((e.id, end))
}

/// The expression of a module's translation that begins at a token, all of it to the right of an edge, where so many forms may
/// be open in it, fields and closed applications not counted: its number in the pool with its shape, and the number of the
/// first token that isn't in it.
///
/// # Errors
///
/// As of `read_expression_at`.
pub fn read_bounded(
    alloc: Global,
    tokens: &Tokens,
    pool: &mut Pool,
    at: usize,
    edge: u32,
    left: u32,
) -> Result<(Read, usize), Halt>
    requires there { at ≤ length tokens.now.items.items }
    requires numbers { NumbersFit tokens.now }
    requires limited { left ≤ deepest_in_module }
    ensures read { Told (λ x a. IsIn false pool.new x.0 a) (λ x. ahead tokens.now x.1) result (read_bounded_of left edge (ahead tokens.now at)) }
    ensures kept { Keeps pool.old pool.new }
    ensures within { IfOk result (λ x. x.0.id < length pool.new) }
    ensures inside { IfOk result (λ x. x.1 ≤ length tokens.now.items.items) }
    ensures further { IfOk result (λ x. at < x.1) }
{
    let s = Spot {
        at,
        edge,
        left,
        linked: false,
    };
    read_at(alloc, tokens, pool, Context::Free, s)
}

/// The expressions from a token on, with commas between them, in each of which so many forms may be open: their numbers in
/// the pool, and the number of the first token that isn't in them.
///
/// # Errors
///
/// As of `read_expression_at`, for the first of them that is refused.
pub fn read_expressions_at(
    alloc: Global,
    tokens: &Tokens,
    pool: &mut Pool,
    at: usize,
    left: u32,
) -> Result<(Vec<NodeId>, usize), Halt>
    requires there { at ≤ length tokens.now.items.items }
    requires numbers { NumbersFit tokens.now }
    requires limited { left ≤ deepest_in_module }
    ensures read { ReadsTrees tokens.now pool.new at left result }
    ensures kept { Keeps pool.old pool.new }
    ensures some { IfOk result (λ x. 1 ≤ length x.0.items) }
    ensures within { IfOk result (λ x. AllBelow (length pool.new) x.0.items) }
    ensures inside { IfOk result (λ x. x.1 ≤ length tokens.now.items.items) }
    ensures further { IfOk result (λ x. at < x.1) }
{
    let inner = |pool: &mut Pool, c: Context, t: Spot| -> Result<(Read, usize), Halt>
        requires { (t.left ≤ deepest_in_module) × (t.at ≤ length tokens.now.items.items) × NumbersFit tokens.now }
        ensures { ReadsThere tokens.entry.now pool.old pool.new c t result }
    { read_at(alloc, tokens, pool, c, t) };
    let s = Spot {
        at,
        edge: 0,
        left,
        linked: true,
    };
    let (many, end) = phrases(alloc, tokens, &inner, pool, s)?;
    Ok((many.ids, end))
}
