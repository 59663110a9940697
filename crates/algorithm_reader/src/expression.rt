//! Reading the expressions of algorithms, within the limit of open forms.

ghost use Rattle.std.specs.Prelude.{◌<◌, ◌≤◌, IfOk, length};
ghost use Rattle.tla_tree.specs.Pool.{at as tree_at, AllBelow, Keeps};
ghost use Rattle.tla_tree.specs.Spelling.{tree_of, trees_of};
ghost use Rattle.expr_nodes.specs.Ahead.{ahead};
ghost use Rattle.tla_expr.specs.Numbers.{NumbersFit};
ghost use Rattle.pcal_tree.specs.InMemory.{past_number};
ghost use Rattle.algorithm_reader.specs.PartsRead.{ReadsPart, parts_in, row_at, past_row};

use expr_nodes::cursor::Halt;
use std::alloc::Global;
use tla_expr::read_parts::{read_expression_at, read_expressions_at};
use tla_pool::Pool;
use tla_token::Tokens;
use tla_tree::NodeId;

// How many forms may be open in an expression.
const DEEPEST: u32 = 200;

/// The expression at a token: its number in the pool.
///
/// # Errors
///
/// Where a token is next that can't be in it there, or at which too many forms are open; or for want of memory.
pub fn read_expression(
    alloc: Global,
    tokens: &Tokens,
    pool: &mut Pool,
    at: usize,
) -> Result<(NodeId, usize), Halt>
    requires there { at ≤ length tokens.now.items.items }
    requires numbers { NumbersFit tokens.now }
    ensures read { ReadsPart tree_at past_number tree_of tokens.now pool.new result ((parts_in tokens.now).expr (ahead tokens.now at)) }
    ensures kept { Keeps pool.old pool.new }
    ensures within { IfOk result (λ x. x.0 < length pool.new) }
    ensures inside { IfOk result (λ x. x.1 ≤ length tokens.now.items.items) }
    ensures further { IfOk result (λ x. at < x.1) }
{
    read_expression_at(alloc, tokens, pool, at, DEEPEST)
}

/// The expressions at a token with commas between them, as arguments of a call: their numbers in the pool.
///
/// # Errors
///
/// As of `read_expression`, for the first of them that is refused.
pub fn read_row(
    alloc: Global,
    tokens: &Tokens,
    pool: &mut Pool,
    at: usize,
) -> Result<(Vec<NodeId>, usize), Halt>
    requires there { at ≤ length tokens.now.items.items }
    requires numbers { NumbersFit tokens.now }
    ensures read { ReadsPart row_at past_row trees_of tokens.now pool.new result ((parts_in tokens.now).arguments (ahead tokens.now at)) }
    ensures kept { Keeps pool.old pool.new }
    ensures some { IfOk result (λ x. 1 ≤ length x.0.items) }
    ensures within { IfOk result (λ x. AllBelow (length pool.new) x.0.items) }
    ensures inside { IfOk result (λ x. x.1 ≤ length tokens.now.items.items) }
    ensures further { IfOk result (λ x. at < x.1) }
{
    read_expressions_at(alloc, tokens, pool, at, DEEPEST)
}

/// The expressions between the square brackets of a left side, which are a form round them: their numbers in the pool.
///
/// # Errors
///
/// As of `read_expression`, for the first of them that is refused.
pub fn read_subscripts(
    alloc: Global,
    tokens: &Tokens,
    pool: &mut Pool,
    at: usize,
) -> Result<(Vec<NodeId>, usize), Halt>
    requires there { at ≤ length tokens.now.items.items }
    requires numbers { NumbersFit tokens.now }
    ensures read { ReadsPart row_at past_row trees_of tokens.now pool.new result ((parts_in tokens.now).subscripts (ahead tokens.now at)) }
    ensures kept { Keeps pool.old pool.new }
    ensures some { IfOk result (λ x. 1 ≤ length x.0.items) }
    ensures within { IfOk result (λ x. AllBelow (length pool.new) x.0.items) }
    ensures inside { IfOk result (λ x. x.1 ≤ length tokens.now.items.items) }
    ensures further { IfOk result (λ x. at < x.1) }
{
    read_expressions_at(alloc, tokens, pool, at, DEEPEST - 1)
}
