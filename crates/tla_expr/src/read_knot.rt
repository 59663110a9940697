//! Reading expressions from tokens, each part by the same reader where fewer forms may open.

ghost use Rattle.std.specs.Prelude.{◌<◌, ◌≤◌, length};
ghost use Rattle.tla_tree.specs.Nesting.{deepest_in_module};
ghost use Rattle.expr_rows.specs.HasRead.{ReadsThere};
ghost use Rattle.tla_expr.specs.Numbers.{NumbersFit};

use crate::read_first::expression;
use expr_nodes::cursor::Halt;
use expr_nodes::make::Read;
use expr_nodes::shape::Context;
use expr_nodes::spot::Spot;
use std::alloc::Global;
use tla_pool::Pool;
use tla_token::Tokens;

/// An expression there.
///
/// # Errors
///
/// The rule by which it is refused, and how many tokens are left from there on; or want of memory.
pub fn read_at(
    alloc: Global,
    tokens: &Tokens,
    pool: &mut Pool,
    context: Context,
    s: Spot,
) -> Result<(Read, usize), Halt>
    requires there { s.at ≤ length tokens.now.items.items }
    requires numbers { NumbersFit tokens.now }
    requires limited { s.left ≤ deepest_in_module }
    ensures { ReadsThere tokens.now pool.old pool.new context s result }
{
    let left = s.left;
    let inner = |pool: &mut Pool, c: Context, t: Spot| -> Result<(Read, usize), Halt>
        requires { (t.left < left) × (left ≤ deepest_in_module) × (t.at ≤ length tokens.now.items.items) × NumbersFit tokens.now }
        ensures { ReadsThere tokens.entry.now pool.old pool.new c t result }
    {
        let _ = &left;
        read_at(alloc, tokens, pool, c, t)
    };
    expression(alloc, tokens, &inner, pool, context, s)
}
