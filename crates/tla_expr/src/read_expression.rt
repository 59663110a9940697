//! Reading an expression from a token on, or where it is refused.

ghost use Rattle.std.specs.Prelude.{◌≡◌, ◌<◌, ◌≤◌, ◌+◌, length, IfOk, Err};
ghost use Rattle.tla_token.specs.declared.rule.Refusal as code;
ghost use Rattle.tla_token.specs.declared.rule.Stop.TheVariants as stop;
ghost use Rattle.tla_tree.specs.Pool.{at as tree_at, Keeps};
ghost use Rattle.tla_tree.specs.FirstStop.{ReadsExpression, RefusesExpression};
ghost use Rattle.expr_nodes.specs.Ahead.{ahead};
ghost use Rattle.tla_expr.specs.Numbers.{NumbersFit};

use crate::read_knot::read_at;
use expr_nodes::cursor::Halt;
use expr_nodes::shape::Context;
use expr_nodes::spot::{Spot, place_before};
use std::alloc::Global;
use tla_pool::Pool;
use tla_token::{Refusal, Stop, Tokens};
use tla_tree::NodeId;

// How many forms may be open at a token.
const DEEPEST: u32 = 200;

/// The expression that begins at a token, by its number in the pool, and how many tokens it has. It goes up to the first token
/// that can't be in it.
///
/// # Errors
///
/// The rule and place of the first token that no expression has there, where those before it are none, or at which too many
/// forms are open; or want of memory.
pub fn read_expr(
    alloc: Global,
    tokens: &Tokens,
    at: usize,
    pool: &mut Pool,
) -> Result<(NodeId, usize), Stop>
    requires there { at ≤ length tokens.now.items.items }
    requires numbers { NumbersFit tokens.now }
    ensures read { IfOk result (λ x. ReadsExpression (ahead tokens.now at) x.1 (tree_at pool.new x.0)) }
    ensures within { IfOk result (λ x. x.0 < length pool.new) }
    ensures inside { IfOk result (λ x. at + x.1 ≤ length tokens.now.items.items) }
    ensures refused { (r : code.Refusal) → result ≡ Err (stop.Refused r) → RefusesExpression (ahead tokens.now at) tokens.now.end r }
    ensures kept { Keeps pool.old pool.new }
{
    let s = Spot {
        at,
        edge: 0,
        left: DEEPEST,
        linked: true,
    };
    match read_at(alloc, tokens, pool, Context::Free, s) {
        Ok((e, end)) => Ok((e.id, end - at)),
        Err(Halt::Memory) => Err(Stop::Memory),
        Err(Halt::Refused(rule, left)) => Err(Stop::Refused(Refusal {
            rule,
            place: place_before(tokens, left),
        })),
    }
}
