//! Reading the expression behind a mark, over a reader of expressions.

ghost use Rattle.std.specs.Prelude.{◌<◌, suc, IfOk, Some};
ghost use Rattle.tla_tree.specs.Pool.{Keeps};
ghost use Rattle.tla_tree.specs.Spelling.{Phrase};
ghost use Rattle.tla_tree.specs.Whole.{whole_in};
ghost use Rattle.expr_nodes.specs.ViewSeen.{mark_seen};
ghost use Rattle.expr_nodes.specs.Ahead.{ahead};
ghost use Rattle.expr_nodes.specs.ReadIn.{IsIn, Told};
ghost use Rattle.expr_rows.specs.HasRead.{Stands, behind_mark};
ghost use Rattle.expr_rows.specs.MayRead.{MayRead};

use expr_nodes::cursor::Halt;
use expr_nodes::make::Read;
use expr_nodes::shape::Context;
use expr_nodes::spot::{Spot, past_mark};
use expr_nodes::view::Mark;
use tla_pool::Pool;
use tla_token::{Place, Tokens};

/// The expression behind this mark, which is to be next.
///
/// # Errors
///
/// The rule by which it is refused, and how many tokens are left from there on; or want of memory.
pub fn behind<F: Fn(&mut Pool, Context, Spot) -> Result<(Read, usize), Halt>>(
    tokens: &Tokens,
    inner: &F,
    pool: &mut Pool,
    s: Spot,
    mark: Mark,
) -> Result<(Read, usize), Halt>
    requires given { MayRead tokens.now s (suc s.left) (F.pre inner.now) (F.post inner.now) }
    ensures read { Told (λ x (y : Place × Phrase). IsIn s.linked pool.new x.0 y.1) (λ x. ahead tokens.now x.1) result (behind_mark (whole_in s.linked (Some s.left)) s.edge (mark_seen mark) (ahead tokens.now s.at)) }
    ensures kept { Keeps pool.old pool.new }
    ensures stands { IfOk result (λ x. Stands tokens.now pool.new s.at s.left x) }
{
    let (_, at) = past_mark(tokens, s, mark)?;
    let (a, at) = inner(pool, Context::Free, Spot { at, ..s })?;
    Ok((a, at))
}
