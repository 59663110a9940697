//! Reading prefix operators from their first token on, over a reader of the expressions in them.

ghost use Rattle.std.specs.Prelude.{◌≡◌, true, Some};
ghost use Rattle.tla_tree.specs.Rank.{is_prefix};
ghost use Rattle.tla_tree.specs.Reader as reader;
ghost use Rattle.tla_tree.specs.Whole.{whole_in};
ghost use Rattle.expr_nodes.specs.ShapeOf.{context_seen};
ghost use Rattle.expr_nodes.specs.Ahead.{ahead};
ghost use Rattle.expr_rows.specs.HasRead.{HasRead};
ghost use Rattle.expr_rows.specs.MayRead.{MayRead};

use crate::read_plain::operand_in;
use expr_nodes::cursor::Halt;
use expr_nodes::make::Read;
use expr_nodes::shape::Context;
use expr_nodes::spot::{Spot, after, deeper};
use std::alloc::Global;
use tla_pool::Pool;
use tla_token::{Place, Tokens};
use tla_tree::Op;

/// A prefix operator whose operand may be more than a short form, its sign being the next token, at a place.
///
/// # Errors
///
/// The rule by which it is refused, and how many tokens are left from there on; or want of memory.
pub fn prefixed<F: Fn(&mut Pool, Context, Spot) -> Result<(Read, usize), Halt>>(
    alloc: Global,
    tokens: &Tokens,
    inner: &F,
    pool: &mut Pool,
    s: Spot,
    context: Context,
    place: Place,
    op: Op,
) -> Result<(Read, usize), Halt>
    requires given { MayRead tokens.now s s.left (F.pre inner.now) (F.post inner.now) }
    requires before { is_prefix op ≡ true }
    requires free { reader.is_free (context_seen context) op ≡ true }
    ensures { HasRead s.linked tokens.now pool.old pool.new s.at s.left result (reader.signed (reader.room s.linked (whole_in s.linked) (Some s.left)) (whole_in s.linked (Some s.left)) s.edge (context_seen context) place op (Some op) (ahead tokens.now s.at)) }
{
    let d = deeper(tokens, s, 0)?;
    let from = after(tokens, s);
    operand_in(
        alloc,
        tokens,
        inner,
        pool,
        Spot {
            at: from,
            left: d.left,
            ..s
        },
        place,
        op,
    )
}
