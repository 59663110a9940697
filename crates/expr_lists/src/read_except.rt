//! Reading what comes behind `[f EXCEPT`.

ghost use Rattle.std.specs.Prelude.{◌<◌, ◌≤◌, suc, length, IfOk, Some};
ghost use Rattle.tla_tree.specs.Pool.{Keeps};
ghost use Rattle.tla_tree.specs.Spelling.{Phrase};
ghost use Rattle.tla_tree.specs.Whole.{whole_in};
ghost use Rattle.expr_nodes.specs.Ahead.{ahead};
ghost use Rattle.expr_nodes.specs.ReadIn.{IsIn, Told};
ghost use Rattle.expr_rows.specs.HasRead.{Stands};
ghost use Rattle.expr_rows.specs.MayRead.{MayRead};
ghost use Rattle.expr_lists.specs.InSquares.{changed};

use crate::read_setting::{Settled, settings};
use expr_nodes::cursor::Halt;
use expr_nodes::gather::except;
use expr_nodes::make::Read;
use expr_nodes::shape::Context;
use expr_nodes::spot::{Spot, past_mark};
use expr_nodes::view::Mark;
use expr_rows::read_row::in_front;
use std::alloc::Global;
use tla_pool::Pool;
use tla_token::{Place, Tokens};

/// `![a] = e, !.b = f]` behind `[f EXCEPT`, the `[` being at a place.
///
/// # Errors
///
/// The rule by which it is refused, and how many tokens are left from there on; or want of memory.
pub fn except_in<F: Fn(&mut Pool, Context, Spot) -> Result<(Read, usize), Halt>>(
    alloc: Global,
    tokens: &Tokens,
    inner: &F,
    pool: &mut Pool,
    s: Spot,
    place: Place,
    f: Read,
) -> Result<(Read, usize), Halt>
    requires given { MayRead tokens.now s (suc s.left) (F.pre inner.now) (F.post inner.now) }
    requires f_in { f.id < length pool.old }
    requires f_small { f.shape.nesting ≤ s.left }
    ensures read { (i : Phrase) (q : Place) → IsIn s.linked pool.old f i → Told (λ x j. IsIn s.linked pool.new x.0 j) (λ x. ahead tokens.now x.1) result (changed (whole_in s.linked (Some s.left)) s.edge place i q (ahead tokens.now s.at)) }
    ensures kept { Keeps pool.old pool.new }
    ensures stands { IfOk result (λ x. Stands tokens.now pool.new s.at (suc s.left) x) }
{
    let (all, at) = settings(alloc, tokens, inner, pool, s, place)?;
    let (_, at) = past_mark(tokens, Spot { at, ..s }, Mark::CloseSquare)?;
    let Settled {
        slots,
        ids,
        nesting,
    } = all;
    let parts = in_front(alloc, f.id, ids)?;
    let whole = except(pool, place, f, slots, parts, nesting)?;
    Ok((whole, at))
}
