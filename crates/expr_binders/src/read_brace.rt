//! Reading the condition of a filter, behind `{x \in S :`.

ghost use Rattle.std.specs.Prelude.{◌<◌, ◌≤◌, suc, length, IfOk, Some};
ghost use Rattle.tla_token.specs.TokensSeen.{span_bytes};
ghost use Rattle.tla_tree.specs.Pool.{Keeps};
ghost use Rattle.tla_tree.specs.Spelling.{Phrase};
ghost use Rattle.tla_tree.specs.Whole.{whole_in};
ghost use Rattle.expr_nodes.specs.Ahead.{ahead};
ghost use Rattle.expr_nodes.specs.ReadIn.{IsIn, Told};
ghost use Rattle.expr_rows.specs.HasRead.{Stands, filtered};
ghost use Rattle.expr_rows.specs.MayRead.{MayRead};

use expr_nodes::cursor::{Halt, Word};
use expr_nodes::gather::filter;
use expr_nodes::make::Read;
use expr_nodes::shape::Context;
use expr_nodes::spot::{Spot, past_mark};
use expr_nodes::view::Mark;
use std::alloc::Global;
use tla_pool::Pool;
use tla_token::{Place, Tokens};

/// `p}` behind `{x \in S :`, the `{` being at a place.
///
/// # Errors
///
/// The rule by which it is refused, and how many tokens are left from there on; or want of memory.
pub fn filter_in<F: Fn(&mut Pool, Context, Spot) -> Result<(Read, usize), Halt>>(
    alloc: Global,
    tokens: &Tokens,
    inner: &F,
    pool: &mut Pool,
    s: Spot,
    place: Place,
    word: Word,
    a: Read,
) -> Result<(Read, usize), Halt>
    requires given { MayRead tokens.now s (suc s.left) (F.pre inner.now) (F.post inner.now) }
    requires a_in { a.id < length pool.old }
    requires a_small { a.shape.nesting ≤ s.left }
    ensures read { (i : Phrase) (q t : Place) → IsIn s.linked pool.old a i → Told (λ x j. IsIn s.linked pool.new x.0 j) (λ x. ahead tokens.now x.1) result (filtered (whole_in s.linked (Some s.left)) s.edge place word.place (span_bytes tokens.now.bytes.items word.span) q i t (ahead tokens.now s.at)) }
    ensures kept { Keeps pool.old pool.new }
    ensures stands { IfOk result (λ x. Stands tokens.now pool.new s.at (suc s.left) x) }
{
    let (b, at) = inner(pool, Context::Free, s)?;
    let (_, at) = past_mark(tokens, Spot { at, ..s }, Mark::CloseBrace)?;
    let whole = filter(alloc, pool, tokens, place, word, a, b)?;
    Ok((whole, at))
}
