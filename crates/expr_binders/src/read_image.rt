//! Reading images of sets, behind their first expression.

ghost use Rattle.std.specs.Prelude.{◌<◌, ◌≤◌, suc, length, IfOk, Some};
ghost use Rattle.tla_tree.specs.Pool.{Keeps};
ghost use Rattle.tla_tree.specs.Spelling.{Phrase};
ghost use Rattle.tla_tree.specs.Reader as reader;
ghost use Rattle.tla_tree.specs.Whole.{whole_in};
ghost use Rattle.expr_nodes.specs.Ahead.{ahead};
ghost use Rattle.expr_nodes.specs.ReadIn.{IsIn, Told};
ghost use Rattle.expr_rows.specs.HasRead.{Stands};
ghost use Rattle.expr_rows.specs.MayRead.{MayRead};

use crate::read_bind::{Bound, binds};
use expr_nodes::cursor::Halt;
use expr_nodes::gather::image;
use expr_nodes::make::Read;
use expr_nodes::shape::Context;
use expr_nodes::spot::{Spot, past_mark, past_word};
use expr_nodes::view::Mark;
use std::alloc::Global;
use tla_pool::Pool;
use tla_token::{Place, Tokens};

/// `x \in S}` behind `{a :`, the `{` being at a place.
///
/// # Errors
///
/// The rule by which it is refused, and how many tokens are left from there on; or want of memory.
pub fn image_in<F: Fn(&mut Pool, Context, Spot) -> Result<(Read, usize), Halt>>(
    alloc: Global,
    tokens: &Tokens,
    inner: &F,
    pool: &mut Pool,
    s: Spot,
    place: Place,
    a: Read,
) -> Result<(Read, usize), Halt>
    requires given { MayRead tokens.now s (suc s.left) (F.pre inner.now) (F.post inner.now) }
    requires a_in { a.id < length pool.old }
    requires a_small { a.shape.nesting ≤ s.left }
    ensures read { (i : Phrase) (q : Place) → IsIn s.linked pool.old a i → Told (λ x j. IsIn s.linked pool.new x.0 j) (λ x. ahead tokens.now x.1) result (reader.image_rest (whole_in s.linked (Some s.left)) s.edge place i q (ahead tokens.now s.at)) }
    ensures kept { Keeps pool.old pool.new }
    ensures stands { IfOk result (λ x. Stands tokens.now pool.new s.at (suc s.left) x) }
{
    let (word, at) = past_word(tokens, s)?;
    let (bound, at) = binds(alloc, tokens, inner, pool, Spot { at, ..s }, word)?;
    let (_, at) = past_mark(tokens, Spot { at, ..s }, Mark::CloseBrace)?;
    let Bound {
        groups,
        sets,
        nesting,
    } = bound;
    let whole = image(pool, place, a, groups, sets, nesting)?;
    Ok((whole, at))
}
