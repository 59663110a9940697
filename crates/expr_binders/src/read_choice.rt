//! Reading `IF` from its first token on, over a reader of the expressions in it.

ghost use Rattle.std.specs.Prelude.{suc, Some};
ghost use Rattle.tla_tree.specs.Lexical as tk;
ghost use Rattle.tla_tree.specs.Reader as reader;
ghost use Rattle.tla_tree.specs.Whole.{whole_in};
ghost use Rattle.expr_nodes.specs.Ahead.{ahead};
ghost use Rattle.expr_rows.specs.HasRead.{HasRead};
ghost use Rattle.expr_rows.specs.MayRead.{MayRead};

use expr_nodes::cursor::Halt;
use expr_nodes::make::{Read, choice};
use expr_nodes::shape::Context;
use expr_nodes::spot::{Spot, after, deeper, past_key};
use expr_nodes::view::Key;
use std::alloc::Global;
use tla_pool::Pool;
use tla_token::{Place, Tokens};

/// `IF a THEN b ELSE c`, behind the `IF` at a place.
///
/// # Errors
///
/// The rule by which it is refused, and how many tokens are left from there on; or want of memory.
pub fn choice_from<F: Fn(&mut Pool, Context, Spot) -> Result<(Read, usize), Halt>>(
    alloc: Global,
    tokens: &Tokens,
    inner: &F,
    pool: &mut Pool,
    s: Spot,
    place: Place,
) -> Result<(Read, usize), Halt>
    requires given { MayRead tokens.now s (suc s.left) (F.pre inner.now) (F.post inner.now) }
    ensures { HasRead s.linked tokens.now pool.old pool.new s.at (suc s.left) result (reader.choice_from (whole_in s.linked (Some s.left)) s.edge place (ahead tokens.now s.at)) }
{
    let (a, at) = inner(pool, Context::Free, s)?;
    let (_, at) = past_key(tokens, Spot { at, ..s }, Key::Then)?;
    let (b, at) = inner(pool, Context::Free, Spot { at, ..s })?;
    let (_, at) = past_key(tokens, Spot { at, ..s }, Key::Else)?;
    let (c, at) = inner(pool, Context::Free, Spot { at, ..s })?;
    let whole = choice(alloc, pool, place, a, b, c)?;
    Ok((whole, at))
}

/// `IF a THEN b ELSE c`, the next token being the `IF`, at a place.
///
/// # Errors
///
/// The rule by which it is refused, and how many tokens are left from there on; or want of memory.
pub fn if_then_else<F: Fn(&mut Pool, Context, Spot) -> Result<(Read, usize), Halt>>(
    alloc: Global,
    tokens: &Tokens,
    inner: &F,
    pool: &mut Pool,
    s: Spot,
    place: Place,
) -> Result<(Read, usize), Halt>
    requires given { MayRead tokens.now s s.left (F.pre inner.now) (F.post inner.now) }
    ensures { HasRead s.linked tokens.now pool.old pool.new s.at s.left result (reader.keyed (reader.room s.linked (whole_in s.linked) (Some s.left)) s.edge place tk.if_key (ahead tokens.now s.at)) }
{
    let d = deeper(tokens, s, 0)?;
    let from = after(tokens, s);
    choice_from(
        alloc,
        tokens,
        inner,
        pool,
        Spot {
            at: from,
            left: d.left,
            ..s
        },
        place,
    )
}
