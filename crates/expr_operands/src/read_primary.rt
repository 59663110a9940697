//! Reading primaries with what comes after them, from their first token on.

ghost use Rattle.std.specs.Prelude.{suc, Some};
ghost use Rattle.tla_tree.specs.Lexical as tk;
ghost use Rattle.tla_tree.specs.Reader as reader;
ghost use Rattle.tla_tree.specs.Whole.{whole_in};
ghost use Rattle.expr_nodes.specs.Ahead.{ahead};
ghost use Rattle.expr_rows.specs.HasRead.{HasRead};
ghost use Rattle.expr_rows.specs.MayRead.{MayRead};

use crate::read_link::postfix;
use crate::read_plain::{bracket_in, tuple_in};
use expr_nodes::cursor::Halt;
use expr_nodes::make::{Read, empty_tuple};
use expr_nodes::shape::Context;
use expr_nodes::spot::{Spot, after, after_mark, deeper};
use expr_nodes::view::Mark;
use std::alloc::Global;
use tla_pool::Pool;
use tla_token::{Place, Tokens};

/// `(a)`, the next token being the `(`, at a place.
///
/// # Errors
///
/// The rule by which it is refused, and how many tokens are left from there on; or want of memory.
pub fn bracket<F: Fn(&mut Pool, Context, Spot) -> Result<(Read, usize), Halt>>(
    alloc: Global,
    tokens: &Tokens,
    inner: &F,
    pool: &mut Pool,
    s: Spot,
    place: Place,
) -> Result<(Read, usize), Halt>
    requires given { MayRead tokens.now s s.left (F.pre inner.now) (F.post inner.now) }
    ensures { HasRead s.linked tokens.now pool.old pool.new s.at s.left result (reader.primary (reader.room s.linked (whole_in s.linked) (Some s.left)) (whole_in s.linked (Some s.left)) s.edge place (tk.mark tk.open_bracket) (ahead tokens.now s.at)) }
{
    let d = deeper(tokens, s, 0)?;
    let from = after(tokens, s);
    let (a, at) = bracket_in(
        tokens,
        inner,
        pool,
        Spot {
            at: from,
            left: d.left,
            ..s
        },
        place,
    )?;
    postfix(alloc, tokens, inner, pool, Spot { at, ..s }, a)
}

/// `a, b>>` or `>>` behind a `<<` at a place.
///
/// # Errors
///
/// The rule by which it is refused, and how many tokens are left from there on; or want of memory.
pub fn tuple_from<F: Fn(&mut Pool, Context, Spot) -> Result<(Read, usize), Halt>>(
    alloc: Global,
    tokens: &Tokens,
    inner: &F,
    pool: &mut Pool,
    s: Spot,
    place: Place,
) -> Result<(Read, usize), Halt>
    requires given { MayRead tokens.now s (suc s.left) (F.pre inner.now) (F.post inner.now) }
    ensures { HasRead s.linked tokens.now pool.old pool.new s.at (suc s.left) result (reader.peek s.edge (reader.tuples (whole_in s.linked (Some s.left)) s.edge place) (ahead tokens.now s.at)) }
{
    if let Some(at) = after_mark(tokens, s, Mark::CloseTuple) {
        let whole = empty_tuple(alloc, pool, place)?;
        return Ok((whole, at));
    }
    tuple_in(alloc, tokens, inner, pool, s, place)
}

/// `<<a, b>>`, the next token being the `<<`, at a place.
///
/// # Errors
///
/// The rule by which it is refused, and how many tokens are left from there on; or want of memory.
pub fn tuple<F: Fn(&mut Pool, Context, Spot) -> Result<(Read, usize), Halt>>(
    alloc: Global,
    tokens: &Tokens,
    inner: &F,
    pool: &mut Pool,
    s: Spot,
    place: Place,
) -> Result<(Read, usize), Halt>
    requires given { MayRead tokens.now s s.left (F.pre inner.now) (F.post inner.now) }
    ensures { HasRead s.linked tokens.now pool.old pool.new s.at s.left result (reader.primary (reader.room s.linked (whole_in s.linked) (Some s.left)) (whole_in s.linked (Some s.left)) s.edge place (tk.mark tk.open_tuple) (ahead tokens.now s.at)) }
{
    let d = deeper(tokens, s, 0)?;
    let from = after(tokens, s);
    let (a, at) = tuple_from(
        alloc,
        tokens,
        inner,
        pool,
        Spot {
            at: from,
            left: d.left,
            ..s
        },
        place,
    )?;
    postfix(alloc, tokens, inner, pool, Spot { at, ..s }, a)
}
