//! Reading primaries in brackets, calls, and prefix operators, behind their first tokens.

ghost use Rattle.std.specs.Prelude.{◌≡◌, ◌<◌, suc, true, Some};
ghost use Rattle.tla_token.specs.TokensSeen.{span_bytes};
ghost use Rattle.tla_tree.specs.Rank.{is_prefix as is_prefix_of};
ghost use Rattle.tla_tree.specs.Whole.{whole_in};
ghost use Rattle.expr_nodes.specs.Ahead.{ahead};
ghost use Rattle.expr_rows.specs.HasRead.{HasRead, bracketed, called, tupled, under_prefix};
ghost use Rattle.expr_rows.specs.MayRead.{MayRead};

use expr_nodes::cursor::{Halt, Word};
use expr_nodes::make::{Read, brackets, call, prefix, tuple};
use expr_nodes::shape::Context;
use expr_nodes::spot::{Spot, past_mark};
use expr_nodes::view::Mark;
use expr_rows::read_row::phrases;
use std::alloc::Global;
use tla_pool::Pool;
use tla_token::{Place, Tokens};
use tla_tree::Op;

/// `a)` behind a `(` at a place.
///
/// # Errors
///
/// The rule by which it is refused, and how many tokens are left from there on; or want of memory.
pub fn bracket_in<F: Fn(&mut Pool, Context, Spot) -> Result<(Read, usize), Halt>>(
    tokens: &Tokens,
    inner: &F,
    pool: &mut Pool,
    s: Spot,
    place: Place,
) -> Result<(Read, usize), Halt>
    requires given { MayRead tokens.now s (suc s.left) (F.pre inner.now) (F.post inner.now) }
    ensures { HasRead s.linked tokens.now pool.old pool.new s.at (suc s.left) result (bracketed (whole_in s.linked (Some s.left)) s.edge place (ahead tokens.now s.at)) }
{
    let (a, at) = inner(pool, Context::Free, s)?;
    let (_, at) = past_mark(tokens, Spot { at, ..s }, Mark::CloseBracket)?;
    Ok((brackets(place, a), at))
}

/// `a, b)` behind a name and `(`.
///
/// # Errors
///
/// The rule by which it is refused, and how many tokens are left from there on; or want of memory.
pub fn call_in<F: Fn(&mut Pool, Context, Spot) -> Result<(Read, usize), Halt>>(
    alloc: Global,
    tokens: &Tokens,
    inner: &F,
    pool: &mut Pool,
    s: Spot,
    word: Word,
    place: Place,
) -> Result<(Read, usize), Halt>
    requires given { MayRead tokens.now s (suc s.left) (F.pre inner.now) (F.post inner.now) }
    ensures { HasRead s.linked tokens.now pool.old pool.new s.at (suc s.left) result (called (whole_in s.linked (Some s.left)) s.edge word.place (span_bytes tokens.now.bytes.items word.span) place (ahead tokens.now s.at)) }
{
    let (many, at) = phrases(alloc, tokens, inner, pool, s)?;
    let (_, at) = past_mark(tokens, Spot { at, ..s }, Mark::CloseBracket)?;
    let whole = call(alloc, pool, tokens, word, many.ids, many.row)?;
    Ok((whole, at))
}

/// `a, b>>` behind a `<<` at a place.
///
/// # Errors
///
/// The rule by which it is refused, and how many tokens are left from there on; or want of memory.
pub fn tuple_in<F: Fn(&mut Pool, Context, Spot) -> Result<(Read, usize), Halt>>(
    alloc: Global,
    tokens: &Tokens,
    inner: &F,
    pool: &mut Pool,
    s: Spot,
    place: Place,
) -> Result<(Read, usize), Halt>
    requires given { MayRead tokens.now s (suc s.left) (F.pre inner.now) (F.post inner.now) }
    ensures { HasRead s.linked tokens.now pool.old pool.new s.at (suc s.left) result (tupled (whole_in s.linked (Some s.left)) s.edge place (ahead tokens.now s.at)) }
{
    let (many, at) = phrases(alloc, tokens, inner, pool, s)?;
    let (_, at) = past_mark(tokens, Spot { at, ..s }, Mark::CloseTuple)?;
    let whole = tuple(pool, place, many.ids, many.row)?;
    Ok((whole, at))
}

/// The operand of a prefix operator at a place, which may be more than a short form.
///
/// # Errors
///
/// The rule by which it is refused, and how many tokens are left from there on; or want of memory.
pub fn operand_in<F: Fn(&mut Pool, Context, Spot) -> Result<(Read, usize), Halt>>(
    alloc: Global,
    tokens: &Tokens,
    inner: &F,
    pool: &mut Pool,
    s: Spot,
    place: Place,
    op: Op,
) -> Result<(Read, usize), Halt>
    requires given { MayRead tokens.now s (suc s.left) (F.pre inner.now) (F.post inner.now) }
    requires before { is_prefix_of op ≡ true }
    ensures { HasRead s.linked tokens.now pool.old pool.new s.at (suc s.left) result (under_prefix (whole_in s.linked (Some s.left)) s.edge place op (ahead tokens.now s.at)) }
{
    let (a, at) = inner(pool, Context::Under(op), s)?;
    let whole = prefix(alloc, pool, place, op, a)?;
    Ok((whole, at))
}
