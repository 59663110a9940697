//! Reading primaries of one token, with what comes after them.

ghost use Rattle.std.specs.Prelude.{◌<◌, [], unwrap_or, Some};
ghost use Rattle.tla_token.specs.Limits.{past_numbers};
ghost use Rattle.tla_token.specs.TokensSeen.{span_bytes};
ghost use Rattle.tla_token.specs.Lexemes.{unquoted};
ghost use Rattle.tla_tree.specs.Lexical as tk;
ghost use Rattle.tla_tree.specs.Reader as reader;
ghost use Rattle.tla_tree.specs.Whole.{whole_in};
ghost use Rattle.expr_nodes.specs.ViewSeen.{constant_seen};
ghost use Rattle.expr_nodes.specs.Ahead.{ahead};
ghost use Rattle.expr_rows.specs.HasRead.{HasRead};
ghost use Rattle.expr_rows.specs.MayRead.{MayRead};

use crate::read_link::postfix;
use expr_nodes::cursor::Halt;
use expr_nodes::make::{self, Read};
use expr_nodes::shape::Context;
use expr_nodes::spot::{Spot, after};
use expr_nodes::view::Constant;
use std::alloc::Global;
use tla_pool::Pool;
use tla_token::{Place, Span, Tokens};

/// A number, the next token, at a place.
///
/// # Errors
///
/// The rule by which it is refused, and how many tokens are left from there on; or want of memory.
pub fn number<F: Fn(&mut Pool, Context, Spot) -> Result<(Read, usize), Halt>>(
    alloc: Global,
    tokens: &Tokens,
    inner: &F,
    pool: &mut Pool,
    s: Spot,
    place: Place,
    n: u128,
) -> Result<(Read, usize), Halt>
    requires given { MayRead tokens.now s s.left (F.pre inner.now) (F.post inner.now) }
    requires small { n < past_numbers }
    ensures { HasRead s.linked tokens.now pool.old pool.new s.at s.left result (reader.primary (reader.room s.linked (whole_in s.linked) (Some s.left)) (whole_in s.linked (Some s.left)) s.edge place (tk.number n) (ahead tokens.now s.at)) }
{
    let a = make::number(alloc, pool, place, n)?;
    let at = after(tokens, s);
    postfix(alloc, tokens, inner, pool, Spot { at, ..s }, a)
}

/// A string, by what is between its quotes, the next token, at a place.
///
/// # Errors
///
/// The rule by which it is refused, and how many tokens are left from there on; or want of memory.
pub fn string<F: Fn(&mut Pool, Context, Spot) -> Result<(Read, usize), Halt>>(
    alloc: Global,
    tokens: &Tokens,
    inner: &F,
    pool: &mut Pool,
    s: Spot,
    place: Place,
    span: Span,
) -> Result<(Read, usize), Halt>
    requires given { MayRead tokens.now s s.left (F.pre inner.now) (F.post inner.now) }
    ensures { HasRead s.linked tokens.now pool.old pool.new s.at s.left result (reader.primary (reader.room s.linked (whole_in s.linked) (Some s.left)) (whole_in s.linked (Some s.left)) s.edge place (tk.string (unwrap_or (unquoted (span_bytes tokens.now.bytes.items span)) [])) (ahead tokens.now s.at)) }
{
    let a = make::string(alloc, pool, tokens, place, span)?;
    let at = after(tokens, s);
    postfix(alloc, tokens, inner, pool, Spot { at, ..s }, a)
}

/// `TRUE`, `FALSE`, `BOOLEAN` or `STRING`, the next token, at a place.
///
/// # Errors
///
/// The rule by which it is refused, and how many tokens are left from there on; or want of memory.
pub fn constant<F: Fn(&mut Pool, Context, Spot) -> Result<(Read, usize), Halt>>(
    alloc: Global,
    tokens: &Tokens,
    inner: &F,
    pool: &mut Pool,
    s: Spot,
    place: Place,
    c: Constant,
) -> Result<(Read, usize), Halt>
    requires given { MayRead tokens.now s s.left (F.pre inner.now) (F.post inner.now) }
    ensures { HasRead s.linked tokens.now pool.old pool.new s.at s.left result (reader.primary (reader.room s.linked (whole_in s.linked) (Some s.left)) (whole_in s.linked (Some s.left)) s.edge place (tk.constant (constant_seen c)) (ahead tokens.now s.at)) }
{
    let a = make::constant(alloc, pool, place, c)?;
    let at = after(tokens, s);
    postfix(alloc, tokens, inner, pool, Spot { at, ..s }, a)
}
