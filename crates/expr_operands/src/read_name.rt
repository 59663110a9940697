//! Reading what a name begins.

ghost use Rattle.std.specs.Prelude.{Some};
ghost use Rattle.tla_token.specs.TokensSeen.{span_bytes};
ghost use Rattle.tla_tree.specs.Reader as reader;
ghost use Rattle.tla_tree.specs.Whole.{whole_in};
ghost use Rattle.expr_nodes.specs.Ahead.{ahead};
ghost use Rattle.expr_rows.specs.HasRead.{HasRead};
ghost use Rattle.expr_rows.specs.MayRead.{MayRead};

use crate::read_link::postfix;
use crate::read_plain::call_in;
use expr_nodes::cursor::{Halt, Word};
use expr_nodes::make::{Read, name, primed};
use expr_nodes::shape::Context;
use expr_nodes::spot::{Spot, after_mark, deeper, next_at};
use expr_nodes::view::Mark;
use std::alloc::Global;
use tla_pool::Pool;
use tla_token::Tokens;

/// A call, a primed name or a name, behind the name.
///
/// # Errors
///
/// The rule by which it is refused, and how many tokens are left from there on; or want of memory.
pub fn named<F: Fn(&mut Pool, Context, Spot) -> Result<(Read, usize), Halt>>(
    alloc: Global,
    tokens: &Tokens,
    inner: &F,
    pool: &mut Pool,
    s: Spot,
    word: Word,
) -> Result<(Read, usize), Halt>
    requires given { MayRead tokens.now s s.left (F.pre inner.now) (F.post inner.now) }
    ensures { HasRead s.linked tokens.now pool.old pool.new s.at s.left result (reader.peek s.edge (reader.named (reader.room s.linked (whole_in s.linked) (Some s.left)) s.edge word.place (span_bytes tokens.now.bytes.items word.span)) (ahead tokens.now s.at)) }
{
    let t = next_at(tokens, s);
    if let Some(from) = after_mark(tokens, s, Mark::OpenBracket) {
        let d = deeper(tokens, s, 0)?;
        let d = Spot {
            at: from,
            left: d.left,
            ..s
        };
        return call_in(alloc, tokens, inner, pool, d, word, t.place);
    }
    if let Some(at) = after_mark(tokens, s, Mark::Prime) {
        let whole = primed(alloc, pool, tokens, word)?;
        return Ok((whole, at));
    }
    let whole = name(alloc, pool, tokens, word)?;
    Ok((whole, s.at))
}

/// A primary that begins with a name, behind the name, with the applications and fields after it.
///
/// # Errors
///
/// The rule by which it is refused, and how many tokens are left from there on; or want of memory.
pub fn from_name<F: Fn(&mut Pool, Context, Spot) -> Result<(Read, usize), Halt>>(
    alloc: Global,
    tokens: &Tokens,
    inner: &F,
    pool: &mut Pool,
    s: Spot,
    word: Word,
) -> Result<(Read, usize), Halt>
    requires given { MayRead tokens.now s s.left (F.pre inner.now) (F.post inner.now) }
    ensures { HasRead s.linked tokens.now pool.old pool.new s.at s.left result (reader.from_name (reader.room s.linked (whole_in s.linked) (Some s.left)) (whole_in s.linked (Some s.left)) s.edge word.place (span_bytes tokens.now.bytes.items word.span) (ahead tokens.now s.at)) }
{
    let (a, at) = named(alloc, tokens, inner, pool, s, word)?;
    postfix(alloc, tokens, inner, pool, Spot { at, ..s }, a)
}
