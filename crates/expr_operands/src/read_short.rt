//! Reading prefix operators with their operands, where these are short forms or may be more.

ghost use Rattle.std.specs.Prelude.{◌≡◌, ◌<◌, suc, true, false, Some};
ghost use Rattle.tla_tree.specs.Rank.{is_prefix};
ghost use Rattle.tla_tree.specs.Reader as reader;
ghost use Rattle.tla_tree.specs.Whole.{whole_in};
ghost use Rattle.expr_nodes.specs.ShapeOf.{context_seen};
ghost use Rattle.expr_nodes.specs.Ahead.{ahead};
ghost use Rattle.expr_rows.specs.HasRead.{HasRead};
ghost use Rattle.expr_rows.specs.MayRead.{MayRead};
ghost use Rattle.expr_operands.specs.ShortForms.{under_short};

use crate::read_open::prefixed;
use expr_nodes::cursor::Halt;
use expr_nodes::make::{Read, prefix};
use expr_nodes::shape::{Context, is_free};
use expr_nodes::spot::{Spot, after, deeper, next_at, refused};
use expr_nodes::view::View;
use std::alloc::Global;
use tla_pool::Pool;
use tla_token::{Place, Rule, Tokens};
use tla_tree::Op;

/// A primary, or a prefix operator with a short form: what may stand to the right of `*`, but for a form that begins with a key.
///
/// # Errors
///
/// The rule by which it is refused, and how many tokens are left from there on; or want of memory.
pub fn short<F: Fn(&mut Pool, Context, Spot) -> Result<(Read, usize), Halt>>(
    tokens: &Tokens,
    inner: &F,
    pool: &mut Pool,
    s: Spot,
) -> Result<(Read, usize), Halt>
    requires given { MayRead tokens.now s (suc s.left) (F.pre inner.now) (F.post inner.now) }
    ensures { HasRead s.linked tokens.now pool.old pool.new s.at s.left result ((whole_in s.linked (Some s.left)).short s.edge (ahead tokens.now s.at)) }
{
    match next_at(tokens, s).view {
        View::Key(_) => Err(refused(tokens, s, Rule::Syntax)),
        _ => inner(pool, Context::RightOf(Op::Times), s),
    }
}

/// The operand of a prefix operator at a place, a short form.
///
/// # Errors
///
/// The rule by which it is refused, and how many tokens are left from there on; or want of memory.
pub fn short_in<F: Fn(&mut Pool, Context, Spot) -> Result<(Read, usize), Halt>>(
    alloc: Global,
    tokens: &Tokens,
    inner: &F,
    pool: &mut Pool,
    s: Spot,
    place: Place,
    op: Op,
) -> Result<(Read, usize), Halt>
    requires given { MayRead tokens.now s (suc s.left) (F.pre inner.now) (F.post inner.now) }
    requires before { is_prefix op ≡ true }
    ensures { HasRead s.linked tokens.now pool.old pool.new s.at (suc s.left) result (under_short (whole_in s.linked (Some s.left)) s.edge place op (ahead tokens.now s.at)) }
{
    let (a, at) = short(tokens, inner, pool, s)?;
    let whole = prefix(alloc, pool, place, op, a)?;
    Ok((whole, at))
}

/// A prefix operator with a short form, its sign being the next token, at a place.
///
/// # Errors
///
/// The rule by which it is refused, and how many tokens are left from there on; or want of memory.
pub fn prefixed_short<F: Fn(&mut Pool, Context, Spot) -> Result<(Read, usize), Halt>>(
    alloc: Global,
    tokens: &Tokens,
    inner: &F,
    pool: &mut Pool,
    s: Spot,
    context: Context,
    place: Place,
    op: Op,
) -> Result<(Read, usize), Halt>
    requires given { MayRead tokens.now s s.left (F.pre inner.now) (F.post inner.now) }
    requires before { is_prefix op ≡ true }
    requires bound { reader.is_free (context_seen context) op ≡ false }
    ensures { HasRead s.linked tokens.now pool.old pool.new s.at s.left result (reader.signed (reader.room s.linked (whole_in s.linked) (Some s.left)) (whole_in s.linked (Some s.left)) s.edge (context_seen context) place op (Some op) (ahead tokens.now s.at)) }
{
    let d = deeper(tokens, s, 0)?;
    let from = after(tokens, s);
    short_in(
        alloc,
        tokens,
        inner,
        pool,
        Spot {
            at: from,
            left: d.left,
            ..s
        },
        place,
        op,
    )
}

/// A prefix operator with its operand, its sign being the next token, at a place.
///
/// # Errors
///
/// The rule by which it is refused, and how many tokens are left from there on; or want of memory.
pub fn signed<F: Fn(&mut Pool, Context, Spot) -> Result<(Read, usize), Halt>>(
    alloc: Global,
    tokens: &Tokens,
    inner: &F,
    pool: &mut Pool,
    s: Spot,
    context: Context,
    place: Place,
    op: Op,
) -> Result<(Read, usize), Halt>
    requires given { MayRead tokens.now s s.left (F.pre inner.now) (F.post inner.now) }
    requires before { is_prefix op ≡ true }
    ensures { HasRead s.linked tokens.now pool.old pool.new s.at s.left result (reader.signed (reader.room s.linked (whole_in s.linked) (Some s.left)) (whole_in s.linked (Some s.left)) s.edge (context_seen context) place op (Some op) (ahead tokens.now s.at)) }
{
    if is_free(context, op) {
        prefixed(alloc, tokens, inner, pool, s, context, place, op)
    } else {
        prefixed_short(alloc, tokens, inner, pool, s, context, place, op)
    }
}
