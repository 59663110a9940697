//! Reading `CASE`, `LET` and lists by columns, over a reader of the expressions in them.

ghost use Rattle.std.specs.Prelude.{◌≡◌, suc, true, Some};
ghost use Rattle.tla_tree.specs.Lexical as tk;
ghost use Rattle.tla_tree.specs.Rank.{is_bullet as is_bullet_of};
ghost use Rattle.tla_tree.specs.Reader as reader;
ghost use Rattle.tla_tree.specs.Whole.{whole_in};
ghost use Rattle.expr_nodes.specs.Ahead.{ahead};
ghost use Rattle.expr_rows.specs.HasRead.{HasRead, cased, defined};
ghost use Rattle.expr_rows.specs.MayRead.{MayRead};

use expr_lists::read_arms::arms;
use expr_lists::read_bullets::bullets;
use expr_lists::read_locals::locals;
use expr_nodes::cursor::Halt;
use expr_nodes::gather::{cases, local};
use expr_nodes::make::Read;
use expr_nodes::shape::{Context, list_shape};
use expr_nodes::spot::{Spot, after, deeper, past_key};
use expr_nodes::view::Key;
use expr_operands::read_link::postfix;
use std::alloc::Global;
use tla_pool::Pool;
use tla_token::{Place, Tokens};
use tla_tree::Op;

/// `p -> e [] q -> f` behind a `CASE` at a place.
///
/// # Errors
///
/// The rule by which it is refused, and how many tokens are left from there on; or want of memory.
pub fn case_in<F: Fn(&mut Pool, Context, Spot) -> Result<(Read, usize), Halt>>(
    alloc: Global,
    tokens: &Tokens,
    inner: &F,
    pool: &mut Pool,
    s: Spot,
    place: Place,
) -> Result<(Read, usize), Halt>
    requires given { MayRead tokens.now s (suc s.left) (F.pre inner.now) (F.post inner.now) }
    ensures { HasRead s.linked tokens.now pool.old pool.new s.at (suc s.left) result (cased (whole_in s.linked (Some s.left)) s.edge place (ahead tokens.now s.at)) }
{
    let (many, at) = arms(alloc, tokens, inner, pool, s)?;
    let whole = cases(pool, place, many.other, many.ids, many.nesting)?;
    Ok((whole, at))
}

/// `CASE p -> e [] q -> f`, the next token being the `CASE`, at a place.
///
/// # Errors
///
/// The rule by which it is refused, and how many tokens are left from there on; or want of memory.
pub fn case<F: Fn(&mut Pool, Context, Spot) -> Result<(Read, usize), Halt>>(
    alloc: Global,
    tokens: &Tokens,
    inner: &F,
    pool: &mut Pool,
    s: Spot,
    place: Place,
) -> Result<(Read, usize), Halt>
    requires given { MayRead tokens.now s s.left (F.pre inner.now) (F.post inner.now) }
    ensures { HasRead s.linked tokens.now pool.old pool.new s.at s.left result (reader.keyed (reader.room s.linked (whole_in s.linked) (Some s.left)) s.edge place tk.case_key (ahead tokens.now s.at)) }
{
    let d = deeper(tokens, s, 0)?;
    let from = after(tokens, s);
    case_in(
        alloc,
        tokens,
        inner,
        pool,
        Spot {
            at: from,
            left: d.left,
            ..s
        },
        place,
    )
}

/// `x == e y == f IN a` behind a `LET` at a place.
///
/// # Errors
///
/// The rule by which it is refused, and how many tokens are left from there on; or want of memory.
pub fn let_in<F: Fn(&mut Pool, Context, Spot) -> Result<(Read, usize), Halt>>(
    alloc: Global,
    tokens: &Tokens,
    inner: &F,
    pool: &mut Pool,
    s: Spot,
    place: Place,
) -> Result<(Read, usize), Halt>
    requires given { MayRead tokens.now s (suc s.left) (F.pre inner.now) (F.post inner.now) }
    ensures { HasRead s.linked tokens.now pool.old pool.new s.at (suc s.left) result (defined (whole_in s.linked (Some s.left)) s.edge place (ahead tokens.now s.at)) }
{
    let (many, at) = locals(alloc, tokens, inner, pool, s)?;
    let (_, at) = past_key(tokens, Spot { at, ..s }, Key::In)?;
    let (a, at) = inner(pool, Context::Free, Spot { at, ..s })?;
    let whole = local(pool, place, many.names, many.ids, many.nesting, a)?;
    Ok((whole, at))
}

/// `LET x == e y == f IN a`, the next token being the `LET`, at a place.
///
/// # Errors
///
/// The rule by which it is refused, and how many tokens are left from there on; or want of memory.
pub fn let_from<F: Fn(&mut Pool, Context, Spot) -> Result<(Read, usize), Halt>>(
    alloc: Global,
    tokens: &Tokens,
    inner: &F,
    pool: &mut Pool,
    s: Spot,
    place: Place,
) -> Result<(Read, usize), Halt>
    requires given { MayRead tokens.now s s.left (F.pre inner.now) (F.post inner.now) }
    ensures { HasRead s.linked tokens.now pool.old pool.new s.at s.left result (reader.keyed (reader.room s.linked (whole_in s.linked) (Some s.left)) s.edge place tk.let_key (ahead tokens.now s.at)) }
{
    let d = deeper(tokens, s, 0)?;
    let from = after(tokens, s);
    let_in(
        alloc,
        tokens,
        inner,
        pool,
        Spot {
            at: from,
            left: d.left,
            ..s
        },
        place,
    )
}

/// A list by columns with what comes after it, the next token being its first bullet, at a place.
///
/// # Errors
///
/// The rule by which it is refused, and how many tokens are left from there on; or want of memory.
pub fn list<F: Fn(&mut Pool, Context, Spot) -> Result<(Read, usize), Halt>>(
    alloc: Global,
    tokens: &Tokens,
    inner: &F,
    pool: &mut Pool,
    s: Spot,
    place: Place,
    op: Op,
) -> Result<(Read, usize), Halt>
    requires given { MayRead tokens.now s s.left (F.pre inner.now) (F.post inner.now) }
    requires bullet { is_bullet_of op ≡ true }
    ensures { HasRead s.linked tokens.now pool.old pool.new s.at s.left result (reader.primary (reader.room s.linked (whole_in s.linked) (Some s.left)) (whole_in s.linked (Some s.left)) s.edge place (tk.sign op) (ahead tokens.now s.at)) }
{
    let (items, at) = bullets(alloc, tokens, inner, pool, s, op, place.col)?;
    let id = items.id;
    let shape = list_shape(op, items.first, items.boxes, items.nesting);
    postfix(
        alloc,
        tokens,
        inner,
        pool,
        Spot { at, ..s },
        Read { id, shape },
    )
}
