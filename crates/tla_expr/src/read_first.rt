//! Which form the next token begins.

ghost use Rattle.std.specs.Prelude.{◌<◌, true, false, Some, None};
ghost use Rattle.tla_token.specs.Limits.{past_numbers};
ghost use Rattle.tla_token.specs.Lexemes.{number_of};
ghost use Rattle.tla_token.specs.TokensSeen.{span_bytes};
ghost use Rattle.tla_tree.specs.Lexical as tk;
ghost use Rattle.tla_tree.specs.Reader as reader;
ghost use Rattle.tla_tree.specs.Whole.{whole_in};
ghost use Rattle.expr_nodes.specs.ShapeOf.{context_seen};
ghost use Rattle.expr_nodes.specs.ViewSeen.{mark_seen, key_seen};
ghost use Rattle.expr_nodes.specs.Ahead.{ahead};
ghost use Rattle.expr_rows.specs.HasRead.{HasRead, ReadsThere};
ghost use Rattle.expr_rows.specs.MayRead.{MayRead};
ghost use Rattle.tla_expr.specs.Numbers.{NumbersFit};

use crate::read_braces::braces;
use crate::read_listed::{case, let_from, list};
use crate::read_squares::squares;
use expr_binders::read_choice::if_then_else;
use expr_binders::read_quantifier::quantifier;
use expr_nodes::cursor::{Halt, Word};
use expr_nodes::make::Read;
use expr_nodes::shape::{Context, is_bullet, prefix_by};
use expr_nodes::spot::{Spot, after, next_at, refused};
use expr_nodes::view::{Key, Mark, View};
use expr_operands::read_climb::climb;
use expr_operands::read_name::from_name;
use expr_operands::read_primary::{bracket, tuple};
use expr_operands::read_short::signed;
use expr_operands::read_token::{constant, number, string};
use std::alloc::Global;
use tla_pool::Pool;
use tla_token::bytes::number_value;
use tla_token::{Place, Rule, Span, Tokens};
use tla_tree::Op;

/// A primary that begins with a name, which is the next token, at a place.
///
/// # Errors
///
/// The rule by which it is refused, and how many tokens are left from there on; or want of memory.
pub fn word<F: Fn(&mut Pool, Context, Spot) -> Result<(Read, usize), Halt>>(
    alloc: Global,
    tokens: &Tokens,
    inner: &F,
    pool: &mut Pool,
    s: Spot,
    place: Place,
    span: Span,
) -> Result<(Read, usize), Halt>
    requires given { MayRead tokens.now s s.left (F.pre inner.now) (F.post inner.now) }
    ensures { HasRead s.linked tokens.now pool.old pool.new s.at s.left result (reader.primary (reader.room s.linked (whole_in s.linked) (Some s.left)) (whole_in s.linked (Some s.left)) s.edge place (tk.word (span_bytes tokens.now.bytes.items span)) (ahead tokens.now s.at)) }
{
    let at = after(tokens, s);
    from_name(
        alloc,
        tokens,
        inner,
        pool,
        Spot { at, ..s },
        Word { place, span },
    )
}

/// A primary that begins with a mark, which is the next token, at a place.
///
/// # Errors
///
/// The rule by which it is refused, and how many tokens are left from there on; or want of memory.
pub fn marked<F: Fn(&mut Pool, Context, Spot) -> Result<(Read, usize), Halt>>(
    alloc: Global,
    tokens: &Tokens,
    inner: &F,
    pool: &mut Pool,
    s: Spot,
    place: Place,
    mark: Mark,
) -> Result<(Read, usize), Halt>
    requires given { MayRead tokens.now s s.left (F.pre inner.now) (F.post inner.now) }
    ensures { HasRead s.linked tokens.now pool.old pool.new s.at s.left result (reader.primary (reader.room s.linked (whole_in s.linked) (Some s.left)) (whole_in s.linked (Some s.left)) s.edge place (tk.mark (mark_seen mark)) (ahead tokens.now s.at)) }
{
    match mark {
        Mark::OpenBracket => bracket(alloc, tokens, inner, pool, s, place),
        Mark::OpenTuple => tuple(alloc, tokens, inner, pool, s, place),
        Mark::OpenBrace => braces(alloc, tokens, inner, pool, s, place),
        Mark::OpenSquare => squares(alloc, tokens, inner, pool, s, place),
        _ => Err(refused(tokens, s, Rule::Syntax)),
    }
}

/// A list by columns, its first bullet being the next token, at a place; no other sign begins a primary.
///
/// # Errors
///
/// The rule by which it is refused, and how many tokens are left from there on; or want of memory.
pub fn bullets<F: Fn(&mut Pool, Context, Spot) -> Result<(Read, usize), Halt>>(
    alloc: Global,
    tokens: &Tokens,
    inner: &F,
    pool: &mut Pool,
    s: Spot,
    place: Place,
    op: Op,
) -> Result<(Read, usize), Halt>
    requires given { MayRead tokens.now s s.left (F.pre inner.now) (F.post inner.now) }
    ensures { HasRead s.linked tokens.now pool.old pool.new s.at s.left result (reader.primary (reader.room s.linked (whole_in s.linked) (Some s.left)) (whole_in s.linked (Some s.left)) s.edge place (tk.sign op) (ahead tokens.now s.at)) }
{
    if is_bullet(op) {
        list(alloc, tokens, inner, pool, s, place, op)
    } else {
        Err(refused(tokens, s, Rule::Syntax))
    }
}

// A number of any size, the next token, at a place; all that are among the tokens fit.
fn big_number<F: Fn(&mut Pool, Context, Spot) -> Result<(Read, usize), Halt>>(
    alloc: Global,
    tokens: &Tokens,
    inner: &F,
    pool: &mut Pool,
    s: Spot,
    place: Place,
    span: Span,
) -> Result<(Read, usize), Halt>
    requires given { MayRead tokens.now s s.left (F.pre inner.now) (F.post inner.now) }
    requires small { number_of (span_bytes tokens.now.bytes.items span) < past_numbers }
    ensures { HasRead s.linked tokens.now pool.old pool.new s.at s.left result (reader.primary (reader.room s.linked (whole_in s.linked) (Some s.left)) (whole_in s.linked (Some s.left)) s.edge place (tk.number (number_of (span_bytes tokens.now.bytes.items span))) (ahead tokens.now s.at)) }
{
    match number_value(tokens.word(span)) {
        Some(n) => number(alloc, tokens, inner, pool, s, place, n),
        None => Err(refused(tokens, s, Rule::Syntax)),
    }
}

/// A primary, with the applications and fields after it.
///
/// # Errors
///
/// The rule by which it is refused, and how many tokens are left from there on; or want of memory.
pub fn primary<F: Fn(&mut Pool, Context, Spot) -> Result<(Read, usize), Halt>>(
    alloc: Global,
    tokens: &Tokens,
    inner: &F,
    pool: &mut Pool,
    s: Spot,
) -> Result<(Read, usize), Halt>
    requires given { MayRead tokens.now s s.left (F.pre inner.now) (F.post inner.now) }
    requires numbers { NumbersFit tokens.now }
    ensures { HasRead s.linked tokens.now pool.old pool.new s.at s.left result (reader.peek s.edge (reader.primary (reader.room s.linked (whole_in s.linked) (Some s.left)) (whole_in s.linked (Some s.left)) s.edge) (ahead tokens.now s.at)) }
{
    let t = next_at(tokens, s);
    match t.view {
        View::Number(n) => number(alloc, tokens, inner, pool, s, t.place, n),
        View::BigNumber(span) => big_number(alloc, tokens, inner, pool, s, t.place, span),
        View::Quote(span) => string(alloc, tokens, inner, pool, s, t.place, span),
        View::Constant(c) => constant(alloc, tokens, inner, pool, s, t.place, c),
        View::Word(span) => word(alloc, tokens, inner, pool, s, t.place, span),
        View::Mark(mark) => marked(alloc, tokens, inner, pool, s, t.place, mark),
        View::Sign(op) => bullets(alloc, tokens, inner, pool, s, t.place, op),
        _ => Err(refused(tokens, s, Rule::Syntax)),
    }
}

/// A form that begins with a key, which is the next token, at a place.
///
/// # Errors
///
/// The rule by which it is refused, and how many tokens are left from there on; or want of memory.
pub fn keyed<F: Fn(&mut Pool, Context, Spot) -> Result<(Read, usize), Halt>>(
    alloc: Global,
    tokens: &Tokens,
    inner: &F,
    pool: &mut Pool,
    s: Spot,
    place: Place,
    key: Key,
) -> Result<(Read, usize), Halt>
    requires given { MayRead tokens.now s s.left (F.pre inner.now) (F.post inner.now) }
    ensures { HasRead s.linked tokens.now pool.old pool.new s.at s.left result (reader.keyed (reader.room s.linked (whole_in s.linked) (Some s.left)) s.edge place (key_seen key) (ahead tokens.now s.at)) }
{
    match key {
        Key::If => if_then_else(alloc, tokens, inner, pool, s, place),
        Key::Case => case(alloc, tokens, inner, pool, s, place),
        Key::Let => let_from(alloc, tokens, inner, pool, s, place),
        Key::ForAll => quantifier(alloc, tokens, inner, pool, s, place, true),
        Key::Exists => quantifier(alloc, tokens, inner, pool, s, place, false),
        _ => Err(refused(tokens, s, Rule::Syntax)),
    }
}

/// What an expression begins with, before its operators: a primary, a prefix operator with its operand, or an open form.
///
/// # Errors
///
/// The rule by which it is refused, and how many tokens are left from there on; or want of memory.
pub fn operand<F: Fn(&mut Pool, Context, Spot) -> Result<(Read, usize), Halt>>(
    alloc: Global,
    tokens: &Tokens,
    inner: &F,
    pool: &mut Pool,
    s: Spot,
    context: Context,
) -> Result<(Read, usize), Halt>
    requires given { MayRead tokens.now s s.left (F.pre inner.now) (F.post inner.now) }
    requires numbers { NumbersFit tokens.now }
    ensures { HasRead s.linked tokens.now pool.old pool.new s.at s.left result (reader.peek s.edge (reader.operand (reader.room s.linked (whole_in s.linked) (Some s.left)) (whole_in s.linked (Some s.left)) s.edge (context_seen context)) (ahead tokens.now s.at)) }
{
    let t = next_at(tokens, s);
    match t.view {
        View::Key(key) => keyed(alloc, tokens, inner, pool, s, t.place, key),
        View::Sign(op) => match prefix_by(op) {
            Some(q) => signed(alloc, tokens, inner, pool, s, context, t.place, q),
            None => bullets(alloc, tokens, inner, pool, s, t.place, op),
        },
        _ => primary(alloc, tokens, inner, pool, s),
    }
}

/// An expression there.
///
/// # Errors
///
/// The rule by which it is refused, and how many tokens are left from there on; or want of memory.
pub fn expression<F: Fn(&mut Pool, Context, Spot) -> Result<(Read, usize), Halt>>(
    alloc: Global,
    tokens: &Tokens,
    inner: &F,
    pool: &mut Pool,
    context: Context,
    s: Spot,
) -> Result<(Read, usize), Halt>
    requires given { MayRead tokens.now s s.left (F.pre inner.now) (F.post inner.now) }
    requires numbers { NumbersFit tokens.now }
    ensures { ReadsThere tokens.now pool.old pool.new context s result }
{
    let (a, at) = operand(alloc, tokens, inner, pool, s, context)?;
    climb(alloc, tokens, inner, pool, Spot { at, ..s }, context, a)
}
