//! Reading sets in braces, by what comes behind the `{`.

ghost use Rattle.std.specs.Prelude.{◌<◌, ◌≤◌, suc, length, IfOk, Some};
ghost use Rattle.tla_token.specs.TokensSeen.{span_bytes};
ghost use Rattle.tla_tree.specs.Pool.{Keeps};
ghost use Rattle.tla_tree.specs.Lexical as tk;
ghost use Rattle.tla_tree.specs.Spelling.{Phrase};
ghost use Rattle.tla_tree.specs.Reader as reader;
ghost use Rattle.tla_tree.specs.Whole.{whole_in};
ghost use Rattle.expr_nodes.specs.Ahead.{ahead};
ghost use Rattle.expr_nodes.specs.ReadIn.{IsIn, Told};
ghost use Rattle.expr_rows.specs.HasRead.{HasRead, Stands};
ghost use Rattle.expr_rows.specs.MayRead.{MayRead};
ghost use Rattle.tla_expr.specs.ReadForms.{braced, braced_other};

use crate::read_member::member_in;
use expr_binders::read_image::image_in;
use expr_binders::read_set::set_in;
use expr_nodes::cursor::{Halt, Word, is_sign};
use expr_nodes::make::{Read, empty_set};
use expr_nodes::shape::Context;
use expr_nodes::spot::{Spot, after, after_mark, deeper, next_at};
use expr_nodes::view::{Mark, View};
use expr_operands::read_climb::climb;
use expr_operands::read_link::postfix;
use expr_operands::read_name::from_name;
use std::alloc::Global;
use tla_pool::Pool;
use tla_token::{Place, Tokens};
use tla_tree::Op;

// Behind `{a`: `: x \in S}`, `, b}` or `}`.
fn rest<F: Fn(&mut Pool, Context, Spot) -> Result<(Read, usize), Halt>>(
    alloc: Global,
    tokens: &Tokens,
    inner: &F,
    pool: &mut Pool,
    s: Spot,
    place: Place,
    a: Read,
) -> Result<(Read, usize), Halt>
    requires given { MayRead tokens.now s (suc s.left) (F.pre inner.now) (F.post inner.now) }
    requires a_in { a.id < length pool.old }
    requires a_small { a.shape.nesting ≤ s.left }
    ensures read { (i : Phrase) → IsIn s.linked pool.old a i → Told (λ x j. IsIn s.linked pool.new x.0 j) (λ x. ahead tokens.now x.1) result (reader.peek s.edge (reader.brace_rest (whole_in s.linked (Some s.left)) s.edge place i) (ahead tokens.now s.at)) }
    ensures kept { Keeps pool.old pool.new }
    ensures stands { IfOk result (λ x. Stands tokens.now pool.new s.at (suc s.left) x) }
{
    match after_mark(tokens, s, Mark::Colon) {
        Some(at) => image_in(alloc, tokens, inner, pool, Spot { at, ..s }, place, a),
        None => set_in(alloc, tokens, inner, pool, s, place, a),
    }
}

// Behind `{x`, where no `\in` is next: an expression that begins with the name, and what comes after it.
fn named<F: Fn(&mut Pool, Context, Spot) -> Result<(Read, usize), Halt>>(
    alloc: Global,
    tokens: &Tokens,
    inner: &F,
    pool: &mut Pool,
    s: Spot,
    place: Place,
    word: Word,
) -> Result<(Read, usize), Halt>
    requires given { MayRead tokens.now s (suc s.left) (F.pre inner.now) (F.post inner.now) }
    ensures { HasRead s.linked tokens.now pool.old pool.new s.at (suc s.left) result (braced (reader.room s.linked (whole_in s.linked) (Some s.left)) (whole_in s.linked (Some s.left)) s.edge place word.place (span_bytes tokens.now.bytes.items word.span) (ahead tokens.now s.at)) }
{
    let (a, at) = from_name(alloc, tokens, inner, pool, s, word)?;
    let s = Spot { at, ..s };
    let (b, at) = climb(alloc, tokens, inner, pool, s, Context::Free, a)?;
    rest(alloc, tokens, inner, pool, Spot { at, ..s }, place, b)
}

// Behind `{x`: what a name begins, or a set behind `\in`.
fn from_word<F: Fn(&mut Pool, Context, Spot) -> Result<(Read, usize), Halt>>(
    alloc: Global,
    tokens: &Tokens,
    inner: &F,
    pool: &mut Pool,
    s: Spot,
    place: Place,
    word: Word,
) -> Result<(Read, usize), Halt>
    requires given { MayRead tokens.now s (suc s.left) (F.pre inner.now) (F.post inner.now) }
    ensures { HasRead s.linked tokens.now pool.old pool.new s.at (suc s.left) result (reader.peek s.edge (reader.brace_name (reader.room s.linked (whole_in s.linked) (Some s.left)) (whole_in s.linked (Some s.left)) s.edge place word.place (span_bytes tokens.now.bytes.items word.span)) (ahead tokens.now s.at)) }
{
    let t = next_at(tokens, s);
    if is_sign(Op::In, t.view) {
        let at = after(tokens, s);
        return member_in(
            alloc,
            tokens,
            inner,
            pool,
            Spot { at, ..s },
            place,
            word,
            t.place,
        );
    }
    named(alloc, tokens, inner, pool, s, place, word)
}

// Behind `{`, where no name and no `}` is next.
fn from_other<F: Fn(&mut Pool, Context, Spot) -> Result<(Read, usize), Halt>>(
    alloc: Global,
    tokens: &Tokens,
    inner: &F,
    pool: &mut Pool,
    s: Spot,
    place: Place,
) -> Result<(Read, usize), Halt>
    requires given { MayRead tokens.now s (suc s.left) (F.pre inner.now) (F.post inner.now) }
    ensures { HasRead s.linked tokens.now pool.old pool.new s.at (suc s.left) result (braced_other (whole_in s.linked (Some s.left)) s.edge place (ahead tokens.now s.at)) }
{
    let (a, at) = inner(pool, Context::Free, s)?;
    rest(alloc, tokens, inner, pool, Spot { at, ..s }, place, a)
}

/// Behind a `{` at a place.
///
/// # Errors
///
/// The rule by which it is refused, and how many tokens are left from there on; or want of memory.
pub fn braces_from<F: Fn(&mut Pool, Context, Spot) -> Result<(Read, usize), Halt>>(
    alloc: Global,
    tokens: &Tokens,
    inner: &F,
    pool: &mut Pool,
    s: Spot,
    place: Place,
) -> Result<(Read, usize), Halt>
    requires given { MayRead tokens.now s (suc s.left) (F.pre inner.now) (F.post inner.now) }
    ensures { HasRead s.linked tokens.now pool.old pool.new s.at (suc s.left) result (reader.peek s.edge (reader.braces (reader.room s.linked (whole_in s.linked) (Some s.left)) (whole_in s.linked (Some s.left)) s.edge place) (ahead tokens.now s.at)) }
{
    if let Some(at) = after_mark(tokens, s, Mark::CloseBrace) {
        let whole = empty_set(alloc, pool, place)?;
        return Ok((whole, at));
    }
    let t = next_at(tokens, s);
    match t.view {
        View::Word(span) => {
            let at = after(tokens, s);
            let word = Word {
                place: t.place,
                span,
            };
            let s = Spot { at, ..s };
            from_word(alloc, tokens, inner, pool, s, place, word)
        }
        _ => from_other(alloc, tokens, inner, pool, s, place),
    }
}

/// A set in braces, the next token being the `{`, at a place.
///
/// # Errors
///
/// The rule by which it is refused, and how many tokens are left from there on; or want of memory.
pub fn braces<F: Fn(&mut Pool, Context, Spot) -> Result<(Read, usize), Halt>>(
    alloc: Global,
    tokens: &Tokens,
    inner: &F,
    pool: &mut Pool,
    s: Spot,
    place: Place,
) -> Result<(Read, usize), Halt>
    requires given { MayRead tokens.now s s.left (F.pre inner.now) (F.post inner.now) }
    ensures { HasRead s.linked tokens.now pool.old pool.new s.at s.left result (reader.primary (reader.room s.linked (whole_in s.linked) (Some s.left)) (whole_in s.linked (Some s.left)) s.edge place (tk.mark tk.open_brace) (ahead tokens.now s.at)) }
{
    let d = deeper(tokens, s, 0)?;
    let from = after(tokens, s);
    let d = Spot {
        at: from,
        left: d.left,
        ..s
    };
    let (a, at) = braces_from(alloc, tokens, inner, pool, d, place)?;
    postfix(alloc, tokens, inner, pool, Spot { at, ..s }, a)
}
