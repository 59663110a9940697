//! Reading applications and fields of a primary: `f[a]` and `r.b`.

ghost use Rattle.std.specs.Prelude.{◌<◌, ◌≤◌, ◌+◌, ◌≡◌, suc, length, IfOk, IfErr, OnErr, IfSome, Some, true};
ghost use Rattle.tla_tree.specs.Nesting.{deepest_in_module};
ghost use Rattle.tla_tree.specs.Pool.{Keeps};
ghost use Rattle.tla_tree.specs.Spelling.{Phrase};
ghost use Rattle.tla_tree.specs.Whole.{whole_in};
ghost use Rattle.expr_nodes.specs.Ahead.{ahead};
ghost use Rattle.expr_nodes.specs.ShapeOf.{links_before as links_before_of, field_links};
ghost use Rattle.expr_nodes.specs.declared.cursor.Halt.TheVariants as halt;
ghost use Rattle.tla_token.specs.declared.rule.Rule.TheVariants as rule;
ghost use Rattle.expr_nodes.specs.ReadIn.{IsIn, Told};
ghost use Rattle.expr_rows.specs.HasRead.{Stands, Steps, applied, selected};
ghost use Rattle.expr_rows.specs.MayRead.{MayRead};

use expr_nodes::cursor::Halt;
use expr_nodes::make::{Read, apply, select};
use expr_nodes::shape::{Context, can_be_head, links_before};
use expr_nodes::spot::{Spot, after_mark, deeper, next_at, past_field, past_mark};
use expr_nodes::view::Mark;
use expr_rows::read_row::phrases;
use std::alloc::Global;
use tla_pool::Pool;
use tla_token::{Place, Tokens};

// `a, b]` behind a primary and `[`, where one form more is open for each of its applications and fields.
fn apply_in<F: Fn(&mut Pool, Context, Spot) -> Result<(Read, usize), Halt>>(
    alloc: Global,
    tokens: &Tokens,
    inner: &F,
    pool: &mut Pool,
    s: Spot,
    a: Read,
) -> Result<(Read, usize), Halt>
    requires given { MayRead tokens.now s (suc s.left) (F.pre inner.now) (F.post inner.now) }
    requires a_in { a.id < length pool.old }
    requires limited { s.left + suc (links_before_of s.linked a.shape.links) ≤ deepest_in_module }
    requires a_small { a.shape.nesting ≤ s.left + suc (links_before_of s.linked a.shape.links) }
    ensures read { (i : Phrase) (p : Place) → IsIn s.linked pool.old a i → Told (λ x j. IsIn s.linked pool.new x.0 j) (λ x. ahead tokens.now x.1) result (applied (whole_in s.linked (Some s.left)) s.edge i p (ahead tokens.now s.at)) }
    ensures kept { Keeps pool.old pool.new }
    ensures stands { IfOk result (λ x. Stands tokens.now pool.new s.at (s.left + suc (links_before_of s.linked a.shape.links)) x) }
{
    let (many, at) = phrases(alloc, tokens, inner, pool, s)?;
    let (_, at) = past_mark(tokens, Spot { at, ..s }, Mark::CloseSquare)?;
    let whole = apply(alloc, pool, a, many.ids, many.row, s.linked)?;
    Ok((whole, at))
}

// `b` behind a primary and `.`.
fn select_in(
    alloc: Global,
    tokens: &Tokens,
    pool: &mut Pool,
    s: Spot,
    a: Read,
) -> Result<(Read, usize), Halt>
    requires there { s.at ≤ length tokens.now.items.items }
    requires a_in { a.id < length pool.old }
    requires limited { s.left + field_links s.linked a.shape.links ≤ deepest_in_module }
    requires a_small { a.shape.nesting ≤ s.left + field_links s.linked a.shape.links }
    ensures read { (i : Phrase) (p : Place) → IsIn s.linked pool.old a i → Told (λ x j. IsIn s.linked pool.new x.0 j) (λ x. ahead tokens.now x.1) result (selected s.edge i p (ahead tokens.now s.at)) }
    ensures kept { Keeps pool.old pool.new }
    ensures stands { IfOk result (λ x. Stands tokens.now pool.new s.at (s.left + field_links s.linked a.shape.links) x) }
{
    let (field, at) = past_field(tokens, s)?;
    let whole = select(alloc, pool, tokens, a, field, s.linked)?;
    Ok((whole, at))
}

// Where a field of a primary with so many links is read: where fields count, one form more is open, besides the links.
fn at_field(tokens: &Tokens, s: Spot, links: u32) -> Result<Spot, Halt>
    requires { s.at ≤ length tokens.now.items.items }
    ensures left { IfOk result (λ d. d.left + field_links s.linked links ≡ s.left) }
    ensures at { IfOk result (λ d. d.at ≡ s.at) }
    ensures edge { IfOk result (λ d. d.edge ≡ s.edge) }
    ensures linked { IfOk result (λ d. d.linked ≡ s.linked) }
    ensures counted { OnErr result (s.linked ≡ true) }
    ensures deep { OnErr result (s.left ≤ links) }
    ensures refused { IfErr result (λ e. e ≡ halt.Refused rule.TooDeep (length (ahead tokens.now s.at))) }
{
    if s.linked {
        deeper(tokens, s, links)
    } else {
        Ok(s)
    }
}

// One application or field after a primary, if there is one.
fn link<F: Fn(&mut Pool, Context, Spot) -> Result<(Read, usize), Halt>>(
    alloc: Global,
    tokens: &Tokens,
    inner: &F,
    pool: &mut Pool,
    s: Spot,
    a: Read,
) -> Result<Option<(Read, usize)>, Halt>
    requires given { MayRead tokens.now s s.left (F.pre inner.now) (F.post inner.now) }
    requires a_in { a.id < length pool.old }
    requires a_small { a.shape.nesting ≤ s.left }
    ensures read { (i : Phrase) → IsIn s.linked pool.old a i → Steps s.linked tokens.now pool.new (λ j. (whole_in s.linked (Some s.left)).postfix s.edge j) i (ahead tokens.now s.at) result ((whole_in s.linked (Some s.left)).postfix s.edge i (ahead tokens.now s.at)) }
    ensures kept { Keeps pool.old pool.new }
    ensures stands { IfOk result (λ o. IfSome o (λ x. Stands tokens.now pool.new (suc s.at) s.left x)) }
{
    let t = next_at(tokens, s);
    if !can_be_head(a.shape, t.place) {
        return Ok(None);
    }
    if let Some(from) = after_mark(tokens, s, Mark::OpenSquare) {
        let besides = links_before(s.linked, a.shape.links);
        let d = deeper(tokens, s, besides)?;
        let x = apply_in(
            alloc,
            tokens,
            inner,
            pool,
            Spot {
                at: from,
                left: d.left,
                ..s
            },
            a,
        )?;
        return Ok(Some(x));
    }
    if let Some(from) = after_mark(tokens, s, Mark::Dot) {
        let d = at_field(tokens, s, a.shape.links)?;
        let x = select_in(
            alloc,
            tokens,
            pool,
            Spot {
                at: from,
                left: d.left,
                ..s
            },
            a,
        )?;
        return Ok(Some(x));
    }
    Ok(None)
}

/// A primary so far, with the applications and fields after it.
///
/// # Errors
///
/// The rule by which it is refused, and how many tokens are left from there on; or want of memory.
pub fn postfix<F: Fn(&mut Pool, Context, Spot) -> Result<(Read, usize), Halt>>(
    alloc: Global,
    tokens: &Tokens,
    inner: &F,
    pool: &mut Pool,
    s: Spot,
    a: Read,
) -> Result<(Read, usize), Halt>
    requires given { MayRead tokens.now s s.left (F.pre inner.now) (F.post inner.now) }
    requires a_in { a.id < length pool.old }
    requires a_small { a.shape.nesting ≤ s.left }
    ensures read { (i : Phrase) → IsIn s.linked pool.old a i → Told (λ x j. IsIn s.linked pool.new x.0 j) (λ x. ahead tokens.now x.1) result ((whole_in s.linked (Some s.left)).postfix s.edge i (ahead tokens.now s.at)) }
    ensures kept { Keeps pool.old pool.new }
    ensures stands { IfOk result (λ x. Stands tokens.now pool.new s.at s.left x) }
{
    let mut so_far = a;
    let mut at = s.at;
    while let Some((b, next)) = link(alloc, tokens, inner, pool, Spot { at, ..s }, so_far)? {
        so_far = b;
        at = next;
    }
    Ok((so_far, at))
}
