//! Reading sets of expressions in braces, behind their first expression.

ghost use Rattle.std.specs.Prelude.{◌<◌, ◌≤◌, suc, length, IfOk, Some};
ghost use Rattle.tla_tree.specs.Nesting.{deepest_in_module};
ghost use Rattle.tla_tree.specs.Pool.{Keeps};
ghost use Rattle.tla_tree.specs.Spelling.{Phrase};
ghost use Rattle.tla_tree.specs.Reader as reader;
ghost use Rattle.tla_tree.specs.Whole.{whole_in};
ghost use Rattle.expr_nodes.specs.Ahead.{ahead};
ghost use Rattle.expr_nodes.specs.ReadIn.{IsIn, Told};
ghost use Rattle.expr_rows.specs.HasRead.{Stands};
ghost use Rattle.expr_rows.specs.MayRead.{MayRead};
ghost use Rattle.expr_binders.specs.InBraces.{set_alone, set_before};

use expr_nodes::cursor::Halt;
use expr_nodes::make::{Read, Row, set_of};
use expr_nodes::shape::{Context, larger};
use expr_nodes::spot::{Spot, after_mark, past_mark};
use expr_nodes::view::Mark;
use expr_rows::read_row::{in_front, phrases};
use std::alloc::Global;
use tla_pool::Pool;
use tla_token::{Place, Tokens};

// `}` behind `{a`, the `{` being at a place.
fn alone_in(
    alloc: Global,
    tokens: &Tokens,
    pool: &mut Pool,
    s: Spot,
    place: Place,
    a: Read,
) -> Result<(Read, usize), Halt>
    requires there { s.at ≤ length tokens.now.items.items }
    requires limited { s.left ≤ deepest_in_module }
    requires a_in { a.id < length pool.old }
    requires a_small { a.shape.nesting ≤ s.left }
    ensures read { (i : Phrase) → IsIn s.linked pool.old a i → Told (λ x j. IsIn s.linked pool.new x.0 j) (λ x. ahead tokens.now x.1) result (set_alone s.edge place i (ahead tokens.now s.at)) }
    ensures kept { Keeps pool.old pool.new }
    ensures stands { IfOk result (λ x. Stands tokens.now pool.new s.at (suc s.left) x) }
{
    let (_, at) = past_mark(tokens, s, Mark::CloseBrace)?;
    let ids = Vec::from_array(alloc, [a.id])?;
    let row = Row {
        first: a.shape.start,
        nesting: a.shape.nesting,
    };
    let whole = set_of(pool, place, ids, row)?;
    Ok((whole, at))
}

// `b, c}` behind `{a,`, the `{` being at a place.
fn before_in<F: Fn(&mut Pool, Context, Spot) -> Result<(Read, usize), Halt>>(
    alloc: Global,
    tokens: &Tokens,
    inner: &F,
    pool: &mut Pool,
    s: Spot,
    place: Place,
    a: Read,
) -> Result<(Read, usize), Halt>
    requires given { MayRead tokens.now s (suc s.left) (F.pre inner.now) (F.post inner.now) }
    requires a_in { a.id < length pool.old }
    requires a_small { a.shape.nesting ≤ s.left }
    ensures read { (i : Phrase) (q : Place) → IsIn s.linked pool.old a i → Told (λ x j. IsIn s.linked pool.new x.0 j) (λ x. ahead tokens.now x.1) result (set_before (whole_in s.linked (Some s.left)) s.edge place i q (ahead tokens.now s.at)) }
    ensures kept { Keeps pool.old pool.new }
    ensures stands { IfOk result (λ x. Stands tokens.now pool.new s.at (suc s.left) x) }
{
    let (many, at) = phrases(alloc, tokens, inner, pool, s)?;
    let (_, at) = past_mark(tokens, Spot { at, ..s }, Mark::CloseBrace)?;
    let row = Row {
        first: a.shape.start,
        nesting: larger(a.shape.nesting, many.row.nesting),
    };
    let ids = in_front(alloc, a.id, many.ids)?;
    let whole = set_of(pool, place, ids, row)?;
    Ok((whole, at))
}

/// `, b}` or `}` behind `{a`, the `{` being at a place.
///
/// # Errors
///
/// The rule by which it is refused, and how many tokens are left from there on; or want of memory.
pub fn set_in<F: Fn(&mut Pool, Context, Spot) -> Result<(Read, usize), Halt>>(
    alloc: Global,
    tokens: &Tokens,
    inner: &F,
    pool: &mut Pool,
    s: Spot,
    place: Place,
    a: Read,
) -> Result<(Read, usize), Halt>
    requires given { MayRead tokens.now s (suc s.left) (F.pre inner.now) (F.post inner.now) }
    requires a_in { a.id < length pool.old }
    requires a_small { a.shape.nesting ≤ s.left }
    ensures read { (i : Phrase) → IsIn s.linked pool.old a i → Told (λ x j. IsIn s.linked pool.new x.0 j) (λ x. ahead tokens.now x.1) result (reader.peek s.edge (reader.set_rest (whole_in s.linked (Some s.left)) s.edge place i) (ahead tokens.now s.at)) }
    ensures kept { Keeps pool.old pool.new }
    ensures stands { IfOk result (λ x. Stands tokens.now pool.new s.at (suc s.left) x) }
{
    match after_mark(tokens, s, Mark::Comma) {
        Some(at) => before_in(alloc, tokens, inner, pool, Spot { at, ..s }, place, a),
        None => alone_in(alloc, tokens, pool, s, place, a),
    }
}
