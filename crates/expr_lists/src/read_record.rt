//! Reading records and sets of records behind the name of their first field, in square brackets.

ghost use Rattle.std.specs.Prelude.{◌<◌, suc, Some};
ghost use Rattle.tla_tree.specs.Reader as reader;
ghost use Rattle.tla_tree.specs.Whole.{whole_in};
ghost use Rattle.expr_nodes.specs.Ahead.{ahead};
ghost use Rattle.expr_nodes.specs.ReadIn.{field_seen};
ghost use Rattle.expr_rows.specs.HasRead.{HasRead};
ghost use Rattle.expr_rows.specs.MayRead.{MayRead};
ghost use Rattle.expr_lists.specs.InSquares.{fields_of, records_of};

use crate::read_field::fields;
use expr_nodes::cursor::{FieldName, Halt, is_mark};
use expr_nodes::gather;
use expr_nodes::make::Read;
use expr_nodes::shape::Context;
use expr_nodes::spot::{Spot, next_at, past_mark, refused};
use expr_nodes::view::Mark;
use std::alloc::Global;
use tla_pool::Pool;
use tla_token::{Place, Rule, Tokens};

/// `|-> e, b |-> f]` behind `[a`, the `[` being at a place.
///
/// # Errors
///
/// The rule by which it is refused, and how many tokens are left from there on; or want of memory.
pub fn fields_in<F: Fn(&mut Pool, Context, Spot) -> Result<(Read, usize), Halt>>(
    alloc: Global,
    tokens: &Tokens,
    inner: &F,
    pool: &mut Pool,
    s: Spot,
    place: Place,
    field: FieldName,
) -> Result<(Read, usize), Halt>
    requires given { MayRead tokens.now s (suc s.left) (F.pre inner.now) (F.post inner.now) }
    ensures { HasRead s.linked tokens.now pool.old pool.new s.at (suc s.left) result (fields_of (whole_in s.linked (Some s.left)) s.edge place (field_seen tokens.now.bytes.items field) (ahead tokens.now s.at)) }
{
    let (all, at) = fields(alloc, tokens, inner, pool, s, Mark::Maps, field)?;
    let (_, at) = past_mark(tokens, Spot { at, ..s }, Mark::CloseSquare)?;
    let whole = gather::fields(pool, place, all.labels, all.ids, all.nesting)?;
    Ok((whole, at))
}

/// `: S, b : T]` behind `[a`, the `[` being at a place.
///
/// # Errors
///
/// The rule by which it is refused, and how many tokens are left from there on; or want of memory.
pub fn records_in<F: Fn(&mut Pool, Context, Spot) -> Result<(Read, usize), Halt>>(
    alloc: Global,
    tokens: &Tokens,
    inner: &F,
    pool: &mut Pool,
    s: Spot,
    place: Place,
    field: FieldName,
) -> Result<(Read, usize), Halt>
    requires given { MayRead tokens.now s (suc s.left) (F.pre inner.now) (F.post inner.now) }
    ensures { HasRead s.linked tokens.now pool.old pool.new s.at (suc s.left) result (records_of (whole_in s.linked (Some s.left)) s.edge place (field_seen tokens.now.bytes.items field) (ahead tokens.now s.at)) }
{
    let (all, at) = fields(alloc, tokens, inner, pool, s, Mark::Colon, field)?;
    let (_, at) = past_mark(tokens, Spot { at, ..s }, Mark::CloseSquare)?;
    let whole = gather::records(pool, place, all.labels, all.ids, all.nesting)?;
    Ok((whole, at))
}

/// What comes behind `[a`, where that is the name of a field: a record, or a set of records.
///
/// # Errors
///
/// The rule by which it is refused, and how many tokens are left from there on; or want of memory.
pub fn record_rest<F: Fn(&mut Pool, Context, Spot) -> Result<(Read, usize), Halt>>(
    alloc: Global,
    tokens: &Tokens,
    inner: &F,
    pool: &mut Pool,
    s: Spot,
    place: Place,
    field: FieldName,
) -> Result<(Read, usize), Halt>
    requires given { MayRead tokens.now s (suc s.left) (F.pre inner.now) (F.post inner.now) }
    ensures { HasRead s.linked tokens.now pool.old pool.new s.at (suc s.left) result (reader.peek s.edge (reader.field_rest (whole_in s.linked (Some s.left)) s.edge place (field_seen tokens.now.bytes.items field)) (ahead tokens.now s.at)) }
{
    let t = next_at(tokens, s);
    if is_mark(Mark::Maps, t.view) {
        return fields_in(alloc, tokens, inner, pool, s, place, field);
    }
    if is_mark(Mark::Colon, t.view) {
        return records_in(alloc, tokens, inner, pool, s, place, field);
    }
    Err(refused(tokens, s, Rule::Syntax))
}
