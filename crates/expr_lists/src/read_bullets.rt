//! Reading the items of a list by columns, over a reader of the items.

ghost use Rattle.std.specs.Prelude.{◌≡◌, ◌<◌, ◌≤◌, suc, true, length, IfOk, Some};
ghost use Rattle.tla_tree.specs.Pool.{Keeps};
ghost use Rattle.tla_tree.specs.Rank.{is_bullet as is_bullet_of};
ghost use Rattle.tla_tree.specs.Spelling.{Phrase};
ghost use Rattle.tla_tree.specs.Whole.{whole_in};
ghost use Rattle.expr_nodes.specs.Ahead.{ahead};
ghost use Rattle.expr_nodes.specs.ReadIn.{AreItems, IsIn, Told};
ghost use Rattle.expr_rows.specs.HasRead.{one_item};
ghost use Rattle.expr_rows.specs.MayRead.{MayRead};

use expr_nodes::cursor::Halt;
use expr_nodes::gather::joined;
use expr_nodes::make::Read;
use expr_nodes::shape::{Boxes, Context, larger};
use expr_nodes::spot::{Spot, deeper};
use expr_rows::on_next::{is_bullet_next, past_bullet};
use std::alloc::Global;
use tla_pool::Pool;
use tla_token::{Place, Tokens};
use tla_tree::{NodeId, Op};

/// An item, and the place of its bullet.
#[derive(Clone, Copy)]
pub struct Item {
    pub place: Place,
    pub read: Read,
}

/// Items that were read: the number of their tree, the place of the first bullet, which `[]` the last one takes, and what they open.
#[derive(Clone, Copy)]
pub struct Items {
    pub id: NodeId,
    pub first: Place,
    pub boxes: Boxes,
    pub nesting: u32,
}

// `/\ a`, the sign being in this column and the item to the right of it.
fn next_item<F: Fn(&mut Pool, Context, Spot) -> Result<(Read, usize), Halt>>(
    tokens: &Tokens,
    inner: &F,
    pool: &mut Pool,
    s: Spot,
    op: Op,
    col: u32,
) -> Result<(Item, usize), Halt>
    requires given { MayRead tokens.now s (suc s.left) (F.pre inner.now) (F.post inner.now) }
    ensures read { Told (λ x (y : Place × Phrase). (y.0 ≡ x.0.place) × IsIn s.linked pool.new x.0.read y.1) (λ x. ahead tokens.now x.1) result (one_item (whole_in s.linked (Some s.left)) s.edge op col (ahead tokens.now s.at)) }
    ensures kept { Keeps pool.old pool.new }
    ensures within { IfOk result (λ x. x.0.read.id < length pool.new) }
    ensures small { IfOk result (λ x. x.0.read.shape.nesting ≤ s.left) }
    ensures inside { IfOk result (λ x. x.1 ≤ length tokens.now.items.items) }
    ensures further { IfOk result (λ x. s.at ≤ x.1) }
{
    let (place, at) = past_bullet(tokens, s, op, col)?;
    let edge = col;
    let (read, at) = inner(pool, Context::Free, Spot { at, edge, ..s })?;
    Ok((Item { place, read }, at))
}

/// `/\ a` under one another, the signs being in this column; each further one is open besides those before it.
///
/// # Errors
///
/// The rule by which it is refused, and how many tokens are left from there on; or want of memory.
pub fn bullets<F: Fn(&mut Pool, Context, Spot) -> Result<(Read, usize), Halt>>(
    alloc: Global,
    tokens: &Tokens,
    inner: &F,
    pool: &mut Pool,
    s: Spot,
    op: Op,
    col: u32,
) -> Result<(Items, usize), Halt>
    requires given { MayRead tokens.now s s.left (F.pre inner.now) (F.post inner.now) }
    requires bullet { is_bullet_of op ≡ true }
    ensures read { Told (λ x bs. AreItems s.linked pool.new op x.0.id x.0.first x.0.boxes x.0.nesting bs) (λ x. ahead tokens.now x.1) result ((whole_in s.linked (Some s.left)).bullets s.edge op col (ahead tokens.now s.at)) }
    ensures kept { Keeps pool.old pool.new }
    ensures below { IfOk result (λ x. x.0.id < length pool.new) }
    ensures small { IfOk result (λ x. x.0.nesting ≤ s.left) }
    ensures inside { IfOk result (λ x. x.1 ≤ length tokens.now.items.items) }
    ensures further { IfOk result (λ x. s.at ≤ x.1) }
{
    let mut left = deeper(tokens, s, 0)?.left;
    let (one, next) = next_item(tokens, inner, pool, Spot { left, ..s }, op, col)?;
    let mut at = next;
    let mut id = one.read.id;
    let mut boxes = one.read.shape.boxes;
    let mut nesting = 1 + one.read.shape.nesting;
    let first = one.place;
    while is_bullet_next(tokens, Spot { at, ..s }, op, col) {
        left = deeper(tokens, Spot { at, left, ..s }, 0)?.left;
        let (a, next) = next_item(tokens, inner, pool, Spot { at, left, ..s }, op, col)?;
        id = joined(alloc, pool, first, op, id, a.read.id)?;
        at = next;
        boxes = a.read.shape.boxes;
        nesting = larger(nesting, s.left - left + a.read.shape.nesting);
    }
    let all = Items {
        id,
        first,
        boxes,
        nesting,
    };
    Ok((all, at))
}
