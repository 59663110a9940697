//! Reading expressions in a row.

ghost use Rattle.std.specs.Prelude.{◌≡◌, ◌<◌, ◌≤◌, ◌∷◌, suc, length, IfOk, Some};
ghost use Rattle.tla_tree.specs.Pool.{AllBelow, Keeps};
ghost use Rattle.tla_tree.specs.Whole.{whole_in};
ghost use Rattle.expr_nodes.specs.Ahead.{ahead};
ghost use Rattle.expr_nodes.specs.ReadIn.{AreIn, Told};
ghost use Rattle.expr_rows.specs.MayRead.{MayRead};

use expr_nodes::cursor::Halt;
use expr_nodes::make::{Read, Row};
use expr_nodes::shape::{Context, larger};
use expr_nodes::spot::{Spot, after_mark};
use expr_nodes::view::Mark;
use std::alloc::{AllocError, Global};
use tla_pool::Pool;
use tla_token::Tokens;
use tla_tree::NodeId;

/// Expressions in a row that were read: their numbers, where the first one begins, and what they open.
#[derive(Drop)]
pub struct Many {
    pub ids: Vec<NodeId>,
    pub row: Row,
}

/// A number before others.
///
/// # Errors
///
/// Only for want of memory.
pub fn in_front(alloc: Global, first: NodeId, rest: Vec<NodeId>) -> Result<Vec<NodeId>, AllocError>
    ensures { IfOk result (λ ids. ids.items ≡ first ∷ rest.items) }
{
    let mut ids = Vec::from_array(alloc, [first])?;
    ids.extend_from_slice(&rest)?;
    Ok(ids)
}

/// `a, b, c`
///
/// # Errors
///
/// The rule by which it is refused, and how many tokens are left from there on; or want of memory.
#[tactic(auto, using(crate::proofs::ReadRows::first_fails))]
pub fn phrases<F: Fn(&mut Pool, Context, Spot) -> Result<(Read, usize), Halt>>(
    alloc: Global,
    tokens: &Tokens,
    inner: &F,
    pool: &mut Pool,
    s: Spot,
) -> Result<(Many, usize), Halt>
    requires given { MayRead tokens.now s (suc s.left) (F.pre inner.now) (F.post inner.now) }
    ensures read { Told (λ x xs. AreIn s.linked pool.new x.0.ids.items x.0.row xs) (λ x. ahead tokens.now x.1) result ((whole_in s.linked (Some s.left)).phrases s.edge (ahead tokens.now s.at)) }
    ensures kept { Keeps pool.old pool.new }
    ensures some { IfOk result (λ x. 1 ≤ length x.0.ids.items) }
    ensures below { IfOk result (λ x. AllBelow (length pool.new) x.0.ids.items) }
    ensures small { IfOk result (λ x. x.0.row.nesting ≤ s.left) }
    ensures inside { IfOk result (λ x. x.1 ≤ length tokens.now.items.items) }
    ensures further { IfOk result (λ x. s.at ≤ x.1) }
{
    let (first, next) = inner(pool, Context::Free, s)?;
    let mut at = next;
    let mut ids = Vec::new(alloc);
    ids.push(first.id)?;
    let mut nesting = first.shape.nesting;
    while let Some(from) = after_mark(tokens, Spot { at, ..s }, Mark::Comma) {
        let (a, next) = inner(pool, Context::Free, Spot { at: from, ..s })?;
        at = next;
        ids.push(a.id)?;
        nesting = larger(nesting, a.shape.nesting);
    }
    let first = first.shape.start;
    let row = Row { first, nesting };
    Ok((Many { ids, row }, at))
}
