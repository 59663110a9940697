//! Reading operators after an expression, with their right operands.

ghost use Rattle.std.specs.Prelude.{◌≡◌, ◌<◌, ◌≤◌, ◌+◌, length, IfOk, IfSome, Some};
ghost use Rattle.tla_tree.specs.Pool.{Keeps};
ghost use Rattle.tla_tree.specs.Spelling.{Phrase};
ghost use Rattle.tla_tree.specs.Whole.{whole_in};
ghost use Rattle.expr_nodes.specs.Ahead.{ahead};
ghost use Rattle.expr_nodes.specs.ShapeOf.{context_seen};
ghost use Rattle.expr_nodes.specs.ReadIn.{IsIn, Told};
ghost use Rattle.expr_rows.specs.HasRead.{Stands, Steps};
ghost use Rattle.expr_rows.specs.MayRead.{MayRead};

use expr_nodes::cursor::Halt;
use expr_nodes::make::{Read, infix};
use expr_nodes::shape::{Context, bound, goes_on};
use expr_nodes::spot::{Spot, after, deeper, next_at};
use expr_nodes::view::View;
use std::alloc::Global;
use tla_pool::Pool;
use tla_token::Tokens;

// One operator with its right operand, if there is one that goes on.
fn operator<F: Fn(&mut Pool, Context, Spot) -> Result<(Read, usize), Halt>>(
    alloc: Global,
    tokens: &Tokens,
    inner: &F,
    pool: &mut Pool,
    s: Spot,
    context: Context,
    a: Read,
) -> Result<Option<(Read, usize)>, Halt>
    requires given { MayRead tokens.now s s.left (F.pre inner.now) (F.post inner.now) }
    requires a_in { a.id < length pool.old }
    requires a_small { a.shape.nesting ≤ s.left }
    ensures read { (i : Phrase) → IsIn s.linked pool.old a i → Steps s.linked tokens.now pool.new (λ j. (whole_in s.linked (Some s.left)).climb s.edge (context_seen context) j) i (ahead tokens.now s.at) result ((whole_in s.linked (Some s.left)).climb s.edge (context_seen context) i (ahead tokens.now s.at)) }
    ensures kept { Keeps pool.old pool.new }
    ensures stands { IfOk result (λ o. IfSome o (λ x. Stands tokens.now pool.new s.at s.left x)) }
    ensures longer { IfOk result (λ o. IfSome o (λ x. (x.0.shape.chain ≡ a.shape.chain + 1) × (a.shape.chain < s.left))) }
{
    let t = next_at(tokens, s);
    let View::Sign(op) = t.view else {
        return Ok(None);
    };
    if !goes_on(bound(context), a.shape, t.place, op) {
        return Ok(None);
    }
    let d = deeper(tokens, s, a.shape.chain)?;
    let from = after(tokens, s);
    let (b, at) = inner(
        pool,
        Context::RightOf(op),
        Spot {
            at: from,
            left: d.left,
            ..s
        },
    )?;
    let whole = infix(alloc, pool, a, op, b)?;
    Ok(Some((whole, at)))
}

/// An expression so far, with the operators after it and their right operands.
///
/// # Errors
///
/// The rule by which it is refused, and how many tokens are left from there on; or want of memory.
pub fn climb<F: Fn(&mut Pool, Context, Spot) -> Result<(Read, usize), Halt>>(
    alloc: Global,
    tokens: &Tokens,
    inner: &F,
    pool: &mut Pool,
    s: Spot,
    context: Context,
    a: Read,
) -> Result<(Read, usize), Halt>
    requires given { MayRead tokens.now s s.left (F.pre inner.now) (F.post inner.now) }
    requires a_in { a.id < length pool.old }
    requires a_small { a.shape.nesting ≤ s.left }
    ensures read { (i : Phrase) → IsIn s.linked pool.old a i → Told (λ x j. IsIn s.linked pool.new x.0 j) (λ x. ahead tokens.now x.1) result ((whole_in s.linked (Some s.left)).climb s.edge (context_seen context) i (ahead tokens.now s.at)) }
    ensures kept { Keeps pool.old pool.new }
    ensures stands { IfOk result (λ x. Stands tokens.now pool.new s.at s.left x) }
{
    let mut so_far = a;
    let mut at = s.at;
    while let Some((b, next)) = operator(
        alloc,
        tokens,
        inner,
        pool,
        Spot { at, ..s },
        context,
        so_far,
    )? {
        so_far = b;
        at = next;
    }
    Ok((so_far, at))
}
