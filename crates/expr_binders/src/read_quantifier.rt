//! Reading quantifiers, over a reader of the expressions in them.

ghost use Rattle.std.specs.Prelude.{Bool, ◌≡◌, ◌<◌, ◌≤◌, ◌+◌, max, suc, length, IfOk, Some};
ghost use Rattle.tla_tree.specs.Nesting.{deepest_in_module};
ghost use Rattle.tla_tree.specs.Pool.{AllBelow, Keeps};
ghost use Rattle.tla_tree.specs.Shapes.{HaveNames};
ghost use Rattle.tla_tree.specs.Reader as reader;
ghost use Rattle.tla_tree.specs.Spelling as spelled;
ghost use Rattle.tla_tree.specs.Spelling.{Phrase, Binds};
ghost use Rattle.tla_tree.specs.Whole.{whole_in};
ghost use Rattle.tla_pool.specs.FormOf.{groups_of};
ghost use Rattle.expr_nodes.specs.Ahead.{ahead};
ghost use Rattle.expr_nodes.specs.ReadIn.{AreBound, IsIn};
ghost use Rattle.expr_nodes.specs.ShapeOf.{open_shape as open_shape_of};
ghost use Rattle.expr_rows.specs.HasRead.{HasRead};
ghost use Rattle.expr_rows.specs.MayRead.{MayRead};

use crate::read_bind::{Bound, binds};
use expr_nodes::cursor::Halt;
use expr_nodes::gather::{exists, for_all};
use expr_nodes::make::Read;
use expr_nodes::shape::Context;
use expr_nodes::spot::{Spot, after, deeper, past_mark, past_word};
use expr_nodes::view::Mark;
use std::alloc::{AllocError, Global};
use tla_pool::Pool;
use tla_token::{Place, Tokens};

// `\A x \in S : p`, or with `\E`.
fn quantified(
    pool: &mut Pool,
    place: Place,
    every: bool,
    bound: Bound,
    body: Read,
) -> Result<Read, AllocError>
    requires below { AllBelow (length pool.old) bound.sets.items }
    requires body_in { body.id < length pool.old }
    requires named { HaveNames (groups_of bound.groups.items) }
    requires as_many { length bound.sets.items ≡ length (groups_of bound.groups.items) }
    requires body_small { body.shape.nesting ≤ deepest_in_module }
    requires small { bound.nesting ≤ deepest_in_module }
    ensures read { IfOk result (λ x. (w : Bool) (i : Phrase) (bs : Binds) (q : Place) → IsIn w pool.old body i → AreBound w pool.old (groups_of bound.groups.items) bound.sets.items bound.nesting bs → IsIn w pool.new x (spelled.quantified every place bs q i)) }
    ensures shape { IfOk result (λ x. x.shape ≡ open_shape_of place body.shape.boxes (1 + max bound.nesting body.shape.nesting)) }
    ensures within { IfOk result (λ x. x.id < length pool.new) }
    ensures kept { Keeps pool.old pool.new }
{
    let Bound {
        groups,
        sets,
        nesting,
    } = bound;
    if every {
        for_all(pool, place, groups, sets, nesting, body)
    } else {
        exists(pool, place, groups, sets, nesting, body)
    }
}

/// `x \in S : p` behind `\A` at a place, or behind `\E`.
///
/// # Errors
///
/// The rule by which it is refused, and how many tokens are left from there on; or want of memory.
pub fn quantifier_in<F: Fn(&mut Pool, Context, Spot) -> Result<(Read, usize), Halt>>(
    alloc: Global,
    tokens: &Tokens,
    inner: &F,
    pool: &mut Pool,
    s: Spot,
    place: Place,
    every: bool,
) -> Result<(Read, usize), Halt>
    requires given { MayRead tokens.now s (suc s.left) (F.pre inner.now) (F.post inner.now) }
    ensures { HasRead s.linked tokens.now pool.old pool.new s.at (suc s.left) result (reader.quantifier (whole_in s.linked (Some s.left)) s.edge every place (ahead tokens.now s.at)) }
{
    let (word, at) = past_word(tokens, s)?;
    let (bound, at) = binds(alloc, tokens, inner, pool, Spot { at, ..s }, word)?;
    let (_, at) = past_mark(tokens, Spot { at, ..s }, Mark::Colon)?;
    let (a, at) = inner(pool, Context::Free, Spot { at, ..s })?;
    let whole = quantified(pool, place, every, bound, a)?;
    Ok((whole, at))
}

/// `\A x \in S : p`, the next token being the `\A`, at a place, or the `\E`.
///
/// # Errors
///
/// The rule by which it is refused, and how many tokens are left from there on; or want of memory.
pub fn quantifier<F: Fn(&mut Pool, Context, Spot) -> Result<(Read, usize), Halt>>(
    alloc: Global,
    tokens: &Tokens,
    inner: &F,
    pool: &mut Pool,
    s: Spot,
    place: Place,
    every: bool,
) -> Result<(Read, usize), Halt>
    requires given { MayRead tokens.now s s.left (F.pre inner.now) (F.post inner.now) }
    ensures { HasRead s.linked tokens.now pool.old pool.new s.at s.left result (reader.keyed (reader.room s.linked (whole_in s.linked) (Some s.left)) s.edge place (spelled.quantifier every) (ahead tokens.now s.at)) }
{
    let d = deeper(tokens, s, 0)?;
    let from = after(tokens, s);
    quantifier_in(
        alloc,
        tokens,
        inner,
        pool,
        Spot {
            at: from,
            left: d.left,
            ..s
        },
        place,
        every,
    )
}
