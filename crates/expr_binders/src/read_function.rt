//! Reading functions behind `[x`, in square brackets.

ghost use Rattle.std.specs.Prelude.{◌≡◌, ◌<◌, ◌≤◌, suc, length, IfOk, Some};
ghost use Rattle.tla_token.specs.TokensSeen.{span_bytes};
ghost use Rattle.tla_tree.specs.Pool.{AllBelow, Keeps};
ghost use Rattle.tla_tree.specs.Shapes.{HaveNames};
ghost use Rattle.tla_tree.specs.Reader as reader;
ghost use Rattle.tla_tree.specs.Spelling.{Binds, Phrase};
ghost use Rattle.tla_tree.specs.Whole.{whole_in};
ghost use Rattle.tla_pool.specs.FormOf.{groups_of};
ghost use Rattle.expr_nodes.specs.Ahead.{ahead};
ghost use Rattle.expr_nodes.specs.ReadIn.{AreBound, IsIn, Told};
ghost use Rattle.expr_rows.specs.HasRead.{HasRead, Stands};
ghost use Rattle.expr_rows.specs.MayRead.{MayRead};
ghost use Rattle.expr_binders.specs.Functions.{function_of, function_behind};

use crate::read_bind::{Bound, binds, binds_on};
use expr_nodes::cursor::{Halt, Word};
use expr_nodes::gather::function;
use expr_nodes::make::Read;
use expr_nodes::shape::Context;
use expr_nodes::spot::{Spot, past_mark};
use expr_nodes::view::Mark;
use std::alloc::Global;
use tla_pool::Pool;
use tla_token::{Place, Tokens};

/// `|-> e]` behind `[x \in S`, the `[` being at a place.
///
/// # Errors
///
/// The rule by which it is refused, and how many tokens are left from there on; or want of memory.
pub fn function_in<F: Fn(&mut Pool, Context, Spot) -> Result<(Read, usize), Halt>>(
    tokens: &Tokens,
    inner: &F,
    pool: &mut Pool,
    s: Spot,
    place: Place,
    bound: Bound,
) -> Result<(Read, usize), Halt>
    requires given { MayRead tokens.now s (suc s.left) (F.pre inner.now) (F.post inner.now) }
    requires below { AllBelow (length pool.old) bound.sets.items }
    requires named { HaveNames (groups_of bound.groups.items) }
    requires as_many { length bound.sets.items ≡ length (groups_of bound.groups.items) }
    requires small { bound.nesting ≤ s.left }
    ensures read { (bs : Binds) → AreBound s.linked pool.old (groups_of bound.groups.items) bound.sets.items bound.nesting bs → Told (λ x j. IsIn s.linked pool.new x.0 j) (λ x. ahead tokens.now x.1) result (reader.function_rest (whole_in s.linked (Some s.left)) s.edge place bs (ahead tokens.now s.at)) }
    ensures kept { Keeps pool.old pool.new }
    ensures stands { IfOk result (λ x. Stands tokens.now pool.new s.at (suc s.left) x) }
{
    let Bound {
        groups,
        sets,
        nesting,
    } = bound;
    let (_, at) = past_mark(tokens, s, Mark::Maps)?;
    let (a, at) = inner(pool, Context::Free, Spot { at, ..s })?;
    let (_, at) = past_mark(tokens, Spot { at, ..s }, Mark::CloseSquare)?;
    let whole = function(pool, place, groups, sets, nesting, a)?;
    Ok((whole, at))
}

/// `, y \in S |-> e]` behind `[x`, the `[` being at a place.
///
/// # Errors
///
/// The rule by which it is refused, and how many tokens are left from there on; or want of memory.
pub fn function_from<F: Fn(&mut Pool, Context, Spot) -> Result<(Read, usize), Halt>>(
    alloc: Global,
    tokens: &Tokens,
    inner: &F,
    pool: &mut Pool,
    s: Spot,
    place: Place,
    word: Word,
) -> Result<(Read, usize), Halt>
    requires given { MayRead tokens.now s (suc s.left) (F.pre inner.now) (F.post inner.now) }
    ensures { HasRead s.linked tokens.now pool.old pool.new s.at (suc s.left) result (function_of (whole_in s.linked (Some s.left)) s.edge place word.place (span_bytes tokens.now.bytes.items word.span) (ahead tokens.now s.at)) }
{
    let (bound, at) = binds(alloc, tokens, inner, pool, s, word)?;
    function_in(tokens, inner, pool, Spot { at, ..s }, place, bound)
}

/// `, y \in T |-> e]` or `|-> e]` behind `[x \in S`, the `[` being at a place.
///
/// # Errors
///
/// The rule by which it is refused, and how many tokens are left from there on; or want of memory.
pub fn function_on<F: Fn(&mut Pool, Context, Spot) -> Result<(Read, usize), Halt>>(
    alloc: Global,
    tokens: &Tokens,
    inner: &F,
    pool: &mut Pool,
    s: Spot,
    place: Place,
    word: Word,
    set: Read,
) -> Result<(Read, usize), Halt>
    requires given { MayRead tokens.now s (suc s.left) (F.pre inner.now) (F.post inner.now) }
    requires set_in { set.id < length pool.old }
    requires set_small { set.shape.nesting ≤ s.left }
    ensures read { (i : Phrase) (q : Place) → IsIn s.linked pool.old set i → Told (λ x j. IsIn s.linked pool.new x.0 j) (λ x. ahead tokens.now x.1) result (function_behind (whole_in s.linked (Some s.left)) s.edge place word.place (span_bytes tokens.now.bytes.items word.span) q i (ahead tokens.now s.at)) }
    ensures kept { Keeps pool.old pool.new }
    ensures stands { IfOk result (λ x. Stands tokens.now pool.new s.at (suc s.left) x) }
{
    let (bound, at) = binds_on(alloc, tokens, inner, pool, s, word, set)?;
    function_in(tokens, inner, pool, Spot { at, ..s }, place, bound)
}
