//! Reading the set behind `x \in` after `{` or `[`, beside the element that it may be instead.

ghost use Rattle.std.specs.Prelude.{Bool, ◌≡◌, ◌<◌, ◌≤◌, ◌+◌, ◌^◌, suc, length, IfOk, OnErr, IfErr, IfSome, MatchOption, Option, Some, false};
ghost use Rattle.tla_token.specs.TokensSeen.{span_bytes};
ghost use Rattle.tla_token.specs.declared.rule.Rule.TheVariants as rule;
ghost use Rattle.tla_tree.specs.Tree as tree;
ghost use Rattle.tla_tree.specs.Pool.{Keeps};
ghost use Rattle.tla_tree.specs.Rank.{is_prefix as is_prefix_of};
ghost use Rattle.tla_tree.specs.Spelling as spelled;
ghost use Rattle.tla_tree.specs.Spelling.{Phrase};
ghost use Rattle.tla_tree.specs.Reader as reader;
ghost use Rattle.tla_tree.specs.Reader.{behind};
ghost use Rattle.tla_tree.specs.Whole.{whole_in};
ghost use Rattle.expr_nodes.specs.declared.cursor.Halt.TheVariants as halt;
ghost use Rattle.expr_nodes.specs.ShapeOf.{infix_shape as infix_shape_of};
ghost use Rattle.expr_nodes.specs.Ahead.{ahead};
ghost use Rattle.expr_nodes.specs.ReadIn.{IsIn, Told};
ghost use Rattle.expr_rows.specs.HasRead.{HasRead};
ghost use Rattle.expr_rows.specs.MayRead.{MayRead};
ghost use Rattle.expr_operands.specs.ShortForms.{IsParted, SomeParted, PartedIn, PartSteps, shape_if};

use crate::read_open::prefixed;
use expr_nodes::cursor::{Halt, Word};
use expr_nodes::depth::least;
use expr_nodes::element::{element_of_infix, element_of_operand};
use expr_nodes::make::{Read, infix, name};
use expr_nodes::shape::{Context, Shape, goes_on, prefix_by};
use expr_nodes::spot::{Spot, after, deeper, next_at, refused};
use expr_nodes::view::View;
use std::alloc::{AllocError, Global};
use tla_pool::Pool;
use tla_token::{Place, Rule, Tokens};
use tla_tree::Op;

/// A set behind `x \in`, and `x \in` with it as an element of a set, if it can be one.
#[derive(Clone, Copy)]
pub struct Parted {
    pub set: Read,
    pub element: Option<Read>,
}

// At this token where one form more is open, and so many besides; refused where too many would be, or none is few enough.
fn deeper_by(tokens: &Tokens, s: Spot, besides: Option<u32>) -> Result<Spot, Halt>
    requires { s.at ≤ length tokens.now.items.items }
    ensures left { IfOk result (λ d. MatchOption besides (⊥) (λ k. d.left + suc k ≡ s.left)) }
    ensures edge { IfOk result (λ d. d.edge ≡ s.edge) }
    ensures deep { OnErr result (MatchOption besides (Unit {0}) (λ k. s.left ≤ k)) }
    ensures refused { IfErr result (λ e. e ≡ halt.Refused rule.TooDeep (length (ahead tokens.now s.at))) }
{
    match besides {
        None => Err(refused(tokens, s, Rule::TooDeep)),
        Some(k) => deeper(tokens, s, k),
    }
}

// The set with one operand more, and its element.
fn grown(
    alloc: Global,
    pool: &mut Pool,
    name: Read,
    a: Parted,
    place: Place,
    op: Op,
    b: Read,
) -> Result<Parted, AllocError>
    requires some { (w : Bool) × SomeParted w pool.old name a }
    requires between { is_prefix_of op ≡ false }
    requires b_in { b.id < length pool.old }
    requires chained { a.set.shape.chain + b.shape.nesting < 2 ^ 31 }
    requires small { a.set.shape.nesting < 2 ^ 31 }
    ensures read { IfOk result (λ y. (w : Bool) (i j : Phrase) (p q : Place) (x : tree.Word) → IsParted w pool.old p x q name a i → IsIn w pool.old b j → IsParted w pool.new p x q name y (spelled.infix_of i place op j)) }
    ensures shape { IfOk result (λ y. y.set.shape ≡ infix_shape_of a.set.shape op b.shape) }
    ensures kept { Keeps pool.old pool.new }
{
    let whole = infix(alloc, pool, a.set, op, b)?;
    let element = element_of_infix(alloc, pool, name, a.element, place, op, b, whole)?;
    Ok(Parted {
        set: whole,
        element,
    })
}

// The shape of what was read, if it was.
fn shape_in(a: Option<Read>) -> Option<Shape>
    ensures { result ≡ shape_if a }
{
    match a {
        None => None,
        Some(x) => Some(x.shape),
    }
}

// One operator with its right operand, if there is one that goes on.
fn operator<F: Fn(&mut Pool, Context, Spot) -> Result<(Read, usize), Halt>>(
    alloc: Global,
    tokens: &Tokens,
    inner: &F,
    pool: &mut Pool,
    s: Spot,
    name: Read,
    a: Parted,
) -> Result<Option<(Parted, usize)>, Halt>
    requires given { MayRead tokens.now s s.left (F.pre inner.now) (F.post inner.now) }
    requires some { SomeParted s.linked pool.old name a }
    requires small { a.set.shape.nesting ≤ s.left + s.left + s.left + 1 }
    ensures read { (i : Phrase) (p q : Place) (x : tree.Word) → IsParted s.linked pool.old p x q name a i → PartSteps s.linked tokens.now pool.new p x q name (λ j. (whole_in s.linked (Some s.left)).climb s.edge (behind p x q) j) i (ahead tokens.now s.at) result ((whole_in s.linked (Some s.left)).climb s.edge (behind p x q) i (ahead tokens.now s.at)) }
    ensures kept { Keeps pool.old pool.new }
    ensures small { IfOk result (λ o. IfSome o (λ y. y.0.set.shape.nesting ≤ s.left + s.left + s.left + 1)) }
    ensures longer { IfOk result (λ o. IfSome o (λ y. (y.0.set.shape.chain ≡ a.set.shape.chain + 1) × (a.set.shape.chain ≤ s.left + s.left))) }
    ensures inside { IfOk result (λ o. IfSome o (λ y. y.1 ≤ length tokens.now.items.items)) }
    ensures further { IfOk result (λ o. IfSome o (λ y. s.at ≤ y.1)) }
{
    let t = next_at(tokens, s);
    let View::Sign(op) = t.view else {
        return Ok(None);
    };
    if !goes_on(0, a.set.shape, t.place, op) {
        return Ok(None);
    }
    let k = least(s.left, a.set.shape, shape_in(a.element), t.place, op);
    let d = deeper_by(tokens, s, k)?;
    let from = after(tokens, s);
    let (b, at) = inner(
        pool,
        Context::RightOf(op),
        Spot {
            at: from,
            left: d.left,
            ..s
        },
    )?;
    let y = grown(alloc, pool, name, a, t.place, op, b)?;
    Ok(Some((y, at)))
}

/// The set so far, with the operators after it and their right operands.
///
/// # Errors
///
/// The rule by which it is refused, and how many tokens are left from there on; or want of memory.
pub fn climb<F: Fn(&mut Pool, Context, Spot) -> Result<(Read, usize), Halt>>(
    alloc: Global,
    tokens: &Tokens,
    inner: &F,
    pool: &mut Pool,
    s: Spot,
    name: Read,
    a: Parted,
) -> Result<(Parted, usize), Halt>
    requires given { MayRead tokens.now s s.left (F.pre inner.now) (F.post inner.now) }
    requires some { SomeParted s.linked pool.old name a }
    requires small { a.set.shape.nesting ≤ s.left }
    ensures read { (i : Phrase) (p q : Place) (x : tree.Word) → IsParted s.linked pool.old p x q name a i → Told (λ y j. IsParted s.linked pool.new p x q name y.0 j) (λ y. ahead tokens.now y.1) result ((whole_in s.linked (Some s.left)).climb s.edge (behind p x q) i (ahead tokens.now s.at)) }
    ensures kept { Keeps pool.old pool.new }
    ensures inside { IfOk result (λ y. y.1 ≤ length tokens.now.items.items) }
    ensures further { IfOk result (λ y. s.at ≤ y.1) }
{
    let mut so_far = a;
    let mut at = s.at;
    while let Some((b, next)) = operator(
        alloc,
        tokens,
        inner,
        pool,
        Spot { at, ..s },
        name,
        so_far,
    )? {
        so_far = b;
        at = next;
    }
    Ok((so_far, at))
}

// What the set begins with, before its operators.
fn first<F: Fn(&mut Pool, Context, Spot) -> Result<(Read, usize), Halt>>(
    alloc: Global,
    tokens: &Tokens,
    inner: &F,
    pool: &mut Pool,
    s: Spot,
) -> Result<(Read, usize), Halt>
    requires given { MayRead tokens.now s (suc s.left) (F.pre inner.now) (F.post inner.now) }
    ensures { HasRead s.linked tokens.now pool.old pool.new s.at s.left result (reader.peek s.edge (reader.operand (reader.room s.linked (whole_in s.linked) (Some s.left)) (whole_in s.linked (Some s.left)) s.edge reader.free) (ahead tokens.now s.at)) }
{
    let t = next_at(tokens, s);
    match t.view {
        View::Sign(op) => match prefix_by(op) {
            Some(q) => prefixed(alloc, tokens, inner, pool, s, Context::Free, t.place, q),
            None => inner(pool, Context::RightOf(Op::Times), s),
        },
        _ => inner(pool, Context::RightOf(Op::Times), s),
    }
}

/// The set behind `x \in`, and its element.
///
/// # Errors
///
/// The rule by which it is refused, and how many tokens are left from there on; or want of memory.
pub fn set_behind<F: Fn(&mut Pool, Context, Spot) -> Result<(Read, usize), Halt>>(
    alloc: Global,
    tokens: &Tokens,
    inner: &F,
    pool: &mut Pool,
    s: Spot,
    word: Word,
    sign: Place,
) -> Result<(Parted, usize), Halt>
    requires given { MayRead tokens.now s (suc s.left) (F.pre inner.now) (F.post inner.now) }
    ensures read { Told (λ y j. PartedIn s.linked pool.new word.place (span_bytes tokens.now.bytes.items word.span) sign y.0 j) (λ y. ahead tokens.now y.1) result ((whole_in s.linked (Some s.left)).expr s.edge (behind word.place (span_bytes tokens.now.bytes.items word.span) sign) (ahead tokens.now s.at)) }
    ensures kept { Keeps pool.old pool.new }
    ensures inside { IfOk result (λ y. y.1 ≤ length tokens.now.items.items) }
    ensures further { IfOk result (λ y. s.at ≤ y.1) }
{
    let x = name(alloc, pool, tokens, word)?;
    let (a, at) = first(alloc, tokens, inner, pool, s)?;
    let element = element_of_operand(alloc, pool, x, a)?;
    let parted = Parted { set: a, element };
    climb(alloc, tokens, inner, pool, Spot { at, ..s }, x, parted)
}
