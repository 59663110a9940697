//! Reading what comes in braces behind `{x \in`.

ghost use Rattle.std.specs.Prelude.{◌≡◌, ◌<◌, ◌≤◌, suc, length, IfOk, Some, MatchOption};
ghost use Rattle.tla_token.specs.TokensSeen.{span_bytes};
ghost use Rattle.tla_tree.specs.Pool.{Keeps};
ghost use Rattle.tla_tree.specs.Spelling.{Phrase};
ghost use Rattle.tla_tree.specs.Reader as reader;
ghost use Rattle.tla_tree.specs.Whole.{whole_in};
ghost use Rattle.expr_nodes.specs.Ahead.{ahead};
ghost use Rattle.expr_nodes.specs.ReadIn.{IsIn, Told};
ghost use Rattle.expr_rows.specs.HasRead.{HasRead, Stands};
ghost use Rattle.expr_rows.specs.MayRead.{MayRead};
ghost use Rattle.expr_operands.specs.ShortForms.{PartedIn};
ghost use Rattle.tla_expr.specs.ReadForms.{deep_rule, membered};

use expr_binders::read_brace::filter_in;
use expr_binders::read_set::set_in;
use expr_nodes::cursor::{Halt, Word, is_mark};
use expr_nodes::make::Read;
use expr_nodes::shape::Context;
use expr_nodes::spot::{Spot, after_mark, next_at, refused};
use expr_nodes::view::Mark;
use expr_operands::read_element::{Parted, set_behind};
use std::alloc::Global;
use tla_pool::Pool;
use tla_token::{Place, Rule, Tokens};

// What refuses an element that is too deep, by the next token.
fn rule_of(tokens: &Tokens, s: Spot) -> Rule
    requires { s.at ≤ length tokens.now.items.items }
    ensures { result ≡ deep_rule (reader.next s.edge (ahead tokens.now s.at)).kind }
{
    let view = next_at(tokens, s).view;
    if is_mark(Mark::Comma, view) || is_mark(Mark::CloseBrace, view) {
        Rule::TooDeep
    } else {
        Rule::Syntax
    }
}

// `, b}` or `}` behind an element `{x \in S`, which may be too deep.
fn element_in<F: Fn(&mut Pool, Context, Spot) -> Result<(Read, usize), Halt>>(
    alloc: Global,
    tokens: &Tokens,
    inner: &F,
    pool: &mut Pool,
    s: Spot,
    place: Place,
    e: Read,
) -> Result<(Read, usize), Halt>
    requires given { MayRead tokens.now s (suc s.left) (F.pre inner.now) (F.post inner.now) }
    requires e_in { e.id < length pool.old }
    ensures read { (i : Phrase) → IsIn s.linked pool.old e i → Told (λ x j. IsIn s.linked pool.new x.0 j) (λ x. ahead tokens.now x.1) result (reader.set_from (reader.room s.linked (whole_in s.linked) (Some s.left)) (whole_in s.linked (Some s.left)) s.edge place (Some i) (ahead tokens.now s.at)) }
    ensures kept { Keeps pool.old pool.new }
    ensures stands { IfOk result (λ x. Stands tokens.now pool.new s.at (suc s.left) x) }
{
    if e.shape.nesting <= s.left {
        return set_in(alloc, tokens, inner, pool, s, place, e);
    }
    let rule = rule_of(tokens, s);
    Err(refused(tokens, s, rule))
}

// Behind `{x \in S`: a filter, or a set with an element.
fn member_rest<F: Fn(&mut Pool, Context, Spot) -> Result<(Read, usize), Halt>>(
    alloc: Global,
    tokens: &Tokens,
    inner: &F,
    pool: &mut Pool,
    s: Spot,
    place: Place,
    word: Word,
    sign: Place,
    y: Parted,
) -> Result<(Read, usize), Halt>
    requires given { MayRead tokens.now s (suc s.left) (F.pre inner.now) (F.post inner.now) }
    requires set_in { y.set.id < length pool.old }
    requires element_in { MatchOption y.element (Unit {0}) (λ e. e.id < length pool.old) }
    ensures read { (i : Phrase) → PartedIn s.linked pool.old word.place (span_bytes tokens.now.bytes.items word.span) sign y i → Told (λ x j. IsIn s.linked pool.new x.0 j) (λ x. ahead tokens.now x.1) result (reader.peek s.edge (reader.member_rest (reader.room s.linked (whole_in s.linked) (Some s.left)) (whole_in s.linked (Some s.left)) s.edge place word.place (span_bytes tokens.now.bytes.items word.span) sign i) (ahead tokens.now s.at)) }
    ensures kept { Keeps pool.old pool.new }
    ensures stands { IfOk result (λ x. Stands tokens.now pool.new s.at (suc s.left) x) }
{
    if let Some(at) = after_mark(tokens, s, Mark::Colon) {
        if s.left < y.set.shape.nesting {
            return Err(refused(tokens, s, Rule::TooDeep));
        }
        return filter_in(
            alloc,
            tokens,
            inner,
            pool,
            Spot { at, ..s },
            place,
            word,
            y.set,
        );
    }
    match y.element {
        None => Err(refused(tokens, s, Rule::Syntax)),
        Some(e) => element_in(alloc, tokens, inner, pool, s, place, e),
    }
}

/// `S : p}`, or a set with an element, behind `{x \in`, the `{` and the `\in` being at places.
///
/// # Errors
///
/// The rule by which it is refused, and how many tokens are left from there on; or want of memory.
pub fn member_in<F: Fn(&mut Pool, Context, Spot) -> Result<(Read, usize), Halt>>(
    alloc: Global,
    tokens: &Tokens,
    inner: &F,
    pool: &mut Pool,
    s: Spot,
    place: Place,
    word: Word,
    sign: Place,
) -> Result<(Read, usize), Halt>
    requires given { MayRead tokens.now s (suc s.left) (F.pre inner.now) (F.post inner.now) }
    ensures { HasRead s.linked tokens.now pool.old pool.new s.at (suc s.left) result (membered (reader.room s.linked (whole_in s.linked) (Some s.left)) (whole_in s.linked (Some s.left)) s.edge place word.place (span_bytes tokens.now.bytes.items word.span) sign (ahead tokens.now s.at)) }
{
    let (y, at) = set_behind(alloc, tokens, inner, pool, s, word, sign)?;
    member_rest(
        alloc,
        tokens,
        inner,
        pool,
        Spot { at, ..s },
        place,
        word,
        sign,
        y,
    )
}
