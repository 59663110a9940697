//! Reading forms in square brackets, by what comes behind the `[`.

ghost use Rattle.std.specs.Prelude.{◌≡◌, ◌<◌, ◌≤◌, ◌||◌, suc, length, IfOk, Some, MatchOption};
ghost use Rattle.tla_token.specs.TokensSeen.{span_bytes};
ghost use Rattle.tla_tree.specs.Pool.{Keeps};
ghost use Rattle.tla_tree.specs.Lexical as tk;
ghost use Rattle.tla_tree.specs.Spelling.{Phrase};
ghost use Rattle.tla_tree.specs.Reader as reader;
ghost use Rattle.tla_tree.specs.Whole.{whole_in};
ghost use Rattle.expr_nodes.specs.Ahead.{ahead};
ghost use Rattle.expr_nodes.specs.ReadIn.{IsIn, Told};
ghost use Rattle.expr_rows.specs.HasRead.{HasRead, Stands};
ghost use Rattle.expr_rows.specs.MayRead.{MayRead};
ghost use Rattle.expr_operands.specs.ShortForms.{PartedIn};
ghost use Rattle.tla_expr.specs.ReadForms.{square_rule, mapped, squared, squared_other};

use expr_binders::read_function::{function_from, function_on};
use expr_binders::read_square::functions_in;
use expr_lists::read_except::except_in;
use expr_lists::read_record::record_rest;
use expr_nodes::cursor::{FieldName, Halt, Word, is_key, is_mark, is_sign};
use expr_nodes::make::Read;
use expr_nodes::shape::Context;
use expr_nodes::spot::{Spot, after, after_mark, deeper, next_at, refused};
use expr_nodes::view::{Key, Mark, View};
use expr_operands::read_climb::climb;
use expr_operands::read_element::{Parted, set_behind};
use expr_operands::read_link::postfix;
use expr_operands::read_name::from_name;
use expr_rows::on_next::after_key;
use std::alloc::Global;
use tla_pool::Pool;
use tla_token::{Place, Rule, Tokens};
use tla_tree::Op;

// Behind `[a`: `-> T]` or `EXCEPT ![b] = e]`.
fn rest<F: Fn(&mut Pool, Context, Spot) -> Result<(Read, usize), Halt>>(
    alloc: Global,
    tokens: &Tokens,
    inner: &F,
    pool: &mut Pool,
    s: Spot,
    place: Place,
    a: Read,
) -> Result<(Read, usize), Halt>
    requires given { MayRead tokens.now s (suc s.left) (F.pre inner.now) (F.post inner.now) }
    requires a_in { a.id < length pool.old }
    requires a_small { a.shape.nesting ≤ s.left }
    ensures read { (i : Phrase) → IsIn s.linked pool.old a i → Told (λ x j. IsIn s.linked pool.new x.0 j) (λ x. ahead tokens.now x.1) result (reader.peek s.edge (reader.square_rest (whole_in s.linked (Some s.left)) s.edge place i) (ahead tokens.now s.at)) }
    ensures kept { Keeps pool.old pool.new }
    ensures stands { IfOk result (λ x. Stands tokens.now pool.new s.at (suc s.left) x) }
{
    if let Some(at) = after_mark(tokens, s, Mark::Arrow) {
        return functions_in(alloc, tokens, inner, pool, Spot { at, ..s }, place, a);
    }
    match after_key(tokens, s, Key::Except) {
        Some(at) => except_in(alloc, tokens, inner, pool, Spot { at, ..s }, place, a),
        None => Err(refused(tokens, s, Rule::Syntax)),
    }
}

// What refuses an element that is too deep, by the next token.
fn rule_of(tokens: &Tokens, s: Spot) -> Rule
    requires { s.at ≤ length tokens.now.items.items }
    ensures { result ≡ square_rule (reader.next s.edge (ahead tokens.now s.at)).kind }
{
    let view = next_at(tokens, s).view;
    if is_mark(Mark::Arrow, view) || is_key(Key::Except, view) {
        Rule::TooDeep
    } else {
        Rule::Syntax
    }
}

// Behind an element `[x \in S`, which may be too deep.
fn element_in<F: Fn(&mut Pool, Context, Spot) -> Result<(Read, usize), Halt>>(
    alloc: Global,
    tokens: &Tokens,
    inner: &F,
    pool: &mut Pool,
    s: Spot,
    place: Place,
    e: Read,
) -> Result<(Read, usize), Halt>
    requires given { MayRead tokens.now s (suc s.left) (F.pre inner.now) (F.post inner.now) }
    requires e_in { e.id < length pool.old }
    ensures read { (i : Phrase) → IsIn s.linked pool.old e i → Told (λ x j. IsIn s.linked pool.new x.0 j) (λ x. ahead tokens.now x.1) result (reader.square_from (reader.room s.linked (whole_in s.linked) (Some s.left)) (whole_in s.linked (Some s.left)) s.edge place (Some i) (ahead tokens.now s.at)) }
    ensures kept { Keeps pool.old pool.new }
    ensures stands { IfOk result (λ x. Stands tokens.now pool.new s.at (suc s.left) x) }
{
    if e.shape.nesting <= s.left {
        return rest(alloc, tokens, inner, pool, s, place, e);
    }
    let rule = rule_of(tokens, s);
    Err(refused(tokens, s, rule))
}

// Whether what is behind `[x \in S` is that of a function.
fn is_function_next(tokens: &Tokens, s: Spot) -> bool
    requires { s.at ≤ length tokens.now.items.items }
    ensures { result ≡ (reader.is_mark tk.maps (reader.next s.edge (ahead tokens.now s.at)).kind || reader.is_mark tk.comma (reader.next s.edge (ahead tokens.now s.at)).kind) }
{
    let view = next_at(tokens, s).view;
    is_mark(Mark::Maps, view) || is_mark(Mark::Comma, view)
}

// Behind `[x \in S`: a function, or what comes behind an element.
fn member_rest<F: Fn(&mut Pool, Context, Spot) -> Result<(Read, usize), Halt>>(
    alloc: Global,
    tokens: &Tokens,
    inner: &F,
    pool: &mut Pool,
    s: Spot,
    place: Place,
    word: Word,
    sign: Place,
    y: Parted,
) -> Result<(Read, usize), Halt>
    requires given { MayRead tokens.now s (suc s.left) (F.pre inner.now) (F.post inner.now) }
    requires set_in { y.set.id < length pool.old }
    requires element_in { MatchOption y.element (Unit {0}) (λ e. e.id < length pool.old) }
    ensures read { (i : Phrase) → PartedIn s.linked pool.old word.place (span_bytes tokens.now.bytes.items word.span) sign y i → Told (λ x j. IsIn s.linked pool.new x.0 j) (λ x. ahead tokens.now x.1) result (reader.peek s.edge (reader.square_member (reader.room s.linked (whole_in s.linked) (Some s.left)) (whole_in s.linked (Some s.left)) s.edge place word.place (span_bytes tokens.now.bytes.items word.span) sign i) (ahead tokens.now s.at)) }
    ensures kept { Keeps pool.old pool.new }
    ensures stands { IfOk result (λ x. Stands tokens.now pool.new s.at (suc s.left) x) }
{
    if is_function_next(tokens, s) {
        if s.left < y.set.shape.nesting {
            return Err(refused(tokens, s, Rule::TooDeep));
        }
        return function_on(alloc, tokens, inner, pool, s, place, word, y.set);
    }
    match y.element {
        None => Err(refused(tokens, s, Rule::Syntax)),
        Some(e) => element_in(alloc, tokens, inner, pool, s, place, e),
    }
}

// Behind `[x \in`, the `[` and the `\in` being at places.
fn member_in<F: Fn(&mut Pool, Context, Spot) -> Result<(Read, usize), Halt>>(
    alloc: Global,
    tokens: &Tokens,
    inner: &F,
    pool: &mut Pool,
    s: Spot,
    place: Place,
    word: Word,
    sign: Place,
) -> Result<(Read, usize), Halt>
    requires given { MayRead tokens.now s (suc s.left) (F.pre inner.now) (F.post inner.now) }
    ensures { HasRead s.linked tokens.now pool.old pool.new s.at (suc s.left) result (mapped (reader.room s.linked (whole_in s.linked) (Some s.left)) (whole_in s.linked (Some s.left)) s.edge place word.place (span_bytes tokens.now.bytes.items word.span) sign (ahead tokens.now s.at)) }
{
    let (y, at) = set_behind(alloc, tokens, inner, pool, s, word, sign)?;
    member_rest(
        alloc,
        tokens,
        inner,
        pool,
        Spot { at, ..s },
        place,
        word,
        sign,
        y,
    )
}

// Behind `[x`: an expression that begins with the name, and what comes after it.
fn named<F: Fn(&mut Pool, Context, Spot) -> Result<(Read, usize), Halt>>(
    alloc: Global,
    tokens: &Tokens,
    inner: &F,
    pool: &mut Pool,
    s: Spot,
    place: Place,
    word: Word,
) -> Result<(Read, usize), Halt>
    requires given { MayRead tokens.now s (suc s.left) (F.pre inner.now) (F.post inner.now) }
    ensures { HasRead s.linked tokens.now pool.old pool.new s.at (suc s.left) result (squared (reader.room s.linked (whole_in s.linked) (Some s.left)) (whole_in s.linked (Some s.left)) s.edge place word.place (span_bytes tokens.now.bytes.items word.span) (ahead tokens.now s.at)) }
{
    let (a, at) = from_name(alloc, tokens, inner, pool, s, word)?;
    let s = Spot { at, ..s };
    let (b, at) = climb(alloc, tokens, inner, pool, s, Context::Free, a)?;
    rest(alloc, tokens, inner, pool, Spot { at, ..s }, place, b)
}

// Behind `[x`: a record, functions, what a name begins, or a set behind `\in`.
fn from_word<F: Fn(&mut Pool, Context, Spot) -> Result<(Read, usize), Halt>>(
    alloc: Global,
    tokens: &Tokens,
    inner: &F,
    pool: &mut Pool,
    s: Spot,
    place: Place,
    word: Word,
) -> Result<(Read, usize), Halt>
    requires given { MayRead tokens.now s (suc s.left) (F.pre inner.now) (F.post inner.now) }
    ensures { HasRead s.linked tokens.now pool.old pool.new s.at (suc s.left) result (reader.peek s.edge (reader.square_name (reader.room s.linked (whole_in s.linked) (Some s.left)) (whole_in s.linked (Some s.left)) s.edge place word.place (span_bytes tokens.now.bytes.items word.span)) (ahead tokens.now s.at)) }
{
    let t = next_at(tokens, s);
    if is_mark(Mark::Maps, t.view) || is_mark(Mark::Colon, t.view) {
        let field = FieldName {
            place: word.place,
            reserved: false,
            span: word.span,
        };
        return record_rest(alloc, tokens, inner, pool, s, place, field);
    }
    if is_mark(Mark::Comma, t.view) {
        return function_from(alloc, tokens, inner, pool, s, place, word);
    }
    if is_sign(Op::In, t.view) {
        let at = after(tokens, s);
        let s = Spot { at, ..s };
        return member_in(alloc, tokens, inner, pool, s, place, word, t.place);
    }
    named(alloc, tokens, inner, pool, s, place, word)
}

// Behind `[`, where no name and no reserved word is next.
fn from_other<F: Fn(&mut Pool, Context, Spot) -> Result<(Read, usize), Halt>>(
    alloc: Global,
    tokens: &Tokens,
    inner: &F,
    pool: &mut Pool,
    s: Spot,
    place: Place,
) -> Result<(Read, usize), Halt>
    requires given { MayRead tokens.now s (suc s.left) (F.pre inner.now) (F.post inner.now) }
    ensures { HasRead s.linked tokens.now pool.old pool.new s.at (suc s.left) result (squared_other (whole_in s.linked (Some s.left)) s.edge place (ahead tokens.now s.at)) }
{
    let (a, at) = inner(pool, Context::Free, s)?;
    rest(alloc, tokens, inner, pool, Spot { at, ..s }, place, a)
}

/// Behind a `[` at a place.
///
/// # Errors
///
/// The rule by which it is refused, and how many tokens are left from there on; or want of memory.
pub fn squares_from<F: Fn(&mut Pool, Context, Spot) -> Result<(Read, usize), Halt>>(
    alloc: Global,
    tokens: &Tokens,
    inner: &F,
    pool: &mut Pool,
    s: Spot,
    place: Place,
) -> Result<(Read, usize), Halt>
    requires given { MayRead tokens.now s (suc s.left) (F.pre inner.now) (F.post inner.now) }
    ensures { HasRead s.linked tokens.now pool.old pool.new s.at (suc s.left) result (reader.peek s.edge (reader.squares (reader.room s.linked (whole_in s.linked) (Some s.left)) (whole_in s.linked (Some s.left)) s.edge place) (ahead tokens.now s.at)) }
{
    let t = next_at(tokens, s);
    match t.view {
        View::Reserved(span) => {
            let at = after(tokens, s);
            let field = FieldName {
                place: t.place,
                reserved: true,
                span,
            };
            record_rest(alloc, tokens, inner, pool, Spot { at, ..s }, place, field)
        }
        View::Word(span) => {
            let at = after(tokens, s);
            let word = Word {
                place: t.place,
                span,
            };
            from_word(alloc, tokens, inner, pool, Spot { at, ..s }, place, word)
        }
        _ => from_other(alloc, tokens, inner, pool, s, place),
    }
}

/// A form in square brackets, the next token being the `[`, at a place.
///
/// # Errors
///
/// The rule by which it is refused, and how many tokens are left from there on; or want of memory.
pub fn squares<F: Fn(&mut Pool, Context, Spot) -> Result<(Read, usize), Halt>>(
    alloc: Global,
    tokens: &Tokens,
    inner: &F,
    pool: &mut Pool,
    s: Spot,
    place: Place,
) -> Result<(Read, usize), Halt>
    requires given { MayRead tokens.now s s.left (F.pre inner.now) (F.post inner.now) }
    ensures { HasRead s.linked tokens.now pool.old pool.new s.at s.left result (reader.primary (reader.room s.linked (whole_in s.linked) (Some s.left)) (whole_in s.linked (Some s.left)) s.edge place (tk.mark tk.open_square) (ahead tokens.now s.at)) }
{
    let d = deeper(tokens, s, 0)?;
    let from = after(tokens, s);
    let d = Spot {
        at: from,
        left: d.left,
        ..s
    };
    let (a, at) = squares_from(alloc, tokens, inner, pool, d, place)?;
    postfix(alloc, tokens, inner, pool, Spot { at, ..s }, a)
}
