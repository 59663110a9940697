//! Reading left sides of assignments: a name with subscripts and fields.

ghost use Rattle.std.specs.Prelude.{◌≡◌, ℕ, ◌<◌, ◌≤◌, IfOk, IfSome, length};
ghost use Rattle.tla_tree.specs.Pool.{at as tree_at, Keeps};
ghost use Rattle.tla_tree.specs.Spelling.{Phrase, tree_of};
ghost use Rattle.tla_tree.specs.Reader.{a_word};
ghost use Rattle.expr_nodes.specs.ReadIn.{Gives, Told, word_seen};
ghost use Rattle.expr_nodes.specs.Ahead.{ahead};
ghost use Rattle.tla_expr.specs.Numbers.{NumbersFit};
ghost use Rattle.pcal_tree.specs.InMemory.{past_number};
ghost use Rattle.syntax_reading.specs.ReadSimple.{read_left as rest_reader};
ghost use Rattle.algorithm_reader.specs.PartsRead.{ReadsPart, parts_in, Enough, StepLess};
ghost use Rattle.algorithm_reader.specs.SimpleRead.{left_reader, subscripted as subscripted_reader, selected as selected_reader, LeftStands, Linked};

use crate::expression::read_subscripts;
use crate::token_step::{next_token, refused_there};
use expr_nodes::cursor::{Halt, Word};
use expr_nodes::make::{name, name_of, subscript};
use expr_nodes::spot::{Spot, after_mark, next_at, past_field, past_mark};
use expr_nodes::view::{Mark, View};
use std::alloc::{AllocError, Global};
use tla_pool::Pool;
use tla_pool::form::{Form, Strict};
use tla_token::{Place, Rule, Tokens};
use tla_tree::NodeId;

// Past a name that is right of the left edge.
#[tactic(auto, using(expr_nodes::proofs::AheadLemmas::ahead_tail))]
fn past_word_inside(tokens: &Tokens, at: usize) -> Result<(Word, usize), Halt>
    requires { at ≤ length tokens.now.items.items }
    ensures value { Gives (λ x. (word_seen tokens.now.bytes.items x.0, ahead tokens.now x.1)) result (a_word 0 (ahead tokens.now at)) }
    ensures inside { IfOk result (λ x. x.1 ≤ length tokens.now.items.items) }
    ensures further { IfOk result (λ x. at < x.1) }
{
    if at < tokens.items.len() {
        let t = next_at(
            tokens,
            Spot {
                at,
                edge: 0,
                left: 0,
                linked: true,
            },
        );
        if let View::Word(span) = t.view {
            let place = t.place;
            return Ok((Word { place, span }, at + 1));
        }
    }
    Err(refused_there(tokens, at, Rule::Syntax))
}

// `a, b]` behind a left side and `[`.
fn subscripted(
    alloc: Global,
    tokens: &Tokens,
    pool: &mut Pool,
    at: usize,
    place: Place,
    left: NodeId,
) -> Result<(NodeId, usize), Halt>
    requires there { at ≤ length tokens.now.items.items }
    requires numbers { NumbersFit tokens.now }
    requires left_in { left < length pool.old }
    ensures read { (a : Phrase) (p : Place) → LeftStands place pool.old left a → Told (λ x b. LeftStands place pool.new x.0 b) (λ x. ahead tokens.now x.1) result (subscripted_reader (parts_in tokens.now) a p (ahead tokens.now at)) }
    ensures kept { Keeps pool.old pool.new }
    ensures within { IfOk result (λ x. x.0 < length pool.new) }
    ensures inside { IfOk result (λ x. x.1 ≤ length tokens.now.items.items) }
    ensures further { IfOk result (λ x. at ≤ x.1) }
{
    let first = next_token(tokens, at).place;
    let (ids, end) = read_subscripts(alloc, tokens, pool, at)?;
    let (_, end) = past_mark(
        tokens,
        Spot {
            at: end,
            edge: 0,
            left: 0,
            linked: true,
        },
        Mark::CloseSquare,
    )?;
    let index = subscript(pool, ids, first)?;
    let parts = Vec::from_array(alloc, [left, index])?;
    let whole = pool.put(Form::Strict(Strict::Apply), place, parts)?;
    Ok((whole, end))
}

// `f` behind a left side and `.`.
fn selected(
    alloc: Global,
    tokens: &Tokens,
    pool: &mut Pool,
    at: usize,
    place: Place,
    left: NodeId,
) -> Result<(NodeId, usize), Halt>
    requires there { at ≤ length tokens.now.items.items }
    requires left_in { left < length pool.old }
    ensures read { (a : Phrase) (p : Place) → LeftStands place pool.old left a → Told (λ x b. LeftStands place pool.new x.0 b) (λ x. ahead tokens.now x.1) result (selected_reader a p (ahead tokens.now at)) }
    ensures kept { Keeps pool.old pool.new }
    ensures within { IfOk result (λ x. x.0 < length pool.new) }
    ensures inside { IfOk result (λ x. x.1 ≤ length tokens.now.items.items) }
    ensures further { IfOk result (λ x. at ≤ x.1) }
{
    let (field, end) = past_field(
        tokens,
        Spot {
            at,
            edge: 0,
            left: 0,
            linked: true,
        },
    )?;
    let form = Form::Strict(Strict::Select(name_of(alloc, tokens, field.span)?));
    let parts = Vec::from_array(alloc, [left])?;
    let whole = pool.put(form, place, parts)?;
    Ok((whole, end))
}

// One subscript or field behind a left side, if there is one.
fn link(
    alloc: Global,
    tokens: &Tokens,
    pool: &mut Pool,
    at: usize,
    place: Place,
    left: NodeId,
) -> Result<Option<(NodeId, usize)>, Halt>
    requires there { at ≤ length tokens.now.items.items }
    requires numbers { NumbersFit tokens.now }
    requires left_in { left < length pool.old }
    ensures read { (a : Phrase) → LeftStands place pool.old left a → Linked (parts_in tokens.now) tokens.now place pool.new a at result }
    ensures kept { Keeps pool.old pool.new }
    ensures within { IfOk result (λ o. IfSome o (λ x. x.0 < length pool.new)) }
    ensures inside { IfOk result (λ o. IfSome o (λ x. x.1 ≤ length tokens.now.items.items)) }
    ensures further { IfOk result (λ o. IfSome o (λ x. at < x.1)) }
{
    let s = Spot {
        at,
        edge: 0,
        left: 0,
        linked: true,
    };
    if let Some(next) = after_mark(tokens, s, Mark::OpenSquare) {
        let x = subscripted(alloc, tokens, pool, next, place, left)?;
        return Ok(Some(x));
    }
    if let Some(next) = after_mark(tokens, s, Mark::Dot) {
        let x = selected(alloc, tokens, pool, next, place, left)?;
        return Ok(Some(x));
    }
    Ok(None)
}

// The subscripts and fields behind a left side.
fn links(
    alloc: Global,
    tokens: &Tokens,
    pool: &mut Pool,
    at: usize,
    place: Place,
    left: NodeId,
) -> Result<(NodeId, usize), Halt>
    requires there { at ≤ length tokens.now.items.items }
    requires numbers { NumbersFit tokens.now }
    requires left_in { left < length pool.old }
    ensures read { (a : Phrase) → LeftStands place pool.old left a → (n : ℕ) → Enough tokens.now at n → ReadsPart tree_at past_number tree_of tokens.now pool.new result (rest_reader (parts_in tokens.now) n a (ahead tokens.now at)) }
    ensures kept { Keeps pool.old pool.new }
    ensures within { IfOk result (λ x. x.0 < length pool.new) }
    ensures inside { IfOk result (λ x. x.1 ≤ length tokens.now.items.items) }
    ensures further { IfOk result (λ x. at ≤ x.1) }
{
    let mut so_far = left;
    let mut from = at;
    while let Some((longer, next)) = link(alloc, tokens, pool, from, place, so_far)? {
        so_far = longer;
        from = next;
    }
    Ok((so_far, from))
}

/// `x[a, b].f`: the number of the left side in the pool.
///
/// # Errors
///
/// Where a token is next that can't be there, or at which too many forms are open; or for want of memory.
pub fn read_left(
    alloc: Global,
    tokens: &Tokens,
    pool: &mut Pool,
    at: usize,
) -> Result<(NodeId, usize), Halt>
    requires there { at ≤ length tokens.now.items.items }
    requires numbers { NumbersFit tokens.now }
    ensures read { (n : ℕ) → StepLess tokens.now at n → ReadsPart tree_at past_number tree_of tokens.now pool.new result (left_reader (parts_in tokens.now) n (ahead tokens.now at)) }
    ensures kept { Keeps pool.old pool.new }
    ensures inside { IfOk result (λ x. x.1 ≤ length tokens.now.items.items) }
    ensures further { IfOk result (λ x. at < x.1) }
{
    let (word, next) = past_word_inside(tokens, at)?;
    let x = name(alloc, pool, tokens, word)?;
    links(alloc, tokens, pool, next, word.place, x.id)
}
