//! Items with no items in them, each behind its first token.

ghost use Rattle.std.specs.Prelude.{◌≡◌, ◌<◌, ◌≤◌, bytes_eq, codes, IfOk, List, length};
ghost use Rattle.tla_token.specs.declared.place.Place.{Place};
ghost use Rattle.tla_token.specs.TokensSeen.{span_bytes};
ghost use Rattle.tla_tree.specs.Tree.{Tree};
ghost use Rattle.tla_tree.specs.Pool.{Keeps};
ghost use Rattle.tla_tree.specs.Lexical as tk;
ghost use Rattle.expr_nodes.specs.Ahead.{ahead};
ghost use Rattle.expr_nodes.specs.ReadIn.{Told};
ghost use Rattle.expr_nodes.specs.ViewSeen.{mark_seen};
ghost use Rattle.region_reading.specs.ItemReader.{ItemReaders, item_by, test_from, setting_from, unchanged_from};
ghost use Rattle.region_items.specs.Begins.{MayBegin, bound};
ghost use Rattle.region_items.specs.Stand.{IsItem};

use crate::names::past_names;
use crate::opening::{inside, past_opening_mark, past_opening_sign};
use crate::operands::{expression, operand};
use expr_nodes::cursor::Halt;
use expr_nodes::make::name_of;
use expr_nodes::spot::{Spot, past_mark, refused};
use expr_nodes::view::Mark;
use module_write::module::Item;
use std::alloc::Global;
use tla_pool::Pool;
use tla_token::{Rule, Span, Tokens};
use tla_tree::Op;

// `e)` behind `(`
fn test(alloc: Global, tokens: &Tokens, pool: &mut Pool, s: Spot) -> Result<(Item, usize), Halt>
    requires given { MayBegin tokens.now s }
    ensures read { (p : Place) → Told (λ x f. IsItem pool.new x.0 f) (λ x. ahead tokens.now x.1) result (test_from (bound s.left) s.edge p (ahead tokens.now s.at)) }
    ensures kept { Keeps pool.old pool.new }
    ensures inside { IfOk result (λ x. x.1 ≤ length tokens.now.items.items) }
    ensures further { IfOk result (λ x. s.at < x.1) }
{
    let (e, at) = expression(alloc, tokens, pool, s)?;
    let (_, at) = past_mark(tokens, Spot { at, ..s }, Mark::CloseBracket)?;
    Ok((Item::Test(e), at))
}

/// An item that begins with a mark, which is the next token.
///
/// # Errors
///
/// The rule by which it is refused, and how many tokens are left from there on; or want of memory.
pub fn marked(
    alloc: Global,
    tokens: &Tokens,
    pool: &mut Pool,
    s: Spot,
    mark: Mark,
) -> Result<(Item, usize), Halt>
    requires given { MayBegin tokens.now s }
    ensures read { (r : ItemReaders) (p : Place) → Told (λ x f. IsItem pool.new x.0 f) (λ x. ahead tokens.now x.1) result (item_by (bound s.left) r s.edge p (tk.mark (mark_seen mark)) (ahead tokens.now s.at)) }
    ensures kept { Keeps pool.old pool.new }
    ensures inside { IfOk result (λ x. x.1 ≤ length tokens.now.items.items) }
    ensures further { IfOk result (λ x. s.at < x.1) }
{
    match mark {
        Mark::OpenBracket => test(alloc, tokens, pool, inside(tokens, s)?),
        _ => Err(refused(tokens, s, Rule::Syntax)),
    }
}

/// `' = e` behind a name.
///
/// # Errors
///
/// The rule by which it is refused, and how many tokens are left from there on; or want of memory.
pub fn setting(
    alloc: Global,
    tokens: &Tokens,
    pool: &mut Pool,
    s: Spot,
    word: Span,
) -> Result<(Item, usize), Halt>
    requires given { MayBegin tokens.now s }
    ensures read { (p : Place) → Told (λ x f. IsItem pool.new x.0 f) (λ x. ahead tokens.now x.1) result (setting_from (bound s.left) s.edge p (span_bytes tokens.now.bytes.items word) (ahead tokens.now s.at)) }
    ensures kept { Keeps pool.old pool.new }
    ensures inside { IfOk result (λ x. x.1 ≤ length tokens.now.items.items) }
    ensures further { IfOk result (λ x. s.at < x.1) }
{
    let (_, at) = past_mark(tokens, s, Mark::Prime)?;
    let (_, from) = past_opening_sign(tokens, Spot { at, ..s }, Op::Equal)?;
    let (e, at) = operand(alloc, tokens, pool, from)?;
    let name = name_of(alloc, tokens, word)?;
    Ok((Item::Setting(name, e), at))
}

// Whether it is the word `UNCHANGED`.
fn is_unchanged(tokens: &Tokens, word: Span) -> bool
    ensures { result ≡ bytes_eq (span_bytes tokens.now.bytes.items word) (codes "UNCHANGED") }
{
    tokens.word(word) == b"UNCHANGED".as_slice()
}

// `<<x, y>>` behind `UNCHANGED`.
fn unchanged(alloc: Global, tokens: &Tokens, s: Spot) -> Result<(Item, usize), Halt>
    requires { s.at ≤ length tokens.now.items.items }
    ensures read { (p : Place) (ts : List Tree) → Told (λ x f. IsItem ts x.0 f) (λ x. ahead tokens.now x.1) result (unchanged_from (bound s.left) s.edge p (ahead tokens.now s.at)) }
    ensures inside { IfOk result (λ x. x.1 ≤ length tokens.now.items.items) }
    ensures further { IfOk result (λ x. s.at < x.1) }
{
    let (_, from) = past_opening_mark(tokens, s, Mark::OpenTuple)?;
    let (names, at) = past_names(alloc, tokens, Spot { at: from.at, ..s })?;
    let (_, at) = past_mark(tokens, Spot { at, ..s }, Mark::CloseTuple)?;
    Ok((Item::Unchanged(names), at))
}

/// An item that begins with a word of this spelling that no expression has, which is the next token.
///
/// # Errors
///
/// The rule by which it is refused, and how many tokens are left from there on; or want of memory.
pub fn keyworded(alloc: Global, tokens: &Tokens, s: Spot, word: Span) -> Result<(Item, usize), Halt>
    requires { s.at ≤ length tokens.now.items.items }
    ensures read { (r : ItemReaders) (p : Place) (ts : List Tree) → Told (λ x f. IsItem ts x.0 f) (λ x. ahead tokens.now x.1) result (item_by (bound s.left) r s.edge p (tk.other (span_bytes tokens.now.bytes.items word)) (ahead tokens.now s.at)) }
    ensures inside { IfOk result (λ x. x.1 ≤ length tokens.now.items.items) }
    ensures further { IfOk result (λ x. s.at < x.1) }
{
    if is_unchanged(tokens, word) {
        unchanged(alloc, tokens, inside(tokens, s)?)
    } else {
        Err(refused(tokens, s, Rule::Syntax))
    }
}
