//! Items, and lists of them and branches by the columns of their bullets.

ghost use Rattle.std.specs.Prelude.{◌<◌, ◌≤◌, IfOk, length};
ghost use Rattle.tla_token.specs.declared.place.Place.{Place};
ghost use Rattle.tla_tree.specs.Pool.{Keeps};
ghost use Rattle.expr_nodes.specs.Ahead.{ahead};
ghost use Rattle.expr_nodes.specs.ReadIn.{Told};
ghost use Rattle.module_tree.specs.Grammar.{ItemForm, ListForm};
ghost use Rattle.region_reading.specs.ItemReader.{exists_from, local_from, choice_from, whole_items};
ghost use Rattle.region_items.specs.Begins.{MayBegin, bound, one_item, one_branch};
ghost use Rattle.region_items.specs.Stand.{IsItem, AreItems, AreBranches};

use crate::names::past_name;
use crate::opening::inside;
use crate::operands::expression;
use crate::plain_items::{keyworded, marked, setting};
use expr_nodes::cursor::{Halt, is_sign};
use expr_nodes::spot::{Spot, after, deeper, next_at, past_key, past_mark, past_sign, refused};
use expr_nodes::view::{Key, Mark, View};
use expr_rows::on_next::{is_bullet_next, past_bullet};
use module_write::module::Item;
use std::alloc::Global;
use tla_pool::Pool;
use tla_token::{Rule, Tokens};
use tla_tree::Op;

// `x \in S : list` behind `\E`.
#[cycle(items)]
fn exists(alloc: Global, tokens: &Tokens, pool: &mut Pool, s: Spot) -> Result<(Item, usize), Halt>
    requires given { MayBegin tokens.now s }
    ensures read { (p : Place) → Told (λ x f. IsItem pool.new x.0 f) (λ x. ahead tokens.now x.1) result (exists_from (bound s.left) whole_items s.edge p (ahead tokens.now s.at)) }
    ensures kept { Keeps pool.old pool.new }
    ensures inside { IfOk result (λ x. x.1 ≤ length tokens.now.items.items) }
    ensures further { IfOk result (λ x. s.at < x.1) }
{
    let ((_, name), at) = past_name(alloc, tokens, s)?;
    let (_, at) = past_sign(tokens, Spot { at, ..s }, Op::In)?;
    let (set, at) = expression(alloc, tokens, pool, Spot { at, ..s })?;
    let (_, at) = past_mark(tokens, Spot { at, ..s }, Mark::Colon)?;
    let (items, at) = list(alloc, tokens, pool, Spot { at, ..s })?;
    Ok((Item::Exists(name, set, items), at))
}

// `x == e IN list` behind `LET`.
#[cycle(items)]
fn local(alloc: Global, tokens: &Tokens, pool: &mut Pool, s: Spot) -> Result<(Item, usize), Halt>
    requires given { MayBegin tokens.now s }
    ensures read { (p : Place) → Told (λ x f. IsItem pool.new x.0 f) (λ x. ahead tokens.now x.1) result (local_from (bound s.left) whole_items s.edge p (ahead tokens.now s.at)) }
    ensures kept { Keeps pool.old pool.new }
    ensures inside { IfOk result (λ x. x.1 ≤ length tokens.now.items.items) }
    ensures further { IfOk result (λ x. s.at < x.1) }
{
    let ((_, name), at) = past_name(alloc, tokens, s)?;
    let (_, at) = past_mark(tokens, Spot { at, ..s }, Mark::Defines)?;
    let (e, at) = expression(alloc, tokens, pool, Spot { at, ..s })?;
    let (_, at) = past_key(tokens, Spot { at, ..s }, Key::In)?;
    let (items, at) = list(alloc, tokens, pool, Spot { at, ..s })?;
    Ok((Item::Local(name, e, items), at))
}

// `e THEN list ELSE list` behind `IF`.
#[cycle(items)]
fn choice(alloc: Global, tokens: &Tokens, pool: &mut Pool, s: Spot) -> Result<(Item, usize), Halt>
    requires given { MayBegin tokens.now s }
    ensures read { (p : Place) → Told (λ x f. IsItem pool.new x.0 f) (λ x. ahead tokens.now x.1) result (choice_from (bound s.left) whole_items s.edge p (ahead tokens.now s.at)) }
    ensures kept { Keeps pool.old pool.new }
    ensures inside { IfOk result (λ x. x.1 ≤ length tokens.now.items.items) }
    ensures further { IfOk result (λ x. s.at < x.1) }
{
    let (test, at) = expression(alloc, tokens, pool, s)?;
    let (_, at) = past_key(tokens, Spot { at, ..s }, Key::Then)?;
    let (first, at) = list(alloc, tokens, pool, Spot { at, ..s })?;
    let (_, at) = past_key(tokens, Spot { at, ..s }, Key::Else)?;
    let (other, at) = list(alloc, tokens, pool, Spot { at, ..s })?;
    Ok((Item::Choice(test, first, other), at))
}

// An item, by its first token.
#[cycle(items)]
fn item(alloc: Global, tokens: &Tokens, pool: &mut Pool, s: Spot) -> Result<(Item, usize), Halt>
    requires given { MayBegin tokens.now s }
    ensures read { Told (λ x f. IsItem pool.new x.0 f) (λ x. ahead tokens.now x.1) result (whole_items.item (bound s.left) s.edge (ahead tokens.now s.at)) }
    ensures kept { Keeps pool.old pool.new }
    ensures inside { IfOk result (λ x. x.1 ≤ length tokens.now.items.items) }
    ensures further { IfOk result (λ x. s.at < x.1) }
{
    let t = next_at(tokens, s);
    match t.view {
        View::Mark(mark) => marked(alloc, tokens, pool, s, mark),
        View::Other(word) => keyworded(alloc, tokens, s, word),
        View::Word(word) => {
            let at = after(tokens, s);
            setting(alloc, tokens, pool, Spot { at, ..s }, word)
        }
        View::Key(key) => match key {
            Key::Exists => exists(alloc, tokens, pool, inside(tokens, s)?),
            Key::Let => local(alloc, tokens, pool, inside(tokens, s)?),
            Key::If => choice(alloc, tokens, pool, inside(tokens, s)?),
            _ => Err(refused(tokens, s, Rule::Syntax)),
        },
        View::Sign(op) => match op {
            Op::Or => {
                let d = deeper(tokens, s, 0)?;
                let (all, at) = branches(alloc, tokens, pool, d, t.place.col)?;
                Ok((Item::Either(all), at))
            }
            _ => Err(refused(tokens, s, Rule::Syntax)),
        },
        _ => Err(refused(tokens, s, Rule::Syntax)),
    }
}

// `/\ item`, the sign being in this column and the item to the right of it.
#[cycle(items)]
fn next_item(
    alloc: Global,
    tokens: &Tokens,
    pool: &mut Pool,
    s: Spot,
    col: u32,
) -> Result<(Item, usize), Halt>
    requires given { MayBegin tokens.now s }
    ensures read { Told (λ x (y : Place × ItemForm). IsItem pool.new x.0 y.1) (λ x. ahead tokens.now x.1) result (one_item s.left s.edge col (ahead tokens.now s.at)) }
    ensures kept { Keeps pool.old pool.new }
    ensures inside { IfOk result (λ x. x.1 ≤ length tokens.now.items.items) }
    ensures further { IfOk result (λ x. s.at < x.1) }
{
    let (_, at) = past_bullet(tokens, s, Op::And, col)?;
    let edge = col;
    item(alloc, tokens, pool, Spot { at, edge, ..s })
}

// `/\ item` under one another, the signs being in this column.
#[cycle(items)]
fn items(
    alloc: Global,
    tokens: &Tokens,
    pool: &mut Pool,
    s: Spot,
    col: u32,
) -> Result<(Vec<Item>, usize), Halt>
    requires given { MayBegin tokens.now s }
    ensures read { Told (λ x f. AreItems pool.new x.0.items f) (λ x. ahead tokens.now x.1) result (whole_items.items (bound s.left) s.edge col (ahead tokens.now s.at)) }
    ensures kept { Keeps pool.old pool.new }
    ensures inside { IfOk result (λ x. x.1 ≤ length tokens.now.items.items) }
    ensures further { IfOk result (λ x. s.at < x.1) }
{
    let mut all = Vec::new(alloc);
    let mut at = s.at;
    loop {
        let (one, next) = next_item(alloc, tokens, pool, Spot { at, ..s }, col)?;
        all.push(one)?;
        if !is_bullet_next(tokens, Spot { at: next, ..s }, Op::And, col) {
            return Ok((all, next));
        }
        at = next;
    }
}

/// Items, each behind a `/\`, all signs being in the column of the first one: at least one, and the number of the next token.
///
/// # Errors
///
/// The rule by which it is refused, and how many tokens are left from there on; or want of memory.
#[cycle(items)]
pub fn list(
    alloc: Global,
    tokens: &Tokens,
    pool: &mut Pool,
    s: Spot,
) -> Result<(Vec<Item>, usize), Halt>
    requires given { MayBegin tokens.now s }
    ensures read { Told (λ x f. AreItems pool.new x.0.items f) (λ x. ahead tokens.now x.1) result (whole_items.list (bound s.left) s.edge (ahead tokens.now s.at)) }
    ensures kept { Keeps pool.old pool.new }
    ensures inside { IfOk result (λ x. x.1 ≤ length tokens.now.items.items) }
    ensures further { IfOk result (λ x. s.at < x.1) }
{
    let t = next_at(tokens, s);
    if is_sign(Op::And, t.view) {
        let d = deeper(tokens, s, 0)?;
        items(alloc, tokens, pool, d, t.place.col)
    } else {
        Err(refused(tokens, s, Rule::Syntax))
    }
}

// `\/ list`, the sign being in this column and the list to the right of it.
#[cycle(items)]
fn next_branch(
    alloc: Global,
    tokens: &Tokens,
    pool: &mut Pool,
    s: Spot,
    col: u32,
) -> Result<(Vec<Item>, usize), Halt>
    requires given { MayBegin tokens.now s }
    ensures read { Told (λ x (y : Place × ListForm). AreItems pool.new x.0.items y.1) (λ x. ahead tokens.now x.1) result (one_branch s.left s.edge col (ahead tokens.now s.at)) }
    ensures kept { Keeps pool.old pool.new }
    ensures inside { IfOk result (λ x. x.1 ≤ length tokens.now.items.items) }
    ensures further { IfOk result (λ x. s.at < x.1) }
{
    let (_, at) = past_bullet(tokens, s, Op::Or, col)?;
    let edge = col;
    list(alloc, tokens, pool, Spot { at, edge, ..s })
}

// `\/ list` under one another, the signs being in this column.
#[cycle(items)]
fn branches(
    alloc: Global,
    tokens: &Tokens,
    pool: &mut Pool,
    s: Spot,
    col: u32,
) -> Result<(Vec<Vec<Item>>, usize), Halt>
    requires given { MayBegin tokens.now s }
    ensures read { Told (λ x f. AreBranches pool.new x.0.items f) (λ x. ahead tokens.now x.1) result (whole_items.branches (bound s.left) s.edge col (ahead tokens.now s.at)) }
    ensures kept { Keeps pool.old pool.new }
    ensures inside { IfOk result (λ x. x.1 ≤ length tokens.now.items.items) }
    ensures further { IfOk result (λ x. s.at < x.1) }
{
    let mut all = Vec::new(alloc);
    let mut at = s.at;
    loop {
        let (one, next) = next_branch(alloc, tokens, pool, Spot { at, ..s }, col)?;
        all.push(one)?;
        if !is_bullet_next(tokens, Spot { at: next, ..s }, Op::Or, col) {
            return Ok((all, next));
        }
        at = next;
    }
}
