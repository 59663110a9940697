//! Reading what a `with` names, each a form inside those before it.

ghost use Rattle.std.specs.Prelude.{ℕ, ◌<◌, ◌≤◌, ◌+◌, IfOk, OnOk, nat_le, length};
ghost use Rattle.tla_token.specs.Limits.{deepest_statement};
ghost use Rattle.tla_tree.specs.Pool.{Keeps};
ghost use Rattle.expr_nodes.specs.ReadIn.{Gives};
ghost use Rattle.expr_nodes.specs.Ahead.{ahead};
ghost use Rattle.tla_expr.specs.Numbers.{NumbersFit};
ghost use Rattle.pcal_tree.specs.InMemory.{bind_at, past_bind};
ghost use Rattle.syntax_reading.specs.TokenReaders.{name_within, past};
ghost use Rattle.syntax_reading.specs.ReadParts.{bind_by, read_binds as binds_reader};
ghost use Rattle.algorithm_reader.specs.PartsRead.{ReadsPart, ReadsWords, parts_in, Enough, itself, among_of, first_bound, bind_reader, all_bound_at, past_all_bound, bound_from};

use crate::colon::past_separator_to_name;
use crate::expression::read_expression;
use crate::token_step::{behind, is_next_name, next_token, past_name, refused_there};
use expr_nodes::cursor::{Halt, is_sign};
use pcal_tree::algorithm::Bind;
use std::alloc::Global;
use tla_pool::Pool;
use tla_token::{Rule, Tokens};
use tla_tree::{Op, PlacedName};

// How many forms of statements may be open.
const DEEPEST: usize = 100;

/// Past a name at which a form opens, where so many are open.
///
/// # Errors
///
/// At a name where too many forms would be open; where another token is next, or for want of memory.
pub fn past_name_within(
    alloc: Global,
    tokens: &Tokens,
    at: usize,
    depth: usize,
) -> Result<(PlacedName, usize), Halt>
    requires { at ≤ length tokens.now.items.items }
    ensures value { Gives (λ x. (x.0, ahead tokens.now x.1)) result (name_within (nat_le (depth + 1) deepest_statement) (ahead tokens.now at)) }
    ensures few { OnOk result (depth < deepest_statement) }
    ensures inside { IfOk result (λ x. x.1 ≤ length tokens.now.items.items) }
    ensures further { IfOk result (λ x. at < x.1) }
{
    if depth < DEEPEST {
        past_name(alloc, tokens, at)
    } else if is_next_name(tokens, at) {
        Err(refused_there(tokens, at, Rule::TooDeep))
    } else {
        Err(refused_there(tokens, at, Rule::Syntax))
    }
}

/// Past `\in` or `=`: whether it is `\in`.
///
/// # Errors
///
/// Where another token is next.
pub fn past_bind_sign(tokens: &Tokens, at: usize) -> Result<(bool, usize), Halt>
    requires { at ≤ length tokens.now.items.items }
    ensures read { ReadsWords itself among_of tokens.now result (past bind_by (ahead tokens.now at)) }
    ensures inside { IfOk result (λ x. x.1 ≤ length tokens.now.items.items) }
    ensures no_less { IfOk result (λ x. at ≤ x.1) }
{
    let view = next_token(tokens, at).view;
    if is_sign(Op::In, view) {
        Ok((true, behind(tokens, at)))
    } else if is_sign(Op::Equal, view) {
        Ok((false, behind(tokens, at)))
    } else {
        Err(refused_there(tokens, at, Rule::Syntax))
    }
}

/// `x \in S` or `y = e`, where so many forms are open.
///
/// # Errors
///
/// Where a token is next that can't be there, or at which too many forms are open; or for want of memory.
pub fn read_bind(
    alloc: Global,
    tokens: &Tokens,
    pool: &mut Pool,
    at: usize,
    depth: usize,
) -> Result<(Bind, usize), Halt>
    requires there { at ≤ length tokens.now.items.items }
    requires numbers { NumbersFit tokens.now }
    ensures read { ReadsPart bind_at past_bind first_bound tokens.now pool.new result (bind_reader (parts_in tokens.now) depth (ahead tokens.now at)) }
    ensures few { OnOk result (depth < deepest_statement) }
    ensures kept { Keeps pool.old pool.new }
    ensures inside { IfOk result (λ x. x.1 ≤ length tokens.now.items.items) }
    ensures further { IfOk result (λ x. at < x.1) }
{
    let (name, next) = past_name_within(alloc, tokens, at, depth)?;
    let (among, next) = past_bind_sign(tokens, next)?;
    let (e, end) = read_expression(alloc, tokens, pool, next)?;
    if among {
        Ok((Bind::Among(name, e), end))
    } else {
        Ok((Bind::Is(name, e), end))
    }
}

/// `x \in S, y = e` where so many forms are open: at least one, a last separator is allowed. Also how many forms are open behind them.
///
/// # Errors
///
/// As of `read_bind`.
pub fn read_binds(
    alloc: Global,
    tokens: &Tokens,
    pool: &mut Pool,
    at: usize,
    depth: usize,
) -> Result<((Vec<Bind>, usize), usize), Halt>
    requires there { at ≤ length tokens.now.items.items }
    requires numbers { NumbersFit tokens.now }
    ensures read { (n : ℕ) → Enough tokens.now at n → ReadsPart all_bound_at past_all_bound (bound_from depth) tokens.now pool.new result (binds_reader (parts_in tokens.now) n depth (ahead tokens.now at)) }
    ensures few { IfOk result (λ x. x.0.1 ≤ deepest_statement) }
    ensures kept { Keeps pool.old pool.new }
    ensures inside { IfOk result (λ x. x.1 ≤ length tokens.now.items.items) }
    ensures further { IfOk result (λ x. at < x.1) }
{
    let mut list = Vec::new(alloc);
    let mut from = at;
    let mut deep = depth;
    loop {
        let (bind, end) = read_bind(alloc, tokens, pool, from, deep)?;
        list.push(bind)?;
        deep += 1;
        let (another, next) = past_separator_to_name(tokens, end);
        if !another {
            return Ok(((list, deep), next));
        }
        from = next;
    }
}
