//! Reading the definitions of `define`: headings, and what they stand for.

ghost use Rattle.std.specs.Prelude.{ℕ, ◌<◌, ◌≤◌, IfOk, length};
ghost use Rattle.tla_tree.specs.Pool.{Keeps};
ghost use Rattle.expr_nodes.specs.Ahead.{ahead};
ghost use Rattle.tla_expr.specs.Numbers.{NumbersFit};
ghost use Rattle.pcal_tree.specs.InMemory.{definition_at, past_definition};
ghost use Rattle.pcal_tree.specs.GrammarParts.{definitions_of};
ghost use Rattle.syntax_reading.specs.ReadParts.{read_heading as heading_reader, read_definitions as definitions_reader};
ghost use Rattle.algorithm_reader.specs.PartsRead.{ReadsPart, ReadsWords, parts_in, Enough, StepLess, headed, heading_parts, first_defined, definition_reader, all_defined_at, past_all_defined};

use crate::expression::read_expression;
use crate::names::read_names;
use crate::token_step::{after_mark, is_next_name, past_mark, past_name};
use expr_nodes::cursor::Halt;
use expr_nodes::view::Mark;
use pcal_tree::algorithm::Definition;
use std::alloc::Global;
use tla_pool::Pool;
use tla_token::Tokens;
use tla_tree::PlacedName;

/// `N` or `N(a, b)`: the name with its parameters.
///
/// # Errors
///
/// Where a token is next that can't be there, or for want of memory.
pub fn read_heading(
    alloc: Global,
    tokens: &Tokens,
    at: usize,
) -> Result<((PlacedName, Vec<PlacedName>), usize), Halt>
    requires { at ≤ length tokens.now.items.items }
    ensures read { (n : ℕ) → StepLess tokens.now at n → ReadsWords headed heading_parts tokens.now result (heading_reader n (ahead tokens.now at)) }
    ensures inside { IfOk result (λ x. x.1 ≤ length tokens.now.items.items) }
    ensures further { IfOk result (λ x. at < x.1) }
{
    let (name, at) = past_name(alloc, tokens, at)?;
    if let Some(next) = after_mark(tokens, at, Mark::OpenBracket) {
        let (params, at) = read_names(alloc, tokens, next)?;
        let (_, at) = past_mark(tokens, at, Mark::CloseBracket)?;
        Ok(((name, params), at))
    } else {
        Ok(((name, Vec::new(alloc)), at))
    }
}

/// `N == e` or `N(a, b) == e`.
///
/// # Errors
///
/// Where a token is next that can't be there, or at which too many forms are open; or for want of memory.
pub fn read_definition(
    alloc: Global,
    tokens: &Tokens,
    pool: &mut Pool,
    at: usize,
) -> Result<(Definition, usize), Halt>
    requires there { at ≤ length tokens.now.items.items }
    requires numbers { NumbersFit tokens.now }
    ensures read { (n : ℕ) → StepLess tokens.now at n → ReadsPart definition_at past_definition first_defined tokens.now pool.new result (definition_reader (parts_in tokens.now) n (ahead tokens.now at)) }
    ensures kept { Keeps pool.old pool.new }
    ensures inside { IfOk result (λ x. x.1 ≤ length tokens.now.items.items) }
    ensures further { IfOk result (λ x. at < x.1) }
{
    let ((name, params), next) = read_heading(alloc, tokens, at)?;
    let (_, next) = past_mark(tokens, next, Mark::Defines)?;
    let (body, end) = read_expression(alloc, tokens, pool, next)?;
    Ok((Definition { name, params, body }, end))
}

/// `N == e M(a, b) == f`: at least one definition.
///
/// # Errors
///
/// As of `read_definition`.
pub fn read_definitions(
    alloc: Global,
    tokens: &Tokens,
    pool: &mut Pool,
    at: usize,
) -> Result<(Vec<Definition>, usize), Halt>
    requires there { at ≤ length tokens.now.items.items }
    requires numbers { NumbersFit tokens.now }
    ensures read { (n : ℕ) → Enough tokens.now at n → ReadsPart all_defined_at past_all_defined definitions_of tokens.now pool.new result (definitions_reader (parts_in tokens.now) n (ahead tokens.now at)) }
    ensures kept { Keeps pool.old pool.new }
    ensures inside { IfOk result (λ x. x.1 ≤ length tokens.now.items.items) }
    ensures further { IfOk result (λ x. at < x.1) }
{
    let mut list = Vec::new(alloc);
    let mut from = at;
    loop {
        let (definition, end) = read_definition(alloc, tokens, pool, from)?;
        list.push(definition)?;
        if !is_next_name(tokens, end) {
            return Ok((list, end));
        }
        from = end;
    }
}
