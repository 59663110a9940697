//! Reading simple statements, from their first token on.

ghost use Rattle.std.specs.Prelude.{ℕ, ◌<◌, ◌≤◌, IfOk, length};
ghost use Rattle.tla_tree.specs.Pool.{Keeps};
ghost use Rattle.expr_nodes.specs.Ahead.{ahead};
ghost use Rattle.tla_expr.specs.Numbers.{NumbersFit};
ghost use Rattle.pcal_tree.specs.InMemory.{simple_at, past_simple};
ghost use Rattle.pcal_tree.specs.GrammarParts.{simple_tree};
ghost use Rattle.algorithm_reader.specs.PartsRead.{ReadsPart, parts_in, StepLess};
ghost use Rattle.algorithm_reader.specs.SimpleRead.{named_reader, keyed_reader, simple_reader};

use crate::arguments::read_arguments;
use crate::assignments::read_assignments;
use crate::expression::read_expression;
use crate::token_step::{after_mark, behind, is_next_name, is_next_word, past_name, refused_there};
use expr_nodes::cursor::Halt;
use expr_nodes::view::Mark;
use pcal_tree::algorithm::Simple;
use std::alloc::Global;
use tla_pool::Pool;
use tla_token::{PluscalWord, Rule, Tokens};

// A macro call or assignments.
fn read_named(
    alloc: Global,
    tokens: &Tokens,
    pool: &mut Pool,
    at: usize,
) -> Result<(Simple, usize), Halt>
    requires there { at ≤ length tokens.now.items.items }
    requires numbers { NumbersFit tokens.now }
    ensures read { (n : ℕ) → StepLess tokens.now at n → ReadsPart simple_at past_simple simple_tree tokens.now pool.new result (named_reader (parts_in tokens.now) n (ahead tokens.now at)) }
    ensures kept { Keeps pool.old pool.new }
    ensures inside { IfOk result (λ x. x.1 ≤ length tokens.now.items.items) }
    ensures further { IfOk result (λ x. at ≤ x.1) }
{
    let (name, next) = past_name(alloc, tokens, at)?;
    if let Some(_) = after_mark(tokens, next, Mark::OpenBracket) {
        let (list, end) = read_arguments(alloc, tokens, pool, next)?;
        return Ok((Simple::Macro(name.name, list), end));
    }
    if name.place.col == 0 {
        return Err(refused_there(tokens, next, Rule::Syntax));
    }
    let (list, end) = read_assignments(alloc, tokens, pool, at)?;
    Ok((Simple::Assign(list), end))
}

// One that begins with a word of PlusCal.
fn read_keyed(
    alloc: Global,
    tokens: &Tokens,
    pool: &mut Pool,
    at: usize,
) -> Result<(Simple, usize), Halt>
    requires there { at ≤ length tokens.now.items.items }
    requires numbers { NumbersFit tokens.now }
    ensures read { ReadsPart simple_at past_simple simple_tree tokens.now pool.new result (keyed_reader (parts_in tokens.now) (ahead tokens.now at)) }
    ensures kept { Keeps pool.old pool.new }
    ensures inside { IfOk result (λ x. x.1 ≤ length tokens.now.items.items) }
    ensures further { IfOk result (λ x. at ≤ x.1) }
{
    let next = behind(tokens, at);
    if is_next_word(tokens, at, PluscalWord::Await) {
        let (e, end) = read_expression(alloc, tokens, pool, next)?;
        Ok((Simple::Await(e), end))
    } else if is_next_word(tokens, at, PluscalWord::When) {
        let (e, end) = read_expression(alloc, tokens, pool, next)?;
        Ok((Simple::Await(e), end))
    } else if is_next_word(tokens, at, PluscalWord::Print) {
        let (e, end) = read_expression(alloc, tokens, pool, next)?;
        Ok((Simple::Print(e), end))
    } else if is_next_word(tokens, at, PluscalWord::Assert) {
        let (e, end) = read_expression(alloc, tokens, pool, next)?;
        Ok((Simple::Assert(e), end))
    } else if is_next_word(tokens, at, PluscalWord::Skip) {
        Ok((Simple::Skip, next))
    } else if is_next_word(tokens, at, PluscalWord::Goto) {
        let (name, end) = past_name(alloc, tokens, next)?;
        Ok((Simple::Goto(name.name), end))
    } else if is_next_word(tokens, at, PluscalWord::Call) {
        let (name, from) = past_name(alloc, tokens, next)?;
        let (list, end) = read_arguments(alloc, tokens, pool, from)?;
        Ok((Simple::Call(name, list), end))
    } else if is_next_word(tokens, at, PluscalWord::Return) {
        Ok((Simple::Return, next))
    } else {
        Err(refused_there(tokens, at, Rule::Syntax))
    }
}

/// A statement that has no statements in it: assignments, a macro call, or one that begins with a word of PlusCal.
///
/// # Errors
///
/// Where a token is next that can't be there, or at which too many forms are open; or for want of memory.
pub fn read_simple(
    alloc: Global,
    tokens: &Tokens,
    pool: &mut Pool,
    at: usize,
) -> Result<(Simple, usize), Halt>
    requires there { at ≤ length tokens.now.items.items }
    requires numbers { NumbersFit tokens.now }
    ensures read { (n : ℕ) → StepLess tokens.now at n → ReadsPart simple_at past_simple simple_tree tokens.now pool.new result (simple_reader (parts_in tokens.now) n (ahead tokens.now at)) }
    ensures kept { Keeps pool.old pool.new }
    ensures inside { IfOk result (λ x. x.1 ≤ length tokens.now.items.items) }
    ensures further { IfOk result (λ x. at ≤ x.1) }
{
    if is_next_name(tokens, at) {
        read_named(alloc, tokens, pool, at)
    } else {
        read_keyed(alloc, tokens, pool, at)
    }
}
