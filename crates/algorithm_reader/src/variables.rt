//! Reading declarations: variables with their first values, and the parameters of procedures.

ghost use Rattle.std.specs.Prelude.{ℕ, ◌<◌, ◌≤◌, IfOk, length};
ghost use Rattle.tla_tree.specs.Pool.{Keeps};
ghost use Rattle.expr_nodes.specs.Ahead.{ahead};
ghost use Rattle.tla_expr.specs.Numbers.{NumbersFit};
ghost use Rattle.pcal_tree.specs.InMemory.{start_at, past_start, declaration_at, past_declaration};
ghost use Rattle.pcal_tree.specs.GrammarParts.{start_of, declarations, declared};
ghost use Rattle.syntax_reading.specs.ReadParts.{read_initial as initial_reader, read_variables as variables_reader, read_section as section_reader};
ghost use Rattle.algorithm_reader.specs.PartsRead.{ReadsPart, parts_in, Enough, all_declared_at, past_all_declared, first_declared, declaration_reader};

use crate::colon::past_separator_to_name;
use crate::expression::read_expression;
use crate::token_step::{behind, is_next_word, next_token, past_name};
use expr_nodes::cursor::{Halt, is_sign};
use pcal_tree::algorithm::{Declaration, Start};
use std::alloc::Global;
use tla_pool::Pool;
use tla_token::{PluscalWord, Tokens};
use tla_tree::Op;

/// `= e`, or `\in S` where that may be, or nothing.
///
/// # Errors
///
/// Where a token is next that can't be there, or at which too many forms are open; or for want of memory.
pub fn read_initial(
    alloc: Global,
    tokens: &Tokens,
    pool: &mut Pool,
    at: usize,
    among: bool,
) -> Result<(Start, usize), Halt>
    requires there { at ≤ length tokens.now.items.items }
    requires numbers { NumbersFit tokens.now }
    ensures read { ReadsPart start_at past_start start_of tokens.now pool.new result (initial_reader among (parts_in tokens.now) (ahead tokens.now at)) }
    ensures kept { Keeps pool.old pool.new }
    ensures inside { IfOk result (λ x. x.1 ≤ length tokens.now.items.items) }
    ensures further { IfOk result (λ x. at ≤ x.1) }
{
    let view = next_token(tokens, at).view;
    let next = behind(tokens, at);
    if is_sign(Op::Equal, view) {
        let (e, end) = read_expression(alloc, tokens, pool, next)?;
        Ok((Start::Equals(e), end))
    } else if among && is_sign(Op::In, view) {
        let (e, end) = read_expression(alloc, tokens, pool, next)?;
        Ok((Start::Among(e), end))
    } else {
        Ok((Start::Unset, at))
    }
}

/// A name with its first value.
///
/// # Errors
///
/// As of `read_initial`.
pub fn read_declaration(
    alloc: Global,
    tokens: &Tokens,
    pool: &mut Pool,
    at: usize,
    among: bool,
) -> Result<(Declaration, usize), Halt>
    requires there { at ≤ length tokens.now.items.items }
    requires numbers { NumbersFit tokens.now }
    ensures read { ReadsPart declaration_at past_declaration first_declared tokens.now pool.new result (declaration_reader among (parts_in tokens.now) (ahead tokens.now at)) }
    ensures kept { Keeps pool.old pool.new }
    ensures inside { IfOk result (λ x. x.1 ≤ length tokens.now.items.items) }
    ensures further { IfOk result (λ x. at < x.1) }
{
    let (name, next) = past_name(alloc, tokens, at)?;
    let (start, end) = read_initial(alloc, tokens, pool, next, among)?;
    Ok((Declaration { name, start }, end))
}

/// `x, y = e; z \in S`: at least one variable; a last separator is allowed.
///
/// # Errors
///
/// As of `read_initial`.
pub fn read_variables(
    alloc: Global,
    tokens: &Tokens,
    pool: &mut Pool,
    at: usize,
    among: bool,
) -> Result<(Vec<Declaration>, usize), Halt>
    requires there { at ≤ length tokens.now.items.items }
    requires numbers { NumbersFit tokens.now }
    ensures read { (n : ℕ) → Enough tokens.now at n → ReadsPart all_declared_at past_all_declared declarations tokens.now pool.new result (variables_reader among (parts_in tokens.now) n (ahead tokens.now at)) }
    ensures kept { Keeps pool.old pool.new }
    ensures inside { IfOk result (λ x. x.1 ≤ length tokens.now.items.items) }
    ensures further { IfOk result (λ x. at < x.1) }
{
    let mut list = Vec::new(alloc);
    let mut from = at;
    loop {
        let (declaration, end) = read_declaration(alloc, tokens, pool, from, among)?;
        list.push(declaration)?;
        let (another, next) = past_separator_to_name(tokens, end);
        if !another {
            return Ok((list, next));
        }
        from = next;
    }
}

/// The variables behind `variable` or `variables`; none where neither word is next.
///
/// # Errors
///
/// As of `read_initial`.
pub fn read_section(
    alloc: Global,
    tokens: &Tokens,
    pool: &mut Pool,
    at: usize,
    among: bool,
) -> Result<(Vec<Declaration>, usize), Halt>
    requires there { at ≤ length tokens.now.items.items }
    requires numbers { NumbersFit tokens.now }
    ensures read { (n : ℕ) → Enough tokens.now at n → ReadsPart all_declared_at past_all_declared declared tokens.now pool.new result (section_reader among (parts_in tokens.now) n (ahead tokens.now at)) }
    ensures kept { Keeps pool.old pool.new }
    ensures inside { IfOk result (λ x. x.1 ≤ length tokens.now.items.items) }
    ensures further { IfOk result (λ x. at ≤ x.1) }
{
    if is_next_word(tokens, at, PluscalWord::Variable)
        || is_next_word(tokens, at, PluscalWord::Variables)
    {
        let next = behind(tokens, at);
        read_variables(alloc, tokens, pool, next, among)
    } else {
        Ok((Vec::new(alloc), at))
    }
}
