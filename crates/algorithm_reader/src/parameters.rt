//! Reading the parameters of procedures, with their first values.

ghost use Rattle.std.specs.Prelude.{ℕ, ◌<◌, ◌≤◌, IfOk, length};
ghost use Rattle.tla_tree.specs.Pool.{Keeps};
ghost use Rattle.expr_nodes.specs.Ahead.{ahead};
ghost use Rattle.tla_expr.specs.Numbers.{NumbersFit};
ghost use Rattle.pcal_tree.specs.GrammarParts.{parameters_of, procedure_declarations};
ghost use Rattle.syntax_reading.specs.ReadParts.{read_parameters as parameters_reader, read_procedure_parameters as procedure_parameters_reader};
ghost use Rattle.algorithm_reader.specs.PartsRead.{ReadsPart, parts_in, Enough, all_declared_at, past_all_declared};

use crate::token_step::{after_mark, past_mark};
use crate::variables::read_declaration;
use expr_nodes::cursor::Halt;
use expr_nodes::view::Mark;
use pcal_tree::algorithm::Declaration;
use std::alloc::Global;
use tla_pool::Pool;
use tla_token::Tokens;

/// `a, b = e`: at least one parameter.
///
/// # Errors
///
/// Where a token is next that can't be there, or at which too many forms are open; or for want of memory.
pub fn read_parameters(
    alloc: Global,
    tokens: &Tokens,
    pool: &mut Pool,
    at: usize,
) -> Result<(Vec<Declaration>, usize), Halt>
    requires there { at ≤ length tokens.now.items.items }
    requires numbers { NumbersFit tokens.now }
    ensures read { (n : ℕ) → Enough tokens.now at n → ReadsPart all_declared_at past_all_declared parameters_of tokens.now pool.new result (parameters_reader (parts_in tokens.now) n (ahead tokens.now at)) }
    ensures kept { Keeps pool.old pool.new }
    ensures inside { IfOk result (λ x. x.1 ≤ length tokens.now.items.items) }
    ensures further { IfOk result (λ x. at < x.1) }
{
    let mut list = Vec::new(alloc);
    let mut from = at;
    loop {
        let (parameter, end) = read_declaration(alloc, tokens, pool, from, false)?;
        list.push(parameter)?;
        match after_mark(tokens, end, Mark::Comma) {
            Some(behind) => from = behind,
            None => return Ok((list, end)),
        }
    }
}

/// `(a, b = e)` of a procedure.
///
/// # Errors
///
/// As of `read_parameters`.
pub fn read_procedure_parameters(
    alloc: Global,
    tokens: &Tokens,
    pool: &mut Pool,
    at: usize,
) -> Result<(Vec<Declaration>, usize), Halt>
    requires there { at ≤ length tokens.now.items.items }
    requires numbers { NumbersFit tokens.now }
    ensures read { (n : ℕ) → Enough tokens.now at n → ReadsPart all_declared_at past_all_declared procedure_declarations tokens.now pool.new result (procedure_parameters_reader (parts_in tokens.now) n (ahead tokens.now at)) }
    ensures kept { Keeps pool.old pool.new }
    ensures inside { IfOk result (λ x. x.1 ≤ length tokens.now.items.items) }
    ensures further { IfOk result (λ x. at ≤ x.1) }
{
    let (_, at) = past_mark(tokens, at, Mark::OpenBracket)?;
    match after_mark(tokens, at, Mark::CloseBracket) {
        Some(next) => Ok((Vec::new(alloc), next)),
        None => {
            let (list, at) = read_parameters(alloc, tokens, pool, at)?;
            let (_, at) = past_mark(tokens, at, Mark::CloseBracket)?;
            Ok((list, at))
        }
    }
}
