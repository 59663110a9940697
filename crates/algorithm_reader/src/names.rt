//! Reading names with commas between them, and the parameters of macros.

ghost use Rattle.std.specs.Prelude.{ℕ, ◌<◌, ◌≤◌, IfOk, length};
ghost use Rattle.expr_nodes.specs.Ahead.{ahead};
ghost use Rattle.pcal_tree.specs.GrammarParts.{names_of, macro_names};
ghost use Rattle.syntax_reading.specs.ReadParts.{read_names as names_reader, read_macro_parameters as macro_parameters_reader};
ghost use Rattle.algorithm_reader.specs.PartsRead.{ReadsWords, items_of, Enough};

use crate::token_step::{after_mark, past_mark, past_name};
use expr_nodes::cursor::Halt;
use expr_nodes::view::Mark;
use std::alloc::Global;
use tla_token::Tokens;
use tla_tree::PlacedName;

/// `a, b`: at least one name.
///
/// # Errors
///
/// Where a token is next that is no name there, or for want of memory.
pub fn read_names(
    alloc: Global,
    tokens: &Tokens,
    at: usize,
) -> Result<(Vec<PlacedName>, usize), Halt>
    requires { at ≤ length tokens.now.items.items }
    ensures read { (n : ℕ) → Enough tokens.now at n → ReadsWords items_of names_of tokens.now result (names_reader n (ahead tokens.now at)) }
    ensures inside { IfOk result (λ x. x.1 ≤ length tokens.now.items.items) }
    ensures further { IfOk result (λ x. at < x.1) }
{
    let mut names = Vec::new(alloc);
    let mut from = at;
    loop {
        let (name, next) = past_name(alloc, tokens, from)?;
        names.push(name)?;
        match after_mark(tokens, next, Mark::Comma) {
            Some(behind) => from = behind,
            None => return Ok((names, next)),
        }
    }
}

/// `(a, b)` of a macro.
///
/// # Errors
///
/// Where a token is next that can't be there, or for want of memory.
pub fn read_macro_parameters(
    alloc: Global,
    tokens: &Tokens,
    at: usize,
) -> Result<(Vec<PlacedName>, usize), Halt>
    requires { at ≤ length tokens.now.items.items }
    ensures read { (n : ℕ) → Enough tokens.now at n → ReadsWords items_of macro_names tokens.now result (macro_parameters_reader n (ahead tokens.now at)) }
    ensures inside { IfOk result (λ x. x.1 ≤ length tokens.now.items.items) }
    ensures further { IfOk result (λ x. at ≤ x.1) }
{
    let (_, at) = past_mark(tokens, at, Mark::OpenBracket)?;
    if let Some(next) = after_mark(tokens, at, Mark::CloseBracket) {
        return Ok((Vec::new(alloc), next));
    }
    let (names, at) = read_names(alloc, tokens, at)?;
    let (_, at) = past_mark(tokens, at, Mark::CloseBracket)?;
    Ok((names, at))
}
