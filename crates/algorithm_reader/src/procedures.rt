//! Reading procedures.

ghost use Rattle.std.specs.Prelude.{ℕ, ◌<◌, ◌≤◌, IfOk, length, map};
ghost use Rattle.tla_token.specs.declared.place.Place as placed;
ghost use Rattle.tla_tree.specs.Pool.{Keeps};
ghost use Rattle.expr_nodes.specs.Ahead.{ahead};
ghost use Rattle.tla_expr.specs.Numbers.{NumbersFit};
ghost use Rattle.pcal_tree.specs.InMemory.{procedure_at, past_procedure};
ghost use Rattle.pcal_tree.specs.Grammar.{procedure_tree};
ghost use Rattle.syntax_reading.specs.ReadRoutines as reader;
ghost use Rattle.algorithm_reader.specs.PartsRead.{ReadsPart, parts_in, Enough};
ghost use Rattle.algorithm_reader.specs.RoutinesRead.{procedures_at, past_procedures};

use crate::head::after_word;
use crate::parameters::read_procedure_parameters;
use crate::token_step::past_name;
use crate::variables::read_section;
use crate::ways::Ways;
use expr_nodes::cursor::Halt;
use pcal_tree::algorithm::Procedure;
use std::alloc::Global;
use tla_pool::Pool;
use tla_token::{PluscalWord, Tokens};

/// `P(a, b = e)` with its variables and its body, behind the word `procedure`.
///
/// # Errors
///
/// Where a token is next that can't be there, or at which too many forms are open; or for want of memory.
pub fn read_procedure<W: Ways>(
    alloc: Global,
    tokens: &Tokens,
    pool: &mut Pool,
    at: usize,
) -> Result<(Procedure, usize), Halt>
    requires there { at ≤ length tokens.now.items.items }
    requires numbers { NumbersFit tokens.now }
    ensures read { (n : ℕ) (p : placed.Place) → Enough tokens.now at n → ReadsPart procedure_at past_procedure procedure_tree tokens.now pool.new result (reader.read_procedure (parts_in tokens.now) (W.readers (parts_in tokens.now)) n p (ahead tokens.now at)) }
    ensures kept { Keeps pool.old pool.new }
    ensures inside { IfOk result (λ x. x.1 ≤ length tokens.now.items.items) }
    ensures further { IfOk result (λ x. at < x.1) }
{
    let (name, next) = past_name(alloc, tokens, at)?;
    let (params, after) = read_procedure_parameters(alloc, tokens, pool, next)?;
    let (variables, behind) = read_section(alloc, tokens, pool, after, false)?;
    let (body, end) = W::body(alloc, tokens, pool, behind, PluscalWord::Procedure)?;
    let procedure = Procedure {
        name,
        params,
        variables,
        body,
    };
    Ok((procedure, end))
}

/// The procedures that come, to the first token that begins none.
///
/// # Errors
///
/// As of `read_procedure`.
pub fn read_procedures<W: Ways>(
    alloc: Global,
    tokens: &Tokens,
    pool: &mut Pool,
    at: usize,
) -> Result<(Vec<Procedure>, usize), Halt>
    requires there { at ≤ length tokens.now.items.items }
    requires numbers { NumbersFit tokens.now }
    ensures read { (n : ℕ) → Enough tokens.now at n → ReadsPart procedures_at past_procedures (map procedure_tree) tokens.now pool.new result (reader.read_procedures (parts_in tokens.now) (W.readers (parts_in tokens.now)) n (ahead tokens.now at)) }
    ensures kept { Keeps pool.old pool.new }
    ensures inside { IfOk result (λ x. x.1 ≤ length tokens.now.items.items) }
    ensures further { IfOk result (λ x. at ≤ x.1) }
{
    let mut list = Vec::new(alloc);
    let mut from = at;
    while let Some(next) = after_word(tokens, from, PluscalWord::Procedure) {
        let (one, end) = read_procedure::<W>(alloc, tokens, pool, next)?;
        list.push(one)?;
        from = end;
    }
    Ok((list, from))
}
