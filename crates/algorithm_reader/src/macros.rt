//! Reading macros, and the definitions of `define`.

ghost use Rattle.std.specs.Prelude.{ℕ, ◌<◌, ◌≤◌, IfOk, length, map};
ghost use Rattle.tla_token.specs.declared.place.Place as placed;
ghost use Rattle.tla_tree.specs.Pool.{Keeps};
ghost use Rattle.expr_nodes.specs.Ahead.{ahead};
ghost use Rattle.tla_expr.specs.Numbers.{NumbersFit};
ghost use Rattle.pcal_tree.specs.InMemory.{macro_at, past_macro};
ghost use Rattle.pcal_tree.specs.Grammar.{macro_tree, defined};
ghost use Rattle.syntax_reading.specs.ReadRoutines as reader;
ghost use Rattle.algorithm_reader.specs.PartsRead.{ReadsPart, parts_in, Enough, all_defined_at, past_all_defined};
ghost use Rattle.algorithm_reader.specs.RoutinesRead.{macros_at, past_macros};

use crate::head::after_word;
use crate::names::read_macro_parameters;
use crate::token_step::past_name;
use crate::ways::Ways;
use expr_nodes::cursor::Halt;
use pcal_tree::algorithm::{Definition, Macro};
use std::alloc::Global;
use tla_pool::Pool;
use tla_token::{PluscalWord, Tokens};

/// `M(a, b)` with its body, behind the word `macro`.
///
/// # Errors
///
/// Where a token is next that can't be there, or at which too many forms are open; or for want of memory.
pub fn read_macro<W: Ways>(
    alloc: Global,
    tokens: &Tokens,
    pool: &mut Pool,
    at: usize,
) -> Result<(Macro, usize), Halt>
    requires there { at ≤ length tokens.now.items.items }
    requires numbers { NumbersFit tokens.now }
    ensures read { (n : ℕ) (p : placed.Place) → Enough tokens.now at n → ReadsPart macro_at past_macro macro_tree tokens.now pool.new result (reader.read_macro (W.readers (parts_in tokens.now)) n p (ahead tokens.now at)) }
    ensures kept { Keeps pool.old pool.new }
    ensures inside { IfOk result (λ x. x.1 ≤ length tokens.now.items.items) }
    ensures further { IfOk result (λ x. at < x.1) }
{
    let (name, next) = past_name(alloc, tokens, at)?;
    let (params, behind) = read_macro_parameters(alloc, tokens, next)?;
    let (body, end) = W::body(alloc, tokens, pool, behind, PluscalWord::Macro)?;
    Ok((Macro { name, params, body }, end))
}

/// The macros that come, to the first token that begins none.
///
/// # Errors
///
/// As of `read_macro`.
pub fn read_macros<W: Ways>(
    alloc: Global,
    tokens: &Tokens,
    pool: &mut Pool,
    at: usize,
) -> Result<(Vec<Macro>, usize), Halt>
    requires there { at ≤ length tokens.now.items.items }
    requires numbers { NumbersFit tokens.now }
    ensures read { (n : ℕ) → Enough tokens.now at n → ReadsPart macros_at past_macros (map macro_tree) tokens.now pool.new result (reader.read_macros (W.readers (parts_in tokens.now)) n (ahead tokens.now at)) }
    ensures kept { Keeps pool.old pool.new }
    ensures inside { IfOk result (λ x. x.1 ≤ length tokens.now.items.items) }
    ensures further { IfOk result (λ x. at ≤ x.1) }
{
    let mut list = Vec::new(alloc);
    let mut from = at;
    while let Some(next) = after_word(tokens, from, PluscalWord::Macro) {
        let (one, end) = read_macro::<W>(alloc, tokens, pool, next)?;
        list.push(one)?;
        from = end;
    }
    Ok((list, from))
}

/// The definitions of `define`; none where that word isn't next.
///
/// # Errors
///
/// As of `read_macro`.
pub fn read_define<W: Ways>(
    alloc: Global,
    tokens: &Tokens,
    pool: &mut Pool,
    at: usize,
) -> Result<(Vec<Definition>, usize), Halt>
    requires there { at ≤ length tokens.now.items.items }
    requires numbers { NumbersFit tokens.now }
    ensures read { (n : ℕ) → Enough tokens.now at n → ReadsPart all_defined_at past_all_defined defined tokens.now pool.new result (reader.read_define (W.readers (parts_in tokens.now)) n (ahead tokens.now at)) }
    ensures kept { Keeps pool.old pool.new }
    ensures inside { IfOk result (λ x. x.1 ≤ length tokens.now.items.items) }
    ensures further { IfOk result (λ x. at ≤ x.1) }
{
    match after_word(tokens, at, PluscalWord::Define) {
        Some(next) => W::definitions(alloc, tokens, pool, next),
        None => Ok((Vec::new(alloc), at)),
    }
}
