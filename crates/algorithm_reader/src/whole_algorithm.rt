//! Reading a whole algorithm, by readers of what the two syntaxes spell in their own ways.

ghost use Rattle.std.specs.Prelude.{ℕ, ◌<◌, ◌≤◌, IfOk, length};
ghost use Rattle.tla_token.specs.declared.place.Place as placed;
ghost use Rattle.tla_tree.specs.Pool.{Keeps};
ghost use Rattle.expr_nodes.specs.Ahead.{ahead};
ghost use Rattle.tla_expr.specs.Numbers.{NumbersFit};
ghost use Rattle.pcal_tree.specs.InMemory.{main_at, past_main, algorithm_at, past_algorithm};
ghost use Rattle.pcal_tree.specs.Grammar.{main_tree, algorithm_of};
ghost use Rattle.syntax_reading.specs.TokenReaders.{Parts};
ghost use Rattle.algorithm_reader.specs.PartsRead.{ReadsPart, parts_in, Enough};
ghost use Rattle.algorithm_reader.specs.RoutinesRead.{Passes};
ghost use Rattle.syntax_reading.specs.ReadWhole as reader;

use crate::head::read_head;
use crate::macros::{read_define, read_macros};
use crate::procedures::read_procedures;
use crate::token_step::past_name;
use crate::variables::read_section;
use crate::ways::Ways;
use expr_nodes::cursor::Halt;
use pcal_tree::algorithm::{Algorithm, Main};
use std::alloc::Global;
use tla_pool::Pool;
use tla_token::Tokens;

/// Readers of what the two syntaxes have around the parts of an algorithm, and of what runs.
pub trait Frames: Ways {
    /// The same as functions of tokens.
    ghost frames: { Parts → reader.Frames };

    /// Past what opens the parts behind the name, if anything does.
    ///
    /// # Errors
    ///
    /// Where another token is next.
    fn opening(tokens: &Tokens, at: usize) -> Result<usize, Halt>
        requires { at ≤ length tokens.now.items.items }
        ensures read { Passes tokens.now result ((frames (parts_in tokens.now)).opening (ahead tokens.now at)) }
        ensures inside { IfOk result (λ end. end ≤ length tokens.now.items.items) }
        ensures further { IfOk result (λ end. at ≤ end) };

    /// The one body of an algorithm, or its processes.
    ///
    /// # Errors
    ///
    /// Where a token is next that can't be there, or at which too many forms are open; or for want of memory.
    fn main(
        alloc: Global,
        tokens: &Tokens,
        pool: &mut Pool,
        at: usize,
    ) -> Result<(Main, usize), Halt>
        requires there { at ≤ length tokens.now.items.items }
        requires numbers { NumbersFit tokens.now }
        ensures read { (n : ℕ) → Enough tokens.now at n → ReadsPart main_at past_main main_tree tokens.now pool.new result ((frames (parts_in tokens.now)).main n (ahead tokens.now at)) }
        ensures kept { Keeps pool.old pool.new }
        ensures inside { IfOk result (λ x. x.1 ≤ length tokens.now.items.items) }
        ensures further { IfOk result (λ x. at ≤ x.1) };

    /// Past what closes the parts.
    ///
    /// # Errors
    ///
    /// Where another token is next.
    fn closing(tokens: &Tokens, at: usize) -> Result<usize, Halt>
        requires { at ≤ length tokens.now.items.items }
        ensures read { (p : placed.Place) → Passes tokens.now result ((frames (parts_in tokens.now)).closing p (ahead tokens.now at)) }
        ensures inside { IfOk result (λ end. end ≤ length tokens.now.items.items) }
        ensures further { IfOk result (λ end. at ≤ end) };
}

/// An algorithm from its first word to its last.
///
/// # Errors
///
/// Where a token is next that can't be there, or at which too many forms are open; or for want of memory.
pub fn read_whole<W: Frames>(
    alloc: Global,
    tokens: &Tokens,
    pool: &mut Pool,
    at: usize,
) -> Result<(Algorithm, usize), Halt>
    requires there { at ≤ length tokens.now.items.items }
    requires numbers { NumbersFit tokens.now }
    ensures read { (n : ℕ) → Enough tokens.now at n → ReadsPart algorithm_at past_algorithm algorithm_of tokens.now pool.new result (reader.read_whole (parts_in tokens.now) (W.readers (parts_in tokens.now)) (W.frames (parts_in tokens.now)) n (ahead tokens.now at)) }
    ensures kept { Keeps pool.old pool.new }
    ensures inside { IfOk result (λ x. x.1 ≤ length tokens.now.items.items) }
    ensures further { IfOk result (λ x. at ≤ x.1) }
{
    let (fair, at) = read_head(tokens, at)?;
    let (name, at) = past_name(alloc, tokens, at)?;
    let at = W::opening(tokens, at)?;
    let (globals, at) = read_section(alloc, tokens, pool, at, true)?;
    let (definitions, at) = read_define::<W>(alloc, tokens, pool, at)?;
    let (macros, at) = read_macros::<W>(alloc, tokens, pool, at)?;
    let (procedures, at) = read_procedures::<W>(alloc, tokens, pool, at)?;
    let (main, at) = W::main(alloc, tokens, pool, at)?;
    let end = W::closing(tokens, at)?;
    let algorithm = Algorithm {
        name,
        fair,
        globals,
        definitions,
        macros,
        procedures,
        main,
    };
    Ok((algorithm, end))
}
