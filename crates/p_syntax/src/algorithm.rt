//! Reading a whole algorithm.

ghost use Rattle.std.specs.Prelude.{ℕ, ◌<◌, ◌≤◌, IfOk, length};
ghost use Rattle.tla_token.specs.declared.place.Place as placed;
ghost use Rattle.tla_tree.specs.Pool.{Keeps};
ghost use Rattle.tla_tree.specs.Reader.{then_read, gives};
ghost use Rattle.expr_nodes.specs.Ahead.{ahead};
ghost use Rattle.tla_expr.specs.Numbers.{NumbersFit};
ghost use Rattle.pcal_tree.specs.InMemory.{main_at, past_main, algorithm_at, past_algorithm};
ghost use Rattle.pcal_tree.specs.Grammar.{begin, main_tree, algorithm_of};
ghost use Rattle.algorithm_reader.specs.PartsRead.{ReadsPart, parts_in, Enough};
ghost use Rattle.algorithm_reader.specs.RoutinesRead.{Passes};
ghost use Rattle.p_reading.specs.ReadStatements.{read_sequence as list_reader};
ghost use Rattle.p_reading.specs.ReadAlgorithm.{read_main, read_limited_algorithm};
ghost use Rattle.p_reading.specs.Around.{closing, frames};

use crate::sequence::read_sequence;
use crate::ways::PSyntax;
use algorithm_reader::head::after_word;
use algorithm_reader::processes::read_main_processes;
use algorithm_reader::token_step::{past_key, refused_there};
use algorithm_reader::whole_algorithm::{Frames, read_whole};
use expr_nodes::cursor::Halt;
use pcal_tree::algorithm::{Algorithm, Main};
use std::alloc::Global;
use tla_pool::Pool;
use tla_token::{PluscalWord, Rule, Tokens};

/// The main part of an algorithm of one process, behind its `begin`.
///
/// # Errors
///
/// As of `read_body`.
pub fn read_main_list(
    alloc: Global,
    tokens: &Tokens,
    pool: &mut Pool,
    at: usize,
) -> Result<(Main, usize), Halt>
    requires there { at ≤ length tokens.now.items.items }
    requires numbers { NumbersFit tokens.now }
    ensures read { (n : ℕ) (p : placed.Place) → Enough tokens.now at n → ReadsPart main_at past_main main_tree tokens.now pool.new result (then_read (list_reader (parts_in tokens.now) n (ahead tokens.now at)) (λ ss. gives (begin p ss))) }
    ensures kept { Keeps pool.old pool.new }
    ensures inside { IfOk result (λ x. x.1 ≤ length tokens.now.items.items) }
    ensures further { IfOk result (λ x. at < x.1) }
{
    let (list, end) = read_sequence(alloc, tokens, pool, at)?;
    Ok((Main::Alone(list), end))
}

/// The main part of an algorithm: `begin` and a list of statements, or its processes.
///
/// # Errors
///
/// As of `read_body`.
pub fn read_main_part(
    alloc: Global,
    tokens: &Tokens,
    pool: &mut Pool,
    at: usize,
) -> Result<(Main, usize), Halt>
    requires there { at ≤ length tokens.now.items.items }
    requires numbers { NumbersFit tokens.now }
    ensures read { (n : ℕ) → Enough tokens.now at n → ReadsPart main_at past_main main_tree tokens.now pool.new result (read_main (parts_in tokens.now) n (ahead tokens.now at)) }
    ensures kept { Keeps pool.old pool.new }
    ensures inside { IfOk result (λ x. x.1 ≤ length tokens.now.items.items) }
    ensures further { IfOk result (λ x. at ≤ x.1) }
{
    match after_word(tokens, at, PluscalWord::Begin) {
        Some(next) => read_main_list(alloc, tokens, pool, next),
        None => read_main_processes::<PSyntax>(alloc, tokens, pool, at),
    }
}

// Past `end algorithm`.
fn past_closing(tokens: &Tokens, at: usize) -> Result<usize, Halt>
    requires { at ≤ length tokens.now.items.items }
    ensures read { Passes tokens.now result (closing (ahead tokens.now at)) }
    ensures inside { IfOk result (λ end. end ≤ length tokens.now.items.items) }
    ensures further { IfOk result (λ end. at ≤ end) }
{
    let (_, next) = past_key(tokens, at, PluscalWord::End)?;
    let (_, end) = past_key(tokens, next, PluscalWord::Algorithm)?;
    Ok(end)
}

impl Frames for PSyntax {
    ghost frames = { frames };

    fn opening(_tokens: &Tokens, at: usize) -> Result<usize, Halt> {
        Ok(at)
    }

    fn main(
        alloc: Global,
        tokens: &Tokens,
        pool: &mut Pool,
        at: usize,
    ) -> Result<(Main, usize), Halt> {
        read_main_part(alloc, tokens, pool, at)
    }

    fn closing(tokens: &Tokens, at: usize) -> Result<usize, Halt> {
        past_closing(tokens, at)
    }
}

/// The algorithm that all these tokens spell.
///
/// # Errors
///
/// As of `read_body`; and where a token is behind it.
pub fn read_algorithm(
    alloc: Global,
    tokens: &Tokens,
    pool: &mut Pool,
) -> Result<(Algorithm, usize), Halt>
    requires { NumbersFit tokens.now }
    ensures read { ReadsPart algorithm_at past_algorithm algorithm_of tokens.now pool.new result (read_limited_algorithm (ahead tokens.now 0)) }
    ensures kept { Keeps pool.old pool.new }
{
    let (algorithm, end) = read_whole::<PSyntax>(alloc, tokens, pool, 0)?;
    if end < tokens.items.len() {
        return Err(refused_there(tokens, end, Rule::Syntax));
    }
    Ok((algorithm, end))
}
