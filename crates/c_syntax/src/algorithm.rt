//! Reading a whole algorithm.

ghost use Rattle.std.specs.Prelude.{◌≡◌, ℕ, ◌<◌, ◌≤◌, IfOk, true, length};
ghost use Rattle.tla_tree.specs.Lexical as tk;
ghost use Rattle.tla_tree.specs.Pool.{Keeps};
ghost use Rattle.tla_tree.specs.Reader.{is_mark};
ghost use Rattle.expr_nodes.specs.Ahead.{ahead};
ghost use Rattle.tla_expr.specs.Numbers.{NumbersFit};
ghost use Rattle.pcal_tree.specs.InMemory.{main_at, past_main, algorithm_at, past_algorithm};
ghost use Rattle.pcal_tree.specs.Grammar.{main_tree, algorithm_of};
ghost use Rattle.syntax_reading.specs.TokenReaders.{first};
ghost use Rattle.algorithm_reader.specs.PartsRead.{ReadsPart, parts_in, Enough};
ghost use Rattle.c_reading.specs.ReadAlgorithm.{read_main, read_limited_algorithm};
ghost use Rattle.c_reading.specs.Around.{frames};

use crate::ways::{CSyntax, read_body};
use algorithm_reader::processes::read_main_processes;
use algorithm_reader::token_step::{past_mark, refused_there};
use algorithm_reader::whole_algorithm::{Frames, read_whole};
use algorithm_reader::words::is_next_mark;
use expr_nodes::cursor::Halt;
use expr_nodes::view::Mark;
use pcal_tree::algorithm::{Algorithm, Main};
use std::alloc::Global;
use tla_pool::Pool;
use tla_token::{Rule, Tokens};

/// The main part of an algorithm of one process, at its `{`, and a `;` if it is next.
///
/// # Errors
///
/// As of `read_body`.
pub fn read_main_block(
    alloc: Global,
    tokens: &Tokens,
    pool: &mut Pool,
    at: usize,
) -> Result<(Main, usize), Halt>
    requires there { at ≤ length tokens.now.items.items }
    requires numbers { NumbersFit tokens.now }
    requires block { is_mark tk.open_brace (first (ahead tokens.now at)).kind ≡ true }
    ensures read { (n : ℕ) → Enough tokens.now at n → ReadsPart main_at past_main main_tree tokens.now pool.new result (read_main (parts_in tokens.now) n (ahead tokens.now at)) }
    ensures kept { Keeps pool.old pool.new }
    ensures inside { IfOk result (λ x. x.1 ≤ length tokens.now.items.items) }
    ensures further { IfOk result (λ x. at < x.1) }
{
    let (list, end) = read_body(alloc, tokens, pool, at)?;
    Ok((Main::Alone(list), end))
}

/// The main part of an algorithm: a block, or its processes.
///
/// # Errors
///
/// As of `read_body`.
pub fn read_main_part(
    alloc: Global,
    tokens: &Tokens,
    pool: &mut Pool,
    at: usize,
) -> Result<(Main, usize), Halt>
    requires there { at ≤ length tokens.now.items.items }
    requires numbers { NumbersFit tokens.now }
    ensures read { (n : ℕ) → Enough tokens.now at n → ReadsPart main_at past_main main_tree tokens.now pool.new result (read_main (parts_in tokens.now) n (ahead tokens.now at)) }
    ensures kept { Keeps pool.old pool.new }
    ensures inside { IfOk result (λ x. x.1 ≤ length tokens.now.items.items) }
    ensures further { IfOk result (λ x. at ≤ x.1) }
{
    if is_next_mark(tokens, at, Mark::OpenBrace) {
        read_main_block(alloc, tokens, pool, at)
    } else {
        read_main_processes::<CSyntax>(alloc, tokens, pool, at)
    }
}

impl Frames for CSyntax {
    ghost frames = { frames };

    fn opening(tokens: &Tokens, at: usize) -> Result<usize, Halt> {
        let (_, end) = past_mark(tokens, at, Mark::OpenBrace)?;
        Ok(end)
    }

    fn main(
        alloc: Global,
        tokens: &Tokens,
        pool: &mut Pool,
        at: usize,
    ) -> Result<(Main, usize), Halt> {
        read_main_part(alloc, tokens, pool, at)
    }

    fn closing(tokens: &Tokens, at: usize) -> Result<usize, Halt> {
        let (_, end) = past_mark(tokens, at, Mark::CloseBrace)?;
        Ok(end)
    }
}

/// The algorithm that all these tokens spell.
///
/// # Errors
///
/// As of `read_body`; and where a token is behind it.
pub fn read_algorithm(
    alloc: Global,
    tokens: &Tokens,
    pool: &mut Pool,
) -> Result<(Algorithm, usize), Halt>
    requires { NumbersFit tokens.now }
    ensures read { ReadsPart algorithm_at past_algorithm algorithm_of tokens.now pool.new result (read_limited_algorithm (ahead tokens.now 0)) }
    ensures kept { Keeps pool.old pool.new }
{
    let (algorithm, end) = read_whole::<CSyntax>(alloc, tokens, pool, 0)?;
    if end < tokens.items.len() {
        return Err(refused_there(tokens, end, Rule::Syntax));
    }
    Ok((algorithm, end))
}
