//! Reading processes, with the fairness that is asked of them.

ghost use Rattle.std.specs.Prelude.{◌≡◌, ℕ, ◌<◌, ◌≤◌, IfOk, IfSome, length, map};
ghost use Rattle.tla_token.specs.declared.place.Place as placed;
ghost use Rattle.tla_tree.specs.Pool.{Keeps};
ghost use Rattle.expr_nodes.specs.Ahead.{ahead};
ghost use Rattle.expr_nodes.specs.ReadIn.{Reads};
ghost use Rattle.tla_expr.specs.Numbers.{NumbersFit};
ghost use Rattle.pcal_tree.specs.InMemory.{process_at, past_process, main_at, past_main};
ghost use Rattle.pcal_tree.specs.Grammar.{Fair, fairness_of, process_tree, main_tree};
ghost use Rattle.syntax_reading.specs.TokenReaders.{by_next};
ghost use Rattle.syntax_reading.specs.ReadAround.{fair_by};
ghost use Rattle.syntax_reading.specs.ReadRoutines as reader;
ghost use Rattle.algorithm_reader.specs.PartsRead.{ReadsPart, ReadsWords, parts_in, itself, Enough};
ghost use Rattle.algorithm_reader.specs.RoutinesRead.{read_beginning, beginning_fairness, processes_at, past_processes, read_main_processes as main_reader};

use crate::head::after_word;
use crate::token_step::{behind, next_token, past_key, refused_there};
use crate::variables::read_section;
use crate::ways::Ways;
use expr_nodes::cursor::{Halt, is_sign};
use pcal_tree::algorithm::{Main, Process};
use pcal_tree::mark::Fairness;
use std::alloc::Global;
use tla_pool::Pool;
use tla_token::{PluscalWord, Rule, Tokens};
use tla_tree::Op;

// Behind `fair`: past the `+` that makes it strong, if it is next.
fn past_fair(tokens: &Tokens, at: usize) -> (Fairness, usize)
    requires { at ≤ length tokens.now.items.items }
    ensures read { (p : placed.Place) → Reads (λ a. result.0 ≡ fairness_of a) (ahead tokens.now result.1) (by_next (fair_by p) (ahead tokens.now at)) }
    ensures inside { result.1 ≤ length tokens.now.items.items }
    ensures no_less { at ≤ result.1 }
{
    if is_sign(Op::Plus, next_token(tokens, at).view) {
        (Fairness::Strong, behind(tokens, at))
    } else {
        (Fairness::Weak, at)
    }
}

/// Past `process`, `fair process` or `fair+ process`: the fairness that is asked. Where no process begins, none.
///
/// # Errors
///
/// Where no `process` is behind `fair`.
pub fn past_process_word(tokens: &Tokens, at: usize) -> Result<(Option<Fairness>, usize), Halt>
    requires { at ≤ length tokens.now.items.items }
    ensures read { ReadsWords itself beginning_fairness tokens.now result (read_beginning (ahead tokens.now at)) }
    ensures inside { IfOk result (λ x. x.1 ≤ length tokens.now.items.items) }
    ensures no_less { IfOk result (λ x. at ≤ x.1) }
    ensures further { IfOk result (λ x. IfSome x.0 (λ a. at < x.1)) }
{
    if let Some(next) = after_word(tokens, at, PluscalWord::Process) {
        Ok((Some(Fairness::Unfair), next))
    } else if let Some(next) = after_word(tokens, at, PluscalWord::Fair) {
        let (fairness, next) = past_fair(tokens, next);
        let (_, end) = past_key(tokens, next, PluscalWord::Process)?;
        Ok((Some(fairness), end))
    } else {
        Ok((None, at))
    }
}

/// `P = e` or `P \in S` with its variables and its body, behind the word `process`.
///
/// # Errors
///
/// Where a token is next that can't be there, or at which too many forms are open; or for want of memory.
pub fn read_process<W: Ways>(
    alloc: Global,
    tokens: &Tokens,
    pool: &mut Pool,
    at: usize,
    fairness: Fairness,
) -> Result<(Process, usize), Halt>
    requires there { at ≤ length tokens.now.items.items }
    requires numbers { NumbersFit tokens.now }
    ensures read { (n : ℕ) (a : Fair) (p : placed.Place) → fairness ≡ fairness_of a → Enough tokens.now at n → ReadsPart process_at past_process process_tree tokens.now pool.new result (reader.read_process (parts_in tokens.now) (W.readers (parts_in tokens.now)) n a p (ahead tokens.now at)) }
    ensures kept { Keeps pool.old pool.new }
    ensures inside { IfOk result (λ x. x.1 ≤ length tokens.now.items.items) }
    ensures further { IfOk result (λ x. at < x.1) }
{
    let ((name, several, identity), next) = W::identity(alloc, tokens, pool, at)?;
    let (variables, behind) = read_section(alloc, tokens, pool, next, true)?;
    let (body, end) = W::body(alloc, tokens, pool, behind, PluscalWord::Process)?;
    let process = Process {
        name,
        fairness,
        several,
        identity,
        variables,
        body,
    };
    Ok((process, end))
}

/// The processes that come, to the first token that begins none.
///
/// # Errors
///
/// As of `read_process`.
pub fn read_processes<W: Ways>(
    alloc: Global,
    tokens: &Tokens,
    pool: &mut Pool,
    at: usize,
) -> Result<(Vec<Process>, usize), Halt>
    requires there { at ≤ length tokens.now.items.items }
    requires numbers { NumbersFit tokens.now }
    ensures read { (n : ℕ) → Enough tokens.now at n → ReadsPart processes_at past_processes (map process_tree) tokens.now pool.new result (reader.read_processes (parts_in tokens.now) (W.readers (parts_in tokens.now)) n (ahead tokens.now at)) }
    ensures kept { Keeps pool.old pool.new }
    ensures inside { IfOk result (λ x. x.1 ≤ length tokens.now.items.items) }
    ensures further { IfOk result (λ x. at ≤ x.1) }
{
    let mut list = Vec::new(alloc);
    let mut from = at;
    loop {
        let (fairness, next) = past_process_word(tokens, from)?;
        match fairness {
            Some(fairness) => {
                let (one, end) = read_process::<W>(alloc, tokens, pool, next, fairness)?;
                list.push(one)?;
                from = end;
            }
            None => return Ok((list, next)),
        }
    }
}

/// The processes of an algorithm: at least one.
///
/// # Errors
///
/// As of `read_process`.
pub fn read_main_processes<W: Ways>(
    alloc: Global,
    tokens: &Tokens,
    pool: &mut Pool,
    at: usize,
) -> Result<(Main, usize), Halt>
    requires there { at ≤ length tokens.now.items.items }
    requires numbers { NumbersFit tokens.now }
    ensures read { (n : ℕ) → Enough tokens.now at n → ReadsPart main_at past_main main_tree tokens.now pool.new result (main_reader (parts_in tokens.now) (W.readers (parts_in tokens.now)) n (ahead tokens.now at)) }
    ensures kept { Keeps pool.old pool.new }
    ensures inside { IfOk result (λ x. x.1 ≤ length tokens.now.items.items) }
    ensures further { IfOk result (λ x. at ≤ x.1) }
{
    let (list, end) = read_processes::<W>(alloc, tokens, pool, at)?;
    if list.is_empty() {
        return Err(refused_there(tokens, at, Rule::Syntax));
    }
    Ok((Main::Processes(list), end))
}
