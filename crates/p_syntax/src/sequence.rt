//! Reading whole lists of statements, step by step up to the `end` behind them.

ghost use Rattle.std.specs.Prelude.{ℕ, ◌<◌, ◌≤◌, IfOk, length};
ghost use Rattle.tla_tree.specs.Pool.{Keeps};
ghost use Rattle.expr_nodes.specs.Ahead.{ahead};
ghost use Rattle.tla_expr.specs.Numbers.{NumbersFit};
ghost use Rattle.pcal_tree.specs.GrammarP as p;
ghost use Rattle.algorithm_reader.specs.PartsRead.{ReadsPart, parts_in, Enough};
ghost use Rattle.p_reading.specs.ReadStatements as reader;
ghost use Rattle.p_syntax.specs.StatesRead.{StateStands, list_at, past_list};

use crate::open::{State, Turn, start};
use crate::statements::{read_statement, read_step};
use expr_nodes::cursor::Halt;
use pcal_tree::algorithm::Stmt;
use std::alloc::Global;
use tla_pool::Pool;
use tla_token::Tokens;

/// From this state of a list up to the end of the list: the whole of it.
///
/// # Errors
///
/// Where a token is next that can't be there, or at which too many forms are open; or for want of memory.
pub fn read_on_to_end(
    alloc: Global,
    tokens: &Tokens,
    pool: &mut Pool,
    state: State,
    at: usize,
) -> Result<(Vec<Stmt>, usize), Halt>
    requires there { at ≤ length tokens.now.items.items }
    requires numbers { NumbersFit tokens.now }
    ensures read { (n : ℕ) (s : reader.State) → Enough tokens.now at n → StateStands pool.old state s → ReadsPart list_at past_list p.statements tokens.now pool.new result (reader.run (parts_in tokens.now) n s (ahead tokens.now at)) }
    ensures kept { Keeps pool.old pool.new }
    ensures inside { IfOk result (λ x. x.1 ≤ length tokens.now.items.items) }
    ensures further { IfOk result (λ x. at ≤ x.1) }
{
    let mut state = state;
    let mut from = at;
    loop {
        let (turn, end) = read_step(alloc, tokens, pool, state, from)?;
        match turn {
            Turn::Done(list) => return Ok((list, end)),
            Turn::On(next) => {
                state = next;
                from = end;
            }
        }
    }
}

/// A list of statements, up to the `end` behind it.
///
/// # Errors
///
/// Where a token is next that can't be there, or at which too many forms are open; or for want of memory.
pub fn read_sequence(
    alloc: Global,
    tokens: &Tokens,
    pool: &mut Pool,
    at: usize,
) -> Result<(Vec<Stmt>, usize), Halt>
    requires there { at ≤ length tokens.now.items.items }
    requires numbers { NumbersFit tokens.now }
    ensures read { (n : ℕ) → Enough tokens.now at n → ReadsPart list_at past_list p.statements tokens.now pool.new result (reader.read_sequence (parts_in tokens.now) n (ahead tokens.now at)) }
    ensures kept { Keeps pool.old pool.new }
    ensures inside { IfOk result (λ x. x.1 ≤ length tokens.now.items.items) }
    ensures further { IfOk result (λ x. at < x.1) }
{
    let (first, next) = read_statement(alloc, tokens, pool, start(alloc), at)?;
    read_on_to_end(alloc, tokens, pool, first, next)
}
