//! Reading a whole list of statements, up to the `}` after it.

ghost use Rattle.std.specs.Prelude.{ℕ, ◌<◌, ◌≤◌, IfOk, length};
ghost use Rattle.tla_tree.specs.Pool.{Keeps};
ghost use Rattle.expr_nodes.specs.Ahead.{ahead};
ghost use Rattle.tla_expr.specs.Numbers.{NumbersFit};
ghost use Rattle.pcal_tree.specs.GrammarC.{statements};
ghost use Rattle.algorithm_reader.specs.PartsRead.{ReadsPart, parts_in, StepLess, Enough};
ghost use Rattle.c_reading.specs.ReadStatements as reader;
ghost use Rattle.c_syntax.specs.StatesRead.{StateStands, list_at, past_list};
ghost use Rattle.c_syntax.specs.AfterRead.{TurnsTo, PassesOn};

use crate::after::{read_after, read_begun};
use crate::open::{Point, State, Turn, start};
use crate::statements::read_statement;
use expr_nodes::cursor::Halt;
use pcal_tree::algorithm::Stmt;
use std::alloc::Global;
use tla_pool::Pool;
use tla_token::Tokens;

/// The next step, whatever the state is.
///
/// # Errors
///
/// Where a token is next that can't be there, or too many forms are open; or for want of memory.
pub fn read_step(
    alloc: Global,
    tokens: &Tokens,
    pool: &mut Pool,
    state: State,
    at: usize,
) -> Result<(Turn, usize), Halt>
    requires there { at ≤ length tokens.now.items.items }
    requires numbers { NumbersFit tokens.now }
    ensures read { (n : ℕ) (s : reader.State) → StepLess tokens.now at n → StateStands pool.old state s → TurnsTo tokens.now pool.new result (reader.step (parts_in tokens.now) n s (ahead tokens.now at)) }
    ensures kept { Keeps pool.old pool.new }
    ensures inside { IfOk result (λ x. x.1 ≤ length tokens.now.items.items) }
    ensures further { IfOk result (PassesOn at) }
{
    match state.point {
        Point::Begins => read_begun(alloc, tokens, pool, state, at),
        Point::Ended(end) => read_after(alloc, tokens, pool, state, end, at),
    }
}

/// From this state of a list up to the `}` after the list: the whole of it.
///
/// # Errors
///
/// As of `read_step`.
pub fn read_on_to_end(
    alloc: Global,
    tokens: &Tokens,
    pool: &mut Pool,
    state: State,
    at: usize,
) -> Result<(Vec<Stmt>, usize), Halt>
    requires there { at ≤ length tokens.now.items.items }
    requires numbers { NumbersFit tokens.now }
    ensures read { (n : ℕ) (s : reader.State) → Enough tokens.now at n → StateStands pool.old state s → ReadsPart list_at past_list statements tokens.now pool.new result (reader.run (parts_in tokens.now) n s (ahead tokens.now at)) }
    ensures kept { Keeps pool.old pool.new }
    ensures inside { IfOk result (λ x. x.1 ≤ length tokens.now.items.items) }
    ensures further { IfOk result (λ x. at ≤ x.1) }
{
    let mut state = state;
    let mut from = at;
    loop {
        let (turn, end) = read_step(alloc, tokens, pool, state, from)?;
        match turn {
            Turn::Done(list) => return Ok((list, end)),
            Turn::On(next) => {
                state = next;
                from = end;
            }
        }
    }
}

/// A list of statements, up to the `}` after it.
///
/// # Errors
///
/// As of `read_step`.
pub fn read_sequence(
    alloc: Global,
    tokens: &Tokens,
    pool: &mut Pool,
    at: usize,
) -> Result<(Vec<Stmt>, usize), Halt>
    requires there { at ≤ length tokens.now.items.items }
    requires numbers { NumbersFit tokens.now }
    ensures read { (n : ℕ) → Enough tokens.now at n → ReadsPart list_at past_list statements tokens.now pool.new result (reader.read_sequence (parts_in tokens.now) n (ahead tokens.now at)) }
    ensures kept { Keeps pool.old pool.new }
    ensures inside { IfOk result (λ x. x.1 ≤ length tokens.now.items.items) }
    ensures further { IfOk result (λ x. at < x.1) }
{
    let (first, next) = read_statement(alloc, tokens, pool, start(alloc), at)?;
    read_on_to_end(alloc, tokens, pool, first, next)
}
