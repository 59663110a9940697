//! Reading lists of statements, a step for each word, bracket or part.

ghost use Rattle.std.specs.Prelude.{◌≡◌, List, ◌<◌, ◌≤◌, IfOk, length};
ghost use Rattle.tla_tree.specs.Tree.{Tree};
ghost use Rattle.tla_tree.specs.Pool.{Keeps};
ghost use Rattle.tla_expr.specs.Numbers.{NumbersFit};
ghost use Rattle.c_reading.specs.ReadStatements.{Stack, before_or as before_or_there};
ghost use Rattle.c_syntax.specs.StatesRead.{StackStands, StepRead, statement_step};
ghost use Rattle.c_syntax.specs.Closes.{or_by};

use crate::open::{Frame, Open, State};
use crate::opening::{
    open_block, open_either, open_if, open_while, open_with, read_alone, read_label,
};
use algorithm_reader::token_step::{is_next_word, refused_there};
use algorithm_reader::words::{is_next_label, is_next_mark};
use expr_nodes::cursor::Halt;
use expr_nodes::view::Mark;
use std::alloc::Global;
use tla_pool::Pool;
use tla_token::{PluscalWord, Rule, Tokens};

// Whether an `or` must stand right after the statement that is its next part, if it tells.
fn or_after(frame: &Frame) -> Option<bool>
    ensures { result ≡ or_by frame.now }
{
    match frame {
        Frame::Block | Frame::Then(_, _) => Some(false),
        Frame::Either(_, branches) => Some(branches.is_empty()),
        _ => None,
    }
}

/// Whether an `or` must stand right after a statement that comes.
pub fn before_or(stack: &[Open]) -> bool
    ensures { (ts : List Tree) (st : Stack) → StackStands ts stack.now st → before_or_there st ≡ result }
{
    let mut rest = stack;
    while let Some((open, under)) = rest.split_last() {
        if let Some(told) = or_after(&open.frame) {
            return told;
        }
        rest = under;
    }
    false
}

/// Past what comes where a statement may: a label, a statement, or what opens one.
///
/// # Errors
///
/// Where a token is next that can't be there, or too many forms are open; or for want of memory.
pub fn read_statement(
    alloc: Global,
    tokens: &Tokens,
    pool: &mut Pool,
    state: State,
    at: usize,
) -> Result<(State, usize), Halt>
    requires there { at ≤ length tokens.now.items.items }
    requires numbers { NumbersFit tokens.now }
    ensures read { StepRead tokens.now pool.old pool.new state at result statement_step }
    ensures kept { Keeps pool.old pool.new }
    ensures inside { IfOk result (λ x. x.1 ≤ length tokens.now.items.items) }
    ensures further { IfOk result (λ x. at < x.1) }
{
    if is_next_word(tokens, at, PluscalWord::If) {
        open_if(alloc, tokens, pool, state, at)
    } else if is_next_word(tokens, at, PluscalWord::Either) {
        if before_or(&state.stack) {
            return Err(refused_there(tokens, at, Rule::Syntax));
        }
        open_either(alloc, tokens, state, at)
    } else if is_next_word(tokens, at, PluscalWord::With) {
        open_with(alloc, tokens, pool, state, at)
    } else if is_next_word(tokens, at, PluscalWord::While) {
        open_while(alloc, tokens, pool, state, at)
    } else if is_next_mark(tokens, at, Mark::OpenBrace) {
        open_block(tokens, state, at)
    } else if is_next_label(tokens, at) {
        read_label(alloc, tokens, state, at)
    } else {
        read_alone(alloc, tokens, pool, state, at)
    }
}
