//! Steps where a statement comes: labels, statements with none in them, and those that open.

ghost use Rattle.std.specs.Prelude.{◌≡◌, List, ◌<◌, ◌≤◌, IfOk, codes, length, false};
ghost use Rattle.tla_tree.specs.Tree.{Tree};
ghost use Rattle.tla_tree.specs.Pool.{Keeps};
ghost use Rattle.tla_expr.specs.Numbers.{NumbersFit};
ghost use Rattle.c_reading.specs.ReadStatements.{Stack, before_or};
ghost use Rattle.c_syntax.specs.StatesRead.{StepRead, StackStands, opens_by, block_step, label_step, simple_step};

use crate::open::{Begun, End, Frame, Open, Point, State, extended, opened, opened_block};
use algorithm_reader::binds::read_binds;
use algorithm_reader::colon::read_colon;
use algorithm_reader::expression::read_expression;
use algorithm_reader::simple::read_simple;
use algorithm_reader::token_step::{behind, next_token, past_mark, past_name};
use algorithm_reader::words::{one_deeper, span_between};
use expr_nodes::cursor::Halt;
use expr_nodes::view::Mark;
use pcal_tree::algorithm::Stmt;
use std::alloc::Global;
use tla_pool::Pool;
use tla_token::Tokens;

/// Past a label.
///
/// # Errors
///
/// Where none is next, or for want of memory.
pub fn read_label(
    alloc: Global,
    tokens: &Tokens,
    state: State,
    at: usize,
) -> Result<(State, usize), Halt>
    requires { at ≤ length tokens.now.items.items }
    ensures read { (ts : List Tree) → StepRead tokens.now ts ts state at result label_step }
    ensures inside { IfOk result (λ x. x.1 ≤ length tokens.now.items.items) }
    ensures further { IfOk result (λ x. at < x.1) }
{
    let (name, end) = past_name(alloc, tokens, at)?;
    let (mark, end) = read_colon(tokens, end)?;
    let state = extended(state, Stmt::Label(name, mark), Point::Begins)?;
    Ok((state, end))
}

/// Into the statement of an `if`.
///
/// # Errors
///
/// Where a token is next that can't be there, or too many forms are open; or for want of memory.
pub fn open_if(
    alloc: Global,
    tokens: &Tokens,
    pool: &mut Pool,
    state: State,
    at: usize,
) -> Result<(State, usize), Halt>
    requires there { at ≤ length tokens.now.items.items }
    requires numbers { NumbersFit tokens.now }
    ensures read { StepRead tokens.now pool.old pool.new state at result (opens_by (codes "if")) }
    ensures kept { Keeps pool.old pool.new }
    ensures inside { IfOk result (λ x. x.1 ≤ length tokens.now.items.items) }
    ensures further { IfOk result (λ x. at < x.1) }
{
    let first = next_token(tokens, at).place;
    let depth = one_deeper(tokens, at, state.depth)?;
    let (_, end) = past_mark(tokens, behind(tokens, at), Mark::OpenBracket)?;
    let (test, end) = read_expression(alloc, tokens, pool, end)?;
    let (_, end) = past_mark(tokens, end, Mark::CloseBracket)?;
    let begun = Begun {
        list: state.list,
        first,
    };
    let top = Open {
        frame: Frame::Then(begun, test),
        depth: state.depth,
    };
    Ok((opened(alloc, state.stack, top, depth)?, end))
}

/// Into the statement of a `while`.
///
/// # Errors
///
/// Where a token is next that can't be there, or too many forms are open; or for want of memory.
pub fn open_while(
    alloc: Global,
    tokens: &Tokens,
    pool: &mut Pool,
    state: State,
    at: usize,
) -> Result<(State, usize), Halt>
    requires there { at ≤ length tokens.now.items.items }
    requires numbers { NumbersFit tokens.now }
    ensures read { StepRead tokens.now pool.old pool.new state at result (opens_by (codes "while")) }
    ensures kept { Keeps pool.old pool.new }
    ensures inside { IfOk result (λ x. x.1 ≤ length tokens.now.items.items) }
    ensures further { IfOk result (λ x. at < x.1) }
{
    let first = next_token(tokens, at).place;
    let depth = one_deeper(tokens, at, state.depth)?;
    let (_, end) = past_mark(tokens, behind(tokens, at), Mark::OpenBracket)?;
    let (test, end) = read_expression(alloc, tokens, pool, end)?;
    let (_, end) = past_mark(tokens, end, Mark::CloseBracket)?;
    let begun = Begun {
        list: state.list,
        first,
    };
    let top = Open {
        frame: Frame::While(begun, test),
        depth: state.depth,
    };
    Ok((opened(alloc, state.stack, top, depth)?, end))
}

/// Into the first branch of an `either`, where no `or` must come right after it.
///
/// # Errors
///
/// Where too many forms are open, or for want of memory.
pub fn open_either(
    alloc: Global,
    tokens: &Tokens,
    state: State,
    at: usize,
) -> Result<(State, usize), Halt>
    requires there { at < length tokens.now.items.items }
    requires apart { (ts : List Tree) (st : Stack) → StackStands ts state.stack.items st → before_or st ≡ false }
    ensures read { (ts : List Tree) → StepRead tokens.now ts ts state at result (opens_by (codes "either")) }
    ensures inside { IfOk result (λ x. x.1 ≤ length tokens.now.items.items) }
    ensures further { IfOk result (λ x. at < x.1) }
{
    let first = next_token(tokens, at).place;
    let depth = one_deeper(tokens, at, state.depth)?;
    let begun = Begun {
        list: state.list,
        first,
    };
    let top = Open {
        frame: Frame::Either(begun, Vec::new(alloc)),
        depth: state.depth,
    };
    Ok((opened(alloc, state.stack, top, depth)?, at + 1))
}

/// Into the statement of a `with`, in which a form is open for each name.
///
/// # Errors
///
/// Where a token is next that can't be there, or too many forms are open; or for want of memory.
pub fn open_with(
    alloc: Global,
    tokens: &Tokens,
    pool: &mut Pool,
    state: State,
    at: usize,
) -> Result<(State, usize), Halt>
    requires there { at < length tokens.now.items.items }
    requires numbers { NumbersFit tokens.now }
    ensures read { StepRead tokens.now pool.old pool.new state at result (opens_by (codes "with")) }
    ensures kept { Keeps pool.old pool.new }
    ensures inside { IfOk result (λ x. x.1 ≤ length tokens.now.items.items) }
    ensures further { IfOk result (λ x. at < x.1) }
{
    let first = next_token(tokens, at).place;
    let (_, end) = past_mark(tokens, at + 1, Mark::OpenBracket)?;
    let ((binds, depth), end) = read_binds(alloc, tokens, pool, end, state.depth)?;
    let (_, end) = past_mark(tokens, end, Mark::CloseBracket)?;
    let begun = Begun {
        list: state.list,
        first,
    };
    let top = Open {
        frame: Frame::With(begun, binds),
        depth: state.depth,
    };
    Ok((opened(alloc, state.stack, top, depth)?, end))
}

/// Into a `{..}`.
///
/// # Errors
///
/// Where too many forms are open, or for want of memory.
pub fn open_block(tokens: &Tokens, state: State, at: usize) -> Result<(State, usize), Halt>
    requires { at < length tokens.now.items.items }
    ensures read { (ts : List Tree) → StepRead tokens.now ts ts state at result block_step }
    ensures inside { IfOk result (λ x. x.1 ≤ length tokens.now.items.items) }
    ensures further { IfOk result (λ x. at < x.1) }
{
    let depth = one_deeper(tokens, at, state.depth)?;
    Ok((opened_block(state, depth)?, at + 1))
}

/// Past a statement with no statements in it.
///
/// # Errors
///
/// Where a token is next that can't be there, or too many forms are open; or for want of memory.
pub fn read_alone(
    alloc: Global,
    tokens: &Tokens,
    pool: &mut Pool,
    state: State,
    at: usize,
) -> Result<(State, usize), Halt>
    requires there { at ≤ length tokens.now.items.items }
    requires numbers { NumbersFit tokens.now }
    ensures read { StepRead tokens.now pool.old pool.new state at result simple_step }
    ensures kept { Keeps pool.old pool.new }
    ensures inside { IfOk result (λ x. x.1 ≤ length tokens.now.items.items) }
    ensures further { IfOk result (λ x. at < x.1) }
{
    let (simple, end) = read_simple(alloc, tokens, pool, at)?;
    let span = span_between(tokens, at, end);
    let point = Point::Ended(End {
        last: span.last,
        block: false,
        divided: false,
    });
    let state = extended(state, Stmt::Simple(span, simple), point)?;
    Ok((state, end))
}
