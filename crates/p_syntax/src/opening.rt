//! Steps where a statement comes: labels, statements with none in them, and those that open.

ghost use Rattle.std.specs.Prelude.{List, ◌<◌, ◌≤◌, IfOk, codes, length};
ghost use Rattle.tla_tree.specs.Tree.{Tree};
ghost use Rattle.tla_tree.specs.Pool.{Keeps};
ghost use Rattle.tla_expr.specs.Numbers.{NumbersFit};
ghost use Rattle.p_syntax.specs.StepsRead.{StepRead, opens_by, label_step, simple_step};

use crate::open::{Frame, Point, State, extended, opened};
use algorithm_reader::binds::read_binds;
use algorithm_reader::colon::read_colon;
use algorithm_reader::expression::read_expression;
use algorithm_reader::simple::read_simple;
use algorithm_reader::token_step::{behind, next_token, past_key, past_name};
use algorithm_reader::words::{one_deeper, span_between};
use expr_nodes::cursor::Halt;
use pcal_tree::algorithm::Stmt;
use std::alloc::Global;
use tla_pool::Pool;
use tla_token::{PluscalWord, Tokens};

/// Past a label.
///
/// # Errors
///
/// Where none is next, or for want of memory.
pub fn read_label(
    alloc: Global,
    tokens: &Tokens,
    state: State,
    at: usize,
) -> Result<(State, usize), Halt>
    requires { at ≤ length tokens.now.items.items }
    ensures read { (ts : List Tree) → StepRead tokens.now ts ts state at result label_step }
    ensures inside { IfOk result (λ x. x.1 ≤ length tokens.now.items.items) }
    ensures further { IfOk result (λ x. at < x.1) }
{
    let (name, end) = past_name(alloc, tokens, at)?;
    let (mark, end) = read_colon(tokens, end)?;
    let state = extended(state, Stmt::Label(name, mark), Point::Begins)?;
    Ok((state, end))
}

/// Into the first list of an `if`.
///
/// # Errors
///
/// Where a token is next that can't be there, or too many forms are open; or for want of memory.
pub fn open_if(
    alloc: Global,
    tokens: &Tokens,
    pool: &mut Pool,
    state: State,
    at: usize,
) -> Result<(State, usize), Halt>
    requires there { at ≤ length tokens.now.items.items }
    requires numbers { NumbersFit tokens.now }
    ensures read { StepRead tokens.now pool.old pool.new state at result (opens_by (codes "if")) }
    ensures kept { Keeps pool.old pool.new }
    ensures inside { IfOk result (λ x. x.1 ≤ length tokens.now.items.items) }
    ensures further { IfOk result (λ x. at < x.1) }
{
    let place = next_token(tokens, at).place;
    let depth = one_deeper(tokens, at, state.depth)?;
    let (test, end) = read_expression(alloc, tokens, pool, behind(tokens, at))?;
    let (_, end) = past_key(tokens, end, PluscalWord::Then)?;
    let frame = Frame::Then(Vec::new(alloc), place, test);
    Ok((opened(alloc, state, frame, depth)?, end))
}

/// Into the list of a `while`.
///
/// # Errors
///
/// Where a token is next that can't be there, or too many forms are open; or for want of memory.
pub fn open_while(
    alloc: Global,
    tokens: &Tokens,
    pool: &mut Pool,
    state: State,
    at: usize,
) -> Result<(State, usize), Halt>
    requires there { at ≤ length tokens.now.items.items }
    requires numbers { NumbersFit tokens.now }
    ensures read { StepRead tokens.now pool.old pool.new state at result (opens_by (codes "while")) }
    ensures kept { Keeps pool.old pool.new }
    ensures inside { IfOk result (λ x. x.1 ≤ length tokens.now.items.items) }
    ensures further { IfOk result (λ x. at < x.1) }
{
    let place = next_token(tokens, at).place;
    let depth = one_deeper(tokens, at, state.depth)?;
    let (test, end) = read_expression(alloc, tokens, pool, behind(tokens, at))?;
    let (_, end) = past_key(tokens, end, PluscalWord::Do)?;
    let frame = Frame::While(place, test);
    Ok((opened(alloc, state, frame, depth)?, end))
}

/// Into the first list of an `either`.
///
/// # Errors
///
/// Where too many forms are open, or for want of memory.
pub fn open_either(
    alloc: Global,
    tokens: &Tokens,
    state: State,
    at: usize,
) -> Result<(State, usize), Halt>
    requires { at < length tokens.now.items.items }
    ensures read { (ts : List Tree) → StepRead tokens.now ts ts state at result (opens_by (codes "either")) }
    ensures inside { IfOk result (λ x. x.1 ≤ length tokens.now.items.items) }
    ensures further { IfOk result (λ x. at < x.1) }
{
    let place = next_token(tokens, at).place;
    let depth = one_deeper(tokens, at, state.depth)?;
    let frame = Frame::Either(place, Vec::new(alloc));
    Ok((opened(alloc, state, frame, depth)?, at + 1))
}

/// Past a statement with no statements in it.
///
/// # Errors
///
/// Where a token is next that can't be there, or too many forms are open; or for want of memory.
pub fn read_alone(
    alloc: Global,
    tokens: &Tokens,
    pool: &mut Pool,
    state: State,
    at: usize,
) -> Result<(State, usize), Halt>
    requires there { at ≤ length tokens.now.items.items }
    requires numbers { NumbersFit tokens.now }
    ensures read { StepRead tokens.now pool.old pool.new state at result simple_step }
    ensures kept { Keeps pool.old pool.new }
    ensures inside { IfOk result (λ x. x.1 ≤ length tokens.now.items.items) }
    ensures further { IfOk result (λ x. at < x.1) }
{
    let (simple, end) = read_simple(alloc, tokens, pool, at)?;
    let span = span_between(tokens, at, end);
    let state = extended(state, Stmt::Simple(span, simple), Point::Ended)?;
    Ok((state, end))
}

/// Into the list of a `with`, in which a form is open for each name.
///
/// # Errors
///
/// Where a token is next that can't be there, or too many forms are open; or for want of memory.
pub fn open_with(
    alloc: Global,
    tokens: &Tokens,
    pool: &mut Pool,
    state: State,
    at: usize,
) -> Result<(State, usize), Halt>
    requires there { at < length tokens.now.items.items }
    requires numbers { NumbersFit tokens.now }
    ensures read { StepRead tokens.now pool.old pool.new state at result (opens_by (codes "with")) }
    ensures kept { Keeps pool.old pool.new }
    ensures inside { IfOk result (λ x. x.1 ≤ length tokens.now.items.items) }
    ensures further { IfOk result (λ x. at < x.1) }
{
    let place = next_token(tokens, at).place;
    let ((binds, depth), end) = read_binds(alloc, tokens, pool, at + 1, state.depth)?;
    let (_, end) = past_key(tokens, end, PluscalWord::Do)?;
    let frame = Frame::With(place, binds);
    Ok((opened(alloc, state, frame, depth)?, end))
}
