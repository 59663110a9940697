//! Reading assignments.

ghost use Rattle.std.specs.Prelude.{ℕ, ◌<◌, ◌≤◌, IfOk, length};
ghost use Rattle.tla_tree.specs.Pool.{Keeps};
ghost use Rattle.expr_nodes.specs.Ahead.{ahead};
ghost use Rattle.tla_expr.specs.Numbers.{NumbersFit};
ghost use Rattle.pcal_tree.specs.InMemory.{past_assignment};
ghost use Rattle.pcal_tree.specs.GrammarParts.{assignments_of};
ghost use Rattle.algorithm_reader.specs.PartsRead.{ReadsPart, parts_in, StepLess};
ghost use Rattle.algorithm_reader.specs.SimpleRead.{assignment_reader, assignments_reader, assignment_at, first_assigned, all_assigned_at, past_all_assigned};

use crate::expression::read_expression;
use crate::left::read_left;
use crate::token_step::{after_mark, past_mark};
use expr_nodes::cursor::Halt;
use expr_nodes::view::Mark;
use pcal_tree::algorithm::Assignment;
use std::alloc::Global;
use tla_pool::Pool;
use tla_token::Tokens;

/// `l := e`.
///
/// # Errors
///
/// Where a token is next that can't be there, or at which too many forms are open; or for want of memory.
pub fn read_assignment(
    alloc: Global,
    tokens: &Tokens,
    pool: &mut Pool,
    at: usize,
) -> Result<(Assignment, usize), Halt>
    requires there { at ≤ length tokens.now.items.items }
    requires numbers { NumbersFit tokens.now }
    ensures read { (n : ℕ) → StepLess tokens.now at n → ReadsPart assignment_at past_assignment first_assigned tokens.now pool.new result (assignment_reader (parts_in tokens.now) n (ahead tokens.now at)) }
    ensures kept { Keeps pool.old pool.new }
    ensures inside { IfOk result (λ x. x.1 ≤ length tokens.now.items.items) }
    ensures further { IfOk result (λ x. at < x.1) }
{
    let (left, next) = read_left(alloc, tokens, pool, at)?;
    let (_, next) = past_mark(tokens, next, Mark::Assigns)?;
    let (right, end) = read_expression(alloc, tokens, pool, next)?;
    Ok((Assignment { left, right }, end))
}

/// `l := e || m := f`.
///
/// # Errors
///
/// As of `read_assignment`.
pub fn read_assignments(
    alloc: Global,
    tokens: &Tokens,
    pool: &mut Pool,
    at: usize,
) -> Result<(Vec<Assignment>, usize), Halt>
    requires there { at ≤ length tokens.now.items.items }
    requires numbers { NumbersFit tokens.now }
    ensures read { (n : ℕ) → StepLess tokens.now at n → ReadsPart all_assigned_at past_all_assigned assignments_of tokens.now pool.new result (assignments_reader (parts_in tokens.now) n (ahead tokens.now at)) }
    ensures kept { Keeps pool.old pool.new }
    ensures inside { IfOk result (λ x. x.1 ≤ length tokens.now.items.items) }
    ensures further { IfOk result (λ x. at < x.1) }
{
    let mut list = Vec::new(alloc);
    let mut from = at;
    loop {
        let (assignment, end) = read_assignment(alloc, tokens, pool, from)?;
        list.push(assignment)?;
        match after_mark(tokens, end, Mark::Beside) {
            Some(behind) => from = behind,
            None => return Ok((list, end)),
        }
    }
}
