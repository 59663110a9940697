//! Reading the arguments of calls.

ghost use Rattle.std.specs.Prelude.{◌≤◌, IfOk, length};
ghost use Rattle.tla_tree.specs.Pool.{Keeps};
ghost use Rattle.expr_nodes.specs.Ahead.{ahead};
ghost use Rattle.tla_expr.specs.Numbers.{NumbersFit};
ghost use Rattle.pcal_tree.specs.GrammarParts.{arguments_of};
ghost use Rattle.syntax_reading.specs.ReadSimple.{read_arguments as arguments_reader};
ghost use Rattle.algorithm_reader.specs.PartsRead.{ReadsPart, parts_in, row_at, past_row};

use crate::expression::read_row;
use crate::token_step::{after_mark, past_mark};
use expr_nodes::cursor::Halt;
use expr_nodes::view::Mark;
use std::alloc::Global;
use tla_pool::Pool;
use tla_token::Tokens;
use tla_tree::NodeId;

/// `(a, b)` of a call.
///
/// # Errors
///
/// Where a token is next that can't be there, or at which too many forms are open; or for want of memory.
pub fn read_arguments(
    alloc: Global,
    tokens: &Tokens,
    pool: &mut Pool,
    at: usize,
) -> Result<(Vec<NodeId>, usize), Halt>
    requires there { at ≤ length tokens.now.items.items }
    requires numbers { NumbersFit tokens.now }
    ensures read { ReadsPart row_at past_row arguments_of tokens.now pool.new result (arguments_reader (parts_in tokens.now) (ahead tokens.now at)) }
    ensures kept { Keeps pool.old pool.new }
    ensures inside { IfOk result (λ x. x.1 ≤ length tokens.now.items.items) }
    ensures further { IfOk result (λ x. at ≤ x.1) }
{
    let (_, at) = past_mark(tokens, at, Mark::OpenBracket)?;
    match after_mark(tokens, at, Mark::CloseBracket) {
        Some(next) => Ok((Vec::new(alloc), next)),
        None => {
            let (list, at) = read_row(alloc, tokens, pool, at)?;
            let (_, at) = past_mark(tokens, at, Mark::CloseBracket)?;
            Ok((list, at))
        }
    }
}
