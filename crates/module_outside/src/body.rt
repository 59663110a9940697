//! The body of a definition: an expression that is all the tokens left.

ghost use Rattle.std.specs.Prelude.{◌≡◌, ◌<◌, ◌≤◌, length, true, IfOk, IfSome};
ghost use Rattle.tla_tree.specs.Pool.{Keeps};
ghost use Rattle.expr_nodes.specs.Ahead.{ahead};
ghost use Rattle.tla_expr.specs.Numbers.{NumbersFit};
ghost use Rattle.outside_reading.specs.PlainUnits.{body_in};
ghost use Rattle.outside_reading.specs.SmallNumbers.{all_small, is_small};
ghost use Rattle.expr_nodes.specs.ViewSeen.{view_seen};
ghost use Rattle.module_outside.specs.OutsideAt.{tree_found};

use crate::front::token_at;
use expr_nodes::cursor::Halt;
use expr_nodes::view::View;
use std::alloc::{AllocError, Global};
use tla_expr::read_expression_at;
use tla_pool::Pool;
use tla_token::Tokens;
use tla_token::bytes::number_value;
use tla_tree::NodeId;

// Numbers are less than this.
const PAST_NUMBERS: u128 = 1 << 127;

/// How many forms may be open at a token.
const DEEPEST: u32 = 200;

// Whether what a token is is no number that is too large.
fn is_small_view(tokens: &Tokens, view: View) -> bool
    ensures { result ≡ is_small (view_seen tokens.now.bytes.items view) }
{
    match view {
        View::Number(n) => n < PAST_NUMBERS,
        View::BigNumber(span) => match number_value(tokens.word(span)) {
            Some(n) => n < PAST_NUMBERS,
            None => false,
        },
        _ => true,
    }
}

/// Whether no number among tokens is too large.
#[tactic(auto, using(crate::proofs::BodyLaws::large_here, crate::proofs::BodyLaws::small_here, crate::proofs::BodyLaws::small_end))]
pub fn are_small(tokens: &Tokens) -> bool
    ensures { result ≡ all_small (ahead tokens.now 0) }
{
    for at in 0..tokens.items.len() {
        if !is_small_view(tokens, token_at(tokens, at).view) {
            return false;
        }
    }
    true
}

/// The number of the expression that the tokens from one on are, if they are one and nothing else.
///
/// # Errors
///
/// Only for want of memory.
#[tactic(auto, using(crate::proofs::BodyLaws::numbers_fit, crate::proofs::BodyLaws::body_whole, crate::proofs::BodyLaws::body_longer, crate::proofs::BodyLaws::body_refused))]
pub fn body_at(
    alloc: Global,
    tokens: &Tokens,
    pool: &mut Pool,
    at: usize,
) -> Result<Option<NodeId>, AllocError>
    requires there { at ≤ length tokens.now.items.items }
    requires small { all_small (ahead tokens.now 0) ≡ true }
    ensures value { IfOk result (λ r. tree_found pool.new r ≡ body_in (ahead tokens.now at)) }
    ensures within { IfOk result (λ r. IfSome r (λ e. e < length pool.new)) }
    ensures kept { Keeps pool.old pool.new }
{
    match read_expression_at(alloc, tokens, pool, at, DEEPEST) {
        Ok((e, end)) => {
            if end == tokens.items.len() {
                Ok(Some(e))
            } else {
                Ok(None)
            }
        }
        Err(Halt::Memory) => Err(AllocError),
        Err(Halt::Refused(_, _)) => Ok(None),
    }
}
