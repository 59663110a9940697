//! Where units end, and the tokens of one.

ghost use Rattle.std.specs.Prelude.{◌≡◌, ◌∷◌, ◌<◌, ◌≤◌, ◌+◌, ◌-◌, length, take, true, IfOk};
ghost use Rattle.module_tree.specs.FileUnits.{begins_unit, cut};
ghost use Rattle.expr_nodes.specs.Ahead.{ahead};
ghost use Rattle.module_outside.specs.Fronts.{front_begins};

use crate::front::token_at;
use expr_nodes::view::View;
use module_split::unit_start::begins_at;
use std::alloc::{AllocError, Global};
use tla_token::Tokens;

// Whether a unit begins with this token.
fn is_begun_at(tokens: &Tokens, at: usize) -> bool
    requires { at < length tokens.now.items.items }
    ensures { result ≡ front_begins (ahead tokens.now at) }
{
    let token = token_at(tokens, at);
    match token.view {
        View::Word(_) | View::Reserved(_) => token.place.col == 1,
        View::Other(span) => begins_at(token.place.col, tokens.word(span)),
        _ => false,
    }
}

/// The number of the first token from one on with which a unit begins, or how many there are.
#[tactic(auto, using(crate::proofs::UnitLaws::begun_here, crate::proofs::UnitLaws::none_begun, crate::proofs::UnitLaws::begun_further))]
pub fn next_begun(tokens: &Tokens, from: usize) -> usize
    requires { from ≤ length tokens.now.items.items }
    ensures value { result ≡ from + length (cut (ahead tokens.now from)).front }
    ensures within { result ≤ length tokens.now.items.items }
    ensures further { from ≤ result }
    ensures begins { result < length tokens.now.items.items → front_begins (ahead tokens.now result) ≡ true }
{
    let mut at = from;
    while at < tokens.items.len() {
        if is_begun_at(tokens, at) {
            return at;
        }
        at += 1;
    }
    at
}

/// The tokens of a unit, which begins with one of them and ends before another, over these bytes.
///
/// # Errors
///
/// Only for want of memory.
#[tactic(auto, using(crate::proofs::UnitLaws::part_kept, crate::proofs::UnitLaws::part_ahead))]
pub fn unit_tokens(
    alloc: Global,
    bytes: Vec<u8>,
    tokens: &Tokens,
    from: usize,
    to: usize,
) -> Result<Tokens, AllocError>
    requires order { from ≤ to }
    requires within { to ≤ length tokens.now.items.items }
    requires bytes { bytes.items ≡ tokens.now.bytes.items }
    ensures tokens { IfOk result (λ u. ahead u 0 ≡ take (to - from) (ahead tokens.now from)) }
    ensures bytes { IfOk result (λ u. u.bytes.items ≡ tokens.now.bytes.items) }
{
    Ok(Tokens {
        bytes,
        items: Vec::from_slice(alloc, &tokens.items[from..to])?,
        end: tokens.end,
    })
}
