//! `x \in` put in front of the largest left part of an expression that may stand to the right of `\in`.

ghost use Rattle.std.specs.Prelude.{◌≡◌, ◌<◌, ◌+◌, ◌^◌, IfOk, MatchOption, Option, Bool, false, length};
ghost use Rattle.tla_tree.specs.Tree as tree;
ghost use Rattle.tla_tree.specs.Pool.{Keeps};
ghost use Rattle.tla_tree.specs.Rank.{is_prefix as is_prefix_of};
ghost use Rattle.tla_tree.specs.Nesting.{chain as chain_of};
ghost use Rattle.tla_tree.specs.Spelling as spelled;
ghost use Rattle.tla_tree.specs.Spelling.{Phrase};
ghost use Rattle.tla_tree.specs.Reader.{element, on_left};
ghost use Rattle.expr_nodes.specs.ReadIn.{IsIn, MayBeIn};

use crate::make::{Read, infix};
use crate::shape::{can_be_left, can_be_right};
use std::alloc::{AllocError, Global};
use tla_pool::Pool;
use tla_token::Place;
use tla_tree::Op;

/// The element of an expression that groups nothing from the left.
///
/// # Errors
///
/// Only for want of memory.
pub fn element_of_operand(
    alloc: Global,
    pool: &mut Pool,
    name: Read,
    a: Read,
) -> Result<Option<Read>, AllocError>
    requires name_in { name.id < length pool.old }
    requires a_in { a.id < length pool.old }
    requires small { name.shape.chain + 1 + a.shape.nesting < 2 ^ 32 }
    ensures read { IfOk result (λ o. (w : Bool) (i : Phrase) (p q : Place) (x : tree.Word) → chain_of i ≡ 0 → IsIn w pool.old name (spelled.name p x) → IsIn w pool.old a i → MayBeIn w pool.new o (element p x q i)) }
    ensures kept { Keeps pool.old pool.new }
{
    if can_be_right(Op::In, a.shape) {
        let whole = infix(alloc, pool, name, Op::In, a)?;
        Ok(Some(whole))
    } else {
        Ok(None)
    }
}

/// The element of an infix form, from that of its left operand, its operator at a place and its right operand.
///
/// # Errors
///
/// Only for want of memory.
pub fn element_of_infix(
    alloc: Global,
    pool: &mut Pool,
    name: Read,
    left: Option<Read>,
    place: Place,
    op: Op,
    right: Read,
    whole: Read,
) -> Result<Option<Read>, AllocError>
    requires between { is_prefix_of op ≡ false }
    requires name_in { name.id < length pool.old }
    requires right_in { right.id < length pool.old }
    requires whole_in { whole.id < length pool.old }
    requires left_in { MatchOption left (Unit {0}) (λ e. (e.id < length pool.old) × (e.shape.chain + 1 + right.shape.nesting < 2 ^ 32)) }
    requires small { name.shape.chain + 1 + whole.shape.nesting < 2 ^ 32 }
    ensures read { IfOk result (λ o. (w : Bool) (i j : Phrase) (p q : Place) (x : tree.Word) → IsIn w pool.old name (spelled.name p x) → MayBeIn w pool.old left (element p x q i) → IsIn w pool.old right j → IsIn w pool.old whole (spelled.infix_of i place op j) → MayBeIn w pool.new o (element p x q (spelled.infix_of i place op j))) }
    ensures kept { Keeps pool.old pool.new }
{
    if can_be_right(Op::In, whole.shape) {
        let put = infix(alloc, pool, name, Op::In, whole)?;
        Ok(Some(put))
    } else {
        element_on_left(alloc, pool, left, place, op, right)
    }
}

// The element of the left operand goes on with the operator.
fn element_on_left(
    alloc: Global,
    pool: &mut Pool,
    left: Option<Read>,
    place: Place,
    op: Op,
    right: Read,
) -> Result<Option<Read>, AllocError>
    requires between { is_prefix_of op ≡ false }
    requires right_in { right.id < length pool.old }
    requires left_in { MatchOption left (Unit {0}) (λ e. (e.id < length pool.old) × (e.shape.chain + 1 + right.shape.nesting < 2 ^ 32)) }
    ensures read { IfOk result (λ o. (w : Bool) (e : Option Phrase) (j : Phrase) → MayBeIn w pool.old left e → IsIn w pool.old right j → MayBeIn w pool.new o (on_left e place op j)) }
    ensures kept { Keeps pool.old pool.new }
{
    match left {
        None => Ok(None),
        Some(e) => {
            if can_be_left(e.shape, place, op) {
                let put = infix(alloc, pool, e, op, right)?;
                Ok(Some(put))
            } else {
                Ok(None)
            }
        }
    }
}
