//! How many forms may still open where an operator goes on.

ghost use Rattle.std.specs.Prelude.{◌≡◌, nat_le, Bool, Option, Some};
ghost use Rattle.tla_tree.specs.Tree.{Word};
ghost use Rattle.tla_tree.specs.Spelling.{Phrase};
ghost use Rattle.tla_tree.specs.Reader as reader;
ghost use Rattle.tla_tree.specs.Reader.{Limit, Readers, room, behind, element as element_of};
ghost use Rattle.expr_nodes.specs.ShapeOf.{shape_of, may_have, least_chain, element_chain as element_chain_of};

use crate::shape::{Shape, stands_left};
use tla_token::Place;
use tla_tree::{Op, rank};

/// Whether an expression may be read where so many forms may open.
pub fn fits(shape: Shape, left: u32) -> bool
    ensures { (w : Bool) (f : Limit → Readers) (a : Phrase) → shape_of w a ≡ shape → result ≡ (room w f (Some left)).fits 0 a }
{
    is_within(shape, left)
}

fn is_within(shape: Shape, left: u32) -> bool
    ensures { result ≡ nat_le shape.nesting left }
{
    shape.nesting <= left
}

fn fewest(n: Option<u32>, k: Option<u32>) -> Option<u32>
    ensures { result ≡ reader.fewest n k }
{
    match n {
        None => k,
        Some(n) => match k {
            None => Some(n),
            Some(k) => Some(if n <= k { n } else { k }),
        },
    }
}

// The operators that the element groups from the left, where the operator may go on from it.
fn element_chain(left: u32, element: Option<Shape>, place: Place, op: Op) -> Option<u32>
    ensures { result ≡ element_chain_of left element place op }
{
    match element {
        None => None,
        Some(e) => {
            let goes_on = stands_left(e, place, op);
            if !(rank(Op::In).1 < rank(op).0) && (goes_on && is_within(e, left)) {
                Some(e.chain)
            } else {
                None
            }
        }
    }
}

/// Behind `x \in` after `{` or `[`: the fewest operators that an operator goes on from, of those of the expression so far and of
/// its element, where so many forms may open; none where all of them are too deep.
pub fn least(left: u32, shape: Shape, element: Option<Shape>, place: Place, op: Op) -> Option<u32>
    ensures { (w : Bool) (f : Limit → Readers) (a : Phrase) (p q : Place) (x : Word) → shape_of w a ≡ shape → may_have w element (element_of p x q a) → result ≡ reader.so_far (room w f (Some left)) (behind p x q) a place op }
{
    least_of(left, shape, element, place, op)
}

fn least_of(left: u32, shape: Shape, element: Option<Shape>, place: Place, op: Op) -> Option<u32>
    ensures { result ≡ least_chain left shape element place op }
{
    let set = if is_within(shape, left) {
        Some(shape.chain)
    } else {
        None
    };
    fewest(set, element_chain(left, element, place, op))
}
