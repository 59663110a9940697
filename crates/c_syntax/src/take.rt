//! What the innermost of what stands open takes after a statement.

ghost use Rattle.std.specs.Prelude.{IfOk, List, Option};
ghost use Rattle.tla_token.specs.declared.place.Place.{Place};
ghost use Rattle.tla_tree.specs.Tree.{Tree};
ghost use Rattle.pcal_tree.specs.GrammarC.{Labelled};
ghost use Rattle.c_reading.specs.ReadStatements.{Stack};
ghost use Rattle.c_syntax.specs.StatesRead.{Stands, past_one};
ghost use Rattle.c_syntax.specs.Takes.{else_taken, or_taken, brace_taken, BeginStands, MayTurn};

use crate::open::{End, Frame, Open, Point, State, Turn, opened};
use std::alloc::{AllocError, Global};
use tla_token::Place;

/// Before the statement of its `else`, if the innermost takes one.
///
/// # Errors
///
/// For want of memory.
pub fn else_opened(alloc: Global, state: State) -> Result<Option<State>, AllocError>
    ensures { IfOk result (λ o. (ts : List Tree) (s : Option Place) (p : Place) (a : Labelled) (st : Stack) → Stands ts state (past_one a st) st → BeginStands ts o (else_taken s p a st)) }
{
    let mut stack = state.stack;
    let Some(open) = stack.pop() else {
        return Ok(None)
    };
    let Open { frame, depth } = open;
    match frame {
        Frame::Then(begun, test) => {
            let top = Open {
                frame: Frame::Else(begun, test, state.list),
                depth,
            };
            Ok(Some(opened(alloc, stack, top, state.depth)?))
        }
        _ => Ok(None),
    }
}

/// Before its next branch, if the innermost is an `either`.
///
/// # Errors
///
/// For want of memory.
pub fn or_opened(alloc: Global, state: State) -> Result<Option<State>, AllocError>
    ensures { IfOk result (λ o. (ts : List Tree) (s : Option Place) (p : Place) (a : Labelled) (st : Stack) → Stands ts state (past_one a st) st → BeginStands ts o (or_taken s p a st)) }
{
    let mut stack = state.stack;
    let Some(open) = stack.pop() else {
        return Ok(None)
    };
    let Open { frame, depth } = open;
    match frame {
        Frame::Either(begun, before) => {
            let mut branches = before;
            branches.push(state.list)?;
            let top = Open {
                frame: Frame::Either(begun, branches),
                depth,
            };
            Ok(Some(opened(alloc, stack, top, state.depth)?))
        }
        _ => Ok(None),
    }
}

/// After a `}` at this place, if the innermost takes one; where nothing stands open, the list.
pub fn brace_closed(state: State, place: Place) -> Option<Turn>
    ensures { (ts : List Tree) (s : Option Place) (a : Labelled) (st : Stack) → Stands ts state (past_one a st) st → MayTurn ts result (brace_taken s place a st) }
{
    let mut stack = state.stack;
    let Some(open) = stack.pop() else {
        return Some(Turn::Done(state.list))
    };
    let Open { frame, depth } = open;
    match frame {
        Frame::Block => Some(Turn::On(State {
            list: state.list,
            point: Point::Ended(End {
                last: place,
                block: true,
                divided: false,
            }),
            stack,
            depth,
        })),
        _ => None,
    }
}
