//! Statements that end with the one that has just ended, up to the one that takes what comes.

ghost use Rattle.std.specs.Prelude.{◌≡◌, ◌<◌, ◌++◌, Bool, [], ◌∷◌, IfOk, List, length, true, cond};
ghost use Rattle.tla_tree.specs.Tree.{Tree};
ghost use Rattle.pcal_tree.specs.GrammarParts.{last_place};
ghost use Rattle.pcal_tree.specs.GrammarC.{Labelled, labelled_tokens};
ghost use Rattle.c_reading.specs.ReadStatements.{Stack, closed as closed_there};
ghost use Rattle.algorithm_reader.specs.ListsRead.{ListStands};
ghost use Rattle.c_syntax.specs.StatesRead.{FrameStands, StackStands, past_one, around};
ghost use Rattle.c_syntax.specs.Closes.{ask_seen, fate, fate_at, can_end, ended_with, EndStands, AllClosed};
ghost use Rattle.c_syntax.specs.declared.close.Fate.TheVariants as fates;

use crate::open::{Frame, Open, State};
use pcal_tree::algorithm::{Span, Stmt};
use std::alloc::{AllocError, Global};
use tla_token::Place;

/// What the next token asks of what stands open.
#[derive(Clone, Copy, PartialEq, Eq)]
pub enum Ask {
    /// An `else` comes.
    Else,
    /// An `or` comes.
    Or,
    /// Any other token comes.
    Other,
}

/// What a statement that stands open does when the last one in it has ended, and something comes.
#[derive(Clone, Copy)]
pub enum Fate {
    /// It takes what comes.
    Takes,
    /// It can't end before it, and can't take it.
    Stops,
    /// It ends.
    Ends,
}

fn takes_if(takes: bool, other: Fate) -> Fate
    ensures { result ≡ cond takes fates.Takes other }
{
    if takes { Fate::Takes } else { other }
}

/// What it does.
pub fn fate_of(ask: Ask, frame: &Frame) -> Fate
    ensures { result ≡ fate frame.now ask }
{
    match frame {
        Frame::Block => takes_if(ask == Ask::Other, Fate::Stops),
        Frame::Then(_, _) => takes_if(ask == Ask::Else, Fate::Ends),
        Frame::Either(_, branches) => {
            let other = if branches.is_empty() {
                Fate::Stops
            } else {
                Fate::Ends
            };
            takes_if(ask == Ask::Or, other)
        }
        _ => Fate::Ends,
    }
}

fn one_more(list: Vec<Stmt>, statement: Stmt) -> Result<Vec<Stmt>, AllocError>
    ensures { IfOk result (λ ss. ss.items ≡ list.items ++ statement ∷ []) }
{
    let mut list = list;
    list.push(statement)?;
    Ok(list)
}

/// The list in which a statement stands that ends with its last part, which is this list.
///
/// # Errors
///
/// For want of memory.
pub fn ended_in(
    alloc: Global,
    frame: Frame,
    list: Vec<Stmt>,
    last: Place,
) -> Result<Vec<Stmt>, AllocError>
    ensures { IfOk result (λ ss. (ts : List Tree) (a : Labelled) (st : Stack) → FrameStands ts frame st → ListStands ts list.items (past_one a st) → last ≡ last_place (labelled_tokens a []) → can_end st ≡ true → ListStands ts ss.items (past_one (ended_with a st) (around st))) }
{
    match frame {
        Frame::Block => Ok(list),
        Frame::Then(begun, test) => {
            let first = begun.first;
            let span = Span { first, last };
            one_more(begun.list, Stmt::If(span, test, list, Vec::new(alloc)))
        }
        Frame::Else(begun, test, then) => {
            let first = begun.first;
            let span = Span { first, last };
            one_more(begun.list, Stmt::If(span, test, then, list))
        }
        Frame::With(begun, binds) => {
            let first = begun.first;
            let span = Span { first, last };
            one_more(begun.list, Stmt::With(span, binds, list))
        }
        Frame::While(begun, test) => {
            let first = begun.first;
            let span = Span { first, last };
            one_more(begun.list, Stmt::While(span, test, list))
        }
        Frame::Either(begun, before) => {
            let first = begun.first;
            let span = Span { first, last };
            let mut branches = before;
            branches.push(list)?;
            one_more(begun.list, Stmt::Either(span, branches))
        }
    }
}

/// What the innermost does.
pub fn fate_in(ask: Ask, stack: &[Open]) -> Fate
    ensures fate { (ts : List Tree) (st : Stack) → StackStands ts stack.now st → result ≡ fate_at st ask }
    ensures some { result ≡ fates.Ends → 0 < length stack.now }
{
    match stack.split_last() {
        None => takes_if(ask == Ask::Other, Fate::Stops),
        Some((open, _)) => fate_of(ask, &open.frame),
    }
}

// The innermost ends.
fn one_closed(alloc: Global, state: State, last: Place) -> Result<State, AllocError>
    requires some { 0 < length state.stack.items }
    ensures ends { IfOk result (λ s. (ts : List Tree) (b : Bool) (a : Labelled) (st : Stack) → EndStands ts state last b a st → can_end st ≡ true → EndStands ts s last b (ended_with a st) (around st)) }
    ensures shorter { IfOk result (λ s. length s.stack.items < length state.stack.items) }
{
    let mut stack = state.stack;
    match stack.pop() {
        None => Ok(State {
            list: state.list,
            point: state.point,
            stack,
            depth: state.depth,
        }),
        Some(open) => {
            let list = ended_in(alloc, open.frame, state.list, last)?;
            Ok(State {
                list,
                point: state.point,
                stack,
                depth: open.depth,
            })
        }
    }
}

/// What ends here ends, up to the one that takes what is asked for, if there is one.
///
/// # Errors
///
/// For want of memory.
pub fn closed(
    alloc: Global,
    ask: Ask,
    state: State,
    last: Place,
) -> Result<Option<State>, AllocError>
    ensures { IfOk result (λ o. (ts : List Tree) (b : Bool) (a : Labelled) (st : Stack) → EndStands ts state last b a st → AllClosed ts last b o (closed_there (ask_seen ask) a st)) }
{
    let mut state = state;
    loop {
        match fate_in(ask, &state.stack) {
            Fate::Takes => return Ok(Some(state)),
            Fate::Stops => return Ok(None),
            Fate::Ends => state = one_closed(alloc, state, last)?,
        }
    }
}
