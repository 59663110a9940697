//! Steps after a statement: its `;`, an `else`, an `or`, a `}`, or another statement.

ghost use Rattle.std.specs.Prelude.{◌≡◌, ℕ, ◌<◌, ◌≤◌, ◌||◌, IfOk, Bool, List, Option, Some, None, false, length};
ghost use Rattle.tla_token.specs.declared.place.Place as placed;
ghost use Rattle.tla_tree.specs.Tree.{Tree};
ghost use Rattle.tla_tree.specs.Lexical as tk;
ghost use Rattle.tla_tree.specs.Pool.{Keeps};
ghost use Rattle.tla_tree.specs.Reader as reader_of;
ghost use Rattle.expr_nodes.specs.Ahead.{ahead};
ghost use Rattle.tla_expr.specs.Numbers.{NumbersFit};
ghost use Rattle.pcal_tree.specs.GrammarParts.{Labels};
ghost use Rattle.pcal_tree.specs.GrammarC.{Labelled};
ghost use Rattle.syntax_reading.specs.TokenReaders.{first};
ghost use Rattle.algorithm_reader.specs.PartsRead.{parts_in, StepLess};
ghost use Rattle.c_reading.specs.ReadStatements as reader;
ghost use Rattle.c_reading.specs.ReadStatements.{Stack, ask_else, ask_or, ask_other, closed as closed_there};
ghost use Rattle.c_syntax.specs.StatesRead.{Ends, Stands, StateStands, past_one, up_to, statement_step};
ghost use Rattle.c_syntax.specs.Closes.{EndStands};
ghost use Rattle.c_syntax.specs.Takes.{else_taken, or_taken, brace_taken, BeginStands, MayTurn};
ghost use Rattle.c_syntax.specs.AfterRead.{taken, next_taken, past_word as past_word_there, at_brace, else_step, or_step, brace_step, list_step, ended_step, is_its_semicolon, TurnsTo, AfterRead, PassesOn};

use crate::close::{Ask, closed};
use crate::open::{End, Point, State, Turn, at_point};
use crate::statements::read_statement;
use crate::take::{brace_closed, else_opened, or_opened};
use algorithm_reader::token_step::{is_next_word, next_token, refused_there};
use algorithm_reader::words::is_next_mark;
use expr_nodes::cursor::Halt;
use expr_nodes::view::Mark;
use std::alloc::{AllocError, Global};
use tla_pool::Pool;
use tla_token::{Place, PluscalWord, Rule, Tokens};

// ---- what takes what comes, after what has ended

// Before the statement of the `else` that comes.
fn else_after(alloc: Global, state: State, last: Place) -> Result<Option<State>, AllocError>
    ensures { IfOk result (λ o. (ts : List Tree) (b : Bool) (a : Labelled) (st : Stack) (s : Option placed.Place) (p : placed.Place) → EndStands ts state last b a st → BeginStands ts o (taken (else_taken s p) (closed_there ask_else a st))) }
{
    let Some(state) = closed(alloc, Ask::Else, state, last)? else {
        return Ok(None)
    };
    else_opened(alloc, state)
}

// Before the branch behind the `or` that comes.
fn or_after(alloc: Global, state: State, last: Place) -> Result<Option<State>, AllocError>
    ensures { IfOk result (λ o. (ts : List Tree) (b : Bool) (a : Labelled) (st : Stack) (s : Option placed.Place) (p : placed.Place) → EndStands ts state last b a st → BeginStands ts o (taken (or_taken s p) (closed_there ask_or a st))) }
{
    let Some(state) = closed(alloc, Ask::Or, state, last)? else {
        return Ok(None)
    };
    or_opened(alloc, state)
}

// After the `}` that comes at this place.
fn brace_after(
    alloc: Global,
    state: State,
    last: Place,
    place: Place,
) -> Result<Option<Turn>, AllocError>
    ensures { IfOk result (λ o. (ts : List Tree) (b : Bool) (a : Labelled) (st : Stack) (s : Option placed.Place) → EndStands ts state last b a st → MayTurn ts o (taken (brace_taken s place) (closed_there ask_other a st))) }
{
    let Some(state) = closed(alloc, Ask::Other, state, last)? else {
        return Ok(None)
    };
    Ok(brace_closed(state, place))
}

// Whether another statement may come: after a `;`, or after a `{..}`.
fn may_follow(end: End) -> bool
    ensures { result ≡ (end.divided || end.block) }
{
    end.divided || end.block
}

// Before another statement of the same list, if one may come.
fn next_after(alloc: Global, state: State, end: End) -> Result<Option<State>, AllocError>
    ensures { IfOk result (λ o. (ts : List Tree) (a : Labelled) (s : Option placed.Place) (st : Stack) → Ends end a s → Stands ts state (past_one a st) st → BeginStands ts o (taken (next_taken s) (closed_there ask_other a st))) }
{
    let Some(state) = closed(alloc, Ask::Other, state, end.last)? else {
        return Ok(None)
    };
    if may_follow(end) {
        Ok(Some(at_point(state, Point::Begins)))
    } else {
        Ok(None)
    }
}

// ---- the steps

// Past the word that is taken.
fn past_word(tokens: &Tokens, next: Option<State>, at: usize) -> Result<(Turn, usize), Halt>
    requires { at < length tokens.now.items.items }
    ensures read { (ts : List Tree) (o : Option Stack) → BeginStands ts next o → TurnsTo tokens.now ts result (past_word_there o (ahead tokens.now at)) }
    ensures inside { IfOk result (λ x. x.1 ≤ length tokens.now.items.items) }
    ensures further { IfOk result (PassesOn at) }
{
    match next {
        None => Err(refused_there(tokens, at, Rule::Syntax)),
        Some(state) => Ok((Turn::On(state), at + 1)),
    }
}

fn take_else(
    alloc: Global,
    tokens: &Tokens,
    state: State,
    end: End,
    at: usize,
) -> Result<(Turn, usize), Halt>
    requires { at < length tokens.now.items.items }
    ensures read { (ts : List Tree) → AfterRead tokens.now ts ts state end at result else_step }
    ensures inside { IfOk result (λ x. x.1 ≤ length tokens.now.items.items) }
    ensures further { IfOk result (PassesOn at) }
{
    let next = else_after(alloc, state, end.last)?;
    past_word(tokens, next, at)
}

fn take_or(
    alloc: Global,
    tokens: &Tokens,
    state: State,
    end: End,
    at: usize,
) -> Result<(Turn, usize), Halt>
    requires { at < length tokens.now.items.items }
    ensures read { (ts : List Tree) → AfterRead tokens.now ts ts state end at result or_step }
    ensures inside { IfOk result (λ x. x.1 ≤ length tokens.now.items.items) }
    ensures further { IfOk result (PassesOn at) }
{
    let next = or_after(alloc, state, end.last)?;
    past_word(tokens, next, at)
}

// Past the `}` that is taken; the one after the whole list stays.
fn past_brace(tokens: &Tokens, next: Option<Turn>, at: usize) -> Result<(Turn, usize), Halt>
    requires { at < length tokens.now.items.items }
    ensures read { (ts : List Tree) (o : Option reader.Turn) → MayTurn ts next o → TurnsTo tokens.now ts result (at_brace o (ahead tokens.now at)) }
    ensures inside { IfOk result (λ x. x.1 ≤ length tokens.now.items.items) }
    ensures further { IfOk result (PassesOn at) }
{
    match next {
        None => Err(refused_there(tokens, at, Rule::Syntax)),
        Some(turn) => match turn {
            Turn::On(state) => Ok((Turn::On(state), at + 1)),
            Turn::Done(list) => Ok((Turn::Done(list), at)),
        },
    }
}

fn take_brace(
    alloc: Global,
    tokens: &Tokens,
    state: State,
    end: End,
    at: usize,
) -> Result<(Turn, usize), Halt>
    requires { at < length tokens.now.items.items }
    ensures read { (ts : List Tree) → AfterRead tokens.now ts ts state end at result brace_step }
    ensures inside { IfOk result (λ x. x.1 ≤ length tokens.now.items.items) }
    ensures further { IfOk result (PassesOn at) }
{
    let place = next_token(tokens, at).place;
    let next = brace_after(alloc, state, end.last, place)?;
    past_brace(tokens, next, at)
}

/// Past what comes where a statement may, as a turn.
///
/// # Errors
///
/// As of `read_statement`.
pub fn read_begun(
    alloc: Global,
    tokens: &Tokens,
    pool: &mut Pool,
    state: State,
    at: usize,
) -> Result<(Turn, usize), Halt>
    requires there { at ≤ length tokens.now.items.items }
    requires numbers { NumbersFit tokens.now }
    ensures read { (n : ℕ) (ls : Labels) (st : Stack) → StepLess tokens.now at n → Stands pool.old state (up_to ls st) st → TurnsTo tokens.now pool.new result (statement_step (parts_in tokens.now) n ls st (ahead tokens.now at)) }
    ensures kept { Keeps pool.old pool.new }
    ensures inside { IfOk result (λ x. x.1 ≤ length tokens.now.items.items) }
    ensures further { IfOk result (PassesOn at) }
{
    let (next, end) = read_statement(alloc, tokens, pool, state, at)?;
    Ok((Turn::On(next), end))
}

// Past another statement, or what opens it.
fn read_another(
    alloc: Global,
    tokens: &Tokens,
    pool: &mut Pool,
    state: State,
    end: End,
    at: usize,
) -> Result<(Turn, usize), Halt>
    requires there { at ≤ length tokens.now.items.items }
    requires numbers { NumbersFit tokens.now }
    requires another { reader_of.is_mark tk.close_brace (first (ahead tokens.now at)).kind ≡ false }
    ensures read { AfterRead tokens.now pool.old pool.new state end at result list_step }
    ensures kept { Keeps pool.old pool.new }
    ensures inside { IfOk result (λ x. x.1 ≤ length tokens.now.items.items) }
    ensures further { IfOk result (PassesOn at) }
{
    let next = next_after(alloc, state, end)?;
    match next {
        None => Err(refused_there(tokens, at, Rule::Syntax)),
        Some(state) => read_begun(alloc, tokens, pool, state, at),
    }
}

// On in its list: past a `}`, or another statement.
fn read_in_list(
    alloc: Global,
    tokens: &Tokens,
    pool: &mut Pool,
    state: State,
    end: End,
    at: usize,
) -> Result<(Turn, usize), Halt>
    requires there { at ≤ length tokens.now.items.items }
    requires numbers { NumbersFit tokens.now }
    ensures read { AfterRead tokens.now pool.old pool.new state end at result list_step }
    ensures kept { Keeps pool.old pool.new }
    ensures inside { IfOk result (λ x. x.1 ≤ length tokens.now.items.items) }
    ensures further { IfOk result (PassesOn at) }
{
    if is_next_mark(tokens, at, Mark::CloseBrace) {
        take_brace(alloc, tokens, state, end, at)
    } else {
        read_another(alloc, tokens, pool, state, end, at)
    }
}

// Whether the `;` of the statement comes.
fn is_semicolon_next(tokens: &Tokens, end: End, at: usize) -> bool
    requires { at ≤ length tokens.now.items.items }
    ensures { result ≡ is_its_semicolon end.divided (first (ahead tokens.now at)).kind }
{
    !end.divided && is_next_mark(tokens, at, Mark::Semicolon)
}

// The same state behind that `;`.
fn divided(state: State, end: End) -> State
    ensures { (ts : List Tree) (a : Labelled) (p : placed.Place) (st : Stack) → Ends end a None → Stands ts state (past_one a st) st → StateStands ts result (reader.ended a (Some p) st) }
{
    let End { last, block, .. } = end;
    at_point(
        state,
        Point::Ended(End {
            last,
            block,
            divided: true,
        }),
    )
}

/// The next step after a statement.
///
/// # Errors
///
/// Where a token is next that can't be there, or too many forms are open; or for want of memory.
pub fn read_after(
    alloc: Global,
    tokens: &Tokens,
    pool: &mut Pool,
    state: State,
    end: End,
    at: usize,
) -> Result<(Turn, usize), Halt>
    requires there { at ≤ length tokens.now.items.items }
    requires numbers { NumbersFit tokens.now }
    ensures read { AfterRead tokens.now pool.old pool.new state end at result ended_step }
    ensures kept { Keeps pool.old pool.new }
    ensures inside { IfOk result (λ x. x.1 ≤ length tokens.now.items.items) }
    ensures further { IfOk result (PassesOn at) }
{
    if is_semicolon_next(tokens, end, at) {
        Ok((Turn::On(divided(state, end)), at + 1))
    } else if is_next_word(tokens, at, PluscalWord::Else) {
        take_else(alloc, tokens, state, end, at)
    } else if is_next_word(tokens, at, PluscalWord::Or) {
        take_or(alloc, tokens, state, end, at)
    } else {
        read_in_list(alloc, tokens, pool, state, end, at)
    }
}
