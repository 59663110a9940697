//! Reading lists of statements, a step for each word, sign or part.

ghost use Rattle.std.specs.Prelude.{◌≡◌, ℕ, List, ◌<◌, ◌≤◌, IfOk, Option, codes, false, length};
ghost use Rattle.tla_token.specs.declared.place.Place as placed;
ghost use Rattle.tla_tree.specs.Tree.{Tree};
ghost use Rattle.tla_tree.specs.Pool.{Keeps};
ghost use Rattle.expr_nodes.specs.Ahead.{ahead};
ghost use Rattle.tla_expr.specs.Numbers.{NumbersFit};
ghost use Rattle.expr_nodes.specs.ReadIn.{Told};
ghost use Rattle.pcal_tree.specs.GrammarParts.{Labels};
ghost use Rattle.pcal_tree.specs.GrammarP as p;
ghost use Rattle.syntax_reading.specs.TokenReaders.{first, is_reserved};
ghost use Rattle.algorithm_reader.specs.PartsRead.{parts_in, StepLess};
ghost use Rattle.p_reading.specs.ReadStatements as reader;
ghost use Rattle.p_syntax.specs.declared.open.State as code;
ghost use Rattle.p_syntax.specs.declared.open.Turn as code_turn;
ghost use Rattle.p_syntax.specs.declared.open.Turn.TheVariants as turn;
ghost use Rattle.p_syntax.specs.StatesRead.{Stands, past_one, TurnStands, StateStands, point_of};
ghost use Rattle.p_syntax.specs.StepsRead.{StepRead, statement_step, separator_step, another_step, ended_step, PassesOn};

use crate::ending::{take_else, take_elsif, take_end, take_or};
use crate::open::{Point, State, Turn};
use crate::opening::{open_either, open_if, open_while, open_with, read_alone, read_label};
use algorithm_reader::token_step::{after_mark, is_next_word, refused_there};
use algorithm_reader::words::is_next_label;
use expr_nodes::cursor::Halt;
use expr_nodes::view::Mark;
use std::alloc::Global;
use tla_pool::Pool;
use tla_token::{PluscalWord, Rule, Tokens};

/// Past what comes where a statement may: a label, a statement, or what opens one.
///
/// # Errors
///
/// Where a token is next that can't be there, or too many forms are open; or for want of memory.
pub fn read_statement(
    alloc: Global,
    tokens: &Tokens,
    pool: &mut Pool,
    state: State,
    at: usize,
) -> Result<(State, usize), Halt>
    requires there { at ≤ length tokens.now.items.items }
    requires numbers { NumbersFit tokens.now }
    ensures read { StepRead tokens.now pool.old pool.new state at result statement_step }
    ensures kept { Keeps pool.old pool.new }
    ensures inside { IfOk result (λ x. x.1 ≤ length tokens.now.items.items) }
    ensures further { IfOk result (λ x. at < x.1) }
{
    if is_next_word(tokens, at, PluscalWord::If) {
        open_if(alloc, tokens, pool, state, at)
    } else if is_next_word(tokens, at, PluscalWord::Either) {
        open_either(alloc, tokens, state, at)
    } else if is_next_word(tokens, at, PluscalWord::With) {
        open_with(alloc, tokens, pool, state, at)
    } else if is_next_word(tokens, at, PluscalWord::While) {
        open_while(alloc, tokens, pool, state, at)
    } else if is_next_label(tokens, at) {
        read_label(alloc, tokens, state, at)
    } else {
        read_alone(alloc, tokens, pool, state, at)
    }
}

/// Past the `;` of a statement.
///
/// # Errors
///
/// Where another token is next.
pub fn read_separator(tokens: &Tokens, state: State, at: usize) -> Result<(State, usize), Halt>
    requires { at ≤ length tokens.now.items.items }
    ensures read { (ts : List Tree) (n : ℕ) (b : reader.Before) (ls : Labels) (a : p.Statement) (st : reader.Stack) → Stands ts state (past_one b ls a) st
        → Told (λ (x : code.State × ℕ) (t : reader.Turn). TurnStands ts (turn.On x.0) t) (λ x. ahead tokens.now x.1) result (separator_step (parts_in tokens.now) n b ls a st (ahead tokens.now at)) }
    ensures inside { IfOk result (λ x. x.1 ≤ length tokens.now.items.items) }
    ensures further { IfOk result (λ x. at < x.1) }
{
    match after_mark(tokens, at, Mark::Semicolon) {
        None => Err(refused_there(tokens, at, Rule::Syntax)),
        Some(end) => {
            let separated = State {
                list: state.list,
                point: Point::Separated,
                stack: state.stack,
                depth: state.depth,
            };
            Ok((separated, end))
        }
    }
}

// After a statement, where its list goes on.
fn read_another(
    alloc: Global,
    tokens: &Tokens,
    pool: &mut Pool,
    state: State,
    at: usize,
) -> Result<(State, usize), Halt>
    requires there { at ≤ length tokens.now.items.items }
    requires numbers { NumbersFit tokens.now }
    ensures read { (n : ℕ) (b : reader.Before) (ls : Labels) (a : p.Statement) (o : Option placed.Place) (st : reader.Stack) → StepLess tokens.now at n → state.point ≡ point_of o → Stands pool.old state (past_one b ls a) st
        → Told (λ (x : code.State × ℕ) (t : reader.Turn). TurnStands pool.new (turn.On x.0) t) (λ x. ahead tokens.now x.1) result (another_step (parts_in tokens.now) n b ls a o st (ahead tokens.now at)) }
    ensures kept { Keeps pool.old pool.new }
    ensures inside { IfOk result (λ x. x.1 ≤ length tokens.now.items.items) }
    ensures further { IfOk result (λ x. at < x.1) }
{
    match state.point {
        Point::Separated => read_statement(alloc, tokens, pool, state, at),
        _ => read_separator(tokens, state, at),
    }
}

// After a statement, where another word than `end` is next.
fn read_on(
    alloc: Global,
    tokens: &Tokens,
    pool: &mut Pool,
    state: State,
    at: usize,
) -> Result<(State, usize), Halt>
    requires there { at ≤ length tokens.now.items.items }
    requires numbers { NumbersFit tokens.now }
    ensures read { (n : ℕ) (b : reader.Before) (ls : Labels) (a : p.Statement) (o : Option placed.Place) (st : reader.Stack) → StepLess tokens.now at n → state.point ≡ point_of o → Stands pool.old state (past_one b ls a) st → is_reserved (codes "end") (first (ahead tokens.now at)).kind ≡ false
        → Told (λ (x : code.State × ℕ) (t : reader.Turn). TurnStands pool.new (turn.On x.0) t) (λ x. ahead tokens.now x.1) result (ended_step (parts_in tokens.now) n b ls a o st (ahead tokens.now at)) }
    ensures kept { Keeps pool.old pool.new }
    ensures inside { IfOk result (λ x. x.1 ≤ length tokens.now.items.items) }
    ensures further { IfOk result (λ x. at < x.1) }
{
    if is_next_word(tokens, at, PluscalWord::Else) {
        take_else(alloc, tokens, state, at)
    } else if is_next_word(tokens, at, PluscalWord::Elsif) {
        take_elsif(alloc, tokens, pool, state, at)
    } else if is_next_word(tokens, at, PluscalWord::Or) {
        take_or(alloc, tokens, state, at)
    } else {
        read_another(alloc, tokens, pool, state, at)
    }
}

// After a statement.
fn read_after(
    alloc: Global,
    tokens: &Tokens,
    pool: &mut Pool,
    state: State,
    at: usize,
) -> Result<(Turn, usize), Halt>
    requires there { at ≤ length tokens.now.items.items }
    requires numbers { NumbersFit tokens.now }
    ensures read { (n : ℕ) (b : reader.Before) (ls : Labels) (a : p.Statement) (o : Option placed.Place) (st : reader.Stack) → StepLess tokens.now at n → state.point ≡ point_of o → Stands pool.old state (past_one b ls a) st
        → Told (λ (x : code_turn.Turn × ℕ) (t : reader.Turn). TurnStands pool.new x.0 t) (λ x. ahead tokens.now x.1) result (ended_step (parts_in tokens.now) n b ls a o st (ahead tokens.now at)) }
    ensures kept { Keeps pool.old pool.new }
    ensures inside { IfOk result (λ x. x.1 ≤ length tokens.now.items.items) }
    ensures further { IfOk result (PassesOn at) }
{
    if is_next_word(tokens, at, PluscalWord::End) {
        take_end(alloc, tokens, state, at)
    } else {
        let (next, end) = read_on(alloc, tokens, pool, state, at)?;
        Ok((Turn::On(next), end))
    }
}

/// The next step, whatever the state is.
///
/// # Errors
///
/// Where a token is next that can't be there, or too many forms are open; or for want of memory.
pub fn read_step(
    alloc: Global,
    tokens: &Tokens,
    pool: &mut Pool,
    state: State,
    at: usize,
) -> Result<(Turn, usize), Halt>
    requires there { at ≤ length tokens.now.items.items }
    requires numbers { NumbersFit tokens.now }
    ensures read { (n : ℕ) (s : reader.State) → StepLess tokens.now at n → StateStands pool.old state s
        → Told (λ (x : code_turn.Turn × ℕ) (t : reader.Turn). TurnStands pool.new x.0 t) (λ x. ahead tokens.now x.1) result (reader.step (parts_in tokens.now) n s (ahead tokens.now at)) }
    ensures kept { Keeps pool.old pool.new }
    ensures inside { IfOk result (λ x. x.1 ≤ length tokens.now.items.items) }
    ensures further { IfOk result (PassesOn at) }
{
    match state.point {
        Point::Begins => {
            let (next, end) = read_statement(alloc, tokens, pool, state, at)?;
            Ok((Turn::On(next), end))
        }
        _ => read_after(alloc, tokens, pool, state, at),
    }
}
