//! Steps where a list of statements may end.

ghost use Rattle.std.specs.Prelude.{◌≡◌, ℕ, List, ◌<◌, ◌≤◌, ◌+◌, ◌++◌, ◌∷◌, [], IfOk, codes, length};
ghost use Rattle.tla_token.specs.declared.place.Place as placed;
ghost use Rattle.tla_token.specs.Limits.{deepest_statement};
ghost use Rattle.tla_tree.specs.Tree.{Tree};
ghost use Rattle.tla_tree.specs.Pool.{at as tree_at, Keeps};
ghost use Rattle.tla_tree.specs.Spelling.{Phrase, tree_of};
ghost use Rattle.expr_nodes.specs.Ahead.{ahead};
ghost use Rattle.tla_expr.specs.Numbers.{NumbersFit};
ghost use Rattle.expr_nodes.specs.ReadIn.{Told};
ghost use Rattle.pcal_tree.specs.InMemory.{statements_at, past_statements};
ghost use Rattle.pcal_tree.specs.GrammarParts.{Binds};
ghost use Rattle.pcal_tree.specs.GrammarP as p;
ghost use Rattle.p_syntax.specs.declared.open.Turn as code;
ghost use Rattle.p_syntax.specs.declared.open.Frame.TheVariants as frame;
ghost use Rattle.syntax_reading.specs.TokenReaders.{first};
ghost use Rattle.algorithm_reader.specs.PartsRead.{parts_in, StandsFor};
ghost use Rattle.p_reading.specs.ReadStatements as reader;
ghost use Rattle.p_syntax.specs.StatesRead.{TurnStands, StackStands, ElseStands, EitherStands, FrameStands, list_at, past_list};
ghost use Rattle.p_syntax.specs.StepsRead.{ClosingRead, closes_by, test_reader, EndRead, PassesOn, end_step};

use crate::close::closed_if;
use crate::open::{Frame, Point, State, Test, Turn, extended, innermost, opened};
use algorithm_reader::expression::read_expression;
use algorithm_reader::token_step::{behind, next_token, past_key, refused_there};
use algorithm_reader::words::one_deeper;
use expr_nodes::cursor::Halt;
use pcal_tree::algorithm::{Bind, Span, Stmt};
use std::alloc::Global;
use tla_pool::Pool;
use tla_token::{Place, PluscalWord, Rule, Tokens};
use tla_tree::NodeId;

// Past `elsif` and its test with the `then` behind it.
fn read_test(
    alloc: Global,
    tokens: &Tokens,
    pool: &mut Pool,
    depth: usize,
    at: usize,
) -> Result<(NodeId, usize), Halt>
    requires there { at ≤ length tokens.now.items.items }
    requires numbers { NumbersFit tokens.now }
    ensures read { Told (λ (x : ℕ × ℕ) (y : Phrase × placed.Place). tree_at pool.new x.0 ≡ tree_of y.0) (λ x. ahead tokens.now x.1) result (test_reader (parts_in tokens.now) depth (ahead tokens.now at)) }
    ensures kept { Keeps pool.old pool.new }
    ensures within { IfOk result (λ x. x.0 < length pool.new) }
    ensures few { IfOk result (λ x. depth < deepest_statement) }
    ensures inside { IfOk result (λ x. x.1 ≤ length tokens.now.items.items) }
    ensures further { IfOk result (λ x. at < x.1) }
{
    one_deeper(tokens, at, depth)?;
    let (test, end) = read_expression(alloc, tokens, pool, behind(tokens, at))?;
    let (_, end) = past_key(tokens, end, PluscalWord::Then)?;
    Ok((test, end))
}

/// Past `else`, into the list behind it.
///
/// # Errors
///
/// Where no `then` is open innermost, or for want of memory.
pub fn take_else(
    alloc: Global,
    tokens: &Tokens,
    state: State,
    at: usize,
) -> Result<(State, usize), Halt>
    requires { at < length tokens.now.items.items }
    ensures read { (ts : List Tree) → ClosingRead tokens.now ts ts state at result (closes_by (codes "else")) }
    ensures inside { IfOk result (λ x. x.1 ≤ length tokens.now.items.items) }
    ensures further { IfOk result (λ x. at < x.1) }
{
    match innermost(state.stack) {
        None => Err(refused_there(tokens, at, Rule::Syntax)),
        Some((open, around)) => match open {
            Frame::Then(tests, place, test) => {
                let last = Test {
                    place,
                    test,
                    then: state.list,
                };
                let frame = Frame::Else(tests, last);
                Ok((opened(alloc, around, frame, state.depth)?, at + 1))
            }
            _ => Err(refused_there(tokens, at, Rule::Syntax)),
        },
    }
}

/// Past `elsif` with its test, into the list behind it.
///
/// # Errors
///
/// Where no `then` is open innermost, a token is next that can't be in the test, or too many forms are open; or for want of memory.
pub fn take_elsif(
    alloc: Global,
    tokens: &Tokens,
    pool: &mut Pool,
    state: State,
    at: usize,
) -> Result<(State, usize), Halt>
    requires there { at < length tokens.now.items.items }
    requires numbers { NumbersFit tokens.now }
    ensures read { ClosingRead tokens.now pool.old pool.new state at result (closes_by (codes "elsif")) }
    ensures kept { Keeps pool.old pool.new }
    ensures inside { IfOk result (λ x. x.1 ≤ length tokens.now.items.items) }
    ensures further { IfOk result (λ x. at < x.1) }
{
    let here = next_token(tokens, at).place;
    match innermost(state.stack) {
        None => Err(refused_there(tokens, at, Rule::Syntax)),
        Some((open, around)) => match open {
            Frame::Then(tests, place, test) => {
                let mut tests = tests;
                tests.push(Test {
                    place,
                    test,
                    then: state.list,
                })?;
                let (next, end) = read_test(alloc, tokens, pool, state.depth, at)?;
                let frame = Frame::Then(tests, here, next);
                Ok((opened(alloc, around, frame, state.depth + 1)?, end))
            }
            _ => Err(refused_there(tokens, at, Rule::Syntax)),
        },
    }
}

/// Past `or`, into the next branch.
///
/// # Errors
///
/// Where no branch is open innermost, or for want of memory.
pub fn take_or(
    alloc: Global,
    tokens: &Tokens,
    state: State,
    at: usize,
) -> Result<(State, usize), Halt>
    requires { at < length tokens.now.items.items }
    ensures read { (ts : List Tree) → ClosingRead tokens.now ts ts state at result (closes_by (codes "or")) }
    ensures inside { IfOk result (λ x. x.1 ≤ length tokens.now.items.items) }
    ensures further { IfOk result (λ x. at < x.1) }
{
    match innermost(state.stack) {
        None => Err(refused_there(tokens, at, Rule::Syntax)),
        Some((open, around)) => match open {
            Frame::Either(place, branches) => {
                let mut branches = branches;
                branches.push(state.list)?;
                let frame = Frame::Either(place, branches);
                Ok((opened(alloc, around, frame, state.depth)?, at + 1))
            }
            _ => Err(refused_there(tokens, at, Rule::Syntax)),
        },
    }
}

// Past `end` and `if`, after these tests.
#[tactic(auto, using(expr_nodes::proofs::AheadLemmas::ahead_tail))]
fn end_if(
    alloc: Global,
    tokens: &Tokens,
    tests: Vec<Test>,
    test: Test,
    otherwise: Vec<Stmt>,
    around: State,
    at: usize,
) -> Result<(State, usize), Halt>
    requires { at < length tokens.now.items.items }
    ensures read { (ts : List Tree) (t : reader.Tests) (c : p.Sequence) (e : p.Else) (r : placed.Place) → ElseStands ts (tests.items ++ test ∷ []) t c → past_statements otherwise.items ≤ length ts → ((q : placed.Place) → statements_at ts otherwise.items ≡ p.else_statements q e)
        → EndRead tokens.now around at result ts (reader.ends (codes "if") (reader.closed_if t c e r)) }
    ensures inside { IfOk result (λ x. x.1 ≤ length tokens.now.items.items) }
    ensures further { IfOk result (λ x. at < x.1) }
{
    let (last, end) = past_key(tokens, at + 1, PluscalWord::If)?;
    let statement = closed_if(alloc, tests, test, otherwise, last)?;
    Ok((extended(around, statement, Point::Ended)?, end))
}

// Past `end` and `either`, after these branches.
#[tactic(auto, using(expr_nodes::proofs::AheadLemmas::ahead_tail))]
fn end_either(
    tokens: &Tokens,
    place: Place,
    branches: Vec<Vec<Stmt>>,
    list: Vec<Stmt>,
    around: State,
    at: usize,
) -> Result<(State, usize), Halt>
    requires { at < length tokens.now.items.items }
    ensures read { (ts : List Tree) (t : reader.Arms) (c d : p.Sequence) (s r : placed.Place) → EitherStands ts place branches.items (reader.later_arm t c s) → StandsFor list_at past_list p.statements ts list d
        → EndRead tokens.now around at result ts (reader.ends (codes "either") (reader.closed_either t c (p.last_branch s d) r)) }
    ensures inside { IfOk result (λ x. x.1 ≤ length tokens.now.items.items) }
    ensures further { IfOk result (λ x. at < x.1) }
{
    let (last, end) = past_key(tokens, at + 1, PluscalWord::Either)?;
    let mut branches = branches;
    branches.push(list)?;
    let span = Span { first: place, last };
    let statement = Stmt::Either(span, branches);
    Ok((extended(around, statement, Point::Ended)?, end))
}

// Past `end` and `with`.
#[tactic(auto, using(expr_nodes::proofs::AheadLemmas::ahead_tail))]
fn end_with(
    tokens: &Tokens,
    place: Place,
    binds: Vec<Bind>,
    list: Vec<Stmt>,
    around: State,
    at: usize,
) -> Result<(State, usize), Halt>
    requires { at < length tokens.now.items.items }
    ensures read { (ts : List Tree) (c : p.Sequence) (s : placed.Place) (cs : Binds) (u r : placed.Place) → FrameStands ts (frame.With place binds) (reader.in_with s cs u) → StandsFor list_at past_list p.statements ts list c
        → EndRead tokens.now around at result ts (reader.ends (codes "with") (p.with s cs u c r)) }
    ensures inside { IfOk result (λ x. x.1 ≤ length tokens.now.items.items) }
    ensures further { IfOk result (λ x. at < x.1) }
{
    let (last, end) = past_key(tokens, at + 1, PluscalWord::With)?;
    let span = Span { first: place, last };
    let statement = Stmt::With(span, binds, list);
    Ok((extended(around, statement, Point::Ended)?, end))
}

// Past `end` and `while`.
#[tactic(auto, using(expr_nodes::proofs::AheadLemmas::ahead_tail))]
fn end_while(
    tokens: &Tokens,
    place: Place,
    test: NodeId,
    list: Vec<Stmt>,
    around: State,
    at: usize,
) -> Result<(State, usize), Halt>
    requires { at < length tokens.now.items.items }
    ensures read { (ts : List Tree) (c : p.Sequence) (s : placed.Place) (e : Phrase) (u r : placed.Place) → FrameStands ts (frame.While place test) (reader.in_while s e u) → StandsFor list_at past_list p.statements ts list c
        → EndRead tokens.now around at result ts (reader.ends (codes "while") (p.while s e u c r)) }
    ensures inside { IfOk result (λ x. x.1 ≤ length tokens.now.items.items) }
    ensures further { IfOk result (λ x. at < x.1) }
{
    let (last, end) = past_key(tokens, at + 1, PluscalWord::While)?;
    let span = Span { first: place, last };
    let statement = Stmt::While(span, test, list);
    Ok((extended(around, statement, Point::Ended)?, end))
}

// Past `end` and the word of what stood open, with its last list.
fn end_frame(
    alloc: Global,
    tokens: &Tokens,
    kind: Frame,
    list: Vec<Stmt>,
    around: State,
    at: usize,
) -> Result<(State, usize), Halt>
    requires { at < length tokens.now.items.items }
    ensures read { (ts : List Tree) (c : p.Sequence) (g : reader.Frame) → StandsFor list_at past_list p.statements ts list c → FrameStands ts kind g → EndRead tokens.now around at result ts (end_step c g) }
    ensures inside { IfOk result (λ x. x.1 ≤ length tokens.now.items.items) }
    ensures further { IfOk result (λ x. at < x.1) }
{
    match kind {
        Frame::Then(tests, place, test) => {
            let last = Test {
                place,
                test,
                then: list,
            };
            end_if(alloc, tokens, tests, last, Vec::new(alloc), around, at)
        }
        Frame::Else(tests, last) => end_if(alloc, tokens, tests, last, list, around, at),
        Frame::Either(place, branches) => {
            if branches.is_empty() {
                Err(refused_there(tokens, at, Rule::Syntax))
            } else {
                end_either(tokens, place, branches, list, around, at)
            }
        }
        Frame::With(place, binds) => end_with(tokens, place, binds, list, around, at),
        Frame::While(place, test) => end_while(tokens, place, test, list, around, at),
    }
}

/// At `end`: past it and the word of what stands open innermost; where nothing does, the list has ended.
///
/// # Errors
///
/// Where another word is next that can't be there, or for want of memory.
pub fn take_end(
    alloc: Global,
    tokens: &Tokens,
    state: State,
    at: usize,
) -> Result<(Turn, usize), Halt>
    requires { at < length tokens.now.items.items }
    ensures read { (ts : List Tree) (c : p.Sequence) (st : reader.Stack) → StandsFor list_at past_list p.statements ts state.list c → StackStands ts state.stack.items st
        → Told (λ (x : code.Turn × ℕ) (t : reader.Turn). TurnStands ts x.0 t) (λ x. ahead tokens.now x.1) result (closes_by (codes "end") (parts_in tokens.now) c st (ahead tokens.now at)) }
    ensures inside { IfOk result (λ x. x.1 ≤ length tokens.now.items.items) }
    ensures further { IfOk result (PassesOn at) }
{
    match innermost(state.stack) {
        None => Ok((Turn::Done(state.list), at)),
        Some((open, around)) => {
            let (next, end) = end_frame(alloc, tokens, open, state.list, around, at)?;
            Ok((Turn::On(next), end))
        }
    }
}
