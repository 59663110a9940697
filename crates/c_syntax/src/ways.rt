//! What C-syntax spells in its own way: bodies, which process it is, and `define`.

ghost use Rattle.std.specs.Prelude.{ℕ, ◌<◌, ◌≤◌, IfOk, length};
ghost use Rattle.tla_token.specs.declared.place.Place as placed;
ghost use Rattle.tla_tree.specs.Pool.{Keeps};
ghost use Rattle.expr_nodes.specs.Ahead.{ahead};
ghost use Rattle.tla_expr.specs.Numbers.{NumbersFit};
ghost use Rattle.pcal_tree.specs.Grammar.{body_tree, defined};
ghost use Rattle.algorithm_reader.specs.PartsRead.{ReadsPart, parts_in, Enough, all_defined_at, past_all_defined};
ghost use Rattle.c_syntax.specs.StatesRead.{list_at, past_list};
ghost use Rattle.c_reading.specs.ReadAlgorithm.{read_body as body_reader, read_identity as identity_reader, define_from, ways};
ghost use Rattle.algorithm_reader.specs.RoutinesRead.{identity_at, past_identity, identity_tree};

use crate::sequence::read_sequence;
use algorithm_reader::binds::past_bind_sign;
use algorithm_reader::colon::past_semicolon;
use algorithm_reader::definitions::read_definitions;
use algorithm_reader::expression::read_expression;
use algorithm_reader::token_step::{past_mark, past_name};
use algorithm_reader::ways::Ways;
use expr_nodes::cursor::Halt;
use expr_nodes::view::Mark;
use pcal_tree::algorithm::{Definition, Stmt};
use std::alloc::Global;
use tla_pool::Pool;
use tla_token::{PluscalWord, Tokens};
use tla_tree::{NodeId, PlacedName};

/// The body of a macro, a procedure or a process: `{ .. }`, and a `;` if it is next.
///
/// # Errors
///
/// Where a token is next that can't be there, or too many forms are open; or for want of memory.
pub fn read_body(
    alloc: Global,
    tokens: &Tokens,
    pool: &mut Pool,
    at: usize,
) -> Result<(Vec<Stmt>, usize), Halt>
    requires there { at ≤ length tokens.now.items.items }
    requires numbers { NumbersFit tokens.now }
    ensures read { (n : ℕ) → Enough tokens.now at n → ReadsPart list_at past_list body_tree tokens.now pool.new result (body_reader (parts_in tokens.now) n (ahead tokens.now at)) }
    ensures kept { Keeps pool.old pool.new }
    ensures inside { IfOk result (λ x. x.1 ≤ length tokens.now.items.items) }
    ensures further { IfOk result (λ x. at < x.1) }
{
    let (_, next) = past_mark(tokens, at, Mark::OpenBrace)?;
    let (list, next) = read_sequence(alloc, tokens, pool, next)?;
    let (_, next) = past_mark(tokens, next, Mark::CloseBrace)?;
    let (_, end) = past_semicolon(tokens, next);
    Ok((list, end))
}

/// The definitions of `define`, behind that word: `{ .. }`, and a `;` if it is next.
///
/// # Errors
///
/// As of `read_body`.
pub fn read_define(
    alloc: Global,
    tokens: &Tokens,
    pool: &mut Pool,
    at: usize,
) -> Result<(Vec<Definition>, usize), Halt>
    requires there { at ≤ length tokens.now.items.items }
    requires numbers { NumbersFit tokens.now }
    ensures read { (n : ℕ) (p : placed.Place) → Enough tokens.now at n → ReadsPart all_defined_at past_all_defined defined tokens.now pool.new result (define_from (parts_in tokens.now) n p (ahead tokens.now at)) }
    ensures kept { Keeps pool.old pool.new }
    ensures inside { IfOk result (λ x. x.1 ≤ length tokens.now.items.items) }
    ensures further { IfOk result (λ x. at < x.1) }
{
    let (_, next) = past_mark(tokens, at, Mark::OpenBrace)?;
    let (list, next) = read_definitions(alloc, tokens, pool, next)?;
    let (_, next) = past_mark(tokens, next, Mark::CloseBrace)?;
    let (_, end) = past_semicolon(tokens, next);
    Ok((list, end))
}

/// Which process it is: `(x = e)` or `(x \in S)`, as its name, whether there are several, and the identifier or the set of them.
///
/// # Errors
///
/// As of `read_body`.
pub fn read_identity(
    alloc: Global,
    tokens: &Tokens,
    pool: &mut Pool,
    at: usize,
) -> Result<((PlacedName, bool, NodeId), usize), Halt>
    requires there { at ≤ length tokens.now.items.items }
    requires numbers { NumbersFit tokens.now }
    ensures read { ReadsPart identity_at past_identity identity_tree tokens.now pool.new result (identity_reader (parts_in tokens.now) (ahead tokens.now at)) }
    ensures kept { Keeps pool.old pool.new }
    ensures inside { IfOk result (λ x. x.1 ≤ length tokens.now.items.items) }
    ensures further { IfOk result (λ x. at < x.1) }
{
    let (_, next) = past_mark(tokens, at, Mark::OpenBracket)?;
    let (name, next) = past_name(alloc, tokens, next)?;
    let (several, next) = past_bind_sign(tokens, next)?;
    let (identifier, next) = read_expression(alloc, tokens, pool, next)?;
    let (_, end) = past_mark(tokens, next, Mark::CloseBracket)?;
    Ok(((name, several, identifier), end))
}

/// What C-syntax spells in its own way.
pub struct CSyntax;

impl Ways for CSyntax {
    ghost readers = { ways };

    fn body(
        alloc: Global,
        tokens: &Tokens,
        pool: &mut Pool,
        at: usize,
        _word: PluscalWord,
    ) -> Result<(Vec<Stmt>, usize), Halt> {
        read_body(alloc, tokens, pool, at)
    }

    fn identity(
        alloc: Global,
        tokens: &Tokens,
        pool: &mut Pool,
        at: usize,
    ) -> Result<((PlacedName, bool, NodeId), usize), Halt> {
        read_identity(alloc, tokens, pool, at)
    }

    fn definitions(
        alloc: Global,
        tokens: &Tokens,
        pool: &mut Pool,
        at: usize,
    ) -> Result<(Vec<Definition>, usize), Halt> {
        read_define(alloc, tokens, pool, at)
    }
}
