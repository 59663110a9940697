//! What P-syntax spells in its own way around lists of statements: bodies, which process it is, and `define`.

ghost use Rattle.std.specs.Prelude.{ℕ, ◌<◌, ◌≤◌, IfOk, length};
ghost use Rattle.tla_token.specs.ReservedWords.{pluscal_spelling};
ghost use Rattle.tla_token.specs.declared.place.Place as placed;
ghost use Rattle.tla_tree.specs.Pool.{Keeps};
ghost use Rattle.expr_nodes.specs.Ahead.{ahead};
ghost use Rattle.tla_expr.specs.Numbers.{NumbersFit};
ghost use Rattle.pcal_tree.specs.Grammar.{body_tree, defined};
ghost use Rattle.algorithm_reader.specs.PartsRead.{ReadsPart, parts_in, Enough, all_defined_at, past_all_defined};
ghost use Rattle.p_reading.specs.ReadAlgorithm.{read_body as body_reader, read_identity as identity_reader, define_from, ways};
ghost use Rattle.p_syntax.specs.StatesRead.{list_at, past_list};
ghost use Rattle.algorithm_reader.specs.RoutinesRead.{identity_at, past_identity, identity_tree};

use crate::sequence::read_sequence;
use algorithm_reader::binds::past_bind_sign;
use algorithm_reader::colon::past_semicolon;
use algorithm_reader::definitions::read_definitions;
use algorithm_reader::expression::read_expression;
use algorithm_reader::token_step::{past_key, past_name};
use algorithm_reader::ways::Ways;
use expr_nodes::cursor::Halt;
use pcal_tree::algorithm::{Definition, Stmt};
use std::alloc::Global;
use tla_pool::Pool;
use tla_token::{PluscalWord, Tokens};
use tla_tree::{NodeId, PlacedName};

/// `begin .. end macro;`, by the word behind `end`.
///
/// # Errors
///
/// Where a token is next that can't be there, or at which too many forms are open; or for want of memory.
pub fn read_body(
    alloc: Global,
    tokens: &Tokens,
    pool: &mut Pool,
    at: usize,
    word: PluscalWord,
) -> Result<(Vec<Stmt>, usize), Halt>
    requires there { at ≤ length tokens.now.items.items }
    requires numbers { NumbersFit tokens.now }
    ensures read { (n : ℕ) → Enough tokens.now at n → ReadsPart list_at past_list body_tree tokens.now pool.new result (body_reader (parts_in tokens.now) n (pluscal_spelling word) (ahead tokens.now at)) }
    ensures kept { Keeps pool.old pool.new }
    ensures inside { IfOk result (λ x. x.1 ≤ length tokens.now.items.items) }
    ensures further { IfOk result (λ x. at < x.1) }
{
    let (_, from) = past_key(tokens, at, PluscalWord::Begin)?;
    let (list, end) = read_sequence(alloc, tokens, pool, from)?;
    let (_, word_at) = past_key(tokens, end, PluscalWord::End)?;
    let (_, last) = past_key(tokens, word_at, word)?;
    let (_, next) = past_semicolon(tokens, last);
    Ok((list, next))
}

/// `P = e` or `P \in S`: the name of a process, whether there are several, and the set of their identifiers or the one.
///
/// # Errors
///
/// As of `read_body`.
pub fn read_identity(
    alloc: Global,
    tokens: &Tokens,
    pool: &mut Pool,
    at: usize,
) -> Result<((PlacedName, bool, NodeId), usize), Halt>
    requires there { at ≤ length tokens.now.items.items }
    requires numbers { NumbersFit tokens.now }
    ensures read { ReadsPart identity_at past_identity identity_tree tokens.now pool.new result (identity_reader (parts_in tokens.now) (ahead tokens.now at)) }
    ensures kept { Keeps pool.old pool.new }
    ensures inside { IfOk result (λ x. x.1 ≤ length tokens.now.items.items) }
    ensures further { IfOk result (λ x. at < x.1) }
{
    let (name, sign_at) = past_name(alloc, tokens, at)?;
    let (several, from) = past_bind_sign(tokens, sign_at)?;
    let (identity, end) = read_expression(alloc, tokens, pool, from)?;
    Ok(((name, several, identity), end))
}

/// The definitions of `define .. end define;`, behind its first word.
///
/// # Errors
///
/// As of `read_body`.
pub fn read_define(
    alloc: Global,
    tokens: &Tokens,
    pool: &mut Pool,
    at: usize,
) -> Result<(Vec<Definition>, usize), Halt>
    requires there { at ≤ length tokens.now.items.items }
    requires numbers { NumbersFit tokens.now }
    ensures read { (n : ℕ) (p : placed.Place) → Enough tokens.now at n → ReadsPart all_defined_at past_all_defined defined tokens.now pool.new result (define_from (parts_in tokens.now) n p (ahead tokens.now at)) }
    ensures kept { Keeps pool.old pool.new }
    ensures inside { IfOk result (λ x. x.1 ≤ length tokens.now.items.items) }
    ensures further { IfOk result (λ x. at < x.1) }
{
    let (list, end) = read_definitions(alloc, tokens, pool, at)?;
    let (_, word_at) = past_key(tokens, end, PluscalWord::End)?;
    let (_, last) = past_key(tokens, word_at, PluscalWord::Define)?;
    let (_, next) = past_semicolon(tokens, last);
    Ok((list, next))
}

/// What P-syntax spells in its own way.
pub struct PSyntax;

impl Ways for PSyntax {
    ghost readers = { ways };

    fn body(
        alloc: Global,
        tokens: &Tokens,
        pool: &mut Pool,
        at: usize,
        word: PluscalWord,
    ) -> Result<(Vec<Stmt>, usize), Halt> {
        read_body(alloc, tokens, pool, at, word)
    }

    fn identity(
        alloc: Global,
        tokens: &Tokens,
        pool: &mut Pool,
        at: usize,
    ) -> Result<((PlacedName, bool, NodeId), usize), Halt> {
        read_identity(alloc, tokens, pool, at)
    }

    fn definitions(
        alloc: Global,
        tokens: &Tokens,
        pool: &mut Pool,
        at: usize,
    ) -> Result<(Vec<Definition>, usize), Halt> {
        read_define(alloc, tokens, pool, at)
    }
}
