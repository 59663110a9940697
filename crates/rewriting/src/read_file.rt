//! A file's algorithm, read in the syntax that it is in; and the file with it in another.

ghost use Rattle.std.specs.Prelude.{◌≡◌, ◌<◌, ◌≤◌, ◌^◌, [], length, codes, nat_eq, None, Some, IfOk, IfErr, if◌then◌else◌};
ghost use Rattle.std.specs.List.{starts_with};
ghost use Rattle.tla_token.specs.declared.rule.Stop.TheVariants as stop;
ghost use Rattle.tla_token.specs.Readings.{IsGivenRefused};
ghost use Rattle.tla_tree.specs.Pool.{Keeps};
ghost use Rattle.tla_expr.specs.Numbers.{NumbersFit};
ghost use Rattle.pcal_tree.specs.InMemory.{algorithm_at, past_algorithm};
ghost use Rattle.pcal_tree.specs.Grammar.{p_syntax, c_syntax};
ghost use Rattle.pcal_tree.specs.Syntaxes.{syntax_of};
ghost use Rattle.module_tree.specs.FileOffences.{splitting_offences};
ghost use Rattle.module_split.specs.Splitting.{Splits};
ghost use Rattle.reading_answer.specs.AlgorithmRead.{AlgorithmRead};
ghost use Rattle.printed_text.specs.Rewrites.{Rewrites};
ghost use Rattle.file_answer.specs.Refusals.{IsStop};
ghost use Rattle.file_answer.specs.Spelling.{AnswersRewriting};
ghost use Rattle.file_answer.specs.Holds.{HoldsTree};
ghost use Rattle.rewriting.specs.TokensRead.{AreOfAlgorithm};

use crate::write_file::rewritten;
use algorithm_limits::left_out_refusal;
use c_syntax::read_c;
use module_split::split::split;
use module_tree::Parts;
use p_syntax::read_p;
use pcal_tree::Syntax;
use pcal_tree::algorithm::Algorithm;
use std::alloc::{AllocError, Global};
use tla_pool::Pool;
use tla_token::{Reading, Refusal, Stop, Tokens, tokens, tokens_as};

// ---- the tokens of the algorithm

// How long the first token of an algorithm is.
fn opening_len(algorithm: &[u8]) -> usize
    ensures { result ≡ (if starts_with nat_eq algorithm.now (codes "--algorithm") then 11 else 6) }
{
    if algorithm.starts_with(b"--algorithm") {
        11
    } else {
        6
    }
}

// Why an algorithm is refused in which a number is too big: the first word or sign that is left out comes before it.
fn first_refusal(alloc: Global, parts: &Parts<'_>, number: Refusal) -> Result<Refusal, Stop>
    requires small { length parts.now.text.now < 2 ^ 29 }
    requires parts { Splits parts.now.text.now parts.now }
    requires fine { splitting_offences parts.now.text.now ≡ [] }
    requires number { IsGivenRefused parts.now.text.now parts.now.algorithm.from parts.now.algorithm.to number }
    ensures answer { IfOk result (λ r. AnswersRewriting parts.now.text.now (Some r)) }
    ensures stopped { IfErr result (λ e. e ≡ stop.Memory) }
{
    let span = parts.algorithm;
    let from = span.from + opening_len(&parts.text[span.from..span.to]);
    let rest = match tokens_as(alloc, parts.text, from, span.to, Reading::Unread) {
        Ok(rest) => rest,
        Err(stop) => return Err(stop),
    };
    match left_out_refusal(&rest) {
        Some(word) => Ok(word),
        None => Ok(number),
    }
}

// The tokens of the algorithm of a file with these parts.
fn algorithm_tokens(alloc: Global, parts: &Parts<'_>) -> Result<Tokens, Stop>
    requires small { length parts.now.text.now < 2 ^ 29 }
    requires parts { Splits parts.now.text.now parts.now }
    requires fine { splitting_offences parts.now.text.now ≡ [] }
    ensures found { IfOk result (λ v. AreOfAlgorithm parts.now.text.now v) }
    ensures numbers { IfOk result (λ v. NumbersFit v) }
    ensures stopped { IfErr result (λ e. IsStop (λ r. AnswersRewriting parts.now.text.now (Some r)) e) }
{
    let span = parts.algorithm;
    match tokens(alloc, parts.text, span.from, span.to) {
        Ok(found) => Ok(found),
        Err(Stop::Memory) => Err(Stop::Memory),
        Err(Stop::Refused(number)) => match first_refusal(alloc, parts, number) {
            Ok(first) => Err(Stop::Refused(first)),
            Err(stop) => Err(stop),
        },
    }
}

// ---- the algorithm

// The algorithm that these tokens are, in C-syntax or in P-syntax.
fn read_in(alloc: Global, tokens: &Tokens, is_c: bool, pool: &mut Pool) -> Result<Algorithm, Stop>
    requires { NumbersFit tokens.now }
    ensures { AlgorithmRead (if is_c then c_syntax else p_syntax) tokens.now pool.old pool.new result }
{
    if is_c {
        read_c(alloc, tokens, pool)
    } else {
        read_p(alloc, tokens, pool)
    }
}

/// The algorithm of a file with these parts, in the syntax that it is in ("A PlusCal User's Manual", appendix A).
///
/// # Errors
///
/// The least of the rules 11 to 15 that the algorithm breaks, at its first place; or want of memory.
pub fn read_parts(alloc: Global, parts: &Parts<'_>, pool: &mut Pool) -> Result<Algorithm, Stop>
    requires small { length parts.now.text.now < 2 ^ 29 }
    requires parts { Splits parts.now.text.now parts.now }
    requires fine { splitting_offences parts.now.text.now ≡ [] }
    ensures kept { Keeps pool.old pool.new }
    ensures past { IfOk result (λ a. past_algorithm a ≤ length pool.new) }
    ensures held { IfOk result (λ a. HoldsTree parts.now.text.now (algorithm_at pool.new a)) }
    ensures clean { IfOk result (λ a. AnswersRewriting parts.now.text.now None) }
    ensures stopped { IfErr result (λ e. IsStop (λ r. AnswersRewriting parts.now.text.now (Some r)) e) }
{
    match algorithm_tokens(alloc, parts) {
        Ok(tokens) => match pool.reserve(tokens.items.len() / 2) {
            Ok(()) => read_in(alloc, &tokens, parts.is_c, pool),
            Err(AllocError) => Err(Stop::Memory),
        },
        Err(stop) => Err(stop),
    }
}

/// The text of a module with its algorithm in this syntax; all other bytes are as they were ("A PlusCal User's Manual", section 2.1 and
/// appendix A).
///
/// # Errors
///
/// The least of the rules 1 to 15 that the text breaks, at its first place; or want of memory.
pub fn rewrite_text(alloc: Global, text: &[u8], to: Syntax) -> Result<Vec<u8>, Stop>
    requires { length text.now < 2 ^ 29 }
    ensures ok { IfOk result (λ w. Rewrites (syntax_of to) text.now w.items) }
    ensures clean { IfOk result (λ w. AnswersRewriting text.now None) }
    ensures stopped { IfErr result (λ e. IsStop (λ r. AnswersRewriting text.now (Some r)) e) }
{
    let parts = match split(alloc, text) {
        Ok(parts) => parts,
        Err(stop) => return Err(stop),
    };
    let mut pool = Pool::new(alloc);
    let algorithm = match read_parts(alloc, &parts, &mut pool) {
        Ok(algorithm) => algorithm,
        Err(stop) => return Err(stop),
    };
    match rewritten(alloc, &parts, &algorithm, &pool, to) {
        Ok(file) => Ok(file),
        Err(AllocError) => Err(Stop::Memory),
    }
}
