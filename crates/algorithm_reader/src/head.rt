//! Reading how an algorithm begins: `--algorithm`, or `--fair algorithm`; and the reserved words that begin its parts.

ghost use Rattle.std.specs.Prelude.{◌≡◌, ◌<◌, ◌≤◌, IfOk, IfSome, IfNone, true, false, length};
ghost use Rattle.tla_token.specs.ReservedWords.{pluscal_spelling};
ghost use Rattle.tla_tree.specs.Reader as reader;
ghost use Rattle.expr_nodes.specs.Ahead.{ahead};
ghost use Rattle.pcal_tree.specs.Grammar.{is_fair};
ghost use Rattle.syntax_reading.specs.TokenReaders.{first, is_reserved};
ghost use Rattle.syntax_reading.specs.ReadAround.{read_head as head_reader};
ghost use Rattle.algorithm_reader.specs.PartsRead.{ReadsWords, itself};
ghost use Rattle.algorithm_reader.specs.RoutinesRead.{is_plain};

use crate::token_step::{behind, is_next_word, next_token, past_key, refused_there};
use expr_nodes::cursor::Halt;
use expr_nodes::view::View;
use tla_token::{PluscalWord, Rule, Tokens};

// Whether this word is next, which isn't reserved.
fn is_next_plain(tokens: &Tokens, at: usize, word: &[u8]) -> bool
    requires { at ≤ length tokens.now.items.items }
    ensures { result ≡ is_plain word.now (first (ahead tokens.now at)).kind }
{
    match next_token(tokens, at).view {
        View::Word(span) => word == tokens.word(span),
        _ => false,
    }
}

/// Past `--algorithm` or `--fair algorithm`: whether it is fair.
///
/// # Errors
///
/// Where another token is next.
pub fn read_head(tokens: &Tokens, at: usize) -> Result<(bool, usize), Halt>
    requires { at ≤ length tokens.now.items.items }
    ensures read { ReadsWords itself is_fair tokens.now result (head_reader (ahead tokens.now at)) }
    ensures inside { IfOk result (λ x. x.1 ≤ length tokens.now.items.items) }
    ensures further { IfOk result (λ x. at ≤ x.1) }
{
    let next = behind(tokens, at);
    if is_next_plain(tokens, at, b"--algorithm") {
        Ok((false, next))
    } else if is_next_plain(tokens, at, b"--fair") {
        let (_, end) = past_key(tokens, next, PluscalWord::Algorithm)?;
        Ok((true, end))
    } else {
        Err(refused_there(tokens, at, Rule::Syntax))
    }
}

/// The number of the token after this reserved word, where it is next.
#[tactic(auto, using(expr_nodes::proofs::AheadLemmas::ahead_tail))]
pub fn after_word(tokens: &Tokens, at: usize, word: PluscalWord) -> Option<usize>
    requires { at ≤ length tokens.now.items.items }
    ensures there { IfSome result (λ i. is_reserved (pluscal_spelling word) (first (ahead tokens.now at)).kind ≡ true) }
    ensures rest { IfSome result (λ i. ahead tokens.now i ≡ reader.tail (ahead tokens.now at)) }
    ensures inside { IfSome result (λ i. i ≤ length tokens.now.items.items) }
    ensures further { IfSome result (λ i. at < i) }
    ensures none { IfNone result (is_reserved (pluscal_spelling word) (first (ahead tokens.now at)).kind ≡ false) }
{
    if at < tokens.items.len() && is_next_word(tokens, at, word) {
        Some(at + 1)
    } else {
        None
    }
}
