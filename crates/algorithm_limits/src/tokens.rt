//! Words and signs of an algorithm that are left out, and too many tokens.

ghost use Rattle.std.specs.Prelude.{◌≡◌, true, ℕ, [], ◌∷◌, map, drop};
ghost use Rattle.tla_token.specs.declared.place.Place.{Place};
ghost use Rattle.tla_token.specs.Lexemes.{one};
ghost use Rattle.tla_token.specs.AlgorithmOffences.{left_out_words, begins_path, is_left_out};
ghost use Rattle.tla_token.specs.Signs.{is_among as is_among_of};
ghost use Rattle.tla_token.specs.ReservedWords.{tla_spelling};
ghost use Rattle.tla_token.specs.KeptWords.{is_kept};
ghost use Rattle.tla_token.specs.TokensSeen.{kind_seen, token_seen, tokens_seen};
ghost use Rattle.pcal_tree.specs.Offences.{first};
ghost use Rattle.algorithm_answer.specs.TokensRefused.{left_out_at, past_tokens_at, token_refusals};

use crate::order::{least, or_offence};
use tla_token::{Kind, Refusal, Rule, Sign, TlaWord, Token, Tokens};

// How many tokens an algorithm may have.
const MOST_TOKENS: usize = 65536;

// Whether a reserved word of TLA+ is left out.
#[tactic(auto, using(crate::proofs::LeftOutWords::word_kept))]
fn is_left_out_word(word: TlaWord) -> bool
    ensures { result ≡ is_among_of left_out_words (tla_spelling word) }
{
    match word {
        TlaWord::Choose
        | TlaWord::Lambda
        | TlaWord::Recursive
        | TlaWord::Instance
        | TlaWord::Enabled
        | TlaWord::Unchanged => true,
        _ => false,
    }
}

// Whether a path of an `EXCEPT` goes on with a sign.
#[tactic(auto, using(crate::proofs::TokensFound::path_by_bracket, crate::proofs::TokensFound::path_by_dot, crate::proofs::TokensFound::path_by_none))]
fn is_path_sign(sign: Sign) -> bool
    ensures { (at : ℕ) (p : Place) → result ≡ begins_path (record { kind = one sign; at = at; place = p } ∷ []) }
{
    match sign {
        Sign::OpenSquare => true,
        Sign::Dot => true,
        _ => false,
    }
}

// Whether a path goes on with a token.
fn is_path_token(tokens: &Tokens, token: Token) -> bool
    ensures { result ≡ begins_path (token_seen tokens.now.bytes.items token ∷ []) }
{
    match token.kind {
        Kind::Sign(sign) => is_path_sign(sign),
        _ => false,
    }
}

// Whether a path goes on with the token of this number.
#[tactic(auto, using(crate::proofs::TokensFound::path_there, crate::proofs::TokensFound::path_behind))]
fn begins_path(tokens: &Tokens, at: usize) -> bool
    ensures { result ≡ begins_path (map (token_seen tokens.now.bytes.items) (drop at tokens.now.items.items)) }
{
    if at < tokens.items.len() {
        is_path_token(tokens, tokens.items[at])
    } else {
        false
    }
}

// Whether a sign is left out, before the token of this number.
#[tactic(auto, using(crate::proofs::TokensFound::bang_left_out, crate::proofs::TokensFound::other_kept))]
fn is_left_out_sign(tokens: &Tokens, sign: Sign, next: usize) -> bool
    ensures { result ≡ is_left_out (one sign) (map (token_seen tokens.now.bytes.items) (drop next tokens.now.items.items)) }
{
    match sign {
        Sign::Bang => !begins_path(tokens, next),
        _ => false,
    }
}

// Whether a token is left out, before the token of this number.
fn is_left_out(tokens: &Tokens, token: Token, next: usize) -> bool
    requires { is_kept tokens.now.bytes.items token.kind ≡ true }
    ensures { result ≡ is_left_out (kind_seen tokens.now.bytes.items token.kind) (map (token_seen tokens.now.bytes.items) (drop next tokens.now.items.items)) }
{
    match token.kind {
        Kind::TlaWord(_, word) => is_left_out_word(word),
        Kind::Fairness(_) => true,
        Kind::Other(_) => true,
        Kind::Sign(sign) => is_left_out_sign(tokens, sign, next),
        _ => false,
    }
}

/// The first word or sign of an algorithm's tokens that is left out.
#[tactic(auto, using(tla_token::proofs::KeptLemmas::kept_there, crate::proofs::TokensFound::found_more, crate::proofs::TokensFound::found_all))]
pub fn left_out_refusal(tokens: &Tokens) -> Option<Refusal>
    ensures { result ≡ first (left_out_at (tokens_seen tokens.now)) }
{
    let mut found = None;
    for i in 0..tokens.items.len() {
        let token = tokens.items[i];
        let is_out = is_left_out(tokens, token, i + 1);
        found = or_offence(found, is_out, Rule::LeftOutWord, token.place);
    }
    found
}

/// The first of an algorithm's tokens that is past the limit.
#[tactic(auto, using(crate::proofs::TokensFound::none_past, crate::proofs::TokensFound::one_past))]
pub fn past_tokens_refusal(tokens: &Tokens) -> Option<Refusal>
    ensures { result ≡ first (past_tokens_at (tokens_seen tokens.now)) }
{
    if tokens.items.len() <= MOST_TOKENS {
        return None;
    }
    Some(Refusal {
        rule: Rule::TooMany,
        place: tokens.items[MOST_TOKENS].place,
    })
}

/// The first offence of an algorithm's tokens one by one, whatever they spell.
#[tactic(auto, using(algorithm_answer::proofs::Joins::first_append))]
pub fn tokens_refusal(tokens: &Tokens) -> Option<Refusal>
    ensures { result ≡ first (token_refusals (tokens_seen tokens.now)) }
{
    least(left_out_refusal(tokens), past_tokens_refusal(tokens))
}
