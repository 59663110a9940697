//! The kind of token that a part of a text is.

ghost use Rattle.std.specs.Prelude.{◌≡◌, true, false, ℕ, List, ◌+◌, ◌^◌, ◌≤◌, Some, length, take, drop, option_map, is_some, IfSome};
ghost use Rattle.tla_token.specs.declared.part.Class as class;
ghost use Rattle.tla_token.specs.declared.token.Span as code_span;
ghost use Rattle.tla_token.specs.Lexemes.{name, number_of, unquoted};
ghost use Rattle.tla_token.specs.Scan.{is_quoted, inner, part_of};
ghost use Rattle.tla_token.specs.KeptWords.{is_kept};
ghost use Rattle.tla_token.specs.TokensSeen.{kind_seen, part_kind, span_bytes, IsCanonical};

use crate::bytes::number_value;
use crate::part::{Class, Part};
use crate::token::{Kind, Span};
use crate::word::{begins_fairness, pluscal_word_of, tla_word_of};

// Which name or reserved word a word is.
#[tactic(auto, using(crate::proofs::KeptLemmas::keeps_pluscal, crate::proofs::KeptLemmas::keeps_tla, crate::proofs::KeptLemmas::keeps_fairness, crate::proofs::KeptLemmas::keeps_name))]
fn word_kind(word: &[u8], span: Span) -> Kind
    ensures seen { (bytes : List ℕ) → span_bytes bytes span ≡ word.now → kind_seen bytes result ≡ name word.now }
    ensures kept { (bytes : List ℕ) → span_bytes bytes span ≡ word.now → is_kept bytes result ≡ true }
{
    if let Some(word) = pluscal_word_of(word) {
        return Kind::PluscalWord(span, word);
    }
    if let Some(word) = tla_word_of(word) {
        return Kind::TlaWord(span, word);
    }
    if begins_fairness(word) {
        Kind::Fairness(span)
    } else {
        Kind::Name(span)
    }
}

/// The kind of token that a part is, at an index.
#[tactic(auto, using(crate::proofs::KeptLemmas::keeps_number, crate::proofs::KeptLemmas::keeps_digits, crate::proofs::KeptLemmas::keeps_text, crate::proofs::KeptLemmas::keeps_sign, crate::proofs::KeptLemmas::keeps_other, crate::proofs::TokenKinds::span_whole, crate::proofs::TokenKinds::span_inner, crate::proofs::TokenKinds::number_fits, crate::proofs::TokenKinds::number_past))]
pub fn kind_at(bytes: &[u8], at: usize, part: Part) -> Option<Kind>
    requires within { at + part.len ≤ length bytes.now }
    requires quoted { is_quoted part.class ≡ true → 2 ≤ part.len }
    ensures kind { option_map (kind_seen bytes.now) result ≡ part_kind (part_of part.class (take part.len (drop at bytes.now))) }
    ensures canonical { (part.class ≡ Class.Text → is_some (unquoted (inner (take part.len (drop at bytes.now)))) ≡ true) → IfSome result (λ k. IsCanonical bytes.now k) }
    ensures kept { IfSome result (λ k. is_kept bytes.now k ≡ true) }
    ensures big { (s : code_span.Span) → result ≡ Some (Kind.BigNumber s) → 2 ^ 128 ≤ number_of (span_bytes bytes.now s) }
{
    let span = Span {
        from: at,
        to: at + part.len,
    };
    match part.class {
        Class::Name => Some(word_kind(&bytes[span.from..span.to], span)),
        Class::Number => match number_value(&bytes[span.from..span.to]) {
            Some(n) => Some(Kind::Number(n)),
            None => Some(Kind::BigNumber(span)),
        },
        Class::Text => Some(Kind::Text(Span {
            from: span.from + 1,
            to: span.to - 1,
        })),
        Class::Sign(sign) => Some(Kind::Sign(sign)),
        Class::Other => Some(Kind::Other(span)),
        _ => None,
    }
}
