//! Laws of the refusals of an algorithm's tokens, stated as what functions without a body ensure.

ghost use Rattle.std.specs.Prelude.{◌≡◌, ◌+◌, ◌≤◌, ◌++◌, ℕ, List, [], Option, Some, length, filter};
ghost use Rattle.tla_token.specs.declared.place.Place.{Place};
ghost use Rattle.tla_token.specs.declared.rule.Refusal.{Refusal};
ghost use Rattle.tla_token.specs.Rules.{rule_number};
ghost use Rattle.tla_token.specs.Tokens.{Token, TokAlgorithm};
ghost use Rattle.tla_token.specs.AlgorithmOffences.{number_offences, algorithm_offences};
ghost use Rattle.pcal_tree.specs.Grammar as grammar;
ghost use Rattle.pcal_tree.specs.Offences.{first};
ghost use Rattle.pcal_tree.specs.OffencesSyntax.{RefusesTokens};
ghost use Rattle.algorithm_answer.specs.TokensRefused.{placed, token_refusals};
ghost use Rattle.algorithm_answer.specs.Answered.{or_counts, of_spelling, AreAnswered};

/// What the tokens of an algorithm in a text offend at their places is what they offend at their bytes, where no number is past
/// the limit and no string holds a mark of a comment.
pub fn tokens_are_refused_at_their_places()
    ensures { (text : List ℕ) (from to : ℕ) (ts : List Token) (t : TokAlgorithm text from to ts) → from + length t.opening ≤ length text → number_offences ts ≡ [] → placed text (algorithm_offences ts) ≡ token_refusals ts }
{}

/// The rules by which tokens are answered are among those on how an algorithm is spelled: no other rule changes the answer.
pub fn tokens_are_answered_by_spelling()
    ensures { (s : grammar.Syntax) (ts : List Token) (end : Place) (answer : Option Refusal) (a : AreAnswered s ts end answer) → answer ≡ first (filter of_spelling (token_refusals ts ++ or_counts a.syntax a.counts)) }
{}

/// An answer by the rule on how many forms may be open (14) or by that of the grammar (15) is where reading the tokens stops: all others are
/// by rules before these.
pub fn late_answers_are_where_reading_stops()
    ensures { (s : grammar.Syntax) (ts : List Token) (end : Place) (r : Refusal) → AreAnswered s ts end (Some r) → 14 ≤ rule_number r.rule → RefusesTokens s ts end r }
{}
