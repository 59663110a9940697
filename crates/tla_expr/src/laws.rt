//! Laws of reading, stated as what functions without a body ensure.

ghost use Rattle.std.specs.Prelude.{◌≡◌, ℕ, List, None};
ghost use Rattle.tla_token.specs.declared.token.Tokens as code_tokens;
ghost use Rattle.tla_token.specs.Tokens as text;
ghost use Rattle.tla_token.specs.Readings.{AreTokens, given_offence};
ghost use Rattle.tla_token.specs.TokensSeen.{tokens_seen};
ghost use Rattle.tla_tree.specs.laws.Writable.{AreSmall};
ghost use Rattle.tla_expr.specs.Numbers.{NumbersFit};

/// The tokens that `tokens` gives have no number of 2^127 or more: as the tokens of a text, and as an expression is read from them.
pub fn given_numbers_fit()
    ensures text { (w : List ℕ) (from to : ℕ) (ts : List text.Token) → AreTokens w from to ts → given_offence w from to ≡ None → AreSmall ts }
    ensures read { (w : List ℕ) (from to : ℕ) (v : code_tokens.Tokens) → AreTokens w from to (tokens_seen v) → given_offence w from to ≡ None → NumbersFit v }
{}
