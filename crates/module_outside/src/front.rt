//! The token of a number: what it is.

ghost use Rattle.std.specs.Prelude.{◌≡◌, ◌+◌, ◌≤◌, ◌<◌, length, IfOk, IsTrue, [], ◌∷◌};
ghost use Rattle.tla_tree.specs.Lexical as tk;
ghost use Rattle.tla_tree.specs.TokenViews.{kind_of};
ghost use Rattle.tla_token.specs.TokensSeen.{kind_seen};
ghost use Rattle.expr_nodes.specs.Ahead.{ahead};
ghost use Rattle.expr_nodes.specs.ViewSeen.{mark_seen, view_seen};
ghost use Rattle.module_outside.specs.Fronts.{front_name, front_mark, front_right, front_keyword, front_placed};

use expr_nodes::cursor::{Next, Word, is_mark};
use expr_nodes::gather::placed;
use expr_nodes::view::{Mark, View, view_of};
use std::alloc::{AllocError, Global};
use tla_token::Tokens;
use tla_tree::PlacedName;

/// What a token is, and where.
#[tactic(auto, using(tla_token::proofs::KeptLemmas::kept_there, crate::proofs::FrontLaws::ahead_there))]
pub fn token_at(tokens: &Tokens, at: usize) -> Next
    requires { at < length tokens.now.items.items }
    ensures { ahead tokens.now at ≡ tk.token result.place (view_seen tokens.now.bytes.items result.view) ∷ ahead tokens.now (at + 1) }
{
    let token = tokens.items[at];
    Next {
        place: token.place,
        view: view_of(tokens, token),
    }
}

/// The name that a token is, if it is one.
///
/// # Errors
///
/// Only for want of memory.
#[tactic(auto, using(crate::proofs::FrontLaws::ahead_end))]
pub fn name_at(alloc: Global, tokens: &Tokens, at: usize) -> Result<Option<PlacedName>, AllocError>
    ensures value { IfOk result (λ r. r ≡ front_name (ahead tokens.now at)) }
{
    if at >= tokens.items.len() {
        return Ok(None);
    }
    let token = token_at(tokens, at);
    match token.view {
        View::Word(span) if token.place.col > 0 => {
            let word = Word {
                place: token.place,
                span,
            };
            Ok(Some(placed(alloc, tokens, word)?))
        }
        _ => Ok(None),
    }
}

/// Whether a token is this mark.
#[tactic(auto, using(crate::proofs::FrontLaws::ahead_end))]
pub fn is_mark_at(tokens: &Tokens, at: usize, mark: Mark) -> bool
    ensures value { result ≡ front_mark (mark_seen mark) (ahead tokens.now at) }
    ensures there { IsTrue result → at < length tokens.now.items.items }
{
    if at >= tokens.items.len() {
        return false;
    }
    is_mark(mark, token_at(tokens, at).view)
}

/// Whether a token is in a column, as all are.
#[tactic(auto, using(crate::proofs::FrontLaws::ahead_end))]
pub fn is_right_at(tokens: &Tokens, at: usize) -> bool
    ensures value { result ≡ front_right (ahead tokens.now at) }
{
    if at >= tokens.items.len() {
        return false;
    }
    token_at(tokens, at).place.col > 0
}

/// Whether a token is this word, which stands in no expression.
#[tactic(auto, using(crate::proofs::FrontLaws::ahead_end))]
pub fn is_keyword_at(tokens: &Tokens, at: usize, word: &[u8]) -> bool
    ensures { result ≡ front_keyword word.now (ahead tokens.now at) }
{
    if at >= tokens.items.len() {
        return false;
    }
    match token_at(tokens, at).view {
        View::Other(span) => tokens.word(span) == word,
        _ => false,
    }
}

/// Whether a token is this mark, in a column, as all are.
pub fn is_placed_at(tokens: &Tokens, at: usize, mark: Mark) -> bool
    ensures value { result ≡ front_placed (mark_seen mark) (ahead tokens.now at) }
    ensures there { IsTrue result → at < length tokens.now.items.items }
{
    is_mark_at(tokens, at, mark) && is_right_at(tokens, at)
}
