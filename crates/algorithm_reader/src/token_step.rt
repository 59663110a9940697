//! Steps over single tokens of an algorithm, wherever in their lines they are: what is next, and past a word or mark.

ghost use Rattle.std.specs.Prelude.{◌≡◌, ℕ, List, ◌<◌, ◌≤◌, IfOk, IfSome, IfNone, true, false, length, is_some};
ghost use Rattle.std.specs.List.{position_or_len};
ghost use Rattle.std.specs.Str.{bytes_eq};
ghost use Rattle.tla_token.specs.ReservedWords.{pluscal_spelling, all_pluscal_words};
ghost use Rattle.tla_token.specs.KeptWords.{is_kept};
ghost use Rattle.tla_token.specs.TokensSeen.{kind_seen};
ghost use Rattle.tla_tree.specs.TokenViews.{kind_of};
ghost use Rattle.tla_tree.specs.Lexical.{token};
ghost use Rattle.tla_tree.specs.Reader as reader;
ghost use Rattle.expr_nodes.specs.ViewSeen.{mark_seen, view_seen};
ghost use Rattle.expr_nodes.specs.ReadIn.{Gives};
ghost use Rattle.expr_nodes.specs.Ahead.{ahead};
ghost use Rattle.expr_nodes.specs.declared.cursor.Halt.TheVariants as halt;
ghost use Rattle.syntax_reading.specs.TokenReaders.{first, a_key, a_mark, a_name, is_reserved, name_of};

use expr_nodes::cursor::{Halt, Next, is_mark};
use expr_nodes::make::name_of as word_name;
use expr_nodes::spot::{Spot, after, refused};
use expr_nodes::view::{Mark, View, view_of};
use std::alloc::Global;
use tla_token::{Kind, Place, PluscalWord, Rule, Span, Tokens};
use tla_tree::PlacedName;

// With all that is read wherever it is.
fn spot(at: usize) -> Spot
    ensures { result.at ≡ at }
{
    Spot {
        at,
        edge: 0,
        left: 0,
        linked: true,
    }
}

/// The next token; at the end, one that is no token of an algorithm.
#[tactic(auto, using(tla_token::proofs::KeptLemmas::kept_there))]
pub fn next_token(tokens: &Tokens, at: usize) -> Next
    requires { at ≤ length tokens.now.items.items }
    ensures { token result.place (view_seen tokens.now.bytes.items result.view) ≡ first (ahead tokens.now at) }
{
    if at < tokens.items.len() {
        let t = tokens.items[at];
        Next {
            place: t.place,
            view: view_of(tokens, t),
        }
    } else {
        Next {
            place: Place { line: 0, col: 0 },
            view: View::Other(Span { from: 0, to: 0 }),
        }
    }
}

/// The number of the token after that, if there is one.
pub fn behind(tokens: &Tokens, at: usize) -> usize
    requires { at ≤ length tokens.now.items.items }
    ensures rest { ahead tokens.now result ≡ reader.tail (ahead tokens.now at) }
    ensures inside { result ≤ length tokens.now.items.items }
    ensures no_less { at ≤ result }
{
    after(tokens, spot(at))
}

/// Refused at this token, as no algorithm has it there.
pub fn refused_there(tokens: &Tokens, at: usize, rule: Rule) -> Halt
    requires { at ≤ length tokens.now.items.items }
    ensures { result ≡ halt.Refused rule (length (ahead tokens.now at)) }
{
    refused(tokens, spot(at), rule)
}

/// Past this mark: its place.
///
/// # Errors
///
/// Where another token is next.
pub fn past_mark(tokens: &Tokens, at: usize, mark: Mark) -> Result<(Place, usize), Halt>
    requires { at ≤ length tokens.now.items.items }
    ensures value { Gives (λ x. (x.0, ahead tokens.now x.1)) result (a_mark (mark_seen mark) (ahead tokens.now at)) }
    ensures inside { IfOk result (λ x. x.1 ≤ length tokens.now.items.items) }
    ensures further { IfOk result (λ x. at ≤ x.1) }
{
    let t = next_token(tokens, at);
    if is_mark(mark, t.view) {
        Ok((t.place, behind(tokens, at)))
    } else {
        Err(refused_there(tokens, at, Rule::Syntax))
    }
}

/// Whether this reserved word of PlusCal is next.
#[tactic(auto, using(tla_token::proofs::KeptLemmas::kept_there, crate::proofs::WordsNext::word_there, crate::proofs::WordsNext::no_word_there))]
pub fn is_next_word(tokens: &Tokens, at: usize, word: PluscalWord) -> bool
    requires { at ≤ length tokens.now.items.items }
    ensures { result ≡ is_reserved (pluscal_spelling word) (first (ahead tokens.now at)).kind }
{
    at < tokens.items.len() && is_word(tokens.items[at].kind, word)
}

// Whether a token is this reserved word of PlusCal.
#[tactic(auto, using(crate::proofs::WordsNext::unreserved_next))]
fn is_word(kind: Kind, word: PluscalWord) -> bool
    ensures { (bytes : List ℕ) → is_kept bytes kind ≡ true → result ≡ is_reserved (pluscal_spelling word) (kind_of (kind_seen bytes kind)) }
{
    match kind {
        Kind::PluscalWord(_, other) => is_same(other, word),
        _ => false,
    }
}

// Whether two words are one.
fn is_same(one: PluscalWord, other: PluscalWord) -> bool
    ensures { result ≡ bytes_eq (pluscal_spelling other) (pluscal_spelling one) }
{
    word_number(one) == word_number(other)
}

// The number of a word.
fn word_number(word: PluscalWord) -> u8
    ensures { result ≡ position_or_len (λ w. bytes_eq (pluscal_spelling w) (pluscal_spelling word)) all_pluscal_words }
{
    match word {
        PluscalWord::Algorithm => 0,
        PluscalWord::Assert => 1,
        PluscalWord::Await => 2,
        PluscalWord::Begin => 3,
        PluscalWord::Call => 4,
        PluscalWord::Define => 5,
        PluscalWord::Do => 6,
        PluscalWord::Either => 7,
        PluscalWord::Else => 8,
        PluscalWord::Elsif => 9,
        PluscalWord::End => 10,
        PluscalWord::Fair => 11,
        PluscalWord::Goto => 12,
        PluscalWord::If => 13,
        PluscalWord::Macro => 14,
        PluscalWord::Or => 15,
        PluscalWord::Print => 16,
        PluscalWord::Procedure => 17,
        PluscalWord::Process => 18,
        PluscalWord::Return => 19,
        PluscalWord::Skip => 20,
        PluscalWord::Then => 21,
        PluscalWord::Variable => 22,
        PluscalWord::Variables => 23,
        PluscalWord::When => 24,
        PluscalWord::While => 25,
        PluscalWord::With => 26,
    }
}

/// Past this reserved word of PlusCal: its place.
///
/// # Errors
///
/// Where another token is next.
pub fn past_key(tokens: &Tokens, at: usize, word: PluscalWord) -> Result<(Place, usize), Halt>
    requires { at ≤ length tokens.now.items.items }
    ensures value { Gives (λ x. (x.0, ahead tokens.now x.1)) result (a_key (pluscal_spelling word) (ahead tokens.now at)) }
    ensures inside { IfOk result (λ x. x.1 ≤ length tokens.now.items.items) }
    ensures further { IfOk result (λ x. at ≤ x.1) }
{
    if is_next_word(tokens, at, word) {
        Ok((next_token(tokens, at).place, behind(tokens, at)))
    } else {
        Err(refused_there(tokens, at, Rule::Syntax))
    }
}

/// Whether a name is next.
pub fn is_next_name(tokens: &Tokens, at: usize) -> bool
    requires { at ≤ length tokens.now.items.items }
    ensures { result ≡ is_some (name_of (first (ahead tokens.now at)).place (first (ahead tokens.now at)).kind) }
{
    match next_token(tokens, at).view {
        View::Word(_) => true,
        _ => false,
    }
}

/// Past a name.
///
/// # Errors
///
/// Where another token is next, or for want of memory.
#[tactic(auto, using(expr_nodes::proofs::AheadLemmas::ahead_tail))]
pub fn past_name(alloc: Global, tokens: &Tokens, at: usize) -> Result<(PlacedName, usize), Halt>
    requires { at ≤ length tokens.now.items.items }
    ensures value { Gives (λ x. (x.0, ahead tokens.now x.1)) result (a_name (ahead tokens.now at)) }
    ensures inside { IfOk result (λ x. x.1 ≤ length tokens.now.items.items) }
    ensures further { IfOk result (λ x. at < x.1) }
{
    if at < tokens.items.len() {
        let t = next_token(tokens, at);
        if let View::Word(span) = t.view {
            let name = word_name(alloc, tokens, span)?;
            let place = t.place;
            return Ok((PlacedName { name, place }, at + 1));
        }
    }
    Err(refused_there(tokens, at, Rule::Syntax))
}

/// The number of the token after this mark, where it is next.
pub fn after_mark(tokens: &Tokens, at: usize, mark: Mark) -> Option<usize>
    requires { at ≤ length tokens.now.items.items }
    ensures there { IfSome result (λ i. reader.is_mark (mark_seen mark) (first (ahead tokens.now at)).kind ≡ true) }
    ensures rest { IfSome result (λ i. ahead tokens.now i ≡ reader.tail (ahead tokens.now at)) }
    ensures inside { IfSome result (λ i. i ≤ length tokens.now.items.items) }
    ensures no_less { IfSome result (λ i. at ≤ i) }
    ensures none { IfNone result (reader.is_mark (mark_seen mark) (first (ahead tokens.now at)).kind ≡ false) }
{
    if is_mark(mark, next_token(tokens, at).view) {
        Some(behind(tokens, at))
    } else {
        None
    }
}
