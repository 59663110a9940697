//! Past single words: a name that is told, and reserved words that stand in no expression.

ghost use Rattle.std.specs.Prelude.{◌≡◌, ◌≤◌, bytes_eq, IfOk, length};
ghost use Rattle.expr_nodes.specs.ViewSeen.{view_seen};
ghost use Rattle.expr_nodes.specs.ReadIn.{Gives};
ghost use Rattle.expr_nodes.specs.Ahead.{ahead};
ghost use Rattle.outside_reading.specs.PlainUnits.{is_keyword as is_keyword_of};
ghost use Rattle.region_reading.specs.NameReader.{a_keyword, a_title, is_title as is_title_of};

use expr_nodes::cursor::Halt;
use expr_nodes::spot::{Spot, after, next_at, refused};
use expr_nodes::view::View;
use tla_token::{Place, Rule, Tokens};

fn is(word: &[u8], other: &[u8]) -> bool
    ensures { result ≡ bytes_eq other.now word.now }
{
    other == word
}

/// Whether this is just this name.
pub fn is_title(tokens: &Tokens, view: View, word: &[u8]) -> bool
    ensures { result ≡ is_title_of word.now (view_seen tokens.now.bytes.items view) }
{
    match view {
        View::Word(span) => is(word, tokens.word(span)),
        _ => false,
    }
}

/// Whether this is this reserved word, which stands in no expression.
pub fn is_keyword(tokens: &Tokens, view: View, word: &[u8]) -> bool
    ensures { result ≡ is_keyword_of word.now (view_seen tokens.now.bytes.items view) }
{
    match view {
        View::Other(span) => is(word, tokens.word(span)),
        _ => false,
    }
}

/// Past just this name: its place.
///
/// # Errors
///
/// Refused at the next token, by the rule of syntax, where it is another.
pub fn past_title(tokens: &Tokens, s: Spot, word: &[u8]) -> Result<(Place, usize), Halt>
    requires { s.at ≤ length tokens.now.items.items }
    ensures value { Gives (λ x. (x.0, ahead tokens.now x.1)) result (a_title s.edge word.now (ahead tokens.now s.at)) }
    ensures inside { IfOk result (λ x. x.1 ≤ length tokens.now.items.items) }
    ensures further { IfOk result (λ x. s.at ≤ x.1) }
{
    let t = next_at(tokens, s);
    if is_title(tokens, t.view, word) {
        Ok((t.place, after(tokens, s)))
    } else {
        Err(refused(tokens, s, Rule::Syntax))
    }
}

/// Past this reserved word, which stands in no expression: its place.
///
/// # Errors
///
/// Refused at the next token, by the rule of syntax, where it is another.
pub fn past_keyword(tokens: &Tokens, s: Spot, word: &[u8]) -> Result<(Place, usize), Halt>
    requires { s.at ≤ length tokens.now.items.items }
    ensures value { Gives (λ x. (x.0, ahead tokens.now x.1)) result (a_keyword s.edge word.now (ahead tokens.now s.at)) }
    ensures inside { IfOk result (λ x. x.1 ≤ length tokens.now.items.items) }
    ensures further { IfOk result (λ x. s.at ≤ x.1) }
{
    let t = next_at(tokens, s);
    if is_keyword(tokens, t.view, word) {
        Ok((t.place, after(tokens, s)))
    } else {
        Err(refused(tokens, s, Rule::Syntax))
    }
}
