//! The words with which units begin, and past one that opens a form.

ghost use Rattle.std.specs.Prelude.{◌≡◌, ◌≤◌, bytes_eq, suc, IfOk, length};
ghost use Rattle.tla_token.specs.TokensSeen.{span_bytes};
ghost use Rattle.expr_nodes.specs.Ahead.{ahead};
ghost use Rattle.expr_nodes.specs.ReadIn.{Gives};
ghost use Rattle.region_reading.specs.Bound.{opening};
ghost use Rattle.region_reading.specs.NameReader.{a_keyword};
ghost use Rattle.region_items.specs.Begins.{bound};

use expr_nodes::cursor::Halt;
use expr_nodes::spot::{Spot, deeper};
use region_calls::titles::past_keyword;
use tla_token::{Place, Span, Tokens};

/// The column of first tokens: all others of a unit are right of it.
pub const EDGE: u32 = 1;

/// Whether a word is this one.
pub fn is_word(tokens: &Tokens, word: Span, other: &[u8]) -> bool
    ensures { result ≡ bytes_eq (span_bytes tokens.now.bytes.items word) other.now }
{
    tokens.word(word) == other
}

/// Past a reserved word that opens a form: its place, and where reading goes on.
///
/// # Errors
///
/// Refused at the next token, where it is another, or where too many forms would be open.
pub fn past_opening_keyword(tokens: &Tokens, s: Spot, word: &[u8]) -> Result<(Place, Spot), Halt>
    requires { s.at ≤ length tokens.now.items.items }
    ensures value { Gives (λ x. (x.0, ahead tokens.now x.1.at)) result (opening (bound s.left) (a_keyword s.edge word.now) (ahead tokens.now s.at)) }
    ensures left { IfOk result (λ x. suc x.1.left ≡ s.left) }
    ensures edge { IfOk result (λ x. x.1.edge ≡ s.edge) }
    ensures inside { IfOk result (λ x. x.1.at ≤ length tokens.now.items.items) }
{
    let (place, at) = past_keyword(tokens, s, word)?;
    let d = deeper(tokens, s, 0)?;
    Ok((place, Spot { at, ..d }))
}
