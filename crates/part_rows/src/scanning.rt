//! Texts as the scanner cuts them: tokens, places, and what the grammars see of a token.

ghost use Rattle.std.specs.Prelude.{◌<◌, length};
ghost use Rattle.tla_token.specs.Limits.{past_text};

use expr_nodes::spot::{Spot, next_at};
use expr_nodes::view::View;
use std::alloc::{AllocError, Global};
use tla_token::sign::spelling_len;
use tla_token::{
    Kind, Place, Refusal, Rule, Sign, Stop, Token, Tokens, decided_parts, place_of, rule, tokens,
};

/// Appends why nothing is read: the place, number and name of the rule that is broken.
pub fn put_stop(alloc: Global, told: &mut Vec<u8>, stop: Stop) -> Result<(), AllocError> {
    match stop {
        Stop::Refused(refusal) => put_text(told, format!(in alloc; "{refusal}")?),
        Stop::Memory => told.extend_from_slice(b"no memory"),
    }
}

/// Appends a text.
pub fn put_text(told: &mut Vec<u8>, text: String) -> Result<(), AllocError> {
    told.extend_from_slice(text.as_bytes())
}

/// Appends the tokens of a text: for each a letter and its word.
pub fn put_tokens(alloc: Global, told: &mut Vec<u8>, text: &[u8]) -> Result<(), AllocError>
    requires { length text.now < past_text }
{
    match tokens(alloc, text, 0, text.len()) {
        Ok(found) => {
            for token in &found.items {
                put_token(alloc, told, text, &found, *token)?;
            }
            Ok(())
        }
        Err(stop) => put_stop(alloc, told, stop),
    }
}

// Appends a token: `n` and a name, `b` and a large number, `t` and what is between quotes, `o` and another sign, `=` and a sign or a number.
fn put_token(
    alloc: Global,
    told: &mut Vec<u8>,
    text: &[u8],
    found: &Tokens,
    token: Token,
) -> Result<(), AllocError> {
    match token.kind {
        Kind::Name(span)
        | Kind::PluscalWord(span, _)
        | Kind::TlaWord(span, _)
        | Kind::Fairness(span) => put_word(told, b"n", found.word(span)),
        Kind::BigNumber(span) => put_word(told, b"b", found.word(span)),
        Kind::Text(span) => put_word(told, b"t", found.word(span)),
        Kind::Other(span) => put_word(told, b"o", found.word(span)),
        Kind::Sign(sign) => put_word(told, b"=", spelled(text, token.at, sign)),
        Kind::Number(n) => put_word(told, b"=", format!(in alloc; "{n}")?.as_bytes()),
    }
}

fn put_word(told: &mut Vec<u8>, mark: &[u8], word: &[u8]) -> Result<(), AllocError> {
    for part in [mark, word, b"|"] {
        told.extend_from_slice(part)?;
    }
    Ok(())
}

// How a sign is spelled in a text, from a byte on; nothing, if it doesn't stand there.
fn spelled(text: &[u8], at: usize, sign: Sign) -> &[u8] {
    let rest = text.get(at..).unwrap_or(b"");
    rest.get(..spelling_len(sign, rest).unwrap_or(0))
        .unwrap_or(b"")
}

/// Appends the places of some bytes of a text, given by their indexes.
pub fn put_places(
    alloc: Global,
    told: &mut Vec<u8>,
    text: &[u8],
    indexes: &str,
) -> Result<(), AllocError>
    requires { length text.now < past_text }
{
    for word in indexes.split(' ') {
        let at = word.parse().unwrap_or(text.len());
        let Place { line, col } = place_of(text, at.min(text.len()));
        put_text(told, format!(in alloc; "{line}:{col}|")?)?;
    }
    Ok(())
}

/// Appends for each line of a text, which is a piece of a file, how many of its bytes are decided, and how many parts are after it.
pub fn put_pieces(alloc: Global, told: &mut Vec<u8>, text: &[u8]) -> Result<(), AllocError> {
    let mut parts = Vec::new(alloc);
    for piece in text.split(|b| *b == b'\n') {
        if piece.len() < 1000 {
            let decided = decided_parts(piece, &mut parts)?;
            put_text(told, format!(in alloc; "{decided} {}|", parts.len())?)?;
        }
    }
    Ok(())
}

fn letter(view: View) -> u8 {
    match view {
        View::Sign(_) => b's',
        View::Word(_) => b'w',
        View::Reserved(_) => b'r',
        View::Number(_) => b'n',
        View::BigNumber(_) => b'b',
        View::Quote(_) => b'q',
        View::Constant(_) => b'c',
        View::Mark(_) => b'm',
        View::Key(_) => b'k',
        View::Other(_) => b'o',
    }
}

/// Appends a letter for what each token of a text is to the grammars, where all are to be right of a column.
pub fn put_views(
    alloc: Global,
    told: &mut Vec<u8>,
    text: &[u8],
    edge: u32,
) -> Result<(), AllocError>
    requires { length text.now < past_text }
{
    match tokens(alloc, text, 0, text.len()) {
        Ok(found) => {
            for i in 0..found.items.len() {
                let spot = Spot {
                    at: i,
                    edge,
                    left: 0,
                    linked: true,
                };
                told.push(letter(next_at(&found, spot).view))?;
            }
            Ok(())
        }
        Err(stop) => put_stop(alloc, told, stop),
    }
}

/// Appends two rules by number and name, and a refusal behind its place.
pub fn put_rules(alloc: Global, told: &mut Vec<u8>) -> Result<(), AllocError> {
    for known in [Rule::AssignTwice, Rule::NotAscii] {
        let (number, name) = (rule::number(known), rule::name(known));
        put_text(told, format!(in alloc; "{number} {name}|")?)?;
    }
    let refusal = Refusal {
        rule: Rule::AssignTwice,
        place: Place { line: 12, col: 3 },
    };
    put_text(told, format!(in alloc; "{refusal}")?)
}
