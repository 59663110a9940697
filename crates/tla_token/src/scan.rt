//! Scanning: the tokens of a stretch of a text, or the offence that counts in it.

ghost use Rattle.std.specs.Prelude.{◌≡◌, ℕ, List, ◌+◌, ◌-◌, ◌<◌, ◌≤◌, ◌++◌, [], None, Some, length, take, drop, map, option_map, is_some, true, false, IfOk, IfSome, Ok, Err, if◌then◌else◌};
ghost use Rattle.tla_token.specs.declared.rule.Refusal as code;
ghost use Rattle.tla_token.specs.Limits.{past_text};
ghost use Rattle.tla_token.specs.Places.{place_at};
ghost use Rattle.tla_token.specs.Tokens.{stretch, Tok};
ghost use Rattle.tla_token.specs.Cut.{parts};
ghost use Rattle.tla_token.specs.Scan.{is_quoted, inner, part_of, front};
ghost use Rattle.tla_token.specs.Lexemes.{unquoted};
ghost use Rattle.tla_token.specs.Readings.{quote_at, line_offence, with_line, first_offence, IsRefused, names_algorithm, opening_of, AreTokens, given_offence, IsGivenRefused};
ghost use Rattle.tla_token.specs.TokensSeen.{kind_seen, token_seen, tokens_seen, IsCanonical, AllCanonical};
ghost use Rattle.tla_token.specs.Scanning.{token_at, lexemes_of, Stands, GoesOn};

use crate::bytes::blank_len;
use crate::fault::{Reading, note, part_fault, sooner};
use crate::kind::kind_at;
use crate::part::{Class, Part, part_at};
use crate::place::{Place, place_after, place_of};
use crate::rule::{Refusal, Rule, Stop};
use crate::token::{Kind, Span, Token, Tokens};
use std::alloc::{AllocError, Global};

/// Where a scanner is in a stretch, and what it knows.
#[derive(Clone, Copy)]
pub struct Scan {
    /// How many bytes of the stretch are behind it.
    pub at: usize,
    /// The place of the byte that is next.
    pub place: Place,
    /// So many bytes from here on are known to be in a word without a letter.
    pub wordless: usize,
    /// The offence that counts so far.
    pub fault: Option<(Rule, usize)>,
    /// Where the last part began, if it was a string that isn't closed.
    pub quote: Option<usize>,
}

/// The tokens of a stretch of a text that is given to be read, as an algorithm's where it begins with `--algorithm`,
/// or with `--fair`, blanks and `algorithm`.
///
/// # Errors
///
/// The least of the rules 1 to 4 and 12 that the stretch offends, at its first place; or want of memory. A string in which
/// an algorithm's stretch ends is looked at on its whole line.
pub fn tokens(alloc: Global, text: &[u8], from: usize, to: usize) -> Result<Tokens, Stop>
    requires begins { from ≤ to }
    requires ends { to ≤ length text.now }
    requires small { length text.now < past_text }
    ensures tokens { IfOk result (λ v. AreTokens text.now from to (tokens_seen v)) }
    ensures canonical { IfOk result (λ v. AllCanonical v.bytes.items v.items.items) }
    ensures fine { IfOk result (λ v. given_offence text.now from to ≡ None) }
    ensures end { IfOk result (λ v. v.end ≡ place_at text.now to) }
    ensures refused { (r : code.Refusal) → result ≡ Err (Stop.Refused r) → IsGivenRefused text.now from to r }
{
    match opening(&text[from..to]) {
        None => tokens_as(alloc, text, from, to, Reading::Read),
        Some(n) => algorithm_tokens(alloc, text, from, to, n),
    }
}

/// The tokens of a stretch of a text that is looked at so.
///
/// # Errors
///
/// The least rule that the stretch offends, at its first place; or want of memory.
pub fn tokens_as(
    alloc: Global,
    text: &[u8],
    from: usize,
    to: usize,
    reading: Reading,
) -> Result<Tokens, Stop>
    requires begins { from ≤ to }
    requires ends { to ≤ length text.now }
    requires small { length text.now < past_text }
    ensures tokens { IfOk result (λ v. Tok text.now from to (tokens_seen v)) }
    ensures canonical { IfOk result (λ v. AllCanonical v.bytes.items v.items.items) }
    ensures fine { IfOk result (λ v. first_offence reading text.now from to ≡ None) }
    ensures end { IfOk result (λ v. v.end ≡ place_at text.now to) }
    ensures refused { (r : code.Refusal) → result ≡ Err (Stop.Refused r) → IsRefused reading text.now from to r }
{
    rest_of(alloc, text, from, from, to, reading, Vec::new(alloc))
}

// The tokens of an algorithm whose first token has so many bytes.
fn algorithm_tokens(
    alloc: Global,
    text: &[u8],
    from: usize,
    to: usize,
    opening: usize,
) -> Result<Tokens, Stop>
    requires begins { from ≤ to }
    requires ends { to ≤ length text.now }
    requires small { length text.now < past_text }
    requires opening { Some opening ≡ option_map length (opening_of (stretch text.now from to)) }
    ensures tokens { IfOk result (λ v. AreTokens text.now from to (tokens_seen v)) }
    ensures canonical { IfOk result (λ v. AllCanonical v.bytes.items v.items.items) }
    ensures fine { IfOk result (λ v. given_offence text.now from to ≡ None) }
    ensures end { IfOk result (λ v. v.end ≡ place_at text.now to) }
    ensures refused { (r : code.Refusal) → result ≡ Err (Stop.Refused r) → IsGivenRefused text.now from to r }
{
    let mut items = Vec::new(alloc);
    items.push(Token {
        kind: Kind::Name(Span {
            from: 0,
            to: opening,
        }),
        at: from,
        place: place_of(text, from),
    })?;
    rest_of(
        alloc,
        text,
        from,
        from + opening,
        to,
        Reading::Algorithm,
        items,
    )
}

// How long the first token of an algorithm is, where a stretch begins with one.
fn opening(text: &[u8]) -> Option<usize>
    ensures { result ≡ option_map length (opening_of text.now) }
{
    if text.starts_with(b"--algorithm") {
        Some(11)
    } else if text.starts_with(b"--fair") && names_algorithm(&text[6..]) {
        Some(6)
    } else {
        None
    }
}

// Whether blanks and `algorithm` are in front.
#[tactic(auto, using(crate::proofs::Scans::blanks_before, crate::proofs::Scans::no_blanks))]
fn names_algorithm(text: &[u8]) -> bool
    ensures { result ≡ names_algorithm text.now }
{
    let n = blank_len(text);
    n > 0 && text[n..].starts_with(b"algorithm")
}

// The tokens of a stretch behind those that are there, from `start` on.
fn rest_of(
    alloc: Global,
    text: &[u8],
    from: usize,
    start: usize,
    to: usize,
    reading: Reading,
    items: Vec<Token>,
) -> Result<Tokens, Stop>
    requires begins { from ≤ start }
    requires starts { start ≤ to }
    requires ends { to ≤ length text.now }
    requires small { length text.now < past_text }
    requires canonical { AllCanonical (stretch text.now from to) items.items }
    ensures bytes { IfOk result (λ v. v.bytes.items ≡ stretch text.now from to) }
    ensures tokens { IfOk result (λ v. map (token_seen v.bytes.items) v.items.items ≡ map (token_seen v.bytes.items) items.items ++ lexemes_of (place_at text.now start) start (parts (stretch text.now start to))) }
    ensures canonical { IfOk result (λ v. AllCanonical v.bytes.items v.items.items) }
    ensures fine { IfOk result (λ v. first_offence reading text.now start to ≡ None) }
    ensures end { IfOk result (λ v. v.end ≡ place_at text.now to) }
    ensures refused { (r : code.Refusal) → result ≡ Err (Stop.Refused r) → IsRefused reading text.now start to r }
{
    let bytes = &text[from..to];
    let mut items = items;
    let mut scan = Scan {
        at: start - from,
        place: place_of(text, start),
        wordless: 0,
        fault: None,
        quote: None,
    };
    'parts: while next(alloc, bytes, from, reading, &mut scan, &mut items)? {}
    if let Some((rule, at)) = whole_fault(text, scan.quote, scan.fault, reading) {
        return Err(Stop::Refused(Refusal {
            rule,
            place: place_near(text, at),
        }));
    }
    Ok(Tokens {
        bytes: Vec::from_slice(alloc, bytes)?,
        items,
        end: scan.place,
    })
}

// The offence that counts. In an algorithm, a string in which the stretch ends is looked at on its whole line too.
#[tactic(auto, using(crate::proofs::Faults::joined_none))]
fn whole_fault(
    text: &[u8],
    quote: Option<usize>,
    fault: Option<(Rule, usize)>,
    reading: Reading,
) -> Option<(Rule, usize)>
    requires { length text.now < past_text }
    ensures { result ≡ with_line reading text.now quote fault }
{
    match reading {
        Reading::Algorithm => match quote {
            Some(at) => sooner(fault, line_fault(text, at)),
            None => fault,
        },
        _ => fault,
    }
}

// What is wrong in an algorithm with the string behind a quote, on its whole line.
fn line_fault(text: &[u8], quote: usize) -> Option<(Rule, usize)>
    requires { length text.now < past_text }
    ensures { result ≡ line_offence text.now (Some quote) }
{
    if quote > text.len() {
        return None;
    }
    let rest = &text[quote..];
    let mut wordless = 0;
    match part_at(rest, &mut wordless) {
        None => None,
        Some(part) => part_fault(part.class, piece_of(rest, part), quote, Reading::Algorithm),
    }
}

// Where a part begins, if it is a string that isn't closed.
fn quote_at(class: Class, at: usize) -> Option<usize>
    ensures { (bytes : List ℕ) → result ≡ quote_at at (part_of class bytes) }
{
    match class {
        Class::OpenText => Some(at),
        _ => None,
    }
}

// The place of a byte, or of the text's end for all behind it.
#[tactic(auto, using(crate::proofs::Scans::place_beyond))]
fn place_near(text: &[u8], at: usize) -> Place
    requires { length text.now < past_text }
    ensures { result ≡ place_at text.now at }
{
    if at < text.len() {
        place_of(text, at)
    } else {
        place_of(text, text.len())
    }
}

// Goes past the next part and adds its token, where it is one; false at the end, where nothing changes.
fn next(
    alloc: Global,
    bytes: &[u8],
    from: usize,
    reading: Reading,
    scan: &mut Scan,
    items: &mut Vec<Token>,
) -> Result<bool, AllocError>
    requires stands { Stands from bytes.now scan.old }
    requires small { from + length bytes.now < past_text }
    requires canonical { AllCanonical bytes.now items.old.items }
    ensures goes { IfOk result (λ more. GoesOn reading from bytes.now (map (token_seen bytes.now) items.old.items) (map (token_seen bytes.now) items.new.items) scan.old (if more then Some scan.new else None)) }
    ensures end { result ≡ Ok false → scan.new ≡ scan.old }
    ensures canonical { IfOk result (λ more. AllCanonical bytes.now items.new.items) }
{
    let mut wordless = scan.wordless;
    match part_at(&bytes[scan.at..], &mut wordless) {
        None => Ok(false),
        Some(part) => {
            scan.wordless = wordless;
            past(bytes, from, reading, scan, part, items)?;
            Ok(true)
        }
    }
}

// Past the part in front.
fn past(
    bytes: &[u8],
    from: usize,
    reading: Reading,
    scan: &mut Scan,
    part: Part,
    items: &mut Vec<Token>,
) -> Result<(), AllocError>
    requires stands { Stands from bytes.now scan.old }
    requires small { from + length bytes.now < past_text }
    requires part { Some part ≡ front (drop scan.old.at bytes.now) }
    requires canonical { AllCanonical bytes.now items.old.items }
    ensures goes { IfOk result (λ u. GoesOn reading from bytes.now (map (token_seen bytes.now) items.old.items) (map (token_seen bytes.now) items.new.items) scan.old (Some scan.new)) }
    ensures canonical { IfOk result (λ u. AllCanonical bytes.now items.new.items) }
{
    let piece = piece_of(&bytes[scan.at..], part);
    let at = from + scan.at;
    let kind = kind_at(bytes, scan.at, part);
    keep(items, kind, at, scan.place)?;
    note(&mut scan.fault, part.class, piece, at, reading);
    scan.place = place_after(scan.place, piece);
    scan.wordless = scan.wordless.saturating_sub(part.len);
    scan.quote = quote_at(part.class, at);
    scan.at += part.len;
    Ok(())
}

// The bytes of the part in front.
#[tactic(auto, using(crate::proofs::Scans::part_within, crate::proofs::Scans::part_size, crate::proofs::Scans::part_some, crate::proofs::Scans::part_quoted, crate::proofs::Scans::part_text))]
fn piece_of(rest: &[u8], part: Part) -> &[u8]
    requires { Some part ≡ front rest.now }
    ensures value { result.now ≡ take part.len rest.now }
    ensures size { length result.now ≡ part.len }
    ensures within { part.len ≤ length rest.now }
    ensures some { 0 < part.len }
    ensures quoted { is_quoted part.class ≡ true → 2 ≤ part.len }
    ensures text { part.class ≡ Class.Text → is_some (unquoted (inner result.now)) ≡ true }
{
    &rest[..part.len]
}

// Adds a token, where there is one.
fn keep(
    items: &mut Vec<Token>,
    kind: Option<Kind>,
    at: usize,
    place: Place,
) -> Result<(), AllocError>
    ensures added { (bytes : List ℕ) → IfOk result (λ u. map (token_seen bytes) items.new.items ≡ map (token_seen bytes) items.old.items ++ token_at place at (option_map (kind_seen bytes) kind)) }
    ensures canonical { (bytes : List ℕ) → AllCanonical bytes items.old.items → IfSome kind (λ k. IsCanonical bytes k) → IfOk result (λ u. AllCanonical bytes items.new.items) }
{
    if let Some(kind) = kind {
        items.push(Token { kind, at, place })?;
    }
    Ok(())
}
