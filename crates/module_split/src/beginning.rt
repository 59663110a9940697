//! Where algorithms and options begin.

ghost use Rattle.std.specs.Prelude.{◌≡◌, [], ◌∷◌, Bool, true, ◌+◌, ◌≤◌, ◌^◌, ◌<◌, ◌++◌, length, drop, is_some, codes, Some, IfSome, IfOk, All};
ghost use Rattle.tla_token.specs.Lexemes.{is_blank};
ghost use Rattle.tla_token.specs.Tokens.{stretch};
ghost use Rattle.tla_token.specs.Offences.{least};
ghost use Rattle.module_tree.specs.TextFront.{Text, begins, on_some, past_all, past_word, past_blanks, past_name};
ghost use Rattle.module_tree.specs.Beginnings as pure;
ghost use Rattle.module_tree.specs.Beginnings.{past_opening, all_at};
ghost use Rattle.module_tree.specs.FileParts.{first_of};
ghost use Rattle.module_tree.specs.FileOffences.{offences_at};
ghost use Rattle.module_split.specs.BeginningsSeen.{IsPast, Needs};

use memchr::memchr;
use std::alloc::AllocError;
use tla_token::Rule;
use tla_token::bytes::{blank_len, has_letter, word_len};
use tla_token::fault::sooner;

// ---- algorithms

/// Whether an algorithm begins here: its first words, blanks and a name.
#[tactic(auto, using(crate::proofs::BeginningSteps::unbegun))]
pub fn begins_algorithm(text: &[u8]) -> bool
    ensures { result ≡ pure.begins_algorithm text.now }
{
    if !begins_with(text, b'-') {
        return false;
    }
    has_first_words(text)
}

// The same, also where another byte is in front: few places come to this.
#[cold]
#[tactic(auto, using(crate::proofs::BeginningSteps::begun, crate::proofs::BeginningSteps::not_begun))]
fn has_first_words(text: &[u8]) -> bool
    ensures { result ≡ pure.begins_algorithm text.now }
{
    match first_words_len(text) {
        Some(n) => is_named(&text[n..]),
        None => false,
    }
}

// The first place from an index on where this byte is, or the end: nothing that begins with it is before that.
#[tactic(auto, using(crate::proofs::BeginningPlaces::found_there, crate::proofs::BeginningPlaces::found_nowhere))]
fn next_byte(text: &[u8], at: usize, byte: u8) -> usize
    ensures ahead { at ≤ result }
    ensures skipped { (p : Text → Bool) → Needs byte p → all_at p at (drop at text.now) ≡ all_at p result (drop result text.now) }
{
    if at >= text.len() {
        return at;
    }
    match memchr(byte, &text[at..]) {
        Some(n) => at + n,
        None => text.len(),
    }
}

// Whether this byte is in front.
fn begins_with(text: &[u8], byte: u8) -> bool
    ensures { result ≡ begins text.now (byte ∷ []) }
{
    !text.is_empty() && text[0] == byte
}

/// Whether `--fair` stands before `algorithm` here.
pub fn is_fair(text: &[u8]) -> bool
    ensures { result ≡ pure.is_fair text.now }
{
    fair_len(text).is_some()
}

// How many bytes the first words of an algorithm have.
#[tactic(auto, using(crate::proofs::BeginningSteps::opened_fair, crate::proofs::BeginningSteps::opened_plain, crate::proofs::BeginningSteps::opened_not))]
fn first_words_len(text: &[u8]) -> Option<usize>
    ensures { IsPast result text.now (past_opening text.now) }
{
    match fair_len(text) {
        Some(n) => Some(n),
        None => {
            if text.starts_with(b"--algorithm") {
                Some(11)
            } else {
                None
            }
        }
    }
}

// How many bytes `--fair`, blanks and `algorithm` have.
#[tactic(auto, using(crate::proofs::BeginningSteps::fair_no, crate::proofs::BeginningSteps::fair_blankless, crate::proofs::BeginningSteps::fair_wordless, crate::proofs::BeginningSteps::fair_yes, crate::proofs::BeginningSteps::fair_past))]
fn fair_len(text: &[u8]) -> Option<usize>
    ensures is { is_some result ≡ pure.is_fair text.now }
    ensures past { IfSome result (λ n. (n ≤ length text.now) × (past_word (codes "algorithm") (past_all is_blank (drop 6 text.now)) ≡ Some (drop n text.now))) }
{
    if !text.starts_with(b"--fair") {
        return None;
    }
    let blanks = blank_len(&text[6..]);
    let at = 6 + blanks;
    if blanks > 0 && text[at..].starts_with(b"algorithm") {
        Some(at + 9)
    } else {
        None
    }
}

// Whether blanks and a name are here.
#[tactic(auto, using(crate::proofs::BeginningSteps::named_yes, crate::proofs::BeginningSteps::named_no))]
fn is_named(text: &[u8]) -> bool
    ensures { result ≡ is_some (on_some (past_blanks is_blank text.now) past_name) }
{
    let blanks = blank_len(text);
    blanks > 0 && has_name(&text[blanks..])
}

// Whether letters, digits and underscores with a letter among them are here.
#[tactic(auto, using(crate::proofs::BeginningSteps::name_is))]
fn has_name(text: &[u8]) -> bool
    ensures { result ≡ is_some (past_name text.now) }
{
    has_letter(&text[..word_len(text)])
}

/// Adds where algorithms begin in a stretch of a text that is looked at alone.
#[tactic(auto, using(crate::proofs::BeginningSteps::place_yes, crate::proofs::BeginningSteps::place_no, crate::proofs::BeginningSteps::places_done, crate::proofs::BeginningSteps::stretch_is, crate::proofs::BeginningSteps::added))]
pub fn add_beginnings(
    text: &[u8],
    from: usize,
    to: usize,
    into: &mut Vec<usize>,
) -> Result<(), AllocError>
    requires { to ≤ length text.now }
    ensures { IfOk result (λ u. into.new.items ≡ into.old.items ++ all_at pure.begins_algorithm from (stretch text.now from to)) }
{
    let bytes = &text[..to];
    let mut at = next_byte(bytes, from, b'-');
    'places: while at < to {
        if begins_algorithm(&bytes[at..]) {
            into.push(at)?;
        }
        at = next_byte(bytes, at + 1, b'-');
    }
    Ok(())
}

/// Where the first algorithm begins in a stretch of a text that is looked at alone.
#[tactic(auto, using(crate::proofs::BeginningSteps::place_yes, crate::proofs::BeginningSteps::place_no, crate::proofs::BeginningSteps::places_done, crate::proofs::BeginningSteps::stretch_is))]
pub fn first_beginning(text: &[u8], from: usize, to: usize) -> Option<usize>
    requires { to ≤ length text.now }
    ensures first { result ≡ first_of (all_at pure.begins_algorithm from (stretch text.now from to)) }
    ensures within { IfSome result (λ n. (from ≤ n) × (n < to)) }
    ensures begins { IfSome result (λ n. pure.begins_algorithm (stretch text.now n to) ≡ true) }
{
    let bytes = &text[..to];
    let mut at = next_byte(bytes, from, b'-');
    'places: while at < to {
        if begins_algorithm(&bytes[at..]) {
            return Some(at);
        }
        at = next_byte(bytes, at + 1, b'-');
    }
    None
}

// ---- options

/// Whether a line of options goes on here: `PlusCal options (`.
#[tactic(auto, using(crate::proofs::BeginningSteps::options_unbegun))]
pub fn is_options(text: &[u8]) -> bool
    ensures { result ≡ pure.is_options text.now }
{
    if !begins_with(text, b'P') {
        return false;
    }
    has_options(text)
}

// The same, also where another byte is in front: few places come to this.
#[cold]
#[tactic(auto, using(crate::proofs::BeginningSteps::options_no, crate::proofs::BeginningSteps::options_blankless, crate::proofs::BeginningSteps::options_yes))]
fn has_options(text: &[u8]) -> bool
    ensures { result ≡ pure.is_options text.now }
{
    if !text.starts_with(b"PlusCal") {
        return false;
    }
    let rest = &text[7..];
    let blanks = blank_len(rest);
    blanks > 0 && opens_options(&rest[blanks..])
}

// Whether `options`, blanks and a bracket are here.
#[tactic(auto, using(crate::proofs::BeginningSteps::opens_no, crate::proofs::BeginningSteps::opens_yes))]
fn opens_options(text: &[u8]) -> bool
    ensures { result ≡ is_some (on_some (past_word (codes "options") text.now) (λ r. past_word (codes "(") (past_all is_blank r))) }
{
    if !text.starts_with(b"options") {
        return false;
    }
    let rest = &text[7..];
    rest[blank_len(rest)..].starts_with(b"(")
}

/// The first line of options in a stretch of a text that is looked at alone.
#[tactic(auto, using(crate::proofs::BeginningSteps::place_yes, crate::proofs::BeginningSteps::place_no, crate::proofs::BeginningSteps::places_done, crate::proofs::BeginningSteps::stretch_is, crate::proofs::BeginningSteps::fault_on))]
pub fn options_fault(text: &[u8], from: usize, to: usize) -> Option<(Rule, usize)>
    requires { to ≤ length text.now }
    ensures { result ≡ least (offences_at Rule.Options (all_at pure.is_options from (stretch text.now from to))) }
{
    let bytes = &text[..to];
    let mut fault = None;
    let mut at = next_byte(bytes, from, b'P');
    'places: while at < to {
        if is_options(&bytes[at..]) {
            fault = sooner(fault, Some((Rule::Options, at)));
        }
        at = next_byte(bytes, at + 1, b'P');
    }
    fault
}
