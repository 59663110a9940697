//! The lines of a file that say where its module and its translation begin and end, and how long a line is.

ghost use Rattle.std.specs.Prelude.{◌≡◌, ◌<◌, ◌≤◌, length, not, nat_eq, Some, None, MatchOption, ◌++◌, codes, is_some, false, IfSome};
ghost use Rattle.tla_token.specs.Lexemes.{is_word};
ghost use Rattle.tla_token.specs.Tokens.{stretch};
ghost use Rattle.tla_token.specs.Cut.{run};
ghost use Rattle.module_tree.specs.TextFront.{Text, is_space, past_all, past_word, on_some, past_blanks, past_run, past_name, ends_line, whole_line};
ghost use Rattle.module_tree.specs.HeaderAndRegion.{header_title, is_header, is_begin, is_end};
ghost use Rattle.module_split.specs.Walking.{end_at};

use tla_token::Span;
use tla_token::bytes::{has_letter, is_blank, line_len, word_len};

// ---- the front of a line

// A blank within a line.
fn is_space(b: u8) -> bool
    ensures { result ≡ is_space b }
{
    is_blank(b) && b != b'\n'
}

// How many blanks of the line are in front.
fn space_len(text: &[u8]) -> usize
    ensures value { result ≡ length (run is_space text.now) }
    ensures bound { result ≤ length text.now }
{
    text.iter().take_while(|b| is_space(**b)).count()
}

/// How many dashes are in front.
pub fn dash_len(text: &[u8]) -> usize
    ensures value { result ≡ length (run (λ c. nat_eq c 45) text.now) }
    ensures bound { result ≤ length text.now }
{
    text.iter().take_while(|b| **b == b'-').count()
}

// What comes after blanks of the line.
#[tactic(auto, using(module_tree::proofs::LineLengths::past_of))]
fn past_spaces(text: &[u8]) -> &[u8]
    ensures { result.now ≡ past_all is_space text.now }
{
    &text[space_len(text)..]
}

// What comes after at least one blank of the line.
#[tactic(auto, using(module_tree::proofs::LineLengths::some_blanks, module_tree::proofs::LineLengths::no_blanks))]
fn past_blanks(text: &[u8]) -> Option<&[u8]>
    ensures { MatchOption result (past_blanks is_space text.now ≡ None) (λ r. past_blanks is_space text.now ≡ Some r.now) }
{
    let n = space_len(text);
    if n > 0 { Some(&text[n..]) } else { None }
}

// What comes after a word.
fn past_word<'a>(text: &'a [u8], word: &[u8]) -> Option<&'a [u8]>
    ensures { MatchOption result (past_word word.now text.now ≡ None) (λ r. past_word word.now text.now ≡ Some r.now) }
{
    text.strip_prefix(word)
}

// What comes after four or more dashes.
#[tactic(auto, using(module_tree::proofs::LineLengths::dashed, module_tree::proofs::LineLengths::undashed))]
fn past_dashes(text: &[u8]) -> Option<&[u8]>
    ensures { MatchOption result (past_run 45 text.now ≡ None) (λ r. past_run 45 text.now ≡ Some r.now) }
{
    let rest = past_word(text, b"----")?;
    Some(&rest[dash_len(rest)..])
}

// What comes after a name.
#[tactic(auto, using(module_tree::proofs::LineLengths::named, module_tree::proofs::LineLengths::nameless))]
fn past_name(text: &[u8]) -> Option<&[u8]>
    ensures { MatchOption result (past_name text.now ≡ None) (λ r. past_name text.now ≡ Some r.now) }
{
    let n = word_len(text);
    if has_letter(&text[..n]) {
        Some(&text[n..])
    } else {
        None
    }
}

fn ends_line(text: &[u8]) -> bool
    ensures { result ≡ ends_line text.now }
{
    match text {
        [b, ..] => *b == b'\n',
        [] => true,
    }
}

// ---- lines

/// The name in a line `---- MODULE Name ----`, where one is in front.
pub fn title_span(text: &[u8]) -> Option<Span>
    ensures title { MatchOption result (header_title text.now ≡ None) (λ s. header_title text.now ≡ Some (stretch text.now s.from s.to)) }
    ensures within { IfSome result (λ s. s.to ≤ length text.now) }
{
    let named = named_at(text)?;
    let from = text.len() - named.len();
    Some(Span {
        from,
        to: from + word_len(named),
    })
}

// What begins with the name in such a line.
fn named_at(text: &[u8]) -> Option<&[u8]>
    ensures title { MatchOption result (header_title text.now ≡ None) (λ n. header_title text.now ≡ Some (run is_word n.now)) }
    ensures end { IfSome result (λ n. (front : Text) × (text.now ≡ front ++ n.now)) }
{
    let rest = past_dashes(past_spaces(text))?;
    let rest = past_word(past_spaces(rest), b"MODULE")?;
    let named = past_blanks(rest)?;
    let rest = past_name(named)?;
    let rest = past_dashes(past_spaces(rest))?;
    if ends_line(past_spaces(rest)) {
        Some(named)
    } else {
        None
    }
}

/// Whether a line `---- MODULE Name ----` is in front.
pub fn is_header(text: &[u8]) -> bool
    ensures { result ≡ is_header text.now }
{
    named_at(text).is_some()
}

// Whether `\*` and these words are in front, and anything after them.
fn is_marked(text: &[u8], words: &[u8]) -> bool
    ensures { result ≡ is_some (on_some (past_word (codes "\\*") (past_all is_space text.now)) (λ r. past_word words.now (past_all is_space r))) }
{
    match past_word(past_spaces(text), b"\\*") {
        Some(rest) => past_word(past_spaces(rest), words).is_some(),
        None => false,
    }
}

/// Whether the line before a translation is in front.
pub fn is_begin(text: &[u8]) -> bool
    ensures { result ≡ is_begin text.now }
{
    is_marked(text, b"BEGIN TRANSLATION")
}

/// Whether the line after a translation is in front.
pub fn is_end(text: &[u8]) -> bool
    ensures { result ≡ is_end text.now }
{
    is_marked(text, b"END TRANSLATION")
}

// ---- whole lines

/// How many bytes the line in front has, its end among them.
#[tactic(auto, using(module_tree::proofs::LineLengths::whole_more, module_tree::proofs::LineLengths::whole_all, module_tree::proofs::LineLengths::whole_some, module_tree::proofs::LineLengths::run_within))]
pub fn whole_len(text: &[u8]) -> usize
    ensures value { result ≡ length (whole_line text.now) }
    ensures bound { result ≤ length text.now }
    ensures some { 0 < length text.now → 0 < result }
{
    let n = line_len(text);
    if n < text.len() { n + 1 } else { n }
}

/// How many bytes there are before the first END line that begins after the line in front.
#[tactic(auto, using(crate::proofs::EndLine::found_end, crate::proofs::EndLine::no_end, crate::proofs::EndLine::next_line))]
pub fn before_end(text: &[u8]) -> Option<usize>
    ensures { result ≡ end_at false text.now }
{
    let mut at = whole_len(text);
    while at < text.len() {
        if is_end(&text[at..]) {
            return Some(at);
        }
        at += whole_len(&text[at..]);
    }
    None
}
