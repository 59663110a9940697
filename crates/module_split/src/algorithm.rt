//! The algorithm of a file: from its first words to its end, within its comment.

ghost use Rattle.std.specs.Prelude.{◌≡◌, ℕ, List, Bool, ◌+◌, ◌-◌, ◌≤◌, ◌<◌, ◌^◌, ◌&&◌, ◌||◌, nat_le, nat_lt, false, true, length, take, drop, slice_index, slice_index_or, is_some, Some, None, option_map, IfSome, filter};
ghost use Rattle.tla_token.specs.Tokens.{stretch};
ghost use Rattle.tla_token.specs.Offences.{part_offences, least};
ghost use Rattle.tla_token.specs.Scan.{is_quoted, part_of, front, IsWordless};
ghost use Rattle.tla_token.specs.Scan as scan;
ghost use Rattle.tla_token.specs.Lexemes.{Kind, unquoted};
ghost use Rattle.module_tree.specs.ModuleParts.{kind_in};
ghost use Rattle.module_tree.specs.AlgorithmText as pure;
ghost use Rattle.module_tree.specs.AlgorithmText.{next, next_p, next_c, after_part, algorithm_at, in_token};
ghost use Rattle.module_tree.specs.Beginnings.{begins_algorithm};
ghost use Rattle.module_tree.specs.FileOffences.{algorithm_offences, is_splitting};
ghost use Rattle.module_tree.specs.laws.AlgorithmEnd.{is_open_brace, is_close_brace};
ghost use Rattle.module_split.specs.AlgorithmSeen.{stage_seen, depth, part_rest, IsInside, Passes, Reaches};

use crate::beginning::is_fair;
use tla_token::fault::{part_fault, sooner};
use tla_token::{Class, Part, Reading, Rule, Sign, part_at};

/// What the tokens of an algorithm are so far.
#[derive(Clone, Copy)]
pub enum Stage {
    /// Before the name, and so many words before that.
    Head(usize),
    /// After the name, which may be `end`.
    Titled(bool),
    /// In P-syntax; the last token may be `end`.
    OpenP(bool),
    /// In C-syntax, within so many braces.
    OpenC(usize),
    /// Behind the end of one in P-syntax.
    PastP,
    /// Behind the end of one in C-syntax.
    PastC,
}

/// A walk over an algorithm: where it is, and what it has found.
#[derive(Clone, Copy)]
pub struct Inside {
    /// The index of the next byte.
    pub at: usize,
    /// What the tokens up to there are.
    pub stage: Stage,
    /// So many bytes from here on are known to be in a word without a letter.
    pub wordless: usize,
    /// The offence that counts so far.
    pub fault: Option<(Rule, usize)>,
}

// ---- stages

/// Whether the algorithm is at its end.
pub fn is_past(stage: Stage) -> bool
    ensures { result ≡ pure.is_past (stage_seen stage) }
{
    match stage {
        Stage::PastP | Stage::PastC => true,
        _ => false,
    }
}

/// Whether the algorithm is in C-syntax.
pub fn is_c(stage: Stage) -> bool
    ensures { result ≡ pure.is_c (stage_seen stage) }
{
    match stage {
        Stage::OpenC(_) | Stage::PastC => true,
        _ => false,
    }
}

/// Whether a reader sees a token in such a part.
pub fn is_token(class: Class) -> bool
    ensures { (bytes : List ℕ) → result ≡ is_some (kind_in (part_of class bytes)) }
{
    match class {
        Class::Blank | Class::Block | Class::Line | Class::Stray | Class::OpenBlock => false,
        _ => true,
    }
}

// Whether a token is a word.
fn is_word(word: &[u8], class: Class, bytes: &[u8]) -> bool
    ensures { (k : Kind) → kind_in (part_of class bytes.now) ≡ Some k → result ≡ pure.is_word word.now k }
{
    match class {
        Class::Name => bytes == word,
        _ => false,
    }
}

// After a token in P-syntax; the token before may be `end`.
fn next_p(ended: bool, class: Class, bytes: &[u8]) -> Stage
    ensures is { (k : Kind) → kind_in (part_of class bytes.now) ≡ Some k → stage_seen result ≡ next_p ended k }
    ensures depth { depth result ≡ 0 }
{
    if ended && is_word(b"algorithm", class, bytes) {
        Stage::PastP
    } else {
        Stage::OpenP(is_word(b"end", class, bytes))
    }
}

// After a token in C-syntax.
fn next_c(braces: usize, class: Class) -> Stage
    requires { braces < 2 ^ 32 }
    ensures is { (bytes : List ℕ) (k : Kind) → kind_in (part_of class bytes) ≡ Some k → stage_seen result ≡ next_c braces k }
    ensures depth { depth result ≤ 1 + braces }
{
    if opens(class) {
        Stage::OpenC(braces + 1)
    } else if !closes(class) {
        Stage::OpenC(braces)
    } else if braces <= 1 {
        Stage::PastC
    } else {
        Stage::OpenC(braces - 1)
    }
}

// After the algorithm's name, which may be `end`.
fn after_name(ended: bool, class: Class, bytes: &[u8]) -> Stage
    ensures is { (k : Kind) → kind_in (part_of class bytes.now) ≡ Some k → stage_seen result ≡ next (pure.titled ended) k }
    ensures depth { depth result ≤ 1 }
{
    if opens(class) {
        Stage::OpenC(1)
    } else {
        next_p(ended, class, bytes)
    }
}

fn opens(class: Class) -> bool
    ensures { (bytes : List ℕ) (k : Kind) → kind_in (part_of class bytes) ≡ Some k → result ≡ is_open_brace k }
{
    match class {
        Class::Sign(Sign::OpenCurly) => true,
        _ => false,
    }
}

fn closes(class: Class) -> bool
    ensures { (bytes : List ℕ) (k : Kind) → kind_in (part_of class bytes) ≡ Some k → result ≡ is_close_brace k }
{
    match class {
        Class::Sign(Sign::CloseCurly) => true,
        _ => false,
    }
}

// After a token.
fn next(stage: Stage, class: Class, bytes: &[u8]) -> Stage
    requires { depth stage < 2 ^ 32 }
    ensures is { (k : Kind) → kind_in (part_of class bytes.now) ≡ Some k → stage_seen result ≡ next (stage_seen stage) k }
    ensures depth { depth result ≤ 1 + depth stage }
{
    match stage {
        Stage::Head(words) => {
            if words > 0 {
                Stage::Head(words - 1)
            } else {
                Stage::Titled(is_word(b"end", class, bytes))
            }
        }
        Stage::Titled(ended) => after_name(ended, class, bytes),
        Stage::OpenP(ended) => next_p(ended, class, bytes),
        Stage::OpenC(braces) => next_c(braces, class),
        Stage::PastP => Stage::PastP,
        Stage::PastC => Stage::PastC,
    }
}

// After a part.
fn after_part(stage: Stage, class: Class, bytes: &[u8]) -> Stage
    requires { depth stage < 2 ^ 32 }
    ensures is { stage_seen result ≡ after_part (stage_seen stage) (kind_in (part_of class bytes.now)) }
    ensures depth { depth result ≤ 1 + depth stage }
{
    if is_token(class) {
        next(stage, class, bytes)
    } else {
        stage
    }
}

// ---- parts

// The part at an index of a comment whose text ends at `end`; a string is looked at on its whole line.
fn inner_part(text: &[u8], at: usize, end: usize, wordless: &mut usize) -> Option<Part>
    requires within { at < end }
    requires ends { end ≤ length text.now }
    requires small { length text.now < 2 ^ 29 }
    requires known { IsWordless wordless.old (stretch text.now at end) }
    ensures part { result ≡ front (part_rest at end text.now) }
    ensures known { IsWordless wordless.new (stretch text.now at end) }
{
    if text[at] == b'"' {
        part_at(&text[at..], &mut 0)
    } else {
        part_at(&text[at..end], wordless)
    }
}

// What is wrong with a part of an algorithm, but for numbers that are too big.
#[tactic(auto, using(crate::proofs::SplitFaults::inner_part_fault, crate::proofs::SplitFaults::inner_number_fault))]
fn inner_fault(class: Class, bytes: &[u8], at: usize) -> Option<(Rule, usize)>
    requires some { 0 < length bytes.now }
    requires small { at + length bytes.now < 2 ^ 32 }
    requires quoted { is_quoted class ≡ true → 2 ≤ length bytes.now }
    requires text { class ≡ Class.Text → is_some (unquoted (scan.inner bytes.now)) ≡ true }
    ensures { result ≡ least (filter is_splitting (part_offences true at (part_of class bytes.now))) }
{
    match class {
        Class::Blank | Class::Block | Class::Line | Class::Name | Class::Sign(_) | Class::Number =>
            None,
        _ => part_fault(class, bytes, at, Reading::Algorithm),
    }
}

// Marks the bytes of a token.
fn mark(marks: &mut [bool], from: usize, to: usize)
    requires begins { from ≤ to }
    requires ends { to ≤ length marks.old }
    ensures { (k : ℕ) → slice_index_or marks.new k false ≡ (slice_index_or marks.old k false || (nat_le from k && nat_lt k to)) }
{
    'bytes: for at in from..to {
        marks[at] = true;
    }
}

// ---- the walk

// Past a part, whose bytes are marked where it is a token.
#[tactic(auto, using(crate::proofs::AlgorithmSteps::passes))]
fn past(text: &[u8], end: usize, inside: Inside, part: Part, marks: &mut [bool]) -> Inside
    requires here { IsInside text.now end inside }
    requires more { inside.at < end }
    requires ends { end ≤ length text.now }
    requires small { length text.now < 2 ^ 29 }
    requires going { pure.is_past (stage_seen inside.stage) ≡ false }
    requires marks { length marks.old ≡ length text.now }
    requires part { Some part ≡ front (part_rest inside.at end text.now) }
    ensures { Passes text.now end inside result marks.old marks.new }
{
    let bytes = bytes_of(text, inside.at, end, part);
    if is_token(part.class) {
        mark(marks, inside.at, inside.at + part.len);
    }
    let fault = inner_fault(part.class, bytes, inside.at);
    Inside {
        at: (inside.at + part.len).min(end),
        stage: after_part(inside.stage, part.class, bytes),
        wordless: inside.wordless.saturating_sub(part.len),
        fault: sooner(inside.fault, fault),
    }
}

// The bytes of the part at an index.
#[tactic(auto, using(tla_token::proofs::Scans::part_within, tla_token::proofs::Scans::part_size, tla_token::proofs::Scans::part_some, tla_token::proofs::Scans::part_quoted, tla_token::proofs::Scans::part_text))]
fn bytes_of(text: &[u8], at: usize, end: usize, part: Part) -> &[u8]
    requires within { at < end }
    requires ends { end ≤ length text.now }
    requires part { Some part ≡ front (part_rest at end text.now) }
    ensures value { result.now ≡ take part.len (part_rest at end text.now) }
    ensures size { length result.now ≡ part.len }
    ensures within { at + part.len ≤ length text.now }
    ensures some { 0 < part.len }
    ensures quoted { is_quoted part.class ≡ true → 2 ≤ part.len }
    ensures text { part.class ≡ Class.Text → is_some (unquoted (scan.inner result.now)) ≡ true }
{
    &rest_at(text, at, end)[..part.len]
}

// The text in which a part is looked for; for a string it is not the comment's alone.
fn rest_at(text: &[u8], at: usize, end: usize) -> &[u8]
    requires within { at < end }
    requires ends { end ≤ length text.now }
    ensures value { result.now ≡ part_rest at end text.now }
    ensures size { at + length result.now ≤ length text.now }
{
    if text[at] == b'"' {
        &text[at..]
    } else {
        &text[at..end]
    }
}

// From where a walk is up to the algorithm's end, or its comment's.
#[tactic(auto, using(crate::proofs::AlgorithmSteps::follows_start, crate::proofs::AlgorithmSteps::follows_on, crate::proofs::AlgorithmSteps::follows_known, crate::proofs::AlgorithmSteps::at_comment_end, crate::proofs::AlgorithmSteps::at_end))]
fn walk_inside(text: &[u8], end: usize, start: Inside, marks: &mut [bool]) -> Inside
    requires here { IsInside text.now end start }
    requires ends { end ≤ length text.now }
    requires small { length text.now < 2 ^ 29 }
    requires marks { length marks.old ≡ length text.now }
    ensures { Reaches text.now end start result marks.old marks.new }
{
    let mut inside = start;
    'parts: while inside.at < end && !is_past(inside.stage) {
        let mut wordless = inside.wordless;
        match inner_part(text, inside.at, end, &mut wordless) {
            None => unreachable!(),
            Some(part) => {
                let here = Inside { wordless, ..inside };
                inside = past(text, end, here, part, marks);
            }
        }
    }
    inside
}

/// The walk over the algorithm that begins at an index of a comment whose text ends at `end`. The bytes of its tokens
/// are marked.
pub fn algorithm_at(text: &[u8], from: usize, end: usize, marks: &mut [bool]) -> Inside
    requires ends { end ≤ length text.now }
    requires small { length text.now < 2 ^ 29 }
    requires begins { begins_algorithm (stretch text.now from end) ≡ true }
    requires marks { length marks.old ≡ length text.now }
    requires unmarked { (k : ℕ) → slice_index_or marks.old k false ≡ false }
    ensures stage { stage_seen result.stage ≡ (algorithm_at from (end - from) (drop from text.now)).rest.stage }
    ensures to { result.at ≡ (algorithm_at from (end - from) (drop from text.now)).rest.to }
    ensures fault { result.fault ≡ least (filter is_splitting (algorithm_offences (Some (algorithm_at from (end - from) (drop from text.now))))) }
    ensures marked { (k : ℕ) → slice_index_or marks.new k false ≡ in_token (algorithm_at from (end - from) (drop from text.now)) k }
{
    let (words, opening) = if is_fair(&text[from..]) {
        (1, 6)
    } else {
        (0, 11)
    };
    let start = Inside {
        at: from + opening,
        stage: Stage::Head(words),
        wordless: 0,
        fault: None,
    };
    walk_inside(text, end, start, marks)
}
