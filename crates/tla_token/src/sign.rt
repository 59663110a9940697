//! Signs: what the grammar sees of operators and punctuation, whichever way they are spelled.

ghost use Rattle.std.specs.Prelude.{◌≡◌, ◌&&◌, ◌<◌, length, take, drop, find, map, option_map, nat_eq, slice_index, false};
ghost use Rattle.std.specs.List.{filter, list_any, starts_with};
ghost use Rattle.tla_token.specs.Signs.{spellings, all_signs, is_among as is_among_of};
ghost use Rattle.tla_token.specs.Lexemes.{is_letter};
ghost use Rattle.tla_token.specs.Offences.{begins_with};
ghost use Rattle.tla_token.specs.Cut.{spelling_at, sign_at, sign_of};

use crate::bytes::{begins_pair, is_letter};
use crate::word::is_among;

/// A sign of TLA+ or PlusCal. The first spelling is the one that is written.
#[derive(Clone, Copy)]
pub enum Sign {
    /// `|->`
    MapsTo,
    /// `<=>` or `\equiv`
    Equivalent,
    /// `:=`
    Assign,
    /// `||`
    Parallel,
    /// `:>`
    Pair,
    /// `@@`
    Override,
    /// `..`
    Range,
    /// `/\` or `\land`
    And,
    /// `\/` or `\lor`
    Or,
    /// `=>`
    Implies,
    /// `->`
    Arrow,
    /// `==`
    Defined,
    /// `<<`
    OpenTuple,
    /// `>>`
    CloseTuple,
    /// `<=` or `=<` or `\leq`
    AtMost,
    /// `>=` or `\geq`
    AtLeast,
    /// `#` or `/=`
    NotEqual,
    /// `[]`
    Box,
    /// `:`
    Colon,
    /// `;`
    Semicolon,
    /// `,`
    Comma,
    /// `.`
    Dot,
    /// `(`
    OpenRound,
    /// `)`
    CloseRound,
    /// `[`
    OpenSquare,
    /// `]`
    CloseSquare,
    /// `{`
    OpenCurly,
    /// `}`
    CloseCurly,
    /// `=`
    Equal,
    /// `<`
    Less,
    /// `>`
    Greater,
    /// `+`
    Plus,
    /// `-`
    Minus,
    /// `*`
    Times,
    /// `%`
    Percent,
    /// `~` or `\lnot` or `\neg`
    Not,
    /// `!`
    Bang,
    /// `\`
    Without,
    /// `\in`
    In,
    /// `\notin`
    NotIn,
    /// `\subseteq`
    SubsetEq,
    /// `\cup` or `\union`
    Cup,
    /// `\cap` or `\intersect`
    Cap,
    /// `\div`
    Divide,
    /// `\o` or `\circ`
    Concat,
    /// `\A`
    ForAll,
    /// `\E`
    Exists,
}

// The signs that are spelled from a backslash on in some way, in the order of all signs.
static BACKSLASH_SIGNS: [Sign; 16] = [
    Sign::Equivalent,
    Sign::And,
    Sign::Or,
    Sign::AtMost,
    Sign::AtLeast,
    Sign::Not,
    Sign::Without,
    Sign::In,
    Sign::NotIn,
    Sign::SubsetEq,
    Sign::Cup,
    Sign::Cap,
    Sign::Divide,
    Sign::Concat,
    Sign::ForAll,
    Sign::Exists,
];

// The signs that are spelled by a backslash and so many bytes in all.
fn backslash_signs(len: usize) -> &'static [Sign]
    ensures { result.now ≡ filter (λ s. list_any (λ w. begins_with 92 w && nat_eq (length w) len) (spellings s)) all_signs }
{
    match len {
        1 => &[Sign::Without],
        2 => &[Sign::Or, Sign::Concat, Sign::ForAll, Sign::Exists],
        3 => &[Sign::In],
        4 => &[
            Sign::Or,
            Sign::AtMost,
            Sign::AtLeast,
            Sign::Not,
            Sign::Cup,
            Sign::Cap,
            Sign::Divide,
        ],
        5 => &[Sign::And, Sign::Not, Sign::Concat],
        6 => &[Sign::Equivalent, Sign::NotIn, Sign::Cup],
        9 => &[Sign::SubsetEq],
        10 => &[Sign::Cap],
        _ => &[],
    }
}

// The signs that may be spelled so.
fn signs_like(word: &[u8]) -> &'static [Sign]
    requires { 0 < length word.now }
    ensures { find (λ s. is_among_of (spellings s) word.now) result.now ≡ sign_of word.now }
{
    if word[0] == b'\\' {
        backslash_signs(word.len())
    } else {
        signs_from(word[0])
    }
}

// The signs that are spelled from this byte on in some way. Of those that are no words and begin alike, the longest is first.
fn signs_from(first: u8) -> &'static [Sign]
    ensures { result.now ≡ filter (λ s. list_any (begins_with first) (spellings s)) all_signs }
{
    match first {
        b'|' => &[Sign::MapsTo, Sign::Parallel],
        b'<' => &[Sign::Equivalent, Sign::OpenTuple, Sign::AtMost, Sign::Less],
        b'\\' => &BACKSLASH_SIGNS,
        b':' => &[Sign::Assign, Sign::Pair, Sign::Colon],
        b'@' => &[Sign::Override],
        b'.' => &[Sign::Range, Sign::Dot],
        b'/' => &[Sign::And, Sign::NotEqual],
        b'=' => &[Sign::Implies, Sign::Defined, Sign::AtMost, Sign::Equal],
        b'-' => &[Sign::Arrow, Sign::Minus],
        b'>' => &[Sign::CloseTuple, Sign::AtLeast, Sign::Greater],
        b'#' => &[Sign::NotEqual],
        b'[' => &[Sign::Box, Sign::OpenSquare],
        b';' => &[Sign::Semicolon],
        b',' => &[Sign::Comma],
        b'(' => &[Sign::OpenRound],
        b')' => &[Sign::CloseRound],
        b']' => &[Sign::CloseSquare],
        b'{' => &[Sign::OpenCurly],
        b'}' => &[Sign::CloseCurly],
        b'+' => &[Sign::Plus],
        b'*' => &[Sign::Times],
        b'%' => &[Sign::Percent],
        b'~' => &[Sign::Not],
        b'!' => &[Sign::Bang],
        _ => &[],
    }
}

// How a sign may be spelled; the first is the one that is written.
fn spellings(sign: Sign) -> &'static [&'static str]
    ensures { map (λ w. w.now) result.now ≡ spellings sign }
{
    match sign {
        Sign::MapsTo => &["|->"],
        Sign::Equivalent => &["<=>", "\\equiv"],
        Sign::Assign => &[":="],
        Sign::Parallel => &["||"],
        Sign::Pair => &[":>"],
        Sign::Override => &["@@"],
        Sign::Range => &[".."],
        Sign::And => &["/\\", "\\land"],
        Sign::Or => &["\\/", "\\lor"],
        Sign::Implies => &["=>"],
        Sign::Arrow => &["->"],
        Sign::Defined => &["=="],
        Sign::OpenTuple => &["<<"],
        Sign::CloseTuple => &[">>"],
        Sign::AtMost => &["<=", "=<", "\\leq"],
        Sign::AtLeast => &[">=", "\\geq"],
        Sign::NotEqual => &["#", "/="],
        Sign::Box => &["[]"],
        Sign::Colon => &[":"],
        Sign::Semicolon => &[";"],
        Sign::Comma => &[","],
        Sign::Dot => &["."],
        Sign::OpenRound => &["("],
        Sign::CloseRound => &[")"],
        Sign::OpenSquare => &["["],
        Sign::CloseSquare => &["]"],
        Sign::OpenCurly => &["{"],
        Sign::CloseCurly => &["}"],
        Sign::Equal => &["="],
        Sign::Less => &["<"],
        Sign::Greater => &[">"],
        Sign::Plus => &["+"],
        Sign::Minus => &["-"],
        Sign::Times => &["*"],
        Sign::Percent => &["%"],
        Sign::Not => &["~", "\\lnot", "\\neg"],
        Sign::Bang => &["!"],
        Sign::Without => &["\\"],
        Sign::In => &["\\in"],
        Sign::NotIn => &["\\notin"],
        Sign::SubsetEq => &["\\subseteq"],
        Sign::Cup => &["\\cup", "\\union"],
        Sign::Cap => &["\\cap", "\\intersect"],
        Sign::Divide => &["\\div"],
        Sign::Concat => &["\\o", "\\circ"],
        Sign::ForAll => &["\\A"],
        Sign::Exists => &["\\E"],
    }
}

// Whether these bytes are in front.
fn is_front(word: &[u8], text: &[u8]) -> bool
    ensures { result ≡ starts_with nat_eq text.now word.now }
{
    match word {
        [a] => !text.is_empty() && text[0] == *a,
        [a, b] => begins_pair(text, *a, *b),
        _ => text.starts_with(word),
    }
}

/// How long the first spelling of a sign is that is in front.
pub fn spelling_len(sign: Sign, text: &[u8]) -> Option<usize>
    ensures { result ≡ option_map length (spelling_at (spellings sign) text.now) }
{
    for word in spellings(sign) {
        if is_front(word.as_bytes(), text) {
            return Some(word.len());
        }
    }
    None
}

// The signs that may be in front: words only where a letter is behind a backslash.
fn signs_before(text: &[u8]) -> &'static [Sign]
    requires { 0 < length text.now }
    ensures { find (λ s. list_any (λ w. starts_with nat_eq text.now w) (spellings s)) result.now ≡ sign_at text.now }
{
    if text[0] == b'\\' && !has_letter_behind(text) {
        marks_before(text)
    } else {
        signs_from(text[0])
    }
}

// The sign that may be in front where a backslash is no beginning of a word.
fn marks_before(text: &[u8]) -> &'static [Sign]
    requires backslash { slice_index text.now 0 ≡ 92 }
    requires no_letter { list_any is_letter (take 1 (drop 1 text.now)) ≡ false }
    ensures { find (λ s. list_any (λ w. starts_with nat_eq text.now w) (spellings s)) result.now ≡ sign_at text.now }
{
    if begins_pair(text, b'\\', b'/') {
        &[Sign::Or]
    } else {
        &[Sign::Without]
    }
}

// Whether the second byte is a letter.
fn has_letter_behind(text: &[u8]) -> bool
    requires { 0 < length text.now }
    ensures { result ≡ list_any is_letter (take 1 (drop 1 text.now)) }
{
    text.len() > 1 && is_letter(text[1])
}

// The first of some signs that is in front.
fn first_at(signs: &[Sign], text: &[u8]) -> Option<Sign>
    ensures { result ≡ find (λ s. list_any (λ w. starts_with nat_eq text.now w) (spellings s)) signs.now }
{
    signs.iter().copied().find(|s| is_at(*s, text))
}

/// The sign in front, if it is no word: the longest.
pub fn sign_at(text: &[u8]) -> Option<Sign>
    ensures { result ≡ sign_at text.now }
{
    if text.is_empty() {
        None
    } else {
        first_at(signs_before(text), text)
    }
}

#[tactic(auto, using(crate::proofs::Steps::some_found))]
fn is_at(sign: Sign, text: &[u8]) -> bool
    ensures { result ≡ list_any (λ w. starts_with nat_eq text.now w) (spellings sign) }
{
    spelling_len(sign, text).is_some()
}

fn is_spelled(sign: Sign, word: &[u8]) -> bool
    ensures { result ≡ is_among_of (spellings sign) word.now }
{
    is_among(spellings(sign), word)
}

// The first of some signs that is spelled so.
fn first_spelled(signs: &[Sign], word: &[u8]) -> Option<Sign>
    ensures { result ≡ find (λ s. is_among_of (spellings s) word.now) signs.now }
{
    signs.iter().copied().find(|s| is_spelled(*s, word))
}

/// The sign that a word stands for.
pub fn sign_of(word: &[u8]) -> Option<Sign>
    ensures { result ≡ sign_of word.now }
{
    if word.is_empty() {
        None
    } else {
        first_spelled(signs_like(word), word)
    }
}
