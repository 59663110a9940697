//! The part of a text that is in front: a blank, a comment, a lexeme, or a part that is wrong.

ghost use Rattle.std.specs.Prelude.{◌≡◌, ℕ, ◌+◌, ◌-◌, ◌<◌, ◌≤◌, ◌∷◌, length, take, drop, slice_index, List, false, None, Some, IfSome, if◌then◌else◌, nat_eq, ◌&&◌};
ghost use Rattle.std.specs.List.{list_any};
ghost use Rattle.tla_token.specs.Limits.{past_text};
ghost use Rattle.tla_token.specs.Lexemes.{is_word, is_letter};
ghost use Rattle.tla_token.specs.Offences as pure;
ghost use Rattle.tla_token.specs.Offences.{string_len};
ghost use Rattle.tla_token.specs.Cut.{run, part_by, string_part, block_part, comment_len};
ghost use Rattle.tla_token.specs.Scan.{outline, front_by, front, lexeme_front, mark_front, worded, IsWordless};

use crate::bytes::{
    begins_pair, comment_len, has_letter, is_blank, is_digit, is_printed, is_string, line_len,
    number_len, string_len, word_len,
};
use crate::sign::{Sign, sign_at, sign_of, spelling_len};

/// What a part of a text is.
#[derive(Clone, Copy)]
pub enum Class {
    /// A space, a tab, LF or CR.
    Blank,
    /// A `(*` comment.
    Block,
    /// A `\*` comment, up to its line's end.
    Line,
    /// A name, or a reserved word.
    Name,
    /// A number.
    Number,
    /// A string.
    Text,
    /// A sign, however it is spelled.
    Sign(Sign),
    /// A sign that this profile leaves out.
    Other,
    /// A byte that is no blank and not printable.
    Stray,
    /// A string with a bad escape or a bad byte.
    BadText,
    /// A string that doesn't end on its line.
    OpenText,
    /// A `(*` comment that isn't closed.
    OpenBlock,
}

/// A part of a text.
#[derive(Clone, Copy)]
pub struct Part {
    /// What it is.
    pub class: Class,
    /// How many bytes it has.
    pub len: usize,
}

/// The part in front, if there is one. So many bytes in front are known to be in a word without a
/// letter, and so many are so when it is found: no byte is looked at again for that.
#[tactic(auto, using(crate::proofs::Fronts::front_outer, crate::proofs::Fronts::front_lexeme))]
pub fn part_at(text: &[u8], wordless: &mut usize) -> Option<Part>
    requires small { length text.now < past_text }
    requires known { IsWordless wordless.old text.now }
    ensures part { result ≡ front text.now }
    ensures known { IsWordless wordless.new text.now }
{
    match outer_at(text) {
        Some(part) => Some(part),
        None => lexeme_at(text, wordless),
    }
}

/// The blank, string or comment in front, whatever the lexemes are.
#[tactic(auto, using(crate::proofs::Fronts::front_blank, crate::proofs::Fronts::front_string, crate::proofs::Fronts::front_block, crate::proofs::Fronts::front_line, crate::proofs::Fronts::front_inner, crate::proofs::Fronts::front_end))]
pub fn outer_at(text: &[u8]) -> Option<Part>
    requires { length text.now < past_text }
    ensures found { IfSome result (λ p. (f : ℕ → List ℕ → pure.Part) → front_by (part_by f) text.now ≡ Some p) }
    ensures none { result ≡ None → (f : ℕ → List ℕ → pure.Part) → front_by (part_by f) text.now ≡ front_by f text.now }
{
    if text.is_empty() {
        None
    } else if is_blank(text[0]) {
        Some(Part {
            class: Class::Blank,
            len: 1,
        })
    } else if text[0] == b'"' {
        Some(string_at(&text[1..]))
    } else if begins_pair(text, b'(', b'*') {
        Some(block_at(&text[2..]))
    } else if begins_pair(text, b'\\', b'*') {
        Some(Part {
            class: Class::Line,
            len: 2 + line_len(&text[2..]),
        })
    } else {
        None
    }
}

// The string that is open before this text.
fn string_at(text: &[u8]) -> Part
    requires { length text.now < past_text }
    ensures { result ≡ outline (string_part (take (string_len text.now) text.now) (drop (string_len text.now) text.now)) }
{
    let n = string_len(text);
    let raw = &text[..n];
    if !text[n..].starts_with(b"\"") {
        Part {
            class: Class::OpenText,
            len: 1 + n,
        }
    } else if is_string(raw) {
        Part {
            class: Class::Text,
            len: 2 + n,
        }
    } else {
        Part {
            class: Class::BadText,
            len: 2 + n,
        }
    }
}

// The comment that is open before this text.
fn block_at(text: &[u8]) -> Part
    requires { length text.now < past_text }
    ensures { result ≡ outline (block_part (comment_len 1 text.now) text.now) }
{
    match comment_len(text) {
        Some(n) => Part {
            class: Class::Block,
            len: 2 + n,
        },
        None => Part {
            class: Class::OpenBlock,
            len: 2 + text.len(),
        },
    }
}

/// The lexeme in front, or the byte that is none, of a text that begins with no blank, string or
/// comment; what is known of words as for `part_at`.
#[tactic(auto, using(crate::proofs::Fronts::front_name))]
pub fn lexeme_at(text: &[u8], wordless: &mut usize) -> Option<Part>
    requires small { length text.now < past_text }
    requires known { IsWordless wordless.old text.now }
    ensures part { result ≡ lexeme_front text.now }
    ensures known { IsWordless wordless.new text.now }
{
    let name = name_len(text, wordless);
    if name > 0 {
        Some(Part {
            class: Class::Name,
            len: name,
        })
    } else {
        nameless_at(text)
    }
}

// How long the name in front is; 0 where there is none.
fn name_len(text: &[u8], wordless: &mut usize) -> usize
    requires known { IsWordless wordless.old text.now }
    ensures name { result ≡ (if list_any is_letter (run is_word text.now) then length (run is_word text.now) else 0) }
    ensures known { IsWordless wordless.new text.now }
{
    if *wordless > 0 {
        return 0;
    }
    let n = word_len(text);
    if has_letter(&text[..n]) {
        n
    } else {
        *wordless = n;
        0
    }
}

// The lexeme in front of a text that begins with no name.
#[tactic(auto, using(crate::proofs::Fronts::front_number, crate::proofs::Fronts::front_word, crate::proofs::Fronts::front_mark, crate::proofs::Fronts::lexeme_end))]
fn nameless_at(text: &[u8]) -> Option<Part>
    requires small { length text.now < past_text }
    requires nameless { list_any is_letter (run is_word text.now) ≡ false }
    ensures { result ≡ lexeme_front text.now }
{
    if text.is_empty() {
        None
    } else if is_digit(text[0]) {
        Some(Part {
            class: Class::Number,
            len: number_len(text),
        })
    } else if begins_worded(text) {
        Some(worded(&text[..1 + word_len(&text[1..])]))
    } else {
        Some(mark_at(text))
    }
}

// Whether there is a backslash with a word in front.
fn begins_worded(text: &[u8]) -> bool
    requires { 0 < length text.now }
    ensures { result ≡ (nat_eq (slice_index text.now 0) 92 && list_any is_letter (run is_word (drop 1 text.now))) }
{
    let rest = &text[1..];
    text[0] == b'\\' && has_letter(&rest[..word_len(rest)])
}

// The sign that a word stands for.
#[tactic(auto, using(crate::proofs::Fronts::worded_sign, crate::proofs::Fronts::worded_other))]
fn worded(word: &[u8]) -> Part
    ensures { result ≡ worded word.now }
{
    match sign_of(word) {
        Some(sign) => Part {
            class: Class::Sign(sign),
            len: word.len(),
        },
        None => Part {
            class: Class::Other,
            len: word.len(),
        },
    }
}

// The sign that a byte is in front of whatever text.
#[tactic(auto, using(crate::proofs::LoneSigns::is_semicolon, crate::proofs::LoneSigns::is_comma, crate::proofs::LoneSigns::is_open_round, crate::proofs::LoneSigns::is_close_round, crate::proofs::LoneSigns::is_close_square, crate::proofs::LoneSigns::is_open_curly, crate::proofs::LoneSigns::is_close_curly, crate::proofs::LoneSigns::is_plus, crate::proofs::LoneSigns::is_times, crate::proofs::LoneSigns::is_percent, crate::proofs::LoneSigns::is_not, crate::proofs::LoneSigns::is_bang, crate::proofs::LoneSigns::is_not_equal))]
fn lone_sign(first: u8) -> Option<Sign>
    ensures { IfSome result (λ s. (rest : List ℕ) → mark_front (first ∷ rest) ≡ record { class = Class.Sign s; len = 1 }) }
{
    match first {
        b';' => Some(Sign::Semicolon),
        b',' => Some(Sign::Comma),
        b'(' => Some(Sign::OpenRound),
        b')' => Some(Sign::CloseRound),
        b']' => Some(Sign::CloseSquare),
        b'{' => Some(Sign::OpenCurly),
        b'}' => Some(Sign::CloseCurly),
        b'+' => Some(Sign::Plus),
        b'*' => Some(Sign::Times),
        b'%' => Some(Sign::Percent),
        b'~' => Some(Sign::Not),
        b'!' => Some(Sign::Bang),
        b'#' => Some(Sign::NotEqual),
        _ => None,
    }
}

// A part that is a sign.
fn sign_part(sign: Sign, len: usize) -> Part
    ensures { result ≡ record { class = Class.Sign sign; len = len } }
{
    Part {
        class: Class::Sign(sign),
        len,
    }
}

// The sign that is told by two bytes, whatever comes after them.
#[tactic(auto, using(crate::proofs::LoneSigns::before_assign, crate::proofs::LoneSigns::before_colon, crate::proofs::LoneSigns::before_defined, crate::proofs::LoneSigns::before_implies, crate::proofs::LoneSigns::before_equal, crate::proofs::LoneSigns::before_range, crate::proofs::LoneSigns::before_dot, crate::proofs::LoneSigns::before_box, crate::proofs::LoneSigns::before_open_square, crate::proofs::LoneSigns::before_arrow, crate::proofs::LoneSigns::before_minus))]
fn near_sign(first: u8, second: u8) -> Option<Part>
    ensures { IfSome result (λ p. (rest : List ℕ) → mark_front (first ∷ second ∷ rest) ≡ p) }
{
    match first {
        b':' => match second {
            b'=' => Some(sign_part(Sign::Assign, 2)),
            b'>' => None,
            _ => Some(sign_part(Sign::Colon, 1)),
        },
        b'=' => match second {
            b'=' => Some(sign_part(Sign::Defined, 2)),
            b'>' => Some(sign_part(Sign::Implies, 2)),
            b'<' => None,
            _ => Some(sign_part(Sign::Equal, 1)),
        },
        b'.' => match second {
            b'.' => Some(sign_part(Sign::Range, 2)),
            _ => Some(sign_part(Sign::Dot, 1)),
        },
        b'[' => match second {
            b']' => Some(sign_part(Sign::Box, 2)),
            _ => Some(sign_part(Sign::OpenSquare, 1)),
        },
        b'-' => match second {
            b'>' => Some(sign_part(Sign::Arrow, 2)),
            _ => Some(sign_part(Sign::Minus, 1)),
        },
        _ => None,
    }
}

// The sign in front that is no word, or one byte.
#[tactic(auto, using(crate::proofs::LoneSigns::lone))]
fn mark_at(text: &[u8]) -> Part
    requires { 0 < length text.now }
    ensures { result ≡ mark_front text.now }
{
    match lone_sign(text[0]) {
        Some(sign) => sign_part(sign, 1),
        None => further_mark(text),
    }
}

// The same where one byte doesn't tell it.
#[tactic(auto, using(crate::proofs::LoneSigns::near))]
fn further_mark(text: &[u8]) -> Part
    requires { 0 < length text.now }
    ensures { result ≡ mark_front text.now }
{
    if text.len() < 2 {
        return longest_mark(text);
    }
    match near_sign(text[0], text[1]) {
        Some(part) => part,
        None => longest_mark(text),
    }
}

// The longest sign in front that is no word, or one byte.
#[tactic(auto, using(crate::proofs::Fronts::mark_sign, crate::proofs::Fronts::mark_other, crate::proofs::Fronts::mark_stray))]
fn longest_mark(text: &[u8]) -> Part
    requires { 0 < length text.now }
    ensures { result ≡ mark_front text.now }
{
    match sign_at(text) {
        Some(sign) => Part {
            class: Class::Sign(sign),
            len: spelling_len(sign, text).unwrap_or(0),
        },
        None => {
            if is_printed(text[0]) {
                Part {
                    class: Class::Other,
                    len: 1,
                }
            } else {
                Part {
                    class: Class::Stray,
                    len: 1,
                }
            }
        }
    }
}
