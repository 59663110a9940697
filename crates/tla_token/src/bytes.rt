//! Bytes at the front of a text that belong together: words, numbers, strings, comments.

ghost use Rattle.std.specs.Prelude.{◌≡◌, [], ◌∷◌, ◌+◌, ◌-◌, ◌<◌, ◌≤◌, not, nat_eq, length, take, drop, slice_index, IfSome, is_some};
ghost use Rattle.std.specs.List.{list_any, starts_with};
ghost use Rattle.tla_token.specs.Limits.{past_text};
ghost use Rattle.tla_token.specs.Lexemes.{is_letter, is_digit, is_word, is_blank, is_printed, is_plain, escaped, unquoted, number_of};
ghost use Rattle.tla_token.specs.Tokens.{is_pair, holds_mark};
ghost use Rattle.tla_token.specs.Offences.{is_stray, string_len, has_bad_escape, breaks_string};
ghost use Rattle.tla_token.specs.Cut.{run, comment_len};
ghost use Rattle.tla_token.specs.Scan.{in_128_bits};

// ---- characters

/// A letter of ASCII.
pub fn is_letter(b: u8) -> bool
    ensures { result ≡ is_letter b }
{
    (b'a' <= b && b <= b'z') || (b'A' <= b && b <= b'Z')
}

/// A decimal digit.
pub fn is_digit(b: u8) -> bool
    ensures { result ≡ is_digit b }
{
    b'0' <= b && b <= b'9'
}

/// A letter, a digit or an underscore.
pub fn is_word(b: u8) -> bool
    ensures { result ≡ is_word b }
{
    is_letter(b) || is_digit(b) || b == b'_'
}

/// Space, tab, LF or CR.
pub fn is_blank(b: u8) -> bool
    ensures { result ≡ is_blank b }
{
    b == b' ' || b == b'\t' || b == b'\n' || b == b'\r'
}

/// Printable, and no blank.
pub fn is_printed(b: u8) -> bool
    ensures { result ≡ is_printed b }
{
    b'!' <= b && b <= b'~'
}

/// A character of a string that stands for itself.
pub fn is_plain(b: u8) -> bool
    ensures { result ≡ is_plain b }
{
    b != b'"' && b != b'\\' && b' ' <= b && b <= b'~'
}

// A byte past 127, or a control byte that is no blank.
fn is_stray(b: u8) -> bool
    ensures { result ≡ is_stray b }
{
    !is_blank(b) && !is_printed(b)
}

/// What stands for the character after a backslash.
pub fn escaped(b: u8) -> Option<u8>
    ensures { result ≡ escaped b }
{
    match b {
        b'"' | b'\\' => Some(b),
        b't' => Some(b'\t'),
        b'n' => Some(b'\n'),
        b'f' => Some(12),
        b'r' => Some(b'\r'),
        _ => None,
    }
}

// ---- words and numbers

/// How many letters, digits and underscores there are at the front.
pub fn word_len(text: &[u8]) -> usize
    ensures { result ≡ length (run is_word text.now) }
{
    text.iter().take_while(|b| is_word(**b)).count()
}

/// How many digits there are at the front.
pub fn number_len(text: &[u8]) -> usize
    ensures { result ≡ length (run is_digit text.now) }
{
    text.iter().take_while(|b| is_digit(**b)).count()
}

/// How many blanks there are at the front.
pub fn blank_len(text: &[u8]) -> usize
    ensures value { result ≡ length (run is_blank text.now) }
    ensures bound { result ≤ length text.now }
{
    text.iter().take_while(|b| is_blank(**b)).count()
}

/// How many bytes there are before the line's end.
pub fn line_len(text: &[u8]) -> usize
    ensures { result ≡ length (run (λ b. not (nat_eq b 10)) text.now) }
{
    text.iter().take_while(|b| **b != b'\n').count()
}

/// Whether there is a letter.
pub fn has_letter(text: &[u8]) -> bool
    ensures { result ≡ list_any is_letter text.now }
{
    text.iter().any(|b| is_letter(*b))
}

/// The number that digits stand for, if it fits in 128 bits.
pub fn number_value(digits: &[u8]) -> Option<u128>
    ensures { result ≡ in_128_bits (number_of digits.now) }
{
    let mut value = 0u128;
    for b in digits {
        let digit = (*b).saturating_sub(b'0') as u128;
        if value >= 1 << 124 && value > (u128::MAX - digit) / 10 {
            return None;
        }
        value = 10 * value + digit;
    }
    Some(value)
}

// ---- strings

/// How many bytes behind a quote belong to its string.
pub fn string_len(text: &[u8]) -> usize
    ensures value { result ≡ string_len text.now }
    ensures bound { result ≤ length text.now }
{
    let mut at = 0;
    while at < text.len() {
        let b = text[at];
        if b == b'"' || b == b'\n' {
            break;
        }
        at += 1;
        if b == b'\\' && at < text.len() && text[at] != b'\n' {
            at += 1;
        }
    }
    at
}

/// Whether these bytes between quotes stand for a string.
pub fn is_string(raw: &[u8]) -> bool
    ensures { result ≡ is_some (unquoted raw.now) }
{
    let mut at = 0;
    while at < raw.len() {
        if raw[at] == b'\\' {
            at += 1;
            if at == raw.len() || escaped(raw[at]).is_none() {
                return false;
            }
        } else if !is_plain(raw[at]) {
            return false;
        }
        at += 1;
    }
    true
}

/// Whether a backslash stands before a byte with which it doesn't go.
pub fn has_bad_escape(raw: &[u8]) -> bool
    ensures { result ≡ has_bad_escape raw.now }
{
    let mut at = 0;
    while at < raw.len() {
        if raw[at] == b'\\' {
            at += 1;
            if at == raw.len() || escaped(raw[at]).is_none() {
                return true;
            }
        }
        at += 1;
    }
    false
}

/// Whether there is a tab or CR.
pub fn has_break(raw: &[u8]) -> bool
    ensures { result ≡ list_any breaks_string raw.now }
{
    raw.iter().any(|b| *b == b'\t' || *b == b'\r')
}

/// Whether `(*` or `*)` is in these bytes.
pub fn has_mark(bytes: &[u8]) -> bool
    ensures { result ≡ holds_mark bytes.now }
{
    for at in 1..bytes.len() {
        if is_pair(bytes, at - 1, b'(', b'*') || is_pair(bytes, at - 1, b'*', b')') {
            return true;
        }
    }
    false
}

// ---- comments

fn is_pair(text: &[u8], at: usize, x: u8, y: u8) -> bool
    requires { at + 1 < length text.now }
    ensures { result ≡ is_pair x y (slice_index text.now at) (slice_index text.now (at + 1)) }
{
    text[at] == x && text[at + 1] == y
}

/// Whether these two bytes are in front.
pub fn begins_pair(text: &[u8], x: u8, y: u8) -> bool
    ensures { result ≡ starts_with nat_eq text.now (x ∷ y ∷ []) }
{
    text.len() >= 2 && is_pair(text, 0, x, y)
}

/// How many bytes after its opener belong to a `(*` comment, if it is closed.
#[tactic(auto, using(crate::proofs::Steps::opened, crate::proofs::Steps::closed, crate::proofs::Steps::passed, crate::proofs::Steps::too_short))]
pub fn comment_len(text: &[u8]) -> Option<usize>
    requires { length text.now < past_text }
    ensures value { result ≡ comment_len 1 text.now }
    ensures bound { IfSome result (λ n. n ≤ length text.now) }
{
    let mut depth = 1u32;
    let mut at = 0;
    while depth > 0 {
        if text.len() - at < 2 {
            return None;
        }
        if is_pair(text, at, b'(', b'*') {
            depth += 1;
            at += 2;
        } else if is_pair(text, at, b'*', b')') {
            depth -= 1;
            at += 2;
        } else {
            at += 1;
        }
    }
    Some(at)
}
