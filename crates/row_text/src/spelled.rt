// The one escape of the rows: what stands between two backticks is bytes in hexadecimal digits, or a text that is repeated.

ghost use Rattle.std.specs.Prelude.{◌<◌};

use std::alloc::{AllocError, Global};

/// The bytes that a text spells.
///
/// # Errors
///
/// Only for want of memory.
pub fn bytes_of(alloc: Global, spelled: &str) -> Result<Vec<u8>, AllocError> {
    let mut bytes = Vec::new(alloc);
    put_spelled(alloc, &mut bytes, spelled)?;
    Ok(bytes)
}

/// A word, or a file's name.
///
/// # Errors
///
/// Only for want of memory.
pub fn word_of(alloc: Global, spelled: &str) -> Result<String, AllocError> {
    String::from_utf8_lossy(alloc, &bytes_of(alloc, spelled)?)
}

/// The text of a file; none where there is no line. Its last line has an end, if two backticks don't stand there.
///
/// # Errors
///
/// Only for want of memory.
pub fn lines_of(alloc: Global, spelled: Option<&str>) -> Result<Vec<u8>, AllocError> {
    let mut bytes = Vec::new(alloc);
    if let Some(lines) = spelled {
        put_spelled(alloc, &mut bytes, lines)?;
        if !lines.ends_with("``") {
            bytes.push(b'\n')?;
        }
    }
    Ok(bytes)
}

// Appends the bytes that a text spells.
fn put_spelled(alloc: Global, bytes: &mut Vec<u8>, spelled: &str) -> Result<(), AllocError> {
    for (i, part) in spelled.split('`').enumerate() {
        if i % 2 == 0 {
            bytes.extend_from_slice(part.as_bytes())?;
        } else if let Some((count, text)) = times(part, '*') {
            bytes.extend_from_slice(text.repeat(alloc, count)?.as_bytes())?;
        } else if let Some((count, text)) = times(part, '#') {
            put_numbered(alloc, bytes, count, text)?;
        } else {
            put_pairs(bytes, part)?;
        }
    }
    Ok(())
}

// A number before a sign, and the text behind it.
fn times(part: &str, sign: char) -> Option<(usize, &str)> {
    let (count, text) = part.split_once(sign)?;
    Some((count.parse().ok()?, text))
}

// Appends a text so many times, with the number of each copy, from 1, in the place of each `#`.
fn put_numbered(
    alloc: Global,
    bytes: &mut Vec<u8>,
    count: usize,
    text: &str,
) -> Result<(), AllocError> {
    for n in 0..count {
        let number = format!(in alloc; "{}", n.saturating_add(1))?;
        for (i, part) in text.split('#').enumerate() {
            if i > 0 {
                bytes.extend_from_slice(number.as_bytes())?;
            }
            bytes.extend_from_slice(part.as_bytes())?;
        }
    }
    Ok(())
}

// Appends a byte for each two digits.
fn put_pairs(bytes: &mut Vec<u8>, digits: &str) -> Result<(), AllocError> {
    for pair in digits.as_bytes().chunks_exact(2) {
        if let [high, low] = pair {
            bytes.push(value(*high) * 16 + value(*low))?;
        }
    }
    Ok(())
}

// What a hexadecimal digit means.
fn value(digit: u8) -> u8
    ensures { result < 16 }
{
    match digit {
        b'0'..=b'9' => digit - b'0',
        b'a'..=b'f' => digit - b'a' + 10,
        _ => 0,
    }
}
