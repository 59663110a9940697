// How the bytes of an answer are shown.

ghost use Rattle.std.specs.Prelude.{◌<◌};

use std::alloc::AllocError;

const DIGITS: &[u8; 16] = b"0123456789abcdef";

/// Appends bytes as lines. Those that can't be printed stand between backticks, and so does the end that the last line lacks.
///
/// # Errors
///
/// Only for want of memory.
pub fn put_shown(told: &mut Vec<u8>, bytes: &[u8]) -> Result<(), AllocError> {
    for byte in bytes {
        match *byte {
            b'\n' | b' '..=b'_' | b'a'..=b'~' => told.push(*byte)?,
            other => {
                let (high, low) = (DIGITS[(other / 16) as usize], DIGITS[(other % 16) as usize]);
                told.extend_from_slice(&[b'`', high, low, b'`'])?;
            }
        }
    }
    if bytes.last() != Some(&b'\n') {
        told.extend_from_slice(b"``\n")?;
    }
    Ok(())
}
