//! The text that the bytes between quotes stand for.

ghost use Rattle.std.specs.Prelude.{◌≡◌, IfOk, [], unwrap_or};
ghost use Rattle.tla_token.specs.Lexemes.{unquoted as unquoted_of};

use std::alloc::{AllocError, Global};
use tla_token::bytes::{escaped, is_plain};
use tla_tree::Text;

/// The text that these bytes between quotes stand for; none where they stand for no string.
///
/// # Errors
///
/// Only for want of memory.
pub fn unquoted(alloc: Global, raw: &[u8]) -> Result<Text, AllocError>
    ensures { IfOk result (λ t. t ≡ unwrap_or (unquoted_of raw.now) []) }
{
    let mut bytes = Vec::new(alloc);
    let mut rest = raw;
    while let Some((b, behind)) = rest.split_first() {
        if *b == b'\\' {
            match behind.split_first() {
                None => return Ok(Text::new(Vec::new(alloc))),
                Some((c, more)) => match escaped(*c) {
                    None => return Ok(Text::new(Vec::new(alloc))),
                    Some(d) => {
                        bytes.push(d)?;
                        rest = more;
                    }
                },
            }
        } else if is_plain(*b) {
            bytes.push(*b)?;
            rest = behind;
        } else {
            return Ok(Text::new(Vec::new(alloc)));
        }
    }
    Ok(Text::new(bytes))
}
