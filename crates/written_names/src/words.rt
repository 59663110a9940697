//! Words that no unit can have as its name, and names with numbers.

ghost use Rattle.std.specs.Prelude.{◌≡◌, ◌||◌, List, codes, IfOk};
ghost use Rattle.tla_token.specs.Signs.{is_among as is_among_of};
ghost use Rattle.tla_token.specs.Words.{is_reserved as is_reserved_of, is_own as is_own_of, is_standard as is_standard_of};
ghost use Rattle.tla_tree.specs.Tree.{Word};
ghost use Rattle.pcal_tree.specs.Names.{joint as joint_of, with_number};

use std::alloc::{AllocError, Global};
use tla_token::own::{is_own, is_reserved, is_standard};
use tla_tree::Name;

/// Whether no unit can have this name, in a module that extends Sequences and TLC, or not.
pub fn is_word(sequences: bool, tlc: bool, word: &[u8]) -> bool
    ensures { (extended : List Word) → is_among_of extended (codes "Sequences") ≡ sequences → is_among_of extended (codes "TLC") ≡ tlc → result ≡ (is_reserved_of word.now || is_own_of word.now || is_standard_of extended word.now) }
{
    is_reserved(word) || is_own(word) || is_standard(sequences, tlc, word)
}

/// Whether a name is among these.
pub fn is_listed(names: &[Name], word: &[u8]) -> bool
    ensures { result ≡ is_among_of names.now word.now }
{
    for name in names {
        if name.bytes() == word {
            return true;
        }
    }
    false
}

// What is between a name and a number.
fn joint(word: &[u8]) -> &'static [u8]
    ensures { result.now ≡ joint_of word.now }
{
    if word == b"WF".as_slice() || word == b"SF".as_slice() {
        b""
    } else {
        b"_"
    }
}

/// The name with a number after it.
///
/// # Errors
///
/// Only for want of memory.
pub fn numbered(alloc: Global, name: &Name, number: usize) -> Result<Name, AllocError>
    ensures { IfOk result (λ n. n ≡ with_number name.now number) }
{
    let mut bytes = Vec::new(alloc);
    bytes.extend_from_slice(name.bytes())?;
    bytes.extend_from_slice(joint(name.bytes()))?;
    let digits = format!(in alloc; "{number}")?;
    bytes.extend_from_slice(digits.as_bytes())?;
    Ok(Name::new(bytes))
}
