//! Words that are no names of the user's: reserved, own and standard ones.

ghost use Rattle.std.specs.Prelude.{◌≡◌, ◌||◌, ◌&&◌};
ghost use Rattle.tla_token.specs.Signs.{is_among as is_among_of};
ghost use Rattle.tla_token.specs.Words.{is_reserved as is_reserved_of, is_own as is_own_of, standard_names, sequence_names, tlc_names};

use crate::word::{is_among, is_pluscal_word, is_tla_word};

/// Names that the translation defines itself.
static OWN_NAMES: [&str; 11] = [
    "vars",
    "pc",
    "stack",
    "self",
    "Init",
    "Next",
    "Spec",
    "Terminating",
    "Termination",
    "ProcSet",
    "defaultInitValue",
];

/// Names of the standard modules, whether these are extended or not.
static STANDARD_NAMES: [&str; 12] = [
    "Nat",
    "Int",
    "Seq",
    "Len",
    "Append",
    "Head",
    "Tail",
    "SubSeq",
    "Cardinality",
    "IsFiniteSet",
    "PrintT",
    "Assert",
];

/// Further names of Sequences, and of TLC.
static SEQUENCE_NAMES: [&str; 1] = ["SelectSeq"];

static TLC_NAMES: [&str; 4] = ["Print", "JavaTime", "Permutations", "SortSeq"];

/// Whether a word is reserved, in PlusCal or in TLA+.
pub fn is_reserved(word: &[u8]) -> bool
    ensures { result ≡ is_reserved_of word.now }
{
    is_pluscal_word(word) || is_tla_word(word)
}

/// Whether the translation defines a name itself.
pub fn is_own(word: &[u8]) -> bool
    ensures { result ≡ is_own_of word.now }
{
    is_among(&OWN_NAMES, word)
}

/// Whether it is a further name of Sequences.
pub fn is_sequence_name(word: &[u8]) -> bool
    ensures { result ≡ is_among_of sequence_names word.now }
{
    is_among(&SEQUENCE_NAMES, word)
}

/// Whether it is a further name of TLC.
pub fn is_tlc_name(word: &[u8]) -> bool
    ensures { result ≡ is_among_of tlc_names word.now }
{
    is_among(&TLC_NAMES, word)
}

/// Whether a name is of a standard module, in a module that extends Sequences and TLC, or not.
pub fn is_standard(sequences: bool, tlc: bool, word: &[u8]) -> bool
    ensures { result ≡ (is_among_of standard_names word.now || (sequences && is_among_of sequence_names word.now) || (tlc && is_among_of tlc_names word.now)) }
{
    is_among(&STANDARD_NAMES, word)
        || (sequences && is_sequence_name(word))
        || (tlc && is_tlc_name(word))
}
