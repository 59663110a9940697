//! Names that the standard modules give.

ghost use Rattle.std.specs.Prelude.{◌≡◌};
ghost use Rattle.std.specs.Str.{bytes_eq};
ghost use Rattle.module_outside.specs.ModulesIn.{gives as gives_in, standard_of, given, row_of};

use crate::modules::Modules;

/// Modules that give a name.
#[derive(Clone, Copy)]
pub enum Giver {
    /// Naturals or Integers.
    Numbers,
    Integers,
    Sequences,
    FiniteSets,
    Tlc,
}

/// A name of the standard modules: with so many arguments, given by these modules, and whether it is an infinite set.
#[derive(Clone, Copy)]
pub struct Standard {
    pub arity: usize,
    pub giver: Giver,
    pub infinite: bool,
}

/// Whether two words are the same.
pub fn is(word: &[u8], other: &[u8]) -> bool
    ensures { result ≡ bytes_eq other.now word.now }
{
    other == word
}

// With so many arguments, given by these modules.
fn row(arity: usize, giver: Giver, infinite: bool) -> Option<Standard>
    ensures { result ≡ row_of arity giver infinite }
{
    Some(Standard {
        arity,
        giver,
        infinite,
    })
}

/// The standard name that a word is.
pub fn standard_name(name: &[u8]) -> Option<Standard>
    ensures { result ≡ standard_of name.now }
{
    if is(name, b"Nat") {
        return row(0, Giver::Numbers, true);
    }
    if is(name, b"Int") {
        return row(0, Giver::Integers, true);
    }
    if is(name, b"Seq") {
        return row(1, Giver::Sequences, true);
    }
    if is(name, b"Len") {
        return row(1, Giver::Sequences, false);
    }
    if is(name, b"Append") {
        return row(2, Giver::Sequences, false);
    }
    if is(name, b"Head") {
        return row(1, Giver::Sequences, false);
    }
    if is(name, b"Tail") {
        return row(1, Giver::Sequences, false);
    }
    if is(name, b"SubSeq") {
        return row(3, Giver::Sequences, false);
    }
    if is(name, b"Cardinality") {
        return row(1, Giver::FiniteSets, false);
    }
    if is(name, b"IsFiniteSet") {
        return row(1, Giver::FiniteSets, false);
    }
    if is(name, b"PrintT") {
        return row(1, Giver::Tlc, false);
    }
    if is(name, b"Assert") {
        return row(2, Giver::Tlc, false);
    }
    None
}

impl Modules {
    // Whether modules that give a name are extended.
    fn gives(self, giver: Giver) -> bool
        ensures { result ≡ gives_in self giver }
    {
        match giver {
            Giver::Numbers => self.naturals || self.integers,
            Giver::Integers => self.integers,
            Giver::Sequences => self.sequences,
            Giver::FiniteSets => self.finite_sets,
            Giver::Tlc => self.tlc,
        }
    }

    /// Whether a name with so many arguments is given by a module that is extended; an infinite set only where it may stand.
    pub fn has_name(self, infinite: bool, name: &[u8], arguments: usize) -> bool
        ensures { result ≡ given self infinite (standard_of name.now) arguments }
    {
        match standard_name(name) {
            Some(found) => {
                found.arity == arguments && self.gives(found.giver) && (infinite || !found.infinite)
            }
            None => false,
        }
    }
}
