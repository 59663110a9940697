//! Which of the standard modules are extended.

ghost use Rattle.std.specs.Prelude.{◌≡◌};
ghost use Rattle.tla_tree.specs.Tree.{words};
ghost use Rattle.module_outside.specs.ModulesIn.{AreModules, has_op, with_module, is_standard_in};

use crate::standard::is;
use tla_token::own::is_standard;
use tla_tree::{Op, PlacedName};

/// The standard modules that are extended.
#[derive(Clone, Copy)]
pub struct Modules {
    pub naturals: bool,
    pub integers: bool,
    pub sequences: bool,
    pub finite_sets: bool,
    pub tlc: bool,
}

impl Modules {
    /// With one more module, if it is a standard one.
    pub fn with(self, name: &[u8]) -> Modules
        ensures { result ≡ with_module self name.now }
    {
        Modules {
            naturals: self.naturals || is(name, b"Naturals"),
            integers: self.integers || is(name, b"Integers"),
            sequences: self.sequences || is(name, b"Sequences"),
            finite_sets: self.finite_sets || is(name, b"FiniteSets"),
            tlc: self.tlc || is(name, b"TLC"),
        }
    }

    /// Whether an operator is known: it needs no module, or one that gives it is extended.
    pub fn has_operator(self, op: Op) -> bool
        ensures { result ≡ has_op self op }
    {
        match op {
            Op::Plus
            | Op::Minus
            | Op::Times
            | Op::Divide
            | Op::Modulo
            | Op::Range
            | Op::Less
            | Op::Greater
            | Op::AtMost
            | Op::AtLeast => self.naturals || self.integers,
            Op::Negate => self.integers,
            Op::Concat => self.sequences,
            Op::MapsTo | Op::Override => self.tlc,
            _ => true,
        }
    }

    /// Whether a name is a standard one, which no other may be.
    pub fn is_standard(self, name: &[u8]) -> bool
        ensures { result ≡ is_standard_in self name.now }
    {
        is_standard(self.sequences, self.tlc, name)
    }
}

/// The standard modules among these names.
#[tactic(auto, using(crate::proofs::ModuleLaws::none_extended, crate::proofs::ModuleLaws::names_extended, crate::proofs::ModuleLaws::all_extended))]
pub fn modules_among(names: &[PlacedName]) -> Modules
    ensures { AreModules result (words names.now) }
{
    let mut modules = Modules {
        naturals: false,
        integers: false,
        sequences: false,
        finite_sets: false,
        tlc: false,
    };
    for one in names {
        modules = modules.with(one.name.bytes());
    }
    modules
}
