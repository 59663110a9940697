//! Uses of names, what names may be used as, and what a use offends.

ghost use Rattle.std.specs.Prelude.{◌≡◌, ◌&&◌, not, Some, IsTrue, ◌↔◌};
ghost use Rattle.tla_tree.specs.Tree.{Word};
ghost use Rattle.pcal_tree.specs.Offences.{first};
ghost use Rattle.pcal_tree.specs.NameUses.{applied_offences, left_offences, handed_use};
ghost use Rattle.pcal_tree.specs.laws.MacroUses.{offences_as};
ghost use Rattle.declared_rules.specs.UsesTold.{use_seen, use_as, IsEarlier};

use algorithm_limits::order::{is_before, or_offence};
use tla_token::{Place, Refusal, Rule};
use tla_tree::Name;

/// What a name is used as.
#[derive(Clone, Copy, PartialEq, Eq, Hash)]
pub enum Kind {
    /// In an expression, with so many arguments; true directly right of `\in` or `\notin`.
    Applied(usize, bool),
    /// At the beginning of a left side.
    Assigned,
    /// At the beginning of an argument that a macro assigns.
    Handed,
}

/// A use of a name, at a place.
#[derive(Drop, PartialEq, Eq, Hash)]
pub struct NameUse {
    pub name: Name,
    pub kind: Kind,
    pub line: u32,
    pub col: u32,
}

impl NameUse {
    /// Where it is.
    pub fn place(&self) -> Place
        ensures { result ≡ record { line = self.now.line; col = self.now.col } }
    {
        Place {
            line: self.line,
            col: self.col,
        }
    }

    /// Whether it is the same use of the same name, and no later than this place.
    pub fn is_earlier(&self, name: &Name, kind: Kind, place: Place) -> bool
        ensures { IsTrue result ↔ IsEarlier self.now kind name.now place }
    {
        self.kind == kind && self.name.is(name) && !is_before(place, self.place())
    }
}

/// What a name may be used as.
#[derive(Clone, Copy)]
pub enum Use {
    /// It is nothing.
    Unknown,
    /// With so many arguments, and never assigned.
    Takes(usize),
    /// A variable.
    Variable,
    /// A name of a standard module, with so many arguments; whether a module that gives it is extended, and whether it is an
    /// infinite set.
    Standard(usize, bool, bool),
    /// Not at all, since its unit was not read.
    Unread,
}

// Whether an infinite set may not stand where it is.
fn may_not_stand(infinite: bool, right: bool) -> bool
    ensures { result ≡ (infinite && not right) }
{
    infinite && !right
}

// What a use in an expression offends.
fn applied_offence(known: Use, arguments: usize, right: bool, place: Place) -> Option<Refusal>
    ensures { result ≡ first (applied_offences (use_seen known) arguments right place) }
{
    match known {
        Use::Unknown => or_offence(None, true, Rule::Unknown, place),
        Use::Takes(arity) => or_offence(None, arity != arguments, Rule::Arity, place),
        Use::Variable => or_offence(None, arguments != 0, Rule::Arity, place),
        Use::Standard(arity, extended, infinite) => {
            let found = or_offence(None, arity != arguments, Rule::Arity, place);
            let found = or_offence(found, !extended, Rule::NeedsModule, place);
            or_offence(found, may_not_stand(infinite, right), Rule::Infinite, place)
        }
        Use::Unread => or_offence(None, true, Rule::OpaqueUnit, place),
    }
}

// What a left side offends.
fn left_offence(known: Use, place: Place) -> Option<Refusal>
    ensures { result ≡ first (left_offences (use_seen known) place) }
{
    match known {
        Use::Unknown => or_offence(None, true, Rule::Unknown, place),
        Use::Variable => None,
        _ => or_offence(None, true, Rule::NotVariable, place),
    }
}

// What an argument offends that a macro assigns.
fn handed_offence(known: Use, place: Place) -> Option<Refusal>
    ensures { result ≡ first (left_offences (Some (handed_use (use_seen known) place)) place) }
{
    match known {
        Use::Variable => None,
        _ => or_offence(None, true, Rule::NotVariable, place),
    }
}

/// What a use of a name offends, at a place, that may be used so.
pub fn offence_as(known: Use, kind: Kind, place: Place) -> Option<Refusal>
    ensures { (x : Word) → result ≡ first (offences_as (use_seen known) (use_as kind x place)) }
{
    match kind {
        Kind::Applied(arguments, right) => applied_offence(known, arguments, right, place),
        Kind::Assigned => left_offence(known, place),
        Kind::Handed => handed_offence(known, place),
    }
}
