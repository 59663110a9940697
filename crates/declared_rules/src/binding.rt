//! What may offend where a macro is called: names that are bound in it, and names for which other text may be put in.

ghost use Rattle.std.specs.Prelude.{IsTrue, ◌↔◌};
ghost use Rattle.declared_rules.specs.Telling.{IsEarlier};

use algorithm_limits::order::is_before;
use std::hash::{Hash, Hasher};
use tla_tree::{Name, PlacedName};

/// What may offend, in a scope.
#[derive(Drop)]
pub enum Binding {
    /// A name that is bound.
    Bound(PlacedName),
    /// A free name, for which other text may be put in.
    Standing(Name),
    /// The same where another name is bound.
    Beneath(Name, Name),
}

impl Binding {
    /// Whether it is this name, bound no later.
    pub fn is_earlier(&self, name: &PlacedName) -> bool
        ensures { IsTrue result ↔ IsEarlier self.now name.now }
    {
        match self {
            Binding::Bound(one) => one.name.is(&name.name) && !is_before(name.place, one.place),
            _ => false,
        }
    }
}

impl PartialEq for Binding {
    ghost use Rattle.declared_rules.specs.Held.{same_held, same_partial};

    ghost eq = { same_held };

    ghost laws = { same_partial };

    fn eq(&self, other: &Binding) -> bool {
        match self {
            Binding::Bound(a) => match other {
                Binding::Bound(b) => {
                    a.name == b.name && a.place.line == b.place.line && a.place.col == b.place.col
                }
                _ => false,
            },
            Binding::Standing(a) => match other {
                Binding::Standing(b) => a == b,
                _ => false,
            },
            Binding::Beneath(a, under) => match other {
                Binding::Beneath(b, below) => a == b && under == below,
                _ => false,
            },
        }
    }
}

impl Eq for Binding {
    ghost use Rattle.declared_rules.specs.Held.{same_equivalence};

    ghost laws = { same_equivalence };
}

impl Hash for Binding {
    ghost use Rattle.declared_rules.specs.Held.{fed_held, fed_same};

    ghost hash_input = { fed_held };

    ghost respects_eq = { fed_same };

    fn hash<H: Hasher>(&self, state: &mut H) {
        match self {
            Binding::Bound(name) => {
                name.name.hash(state);
                name.place.line.hash(state);
                name.place.col.hash(state);
            }
            Binding::Standing(name) => name.hash(state),
            Binding::Beneath(name, under) => {
                name.hash(state);
                under.hash(state);
            }
        }
    }
}
