//! What names stand for where expressions are evaluated, and the definitions and constants of a module.

ghost use Rattle.std.specs.Prelude.{◌≡◌, ◌≤◌, ◌++◌, ◌∷◌, [], length, OnOk, OnErr};
ghost use Rattle.std.specs.Option.{option_copied};
ghost use Rattle.tla_value.specs.Definitions.{Valuation};
ghost use Rattle.tla_value.specs.States.{value_of};
ghost use Rattle.tla_value.specs.Defs.{IsLatest};

use crate::state::State;
use crate::value::Value;
use std::alloc::{AllocError, Global};
use std::marker::Model;
use tla_token::Place;
use tla_tree::{Name, NameList, NodeId};

/// A look-up of names. Its meaning is the value of each name that has one.
pub trait Names {
    /// The value of each name that has one.
    ghost look: { Self → Valuation };

    /// The value of a name, or none where it has none.
    fn value(&self, name: &Name) -> Option<&Value>
        ensures { option_copied result ≡ look self.now name.now };
}

impl Names for State {
    ghost look = { value_of };

    fn value(&self, name: &Name) -> Option<&Value> {
        self.get(name)
    }
}

/// A definition that expressions may use: `N == e`, or `N(a, b) == e` with parameters.
#[derive(Drop)]
pub struct Definition {
    /// The name that it gives a meaning to.
    pub name: Name,
    /// The names of its parameters, in their order; none for `N == e`.
    pub params: NameList,
    /// A number of the pool.
    pub body: NodeId,
    /// Whether it is outside the algorithm; then a fault or limit in its body is at its use.
    pub outside: bool,
    /// Where its name stands in the text.
    pub place: Place,
}

/// Definitions in their order; each sees those before it. Contracts see the list of them.
#[derive(Drop)]
pub struct Defs {
    items: Vec<Definition>,
}

impl Model for Defs {
    ghost use Rattle.std.specs.Prelude.{List};
    ghost use Rattle.std.specs.Coded.{coded_list};
    ghost use Rattle.tla_value.specs.declared.names.Definition.{Definition as Kept};
    ghost use Rattle.tla_value.specs.Defs.{kept_code};

    ghost Value = { List Kept };

    ghost coded = { coded_list kept_code };

    ghost view = { λ d. d.items.items };
}

impl Defs {
    /// No definition.
    pub fn new(alloc: Global) -> Defs
        ensures { result ≡ [] }
    {
        Defs {
            items: Vec::new(alloc),
        }
    }

    /// One more definition, which sees all that are there.
    ///
    /// # Errors
    ///
    /// Only for want of memory; the definitions are then as before.
    pub fn push(&mut self, d: Definition) -> Result<(), AllocError>
        ensures ok { OnOk result (self.new ≡ self.old ++ (d ∷ [])) }
        ensures err { OnErr result (self.new ≡ self.old) }
    {
        self.items.push(d)?;
        Ok(())
    }

    /// The definitions, from the first on.
    pub fn as_slice(&self) -> &[Definition]
        ensures { result.now ≡ self.now }
    {
        self.items.as_slice()
    }

    /// Which of the first definitions has this name; of several, the last.
    pub fn latest(&self, name: &Name, before: usize) -> Option<usize>
        requires { before ≤ length self.now }
        ensures { IsLatest name.now self.now before result }
    {
        let mut found = None;
        for i in 0..before {
            if self.items[i].name.is(name) {
                found = Some(i);
            }
        }
        found
    }
}

/// What a module is evaluated with: a value for each constant, and its definitions.
#[derive(Drop)]
pub struct Instance {
    /// The value of each constant that has one.
    pub constants: State,
    /// The definitions of the module, from the first on.
    pub defs: Defs,
}
