//! Names in a fixed order, each with its number.

ghost use Rattle.std.specs.Prelude.{◌≡◌, ◌<◌, length, slice_get, Some, IfOk, bytes_eq, position};
ghost use Rattle.tla_token.specs.Signs.{is_among};
ghost use Rattle.tla_tree.specs.Tree.{Word};
ghost use Rattle.name_bits.specs.NamesIn.{AllApart};

use indexmap::IndexSet;
use std::alloc::{AllocError, Global};
use std::marker::Model;
use tla_tree::Name;

/// Names, each once. Contracts see the list of them.
#[derive(Drop)]
pub struct Order {
    names: IndexSet<Name>,
}

impl Model for Order {
    ghost use Rattle.std.specs.Prelude.{ℕ, List};
    ghost use Rattle.std.specs.Coded.{coded_list, coded_ℕ};

    ghost Value = { List (List ℕ) };

    ghost coded = { coded_list (coded_list coded_ℕ) };

    ghost view = { λ o. o.names.keys };
}

impl Order {
    /// The names of this list, in its order where none stands twice.
    ///
    /// # Errors
    ///
    /// Only for want of memory.
    pub fn new(alloc: Global, names: &[Name]) -> Result<Order, AllocError>
        ensures order { IfOk result (λ o. AllApart names.now → o ≡ names.now) }
        ensures among { IfOk result (λ o. (x : Word) → is_among o x ≡ is_among names.now x) }
    {
        let mut set = IndexSet::new(alloc);
        for name in names {
            set.insert(name.copied()?)?;
        }
        Ok(Order { names: set })
    }

    /// How many names it has.
    pub fn len(&self) -> usize
        ensures { result ≡ length self.now }
    {
        self.names.len()
    }

    /// The name of a number.
    pub fn name(&self, number: usize) -> &Name
        requires { number < length self.now }
        ensures { slice_get self.now number ≡ Some result.now }
    {
        self.names.get_index(number).unwrap()
    }

    /// Whether a name is in it.
    #[tactic(auto, using(crate::proofs::OrderLaws::same_any))]
    pub fn has(&self, name: &Name) -> bool
        ensures { result ≡ is_among self.now name.now }
    {
        self.names.contains(name)
    }

    /// The number of a name.
    pub fn number(&self, name: &Name) -> Option<usize>
        ensures { result ≡ position (λ v. bytes_eq v name.now) self.now }
    {
        self.names.get_index_of(name)
    }

    /// No name has two numbers.
    pub fn apart(&self)
        ensures { AllApart self.now }
    {
        let _count = self.names.len();
    }
}
