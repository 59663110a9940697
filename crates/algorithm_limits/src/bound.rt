//! Names that are bound around an expression.

ghost use Rattle.std.specs.Prelude.{◌≡◌, ◌==◌, ◌<◌, [], ◌∷◌, length, take, slice_get, Some, OnOk};
ghost use Rattle.std.specs.List.{list_any, flat_map};
ghost use Rattle.std.specs.Cmp.Lexicographic.{pointwise};
ghost use Rattle.tla_tree.specs.Tree.{words};
ghost use Rattle.tla_pool.specs.FormOf.{groups_of, form_of};
ghost use Rattle.algorithm_limits.specs.DepthsIn.{seen_next, Hides};

use indexmap::IndexSet;
use std::alloc::{AllocError, Global};
use std::marker::Model;
use tla_pool::form::Form;
use tla_tree::{Name, PlacedName};

// How many names are looked through one by one; those that come when there are as many are found by their hashes.
const FEW: usize = 8;

/// Names that are bound. Contracts see the list of them.
#[derive(Drop)]
pub struct Bound {
    few: Vec<Name>,
    many: IndexSet<Name>,
}

impl Model for Bound {
    ghost use Rattle.std.specs.Prelude.{ℕ, List, ◌++◌};
    ghost use Rattle.std.specs.Coded.{coded_list, coded_ℕ};

    ghost Value = { List (List ℕ) };

    ghost coded = { coded_list (coded_list coded_ℕ) };

    ghost view = { λ b. b.few.items ++ b.many.keys };
}

// Whether a name is one of these.
fn is_among(names: &[Name], name: &Name) -> bool
    ensures { result ≡ list_any (pointwise ◌==◌ name.now) names.now }
{
    for i in 0..names.len() {
        if *name == names[i] {
            return true;
        }
    }
    false
}

impl Bound {
    /// No name is bound.
    pub fn new(alloc: Global) -> Bound
        ensures { result ≡ [] }
    {
        Bound {
            few: Vec::new(alloc),
            many: IndexSet::new(alloc),
        }
    }

    /// How many names are bound.
    pub fn len(&self) -> usize
        ensures { result ≡ length self.now }
    {
        self.few.len() + self.many.len()
    }

    /// The name that was bound with so many before it.
    pub fn at(&self, at: usize) -> &Name
        requires { at < length self.now }
        ensures { slice_get self.now at ≡ Some result.now }
    {
        let few = self.few.len();
        if at < few {
            return &self.few[at];
        }
        self.many.get_index(at - few).unwrap()
    }

    /// Whether a name is bound.
    pub fn has(&self, name: &Name) -> bool
        ensures { result ≡ list_any (pointwise ◌==◌ name.now) self.now }
    {
        if is_among(&self.few, name) {
            return true;
        }
        if self.many.len() == 0 {
            return false;
        }
        self.many.contains(name)
    }

    /// Binds one more name.
    ///
    /// # Errors
    ///
    /// Only for want of memory.
    pub fn add(&mut self, name: &Name) -> Result<(), AllocError>
        ensures { OnOk result (Hides self.old self.new (name.now ∷ [])) }
    {
        if self.many.len() == 0 && self.few.len() < FEW {
            self.few.push(name.copied()?)?;
        } else {
            self.many.insert(name.copied()?)?;
        }
        Ok(())
    }

    /// Binds these names too.
    ///
    /// # Errors
    ///
    /// Only for want of memory.
    #[tactic(auto, using(crate::proofs::BoundLemmas::hides_none, crate::proofs::BoundLemmas::names_more, crate::proofs::BoundLemmas::names_all))]
    pub fn add_all(&mut self, names: &[PlacedName]) -> Result<(), AllocError>
        ensures { OnOk result (Hides self.old self.new (words names.now)) }
    {
        for one in names {
            self.add(&one.name)?;
        }
        Ok(())
    }

    /// Binds the names of these groups too.
    ///
    /// # Errors
    ///
    /// Only for want of memory.
    #[tactic(auto, using(crate::proofs::BoundLemmas::hides_none, crate::proofs::BoundLemmas::groups_more, crate::proofs::BoundLemmas::groups_all))]
    pub fn add_groups(&mut self, groups: &[Vec<PlacedName>]) -> Result<(), AllocError>
        ensures { OnOk result (Hides self.old self.new (flat_map words (groups_of groups.now))) }
    {
        for i in 0..groups.len() {
            self.add_all(&groups[i])?;
        }
        Ok(())
    }

    /// Binds what the next part of a form sees besides what the part of this number does.
    ///
    /// # Errors
    ///
    /// Only for want of memory.
    pub fn add_next(&mut self, form: &Form, part: usize) -> Result<(), AllocError>
        ensures { OnOk result (Hides self.old self.new (seen_next (form_of form.now) part)) }
    {
        match form {
            Form::Binding(_, groups) => {
                if groups.len() > 0 && part == groups.len() - 1 {
                    self.add_groups(groups)
                } else {
                    Ok(())
                }
            }
            Form::Local(names) => {
                if part < names.len() {
                    self.add(&names[part].name)
                } else {
                    Ok(())
                }
            }
            _ => Ok(()),
        }
    }

    /// Keeps the names that were bound first, so many.
    pub fn truncate(&mut self, len: usize)
        ensures { self.new ≡ take len self.old }
    {
        if self.len() <= len {
            return;
        }
        let few = self.few.len();
        if len <= few {
            self.few.truncate(len);
            self.many.truncate(0);
        } else {
            self.many.truncate(len - few);
        }
    }
}
