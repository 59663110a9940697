//! Sets of names, shared where they are the same.

ghost use Rattle.std.specs.Prelude.{◌≡◌, ◌==◌, [], ◌∷◌, unwrap_or, IfOk, OnOk};
ghost use Rattle.std.specs.List.{list_any};
ghost use Rattle.std.specs.Option.{option_map};
ghost use Rattle.std.specs.Cmp.Lexicographic.{pointwise};
ghost use Rattle.read_rules.specs.Joins.{Joins};

use indexmap::IndexSet;
use std::alloc::{AllocError, Global};
use std::marker::Model;
use std::rc::Rc;
use tla_tree::Name;

/// A set of names. Contracts see the list of them, each once. A copy is the same set, until one of them gets another name.
#[derive(Drop)]
pub struct Names {
    alloc: Global,
    names: Option<Rc<IndexSet<Name>>>,
}

impl Model for Names {
    ghost use Rattle.std.specs.Prelude.{ℕ, List, [], unwrap_or};
    ghost use Rattle.std.specs.Option.{option_map};
    ghost use Rattle.std.specs.Coded.{coded_list, coded_ℕ};

    ghost Value = { List (List ℕ) };

    ghost coded = { coded_list (coded_list coded_ℕ) };

    ghost view = { λ s. unwrap_or (option_map (λ r. r.value.keys) s.names) [] };
}

// These names too, each copied.
fn add_copies(set: &mut IndexSet<Name>, names: &[Name]) -> Result<(), AllocError>
    ensures { OnOk result (Joins set.old.keys set.new.keys names.now) }
{
    for name in names {
        set.insert(name.copied()?)?;
    }
    Ok(())
}

// A set of the same names, each copied.
fn copied_set(alloc: Global, names: &IndexSet<Name>) -> Result<IndexSet<Name>, AllocError>
    ensures { IfOk result (λ r. Joins [] r.keys names.now.keys) }
{
    let mut set = IndexSet::new(alloc);
    match add_copies(&mut set, names.as_slice()) {
        Ok(()) => Ok(set),
        Err(error) => {
            drop(set);
            Err(error)
        }
    }
}

// The set itself, or a copy where others have it too.
fn own(alloc: Global, names: Option<Rc<IndexSet<Name>>>) -> Result<IndexSet<Name>, AllocError>
    ensures { IfOk result (λ r. Joins [] r.keys (unwrap_or (option_map (λ s. s.value.keys) names) [])) }
{
    let Some(shared) = names else {
        return Ok(IndexSet::new(alloc));
    };
    match Rc::try_unwrap(shared) {
        Ok(set) => Ok(set),
        Err(other) => copied_set(alloc, other.as_ref()),
    }
}

// A set that others may have too from now on.
fn shared(alloc: Global, set: IndexSet<Name>) -> Result<Rc<IndexSet<Name>>, AllocError>
    ensures { IfOk result (λ r. r.value ≡ set) }
{
    match Rc::new(alloc, set) {
        Ok(shared) => Ok(shared),
        Err(set) => {
            drop(set);
            Err(AllocError)
        }
    }
}

impl Names {
    /// No names.
    pub fn new(alloc: Global) -> Names
        ensures { result ≡ [] }
    {
        Names { alloc, names: None }
    }

    /// The names.
    pub fn as_slice(&self) -> &[Name]
        ensures { result.now ≡ self.now }
    {
        match &self.names {
            None => &[],
            Some(set) => set.as_ref().as_slice(),
        }
    }

    /// Whether a name is one of them.
    pub fn has(&self, name: &Name) -> bool
        ensures { result ≡ list_any (pointwise ◌==◌ name.now) self.now }
    {
        match &self.names {
            None => false,
            Some(set) => set.as_ref().contains(name),
        }
    }

    // One more name, which isn't there.
    fn add_new(&mut self, name: &Name) -> Result<(), AllocError>
        ensures { OnOk result (Joins self.old self.new (name.now ∷ [])) }
    {
        let before = self.names.take();
        let mut set = own(self.alloc, before)?;
        match add_copies(&mut set, std::slice::from_ref(name)) {
            Ok(()) => {
                self.names = Some(shared(self.alloc, set)?);
                Ok(())
            }
            Err(error) => {
                drop(set);
                Err(error)
            }
        }
    }

    /// One more name.
    ///
    /// # Errors
    ///
    /// Only for want of memory.
    pub fn add(&mut self, name: &Name) -> Result<(), AllocError>
        ensures { OnOk result (Joins self.old self.new (name.now ∷ [])) }
    {
        if self.has(name) {
            return Ok(());
        }
        self.add_new(name)
    }

    /// Those of another set too.
    ///
    /// # Errors
    ///
    /// Only for want of memory.
    pub fn add_all(&mut self, other: &Names) -> Result<(), AllocError>
        ensures { OnOk result (Joins self.old self.new other.now) }
    {
        for name in other.as_slice() {
            self.add(name)?;
        }
        Ok(())
    }

    /// The same set once more.
    ///
    /// # Errors
    ///
    /// Only for want of memory.
    pub fn copied(&self) -> Result<Names, AllocError>
        ensures { IfOk result (λ r. r ≡ self.now) }
    {
        let names = match &self.names {
            None => None,
            Some(set) => Some(set.clone()?),
        };
        Ok(Names {
            alloc: self.alloc,
            names,
        })
    }
}
