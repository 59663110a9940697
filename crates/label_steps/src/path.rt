//! What a path has assigned since its last label.

ghost use Rattle.std.specs.Prelude.{◌≡◌, ◌||◌, ◌&&◌, ◌≤◌, ◌++◌, [], true, None, length, take, cond, option_map, IfOk, OnOk};
ghost use Rattle.pcal_tree.proofs.EffectLaws.{Alike};
ghost use Rattle.pcal_tree.specs.Paths.{joined, has_assigned};
ghost use Rattle.label_steps.specs.PathsIn.{Behind, Grows, path_of, ends_of};

use crate::sides::Step;
use crate::truths::{both, either};
use indexmap::IndexSet;
use std::alloc::{AllocError, Global};
use tla_tree::Name;

// These names are there too, behind those that are.
#[tactic(auto, using(crate::proofs::PathLaws::grows_none, crate::proofs::PathLaws::grows_one, crate::proofs::PathLaws::grows_more, crate::proofs::PathLaws::grows_all))]
fn add_names(set: &mut IndexSet<Name>, names: &[Name]) -> Result<(), AllocError>
    ensures { OnOk result (Grows set.old.keys set.new.keys names.now) }
{
    for name in names {
        set.insert(name.copied()?)?;
    }
    Ok(())
}

/// What some path to a place has assigned since its last label: the names, in the order in which they came; and whether a path
/// leads there at all.
#[derive(Drop)]
pub struct Path {
    /// The names.
    pub names: IndexSet<Name>,
    /// Whether a path leads there.
    pub reached: bool,
}

impl Path {
    /// From a label on.
    pub fn new(alloc: Global) -> Path
        ensures names { result.names.keys ≡ [] }
        ensures reached { result.reached ≡ true }
    {
        Path {
            names: IndexSet::new(alloc),
            reached: true,
        }
    }

    /// Where no path leads.
    pub fn none(alloc: Global) -> Path
        ensures { path_of result ≡ None }
    {
        let mut path = Path::new(alloc);
        path.reached = false;
        path
    }

    /// The same once more.
    ///
    /// # Errors
    ///
    /// Only for want of memory.
    pub fn copied(&self, alloc: Global) -> Result<Path, AllocError>
        ensures { IfOk result (λ r. Alike (path_of self.now) (path_of r)) }
    {
        let mut copy = Path::new(alloc);
        copy.add(self.names.as_slice())?;
        copy.reached = self.reached;
        Ok(copy)
    }

    /// Another one leads there too.
    ///
    /// # Errors
    ///
    /// Only for want of memory.
    pub fn join(&mut self, other: Path) -> Result<(), AllocError>
        ensures { OnOk result (Alike (joined (path_of self.old) (path_of other)) (path_of self.new)) }
    {
        if !other.reached {
            return Ok(());
        }
        if !self.reached {
            *self = other;
            return Ok(());
        }
        self.add(other.names.as_slice())
    }

    /// Whether it has assigned one of these names.
    #[tactic(auto, using(crate::proofs::PathLaws::met_more, crate::proofs::PathLaws::met_all))]
    pub fn has_one(&self, names: &[Name]) -> bool
        ensures { result ≡ has_assigned (path_of self.now) names.now }
    {
        let mut found = false;
        for name in names {
            found = either(found, self.names.contains(name));
        }
        both(found, self.reached)
    }

    /// These names are assigned too.
    ///
    /// # Errors
    ///
    /// Only for want of memory.
    pub fn add(&mut self, names: &[Name]) -> Result<(), AllocError>
        ensures names { OnOk result (Grows self.old.names.keys self.new.names.keys names.now) }
        ensures reached { OnOk result (self.new.reached ≡ self.old.reached) }
    {
        add_names(&mut self.names, names)
    }

    /// Whether a statement that assigns so assigns what some path to it, or the statement itself, has assigned.
    pub fn meets(&self, step: &Step) -> bool
        ensures { result ≡ (step.now.twice || has_assigned (path_of self.now) step.now.names.items) }
    {
        either(step.twice, self.has_one(&step.names))
    }

    /// Past a statement with none in it that assigns so; true where it is a jump.
    ///
    /// # Errors
    ///
    /// Only for want of memory.
    pub fn pass(&mut self, step: &Step, jumps: bool) -> Result<(), AllocError>
        ensures kept { OnOk result (Behind self.old.names.keys self.new.names.keys) }
        ensures path { OnOk result (Alike (path_of self.new) (cond jumps None (option_map (λ xs. step.now.names.items ++ xs) (path_of self.old)))) }
    {
        if jumps {
            self.reached = false;
            return Ok(());
        }
        self.add(&step.names)
    }

    /// The end of a branch, which began where so many names were there: what the branch assigned is put to that of the branches
    /// before it, and the names of the beginning stay.
    ///
    /// # Errors
    ///
    /// Only for want of memory.
    #[tactic(auto, using(crate::proofs::PathLaws::ends_first, crate::proofs::PathLaws::ends_more, crate::proofs::PathLaws::ends_stay))]
    pub fn leave(&mut self, start: usize, ends: Option<Path>) -> Result<Option<Path>, AllocError>
        requires { start ≤ length self.old.names.keys }
        ensures kept { OnOk result (self.new.names.keys ≡ take start self.old.names.keys) }
        ensures ends { IfOk result (λ r. Alike (ends_of (take start self.old.names.keys) r) (joined (ends_of (take start self.old.names.keys) ends) (path_of self.old))) }
    {
        let gained = self.names.split_off(start)?;
        if !self.reached {
            return Ok(ends);
        }
        match ends {
            None => Ok(Some(Path {
                names: gained,
                reached: true,
            })),
            Some(mut all) => {
                all.add(gained.as_slice())?;
                Ok(Some(all))
            }
        }
    }

    /// Behind branches that ended so.
    ///
    /// # Errors
    ///
    /// Only for want of memory.
    pub fn close(&mut self, ends: Option<Path>) -> Result<(), AllocError>
        ensures kept { OnOk result (Behind self.old.names.keys self.new.names.keys) }
        ensures path { OnOk result (Alike (path_of self.new) (ends_of self.old.names.keys ends)) }
    {
        match ends {
            None => self.reached = false,
            Some(all) => {
                self.reached = true;
                self.add(all.names.as_slice())?;
            }
        }
        Ok(())
    }
}
