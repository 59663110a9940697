//! What paths to a place have assigned since their last label.

ghost use Rattle.std.specs.Prelude.{◌≡◌, ◌||◌, [], IfOk, OnOk};
ghost use Rattle.pcal_tree.specs.laws.MacroSpots.{joined};
ghost use Rattle.pcal_tree.proofs.SpotCalls.{LikeTrail};
ghost use Rattle.read_rules.specs.Joins.{Joins};
ghost use Rattle.read_rules.specs.Sets.{origins, trail_of};

use crate::names::Names;
use std::alloc::{AllocError, Global};

// Whether one of the two holds.
fn one_of(a: bool, b: bool) -> bool
    ensures { result ≡ (a || b) }
{
    a || b
}

/// What some path has assigned: names, and what was assigned before the place where all begin.
#[derive(Drop)]
pub struct Assigned {
    /// Whether what was assigned before is there.
    pub earlier: bool,
    /// The names.
    pub names: Names,
}

impl Assigned {
    /// Nothing, or what was assigned before.
    pub fn new(alloc: Global, earlier: bool) -> Assigned
        ensures nothing { result.names ≡ [] }
        ensures before { result.earlier ≡ earlier }
    {
        Assigned {
            earlier,
            names: Names::new(alloc),
        }
    }

    /// The same once more.
    ///
    /// # Errors
    ///
    /// Only for want of memory.
    pub fn copied(&self) -> Result<Assigned, AllocError>
        ensures { IfOk result (λ r. r ≡ self.now) }
    {
        Ok(Assigned {
            earlier: self.earlier,
            names: self.names.copied()?,
        })
    }

    /// What others have assigned too.
    ///
    /// # Errors
    ///
    /// Only for want of memory.
    #[tactic(auto, using(crate::proofs::SetLaws::origins_join))]
    pub fn add_all(&mut self, other: &Assigned) -> Result<(), AllocError>
        ensures { OnOk result (Joins (origins self.old) (origins self.new) (origins other.now)) }
    {
        self.names.add_all(&other.names)?;
        self.earlier = one_of(self.earlier, other.earlier);
        Ok(())
    }

    /// The same, with what others have assigned too.
    ///
    /// # Errors
    ///
    /// Only for want of memory.
    pub fn with(mut self, other: &Assigned) -> Result<Assigned, AllocError>
        ensures { IfOk result (λ a. Joins (origins self) (origins a) (origins other.now)) }
    {
        match self.add_all(other) {
            Ok(()) => Ok(self),
            Err(error) => {
                drop(self);
                Err(error)
            }
        }
    }
}

/// The same path once more.
///
/// # Errors
///
/// Only for want of memory.
pub fn copied(path: &Option<Assigned>) -> Result<Option<Assigned>, AllocError>
    ensures { IfOk result (λ r. r ≡ path.now) }
{
    match path {
        None => Ok(None),
        Some(all) => Ok(Some(all.copied()?)),
    }
}

/// What one of two paths has assigned.
///
/// # Errors
///
/// Only for want of memory.
pub fn join(
    first: Option<Assigned>,
    second: Option<Assigned>,
) -> Result<Option<Assigned>, AllocError>
    ensures { IfOk result (λ r. LikeTrail (trail_of r) (joined (trail_of first) (trail_of second))) }
{
    match first {
        None => Ok(second),
        Some(all) => match second {
            None => Ok(Some(all)),
            Some(more) => {
                let both = all.with(&more);
                drop(more);
                Ok(Some(both?))
            }
        },
    }
}
