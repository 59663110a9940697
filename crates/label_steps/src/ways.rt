//! The paths at a place in a list, where no path leads to its beginning and where one does.

ghost use Rattle.std.specs.Prelude.{◌++◌, [], Some, None, cond, option_map, IfOk, OnOk};
ghost use Rattle.pcal_tree.proofs.EffectLaws.{Alike};
ghost use Rattle.pcal_tree.specs.Paths.{joined};
ghost use Rattle.label_steps.specs.PathsIn.{path_of};
ghost use Rattle.label_steps.specs.WaysIn.{rounds_by, AreWays};

use crate::path::Path;
use crate::sides::Step;
use std::alloc::{AllocError, Global};

/// The paths at a place in a list.
#[derive(Drop)]
pub struct Ways {
    /// Where none leads to its beginning.
    pub unreached: Path,
    /// Where one does.
    pub reached: Path,
}

// A path to a loop's end, whose body has these ways.
fn go_round(alloc: Global, path: &mut Path, body: &Ways) -> Result<(), AllocError>
    ensures { OnOk result (Alike (rounds_by (path_of body.now.unreached) (path_of body.now.reached) (path_of path.old)) (path_of path.new)) }
{
    if path.reached {
        if body.reached.reached {
            return path.add(body.reached.names.as_slice());
        }
        return Ok(());
    }
    if body.unreached.reached {
        *path = body.reached.copied(alloc)?;
    }
    Ok(())
}

impl Ways {
    /// At the beginning.
    pub fn new(alloc: Global) -> Ways
        ensures { AreWays None (Some []) result }
    {
        Ways {
            unreached: Path::none(alloc),
            reached: Path::new(alloc),
        }
    }

    /// Where no path leads.
    pub fn none(alloc: Global) -> Ways
        ensures { AreWays None None result }
    {
        Ways {
            unreached: Path::none(alloc),
            reached: Path::none(alloc),
        }
    }

    /// From a label on.
    pub fn behind_label(alloc: Global) -> Ways
        ensures { AreWays (Some []) (Some []) result }
    {
        Ways {
            unreached: Path::new(alloc),
            reached: Path::new(alloc),
        }
    }

    /// The same once more.
    ///
    /// # Errors
    ///
    /// Only for want of memory.
    pub fn copied(&self, alloc: Global) -> Result<Ways, AllocError>
        ensures { IfOk result (λ r. AreWays (path_of self.now.unreached) (path_of self.now.reached) r) }
    {
        let unreached = self.unreached.copied(alloc)?;
        Ok(Ways {
            unreached,
            reached: self.reached.copied(alloc)?,
        })
    }

    /// Others lead there too.
    ///
    /// # Errors
    ///
    /// Only for want of memory.
    pub fn join(&mut self, other: Ways) -> Result<(), AllocError>
        ensures { OnOk result (AreWays (joined (path_of self.old.unreached) (path_of other.unreached)) (joined (path_of self.old.reached) (path_of other.reached)) self.new) }
    {
        let Ways { unreached, reached } = other;
        self.unreached.join(unreached)?;
        self.reached.join(reached)
    }

    /// Past a statement with none in it that assigns so; true where it is a jump.
    ///
    /// # Errors
    ///
    /// Only for want of memory.
    pub fn pass(&mut self, step: &Step, jumps: bool) -> Result<(), AllocError>
        ensures { OnOk result (AreWays (cond jumps None (option_map (λ xs. step.now.names.items ++ xs) (path_of self.old.unreached))) (cond jumps None (option_map (λ xs. step.now.names.items ++ xs) (path_of self.old.reached))) self.new) }
    {
        self.unreached.pass(step, jumps)?;
        self.reached.pass(step, jumps)
    }

    /// To a loop's end, whose body has these ways.
    ///
    /// # Errors
    ///
    /// Only for want of memory.
    pub fn go_round(&mut self, alloc: Global, body: &Ways) -> Result<(), AllocError>
        ensures { OnOk result (AreWays (rounds_by (path_of body.now.unreached) (path_of body.now.reached) (path_of self.old.unreached)) (rounds_by (path_of body.now.unreached) (path_of body.now.reached) (path_of self.old.reached)) self.new) }
    {
        go_round(alloc, &mut self.unreached, body)?;
        go_round(alloc, &mut self.reached, body)
    }
}
