//! What is seen in statements, where no path leads to them and where one does, at once.

ghost use Rattle.std.specs.Prelude.{◌≡◌, false, None, Some, [], ◌∷◌, OnOk};
ghost use Rattle.pcal_tree.specs.laws.MacroSpots.{earlier, Called, Trail, unlabelled, at_label, starting};
ghost use Rattle.pcal_tree.proofs.SpotCalls.{Like};
ghost use Rattle.read_rules.specs.BodiesIn.{no_paths};
ghost use Rattle.read_rules.specs.SeenIn.{at_of, IsLoop, stepping, looping};
ghost use Rattle.read_rules.specs.UsesIn.{uses_of};
ghost use Rattle.read_rules.specs.WaysIn.{Goes, Begins, Restarts, Ends, Joined, JoinsEnd};

use crate::assigned::{Assigned, copied, join};
use crate::names::Names;
use crate::uses::Use;
use crate::walk::{Step, Walk, Ways};
use std::alloc::{AllocError, Global};
use tla_pool::Pool;

/// The paths to one place, where none leads to the beginning and where one does.
#[derive(Drop)]
pub struct Paths {
    /// Where none does.
    pub unreached: Option<Assigned>,
    /// Where one does.
    pub reached: Option<Assigned>,
}

impl Paths {
    /// None leads there.
    pub fn none() -> Paths
        ensures { result ≡ no_paths }
    {
        Paths {
            unreached: None,
            reached: None,
        }
    }
}

impl Walk {
    // The path to this place is one of these ends too; none is left here.
    fn join_end(&mut self, ends: &mut Option<Assigned>) -> Result<(), AllocError>
        ensures { OnOk result (JoinsEnd self.old self.new ends.old ends.new) }
    {
        *ends = join(ends.take(), self.path.take())?;
        Ok(())
    }

    // From a label on.
    fn begin(&mut self, alloc: Global)
        ensures seen { self.new.seen.items ≡ self.old.seen.items }
        ensures at { Like (at_of self.new) at_label }
    {
        self.path = Some(Assigned::new(alloc, false));
        self.labelled = true;
    }
}

impl Ways {
    /// The beginning of a body.
    pub fn new(alloc: Global, labelled: bool) -> Ways
        ensures unreached { Begins result.unreached (starting labelled None) }
        ensures reached { Begins result.reached (starting labelled (Some (earlier ∷ []))) }
    {
        Ways {
            unreached: Walk::new(alloc, labelled, None),
            reached: Walk::new(alloc, labelled, Some(Assigned::new(alloc, true))),
        }
    }

    /// A statement that has none in it.
    ///
    /// # Errors
    ///
    /// Only for want of memory.
    pub fn pass(&mut self, alloc: Global, pool: &Pool, step: &Step) -> Result<(), AllocError>
        ensures { OnOk result (Goes self.old self.new (stepping (uses_of step.now.uses.items) step.now.names step.now.stops)) }
    {
        self.unreached.pass(alloc, pool, step)?;
        self.reached.pass(alloc, pool, step)
    }

    /// The test of a statement, or the expressions of a `with`.
    ///
    /// # Errors
    ///
    /// Only for want of memory.
    pub fn pass_uses(
        &mut self,
        alloc: Global,
        pool: &Pool,
        uses: Vec<Use>,
    ) -> Result<(), AllocError>
        ensures { OnOk result (Goes self.old self.new (stepping (uses_of uses.items) [] false)) }
    {
        let step = Step {
            uses,
            names: Names::new(alloc),
            stops: false,
        };
        let outcome = self.pass(alloc, pool, &step);
        drop(step);
        outcome
    }

    /// A loop, of which these are the uses of its test, and what is seen in its body.
    ///
    /// # Errors
    ///
    /// Only for want of memory.
    pub fn go_round(
        &mut self,
        alloc: Global,
        pool: &Pool,
        uses: &[Use],
        inner: &Ways,
    ) -> Result<(), AllocError>
        ensures { OnOk result ((g : Trail → Called) → IsLoop inner.now g → Goes self.old self.new (looping (uses_of uses.now) g)) }
    {
        self.unreached.go_round(alloc, pool, uses, inner)?;
        self.reached.go_round(alloc, pool, uses, inner)
    }

    /// From a label on.
    pub fn begin(&mut self, alloc: Global)
        ensures { Goes self.old self.new (λ z. record { seen = []; end = at_label }) }
    {
        self.unreached.begin(alloc);
        self.reached.begin(alloc);
    }

    /// Behind a statement no label is right before.
    pub fn unlabel(&mut self)
        ensures { Goes self.old self.new (λ z. record { seen = []; end = unlabelled z.trail }) }
    {
        self.unreached.labelled = false;
        self.reached.labelled = false;
    }

    /// The paths to this place; none is left here.
    pub fn take_paths(&mut self) -> Paths
        ensures unreached { result.unreached ≡ self.old.unreached.path }
        ensures reached { result.reached ≡ self.old.reached.path }
        ensures seen { self.new.unreached.seen ≡ self.old.unreached.seen }
        ensures seen_reached { self.new.reached.seen ≡ self.old.reached.seen }
    {
        let unreached = self.unreached.path.take();
        let reached = self.reached.path.take();
        Paths { unreached, reached }
    }

    /// A branch begins, with these paths to it.
    ///
    /// # Errors
    ///
    /// Only for want of memory.
    pub fn restart(&mut self, start: &Paths) -> Result<(), AllocError>
        ensures { OnOk result (Restarts self.old self.new start.now) }
    {
        self.unreached.path = copied(&start.unreached)?;
        self.reached.path = copied(&start.reached)?;
        self.unreached.labelled = false;
        self.reached.labelled = false;
        Ok(())
    }

    /// The end of this branch is one of these ends too.
    ///
    /// # Errors
    ///
    /// Only for want of memory.
    pub fn join_ends(&mut self, ends: &mut Paths) -> Result<(), AllocError>
        ensures { OnOk result (Joined self.old self.new ends.old ends.new) }
    {
        self.unreached.join_end(&mut ends.unreached)?;
        self.reached.join_end(&mut ends.reached)
    }

    /// Behind branches, which have these ends.
    pub fn end(&mut self, ends: Paths)
        ensures { Ends self.old self.new ends }
    {
        self.unreached.path = ends.unreached;
        self.reached.path = ends.reached;
        self.unreached.labelled = false;
        self.reached.labelled = false;
    }
}
