//! What is known of macros and procedures where statements call them.

ghost use Rattle.std.specs.Prelude.{List, [], None, OnOk};
ghost use Rattle.tla_tree.specs.Pool.{trees_at};
ghost use Rattle.pcal_tree.specs.laws.MacroSpots.{MacroSeen, before_on, put_called, seen_from, seen_in_call, unlabelled};
ghost use Rattle.pcal_tree.proofs.SpotGrafts.{putting};
ghost use Rattle.read_rules.specs.KnownIn.{IsSummary, AreMacros, HasMacro};
ghost use Rattle.read_rules.specs.SeenIn.{Walks};
ghost use Rattle.read_rules.specs.WaysIn.{Goes};

use crate::steps::Jump;
use crate::walk::{Walk, Ways};
use algorithm_limits::table::Table;
use std::alloc::{AllocError, Global};
use tla_pool::Pool;
use tla_tree::{Name, NodeId, PlacedName};

/// What is seen in a macro.
#[derive(Drop)]
pub struct Summary {
    /// Its parameters.
    pub params: Vec<PlacedName>,
    /// What is seen where no label is right before the call.
    pub plain: Ways,
    /// What is seen where one is.
    pub labelled: Ways,
}

/// What is known of macros and procedures.
#[derive(Drop)]
pub struct Known {
    /// One more than the place of a macro's summary in their list, by its name.
    pub numbers: Table,
    /// What is seen in macros.
    pub summaries: Vec<Summary>,
    /// What calls of procedures use.
    pub jumps: Vec<Jump>,
}

impl Walk {
    // No path goes on.
    fn stop(&mut self)
        ensures { Walks self.old self.new (λ z. record { seen = []; end = unlabelled None }) }
    {
        self.path = None;
        self.labelled = false;
    }

    // A call of a macro.
    fn call(
        &mut self,
        alloc: Global,
        pool: &Pool,
        summary: &Summary,
        args: &[NodeId],
    ) -> Result<(), AllocError>
        ensures { OnOk result ((d : MacroSeen) → IsSummary summary.now d → Walks self.old self.new (λ z. put_called (putting d.params (trees_at pool.now args.now) (before_on z.trail)) (seen_from d z.labelled z.trail))) }
    {
        if self.labelled {
            self.take_ways(alloc, pool, &summary.params, args, &summary.labelled)
        } else {
            self.take_ways(alloc, pool, &summary.params, args, &summary.plain)
        }
    }
}

impl Known {
    /// The newest macro of a name.
    ///
    /// # Errors
    ///
    /// Only for want of memory.
    pub fn add_macro(&mut self, name: &Name, summary: Summary) -> Result<(), AllocError>
        ensures { OnOk result (HasMacro self.old self.new name.now summary) }
    {
        self.summaries.push(summary)?;
        let summaries = self.summaries.as_slice();
        let number = summaries.len();
        self.numbers.set(name.copied()?, number)
    }

    // A call of a macro of this name.
    fn call_one(
        &self,
        alloc: Global,
        pool: &Pool,
        walk: &mut Walk,
        name: &Name,
        args: &[NodeId],
    ) -> Result<(), AllocError>
        ensures { OnOk result ((ms : List MacroSeen) → AreMacros self.now ms → Walks walk.old walk.new (seen_in_call ms name.now (trees_at pool.now args.now))) }
    {
        let number = self.numbers.get(name);
        if number == 0 {
            walk.stop();
            return Ok(());
        }
        let summaries = self.summaries.as_slice();
        if number > summaries.len() {
            walk.stop();
            return Ok(());
        }
        let place = number - 1;
        let summary = &summaries[place];
        walk.call(alloc, pool, summary, args)
    }

    /// A call of a macro of this name, where no path leads to it and where one does.
    ///
    /// # Errors
    ///
    /// Only for want of memory.
    pub fn call(
        &self,
        alloc: Global,
        pool: &Pool,
        ways: &mut Ways,
        name: &Name,
        args: &[NodeId],
    ) -> Result<(), AllocError>
        ensures { OnOk result ((ms : List MacroSeen) → AreMacros self.now ms → Goes ways.old ways.new (seen_in_call ms name.now (trees_at pool.now args.now))) }
    {
        self.call_one(alloc, pool, &mut ways.unreached, name, args)?;
        self.call_one(alloc, pool, &mut ways.reached, name, args)
    }
}
