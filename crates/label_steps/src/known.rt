//! What is known of macros where statements call them.

ghost use Rattle.std.specs.Prelude.{◌≡◌, ◌≤◌, List, [], false, length, IfOk};
ghost use Rattle.tla_tree.specs.Pool.{trees_at};
ghost use Rattle.pcal_tree.specs.InMemory.{past_numbers};
ghost use Rattle.pcal_tree.specs.laws.MacroSummaries.{Summary as Found, summary_effect};
ghost use Rattle.tla_token.specs.Signs.{is_among};
ghost use Rattle.label_steps.specs.KnownIn.{Assigns, AreMacros, IsKnown, find_summary, may_be_one};

use crate::put::{Summary, same};
use crate::sides::Step;
use algorithm_limits::table::Table;
use indexmap::IndexSet;
use std::alloc::{AllocError, Global};
use tla_pool::Pool;
use tla_tree::{Name, NodeId};

/// What is known of macros.
#[derive(Drop)]
pub struct Known {
    /// The names that are a parameter of some macro.
    pub params: IndexSet<Name>,
    /// One more than the place of a macro's summary in their list, by its name.
    pub numbers: Table,
    /// What macros assign.
    pub summaries: Vec<Summary>,
}

/// Nothing is assigned.
pub fn nothing(alloc: Global) -> Step
    ensures names { result.names.items ≡ [] }
    ensures twice { result.twice ≡ false }
{
    Step {
        names: Vec::new(alloc),
        twice: false,
    }
}

impl Known {
    /// Whether a name is a parameter of some macro.
    pub fn is_param(&self, name: &Name) -> bool
        ensures { result ≡ is_among self.now.params.keys name.now }
    {
        self.params.contains(name)
    }

    /// Whether two names may be one variable where a macro is called: one is a parameter, or they are one name.
    pub fn may_be_one(&self, first: &Name, second: &Name) -> bool
        ensures { result ≡ may_be_one self.now first.now second.now }
    {
        self.is_param(first) || self.is_param(second) || same(first, second)
    }

    /// What is known of the macro of this name.
    pub fn find(&self, name: &Name) -> Option<&Summary>
        ensures { (ms : List Found) → AreMacros self.now ms → IsKnown self.now.params.keys result (find_summary ms name.now) }
    {
        let number = self.numbers.get(name);
        if number == 0 {
            return None;
        }
        let summaries = self.summaries.as_slice();
        if number > summaries.len() {
            return None;
        }
        let place = number - 1;
        Some(&summaries[place])
    }

    /// What a call of a macro of this name assigns; a call of no macro assigns nothing.
    ///
    /// # Errors
    ///
    /// Only for want of memory.
    pub fn call(
        &self,
        alloc: Global,
        pool: &Pool,
        name: &Name,
        args: &[NodeId],
    ) -> Result<Step, AllocError>
        requires { past_numbers args.now ≤ length pool.now }
        ensures { IfOk result (λ r. (ms : List Found) → AreMacros self.now ms → Assigns r (summary_effect ms name.now (trees_at pool.now args.now))) }
    {
        match self.find(name) {
            None => Ok(nothing(alloc)),
            Some(summary) => {
                let step = summary.step(alloc, pool, args)?;
                Ok(step)
            }
        }
    }
}
