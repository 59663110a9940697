//! What statements assign where they stand.

ghost use Rattle.std.specs.Prelude.{◌≡◌, ◌≤◌, ◌||◌, List, [], false, length, cond, IfOk};
ghost use Rattle.pcal_tree.specs.InMemory.{simple_at, past_simple};
ghost use Rattle.pcal_tree.specs.OffencesSteps.{effect_with};
ghost use Rattle.pcal_tree.specs.Run.{Partner, is_return};
ghost use Rattle.pcal_tree.specs.laws.MacroSummaries.{Summary as Found};
ghost use Rattle.label_steps.specs.AroundIn.{is_own, effects_around};
ghost use Rattle.label_steps.specs.KnownIn.{Assigns, AreMacros};

use crate::known::{Known, nothing};
use crate::put::same;
use crate::sides::{Step, assigned};
use pcal_tree::algorithm::Simple;
use std::alloc::{AllocError, Global};
use tla_pool::Pool;
use tla_tree::{Name, PlacedName};

/// Where statements stand: what is known of macros, and the procedure that they are in.
#[derive(Drop)]
pub struct Around {
    /// What is known of macros.
    pub known: Known,
    /// The procedure; none outside procedures and in macros.
    pub name: Option<PlacedName>,
    /// What `return` in it assigns: its parameters and variables, and nothing elsewhere.
    pub own: Vec<Name>,
}

// These names once more.
fn copies(alloc: Global, names: &[Name]) -> Result<Vec<Name>, AllocError>
    ensures { IfOk result (λ r. r.items ≡ names.now) }
{
    let mut list = Vec::new(alloc);
    for name in names {
        list.push(name.copied()?)?;
    }
    Ok(list)
}

impl Around {
    // Whether this is the procedure.
    fn is_own(&self, name: &Name) -> bool
        ensures { result ≡ is_own self.now.name name.now }
    {
        match &self.name {
            None => false,
            Some(own) => same(&own.name, name),
        }
    }

    // What a `return` assigns.
    fn leaves(&self, alloc: Global) -> Result<Step, AllocError>
        ensures names { IfOk result (λ r. r.names.items ≡ self.now.own.items) }
        ensures twice { IfOk result (λ r. r.twice ≡ false) }
    {
        let names = copies(alloc, &self.own)?;
        Ok(Step {
            names,
            twice: false,
        })
    }

    // What a call of a procedure assigns; true where a `return` comes directly behind it.
    fn calls(&self, alloc: Global, returns: bool, name: &Name) -> Result<Step, AllocError>
        ensures names { IfOk result (λ r. r.names.items ≡ cond (returns || is_own self.now.name name.now) self.now.own.items []) }
        ensures twice { IfOk result (λ r. r.twice ≡ false) }
    {
        if returns || self.is_own(name) {
            self.leaves(alloc)
        } else {
            Ok(nothing(alloc))
        }
    }

    /// What a statement with none in it assigns; true where a `return` comes directly behind it.
    ///
    /// # Errors
    ///
    /// Only for want of memory.
    pub fn step(
        &self,
        alloc: Global,
        pool: &Pool,
        returns: bool,
        simple: &Simple,
    ) -> Result<Step, AllocError>
        requires { past_simple simple.now ≤ length pool.now }
        ensures { IfOk result (λ r. (ms : List Found) → AreMacros self.now.known ms → (j : Partner) → returns ≡ is_return j → Assigns r (effect_with (effects_around self.now ms) (simple_at pool.now simple.now) j)) }
    {
        match simple {
            Simple::Assign(list) => assigned(alloc, pool, list),
            Simple::Macro(name, args) => self.known.call(alloc, pool, name, args),
            Simple::Call(name, _) => self.calls(alloc, returns, &name.name),
            Simple::Return => self.leaves(alloc),
            _ => Ok(nothing(alloc)),
        }
    }
}
