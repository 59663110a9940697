//! Names used as they may not be, in an algorithm.

ghost use Rattle.std.specs.Prelude.{◌≡◌, IfOk};
ghost use Rattle.tla_tree.specs.Tree.{words};
ghost use Rattle.module_outside.specs.ModulesIn.{AreModules};
ghost use Rattle.pcal_tree.specs.InMemory.{algorithm_at};
ghost use Rattle.pcal_tree.specs.Offences.{first};
ghost use Rattle.pcal_tree.specs.OffencesNames.{use_offences_of};
ghost use Rattle.module_outside.specs.WholeAt.{outside_at};
ghost use Rattle.name_rules.specs.Whole.{AreNone};

use crate::found::Found;
use crate::macros::Callees;
use algorithm_limits::order::least;
use declared_rules::use_sight::Sight;
use module_outside::modules::{Modules, modules_among};
use module_outside::outside::Outside;
use pcal_tree::algorithm::Algorithm;
use std::alloc::{AllocError, Global};
use tla_pool::Pool;
use tla_token::Refusal;

/// What is known and kept of an algorithm, and what was found at one place.
#[derive(Drop)]
pub struct Known {
    pub sight: Sight,
    pub callees: Callees,
    pub found: Found,
}

impl Known {
    // Nothing is known but the standard modules that are extended.
    fn new(alloc: Global, modules: Modules) -> Known
        ensures none { AreNone result }
        ensures modules { result.sight.modules ≡ modules }
    {
        Known {
            sight: Sight::new(alloc, modules),
            callees: Callees::new(alloc),
            found: Found::new(alloc),
        }
    }

    // The first offence, where nothing is known yet.
    fn first_offence(
        &mut self,
        alloc: Global,
        pool: &Pool,
        algorithm: &Algorithm,
        outside: &Outside,
    ) -> Result<Option<Refusal>, AllocError>
        ensures { IfOk result (λ r. AreNone self.old → AreModules self.old.sight.modules (words outside.now.extended.items) → r ≡ first (use_offences_of (algorithm_at pool.now algorithm.now) (outside_at pool.now outside.now))) }
    {
        self.sight.set_outside(outside)?;
        self.sight.set_variables(&algorithm.globals)?;
        self.callees
            .fill(alloc, pool, &algorithm.macros, &algorithm.procedures)?;
        let found = &mut self.found;
        let definitions = found.of_definitions(pool, &mut self.sight, &algorithm.definitions)?;
        let globals = found.of_globals(pool, &self.sight, &algorithm.globals)?;
        let procedures = found.of_procedures(
            pool,
            &self.callees,
            &self.sight,
            &algorithm.procedures,
        )?;
        let main = found.of_main(pool, &self.callees, &self.sight, &algorithm.main)?;
        Ok(least(globals, least(definitions, least(procedures, main))))
    }
}

/// The first name of an algorithm that is used as it may not be: that is nothing where it stands, has a wrong number of arguments,
/// is assigned and no variable, needs a module, is of a unit that was not read, or is an infinite set where none may be.
///
/// # Errors
///
/// Only for want of memory.
pub fn use_refusal(
    alloc: Global,
    pool: &Pool,
    algorithm: &Algorithm,
    outside: &Outside,
) -> Result<Option<Refusal>, AllocError>
    ensures { IfOk result (λ r. r ≡ first (use_offences_of (algorithm_at pool.now algorithm.now) (outside_at pool.now outside.now))) }
{
    let modules = modules_among(&outside.extended);
    let mut known = Known::new(alloc, modules);
    let first = known.first_offence(alloc, pool, algorithm, outside);
    drop(known);
    first
}
