//! Names that are bound or declared where they are in scope already, in an algorithm.

ghost use Rattle.std.specs.Prelude.{◌≡◌, ◌∷◌, [], codes, IfOk, OnOk};
ghost use Rattle.tla_tree.specs.Tree.{words};
ghost use Rattle.algorithm_limits.specs.DepthsIn.{Hides};
ghost use Rattle.module_outside.specs.ModulesIn.{AreModules};
ghost use Rattle.pcal_tree.specs.InMemory.{algorithm_at};
ghost use Rattle.pcal_tree.specs.Offences.{first};
ghost use Rattle.pcal_tree.specs.OffencesRebind.{any_name, rebind_offences_of};
ghost use Rattle.module_outside.specs.WholeAt.{outside_at};
ghost use Rattle.declared_rules.specs.Telling.{Adds, IsNew};
ghost use Rattle.declared_rules.specs.Macros.{macro_names};
ghost use Rattle.declared_rules.specs.Whole.{AreNone, AreAlone, AreSights, Begins, insides};

use crate::bind_walk::Walk;
use crate::kept::{Calls, Keeps};
use crate::names::add_declared;
use crate::outside_words::bind_units;
use crate::sight::Sight;
use algorithm_limits::bound::Bound;
use indexmap::IndexMap;
use module_outside::modules::{Modules, modules_among};
use module_outside::outside::Outside;
use pcal_tree::algorithm::{Algorithm, Macro};
use std::alloc::{AllocError, Global};
use tla_pool::Pool;
use tla_token::Refusal;
use tla_tree::Name;

/// What is the same in the text itself, in bodies of single processes, and in macros.
#[derive(Drop)]
pub struct Sights {
    pub near: Sight,
    pub own: Sight,
    pub far: Sight,
}

// The names for which text may be put in, in macros.
fn add_params(names: &mut Bound, process: &Name, macros: &[Macro]) -> Result<(), AllocError>
    ensures { OnOk result (Hides names.old names.new (process.now ∷ macro_names macros.now)) }
{
    names.add(process)?;
    for i in 0..macros.len() {
        let one = &macros[i];
        names.add_all(&one.params)?;
    }
    Ok(())
}

impl Sights {
    // Text may be put in for the name of a process's identifier and for parameters.
    fn stand(&mut self, process: &Name, macros: &[Macro]) -> Result<(), AllocError>
        ensures { OnOk result ((m : Modules) → AreAlone m self.old → process.now ≡ codes "self" → AreSights m macros.now self.new) }
    {
        self.own.stands.add(process)?;
        add_params(&mut self.far.stands, process, macros)
    }
}

impl Walk {
    // All but the definitions, where these are in scope.
    fn inside(
        &mut self,
        sights: &Sights,
        calls: &mut Calls,
        pool: &Pool,
        algorithm: &Algorithm,
    ) -> Result<(), AllocError>
        ensures { OnOk result (Begins sights.now pool.now algorithm.now calls.old → Adds sights.now.near any_name self.old self.new (λ ms r. insides ms (algorithm_at pool.now algorithm.now) r)) }
    {
        self.starts(&sights.near, pool, &algorithm.globals)?;
        self.macros(&sights.near, &sights.far, calls, pool, &algorithm.macros)?;
        self.procedures(&sights.near, calls, pool, &algorithm.procedures)?;
        self.main(&sights.near, &sights.own, calls, pool, &algorithm.main)
    }
}

impl Sights {
    // No text is put in anywhere.
    fn new(alloc: Global, modules: Modules) -> Sights
        ensures { AreAlone modules result }
    {
        Sights {
            near: Sight {
                modules,
                stands: Bound::new(alloc),
            },
            own: Sight {
                modules,
                stands: Bound::new(alloc),
            },
            far: Sight {
                modules,
                stands: Bound::new(alloc),
            },
        }
    }
}

impl Calls {
    // Nothing is kept.
    fn new(alloc: Global, process: Name) -> Calls
        ensures process { result.process ≡ process }
        ensures macros { result.macros.kept.entries ≡ [] }
        ensures procedures { result.procedures.kept.entries ≡ [] }
    {
        Calls {
            alloc,
            process,
            macros: Keeps {
                kept: IndexMap::new(alloc),
            },
            procedures: Keeps {
                kept: IndexMap::new(alloc),
            },
        }
    }
}

// The first offence, where nothing was found and nothing is kept yet.
fn first_offence(
    sights: &mut Sights,
    calls: &mut Calls,
    walk: &mut Walk,
    pool: &Pool,
    algorithm: &Algorithm,
    outside: &Outside,
) -> Result<Option<Refusal>, AllocError>
    ensures { IfOk result (λ f. (m : Modules) → AreModules m (words outside.now.extended.items) → AreAlone m sights.old → AreNone calls.old → IsNew walk.old → f ≡ first (rebind_offences_of (algorithm_at pool.now algorithm.now) (outside_at pool.now outside.now))) }
{
    let alloc = calls.alloc;
    sights.stand(&calls.process, &algorithm.macros)?;
    calls
        .procedures
        .procedures(alloc, &sights.own, pool, &algorithm.procedures)?;
    add_declared(&mut walk.bound, &algorithm.globals)?;
    bind_units(&mut walk.bound, outside)?;
    walk.definitions(&sights.near, pool, &algorithm.definitions)?;
    walk.inside(&*sights, calls, pool, algorithm)?;
    Ok(walk.first)
}

// The same, where nothing is kept yet.
fn with_calls(
    alloc: Global,
    sights: &mut Sights,
    calls: &mut Calls,
    pool: &Pool,
    algorithm: &Algorithm,
    outside: &Outside,
) -> Result<Option<Refusal>, AllocError>
    ensures { IfOk result (λ f. (m : Modules) → AreModules m (words outside.now.extended.items) → AreAlone m sights.old → AreNone calls.old → f ≡ first (rebind_offences_of (algorithm_at pool.now algorithm.now) (outside_at pool.now outside.now))) }
{
    let mut walk = Walk::new(alloc);
    let found = first_offence(sights, calls, &mut walk, pool, algorithm, outside);
    drop(walk);
    found
}

// The same, with the name of a process's identifier.
fn with_sights(
    alloc: Global,
    sights: &mut Sights,
    pool: &Pool,
    algorithm: &Algorithm,
    outside: &Outside,
) -> Result<Option<Refusal>, AllocError>
    ensures { IfOk result (λ f. (m : Modules) → AreModules m (words outside.now.extended.items) → AreAlone m sights.old → f ≡ first (rebind_offences_of (algorithm_at pool.now algorithm.now) (outside_at pool.now outside.now))) }
{
    let process = Vec::from_slice(alloc, b"self")?;
    let mut calls = Calls::new(alloc, Name::new(process));
    let found = with_calls(alloc, sights, &mut calls, pool, algorithm, outside);
    drop(calls);
    found
}

/// The first name of an algorithm that is bound or declared where it is in scope already, also where macro calls, identifiers of
/// processes and initial values of procedures are put in.
///
/// # Errors
///
/// Only for want of memory.
pub fn rebind_refusal(
    alloc: Global,
    pool: &Pool,
    algorithm: &Algorithm,
    outside: &Outside,
) -> Result<Option<Refusal>, AllocError>
    ensures { IfOk result (λ r. r ≡ first (rebind_offences_of (algorithm_at pool.now algorithm.now) (outside_at pool.now outside.now))) }
{
    let modules = modules_among(&outside.extended);
    let mut sights = Sights::new(alloc, modules);
    let found = with_sights(alloc, &mut sights, pool, algorithm, outside);
    drop(sights);
    found
}
