//! What an algorithm declares: by which offence it is refused, of those against the rules on declared names and on modules, and the
//! names that are taken from the start.

ghost use Rattle.std.specs.Prelude.{◌≡◌, ℕ, [], length, replicate, false, None, IfOk, OnOk};
ghost use Rattle.pcal_tree.specs.InMemory.{algorithm_at};
ghost use Rattle.pcal_tree.specs.Names.{taken_at_start};
ghost use Rattle.pcal_tree.specs.Offences.{first};
ghost use Rattle.module_outside.specs.WholeAt.{outside_at};
ghost use Rattle.written_names.specs.Giving.{SameNames};
ghost use Rattle.declared_rules.specs.Refusal.{declared_offences, offences_found};

use crate::met::none_met;
use crate::sweep::none_found;
use crate::walk::Walked;
use algorithm_limits::bound::Bound;
use module_outside::modules::{Modules, modules_among};
use module_outside::outside::Outside;
use pcal_tree::algorithm::Algorithm;
use std::alloc::{AllocError, Global};
use tla_pool::Pool;
use tla_token::Refusal;

/// What was found in an algorithm in a module.
#[derive(Drop)]
pub struct Declared {
    /// The first offence against the rules that were looked at, if there is one.
    pub refusal: Option<Refusal>,
    /// The names that are taken from the start: those of units outside, those that definitions there bind, and those that the
    /// algorithm keeps.
    pub taken: Bound,
}

impl Walked {
    // All that is looked at, where nothing was found and no name met.
    fn all(
        &mut self,
        pool: &Pool,
        algorithm: &Algorithm,
        outside: &Outside,
    ) -> Result<(), AllocError>
        requires found { length self.old.found.marks.items ≡ length pool.now }
        requires met { length self.old.met.marks.items ≡ length pool.now }
        ensures first { OnOk result ((n : ℕ) → self.old.found.first ≡ None → self.old.found.marks.items ≡ replicate n false → self.new.found.first ≡ first (offences_found self.old.found.modules pool.now algorithm.now (outside_at pool.now outside.now))) }
        ensures taken { OnOk result ((n : ℕ) → self.old.met.names ≡ [] → self.old.met.marks.items ≡ replicate n false → SameNames self.new.met.names (taken_at_start (algorithm_at pool.now algorithm.now) (outside_at pool.now outside.now))) }
    {
        self.found.outside(outside);
        self.found.titles(algorithm, outside)?;
        self.algorithm(algorithm)?;
        self.found.sweep(pool)?;
        self.met.all(pool, outside)
    }
}

// Nothing was found and no name met, where these modules are extended; of so many expressions none is marked.
fn none_walked(alloc: Global, modules: Modules, count: usize) -> Result<Walked, AllocError>
    ensures found { IfOk result (λ k. (k.found.modules ≡ modules) × (k.found.first ≡ None) × (k.found.marks.items ≡ replicate count false)) }
    ensures met { IfOk result (λ k. (k.met.names ≡ []) × (k.met.marks.items ≡ replicate count false)) }
{
    let met = none_met(alloc, count)?;
    match none_found(alloc, modules, count) {
        Ok(found) => Ok(Walked { found, met }),
        Err(error) => {
            drop(met);
            Err(error)
        }
    }
}

/// What an algorithm in a module declares: the first offence against the rules on names that are declared twice, on reserved
/// names, on what needs a module, and on variables outside; and the names that are taken from the start.
///
/// # Errors
///
/// Only for want of memory.
pub fn declarations(
    alloc: Global,
    pool: &Pool,
    algorithm: &Algorithm,
    outside: &Outside,
) -> Result<Declared, AllocError>
    ensures refusal { IfOk result (λ d. d.refusal ≡ first (declared_offences (algorithm_at pool.now algorithm.now) (outside_at pool.now outside.now))) }
    ensures taken { IfOk result (λ d. SameNames d.taken (taken_at_start (algorithm_at pool.now algorithm.now) (outside_at pool.now outside.now))) }
{
    let modules = modules_among(&outside.extended);
    let mut walked = none_walked(alloc, modules, pool.len())?;
    match walked.all(pool, algorithm, outside) {
        Ok(()) => {
            let Walked { found, met } = walked;
            Ok(Declared {
                refusal: found.first,
                taken: met.names,
            })
        }
        Err(error) => {
            drop(walked);
            Err(error)
        }
    }
}
