//! The names that an algorithm in a module is written with, if it breaks no rule on names.

ghost use Rattle.std.specs.Prelude.{◌≡◌, List, [], Err, Some, IfOk, OnOk};
ghost use Rattle.tla_token.specs.declared.rule.Refusal as refusals;
ghost use Rattle.tla_token.specs.declared.rule.Stop.TheVariants as stop;
ghost use Rattle.tla_tree.specs.Tree.{Tree, words};
ghost use Rattle.pcal_tree.specs.InMemory.{algorithm_at};
ghost use Rattle.pcal_tree.specs.Names.{naming, taken_at_start};
ghost use Rattle.pcal_tree.specs.Offences.{first};
ghost use Rattle.pcal_tree.specs.OffencesOfNames.{name_offences};
ghost use Rattle.module_outside.specs.WholeAt.{outside_at};
ghost use Rattle.written_names.specs.Giving.{SameNames};
ghost use Rattle.written_names.specs.Units.{naming_of};

use crate::refusal::checked_names;
use algorithm_limits::bound::Bound;
use declared_rules::refusal::Declared;
use module_outside::outside::Outside;
use pcal_tree::algorithm::Algorithm;
use std::alloc::{AllocError, Global};
use tla_pool::Pool;
use tla_token::Stop;
use tla_tree::{Name, PlacedName};
use written_names::give::name_units;
use written_names::naming::Naming;

// Names without their places.
fn without_places(alloc: Global, names: &[PlacedName]) -> Result<Vec<Name>, AllocError>
    ensures { IfOk result (λ ws. ws.items ≡ words names.now) }
{
    let mut copies = Vec::new(alloc);
    for one in names {
        copies.push(one.name.copied()?)?;
    }
    Ok(copies)
}

// The names that all is written with, where these are taken from the start.
fn written(
    alloc: Global,
    algorithm: &Algorithm,
    outside: &Outside,
    taken: Bound,
) -> Result<Naming, AllocError>
    ensures { IfOk result (λ r. (ts : List Tree) → SameNames taken (taken_at_start (algorithm_at ts algorithm.now) (outside_at ts outside.now)) → naming_of r ≡ naming (algorithm_at ts algorithm.now) (outside_at ts outside.now)) }
{
    let extended = without_places(alloc, &outside.extended)?;
    name_units(alloc, algorithm, &extended, taken)
}

/// The names that an algorithm is written with in a module that has this outside.
///
/// # Errors
///
/// The least of the rules on names that it breaks, at its first place; or want of memory.
pub fn name_all(
    alloc: Global,
    pool: &Pool,
    algorithm: &Algorithm,
    outside: &Outside,
) -> Result<Naming, Stop>
    ensures names { IfOk result (λ r. naming_of r ≡ naming (algorithm_at pool.now algorithm.now) (outside_at pool.now outside.now)) }
    ensures clean { OnOk result (name_offences (algorithm_at pool.now algorithm.now) (outside_at pool.now outside.now) ≡ []) }
    ensures refused { (r : refusals.Refusal) → result ≡ Err (stop.Refused r) → first (name_offences (algorithm_at pool.now algorithm.now) (outside_at pool.now outside.now)) ≡ Some r }
{
    let Declared { refusal, taken } = checked_names(alloc, pool, algorithm, outside)?;
    match refusal {
        Some(refusal) => Err(Stop::Refused(refusal)),
        None => Ok(written(alloc, algorithm, outside, taken)?),
    }
}
