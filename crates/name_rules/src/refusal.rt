//! The first name that is wrong, by whatever rule on names, and the names that are taken from the start.

ghost use Rattle.std.specs.Prelude.{◌≡◌, IfOk};
ghost use Rattle.pcal_tree.specs.InMemory.{algorithm_at};
ghost use Rattle.pcal_tree.specs.Names.{taken_at_start};
ghost use Rattle.pcal_tree.specs.Offences.{first};
ghost use Rattle.pcal_tree.specs.OffencesOfNames.{name_offences};
ghost use Rattle.module_outside.specs.WholeAt.{outside_at};
ghost use Rattle.written_names.specs.Giving.{SameNames};

use crate::uses::use_refusal;
use algorithm_limits::order::least;
use declared_rules::rebind_refusal;
use declared_rules::refusal::{Declared, declarations};
use module_outside::outside::Outside;
use pcal_tree::algorithm::Algorithm;
use read_rules::stale::stale_refusal;
use read_rules::{read_refusal, self_refusal};
use std::alloc::{AllocError, Global};
use tla_pool::Pool;

/// The least of the rules on names that an algorithm in a module breaks, at its first place, if it breaks one; and the names that
/// are taken from the start.
///
/// # Errors
///
/// Only for want of memory.
pub fn checked_names(
    alloc: Global,
    pool: &Pool,
    algorithm: &Algorithm,
    outside: &Outside,
) -> Result<Declared, AllocError>
    ensures refusal { IfOk result (λ d. d.refusal ≡ first (name_offences (algorithm_at pool.now algorithm.now) (outside_at pool.now outside.now))) }
    ensures taken { IfOk result (λ d. SameNames d.taken (taken_at_start (algorithm_at pool.now algorithm.now) (outside_at pool.now outside.now))) }
{
    let used = use_refusal(alloc, pool, algorithm, outside)?;
    let read = read_refusal(alloc, pool, algorithm)?;
    let rebound = rebind_refusal(alloc, pool, algorithm, outside)?;
    let stale = stale_refusal(alloc, pool, algorithm)?;
    let selves = self_refusal(alloc, pool, algorithm)?;
    let late = least(rebound, least(stale, selves));
    let Declared {
        refusal: declared,
        taken,
    } = declarations(alloc, pool, algorithm, outside)?;
    let refusal = least(used, least(declared, least(read, late)));
    Ok(Declared { refusal, taken })
}
