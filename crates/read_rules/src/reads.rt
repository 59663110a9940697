//! Variables that are read where they have no value yet, in an algorithm.

ghost use Rattle.std.specs.Prelude.{◌≡◌, ◌++◌, IfOk};
ghost use Rattle.pcal_tree.specs.InMemory.{algorithm_at};
ghost use Rattle.pcal_tree.specs.Offences.{first};
ghost use Rattle.pcal_tree.specs.OffencesReads.{process_offences, own_offences, order_offences};
ghost use Rattle.pcal_tree.specs.Variables.{declared};
ghost use Rattle.read_rules.specs.NumbersIn.{AreNumbers};

use crate::identities::identity_refusal;
use crate::levels::{levels, number_variables};
use crate::locals::order_refusal;
use crate::own::own_refusal;
use algorithm_limits::order::least;
use algorithm_limits::table::Table;
use pcal_tree::algorithm::Algorithm;
use std::alloc::{AllocError, Global};
use tla_pool::Pool;
use tla_token::Refusal;

// The first such variable, by the numbers of globals.
fn refusal_by(
    alloc: Global,
    pool: &Pool,
    numbers: &Table,
    algorithm: &Algorithm,
) -> Result<Option<Refusal>, AllocError>
    ensures { IfOk result (λ r. AreNumbers numbers.now (declared (algorithm_at pool.now algorithm.now).globals) → r ≡ first (process_offences (algorithm_at pool.now algorithm.now) ++ (own_offences (algorithm_at pool.now algorithm.now) ++ order_offences (algorithm_at pool.now algorithm.now)))) }
{
    let levels = levels(alloc, pool, numbers, &algorithm.definitions)?;
    match identity_refusal(alloc, pool, numbers, &levels, &algorithm.main) {
        Ok(identities) => {
            let order = order_refusal(alloc, pool, levels, algorithm)?;
            let own = own_refusal(alloc, pool, &algorithm.main)?;
            Ok(least(identities, least(own, order)))
        }
        Err(error) => {
            drop(levels);
            Err(error)
        }
    }
}

/// The first variable of an algorithm that is read where it has no value yet: in the identifier of a process, in a set that is
/// one for all processes, or before it is declared.
///
/// # Errors
///
/// Only for want of memory.
pub fn read_refusal(
    alloc: Global,
    pool: &Pool,
    algorithm: &Algorithm,
) -> Result<Option<Refusal>, AllocError>
    ensures { IfOk result (λ r. r ≡ first (process_offences (algorithm_at pool.now algorithm.now) ++ (own_offences (algorithm_at pool.now algorithm.now) ++ order_offences (algorithm_at pool.now algorithm.now)))) }
{
    let numbers = number_variables(alloc, &algorithm.globals)?;
    let found = refusal_by(alloc, pool, &numbers, algorithm);
    drop(numbers);
    found
}
