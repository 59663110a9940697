//! The first label that is missing in an algorithm, or variable that is assigned twice in a step.

ghost use Rattle.std.specs.Prelude.{◌≡◌, ◌≤◌, length, reverse, IfOk};
ghost use Rattle.pcal_tree.specs.InMemory.{algorithm_at, past_algorithm};
ghost use Rattle.pcal_tree.specs.Offences.{first};
ghost use Rattle.pcal_tree.specs.OffencesSteps.{call_effect};
ghost use Rattle.label_jumps.specs.Parted.{missing_in};

use crate::due::due_refusal;
use crate::macros::known_macros;
use crate::twice::twice_refusal;
use pcal_tree::algorithm::Algorithm;
use std::alloc::{AllocError, Global};
use tla_pool::Pool;
use tla_token::Refusal;

/// The first of the labels that are missing in an algorithm and of the variables that are assigned twice in a step: these count only
/// where no label is missing.
///
/// # Errors
///
/// Only for want of memory.
pub fn steps_refusal(
    alloc: Global,
    pool: &Pool,
    algorithm: &Algorithm,
) -> Result<Option<Refusal>, AllocError>
    requires { past_algorithm algorithm.now ≤ length pool.now }
    ensures { IfOk result (λ r. r ≡ first (missing_in (call_effect (reverse (algorithm_at pool.now algorithm.now).macros)) (algorithm_at pool.now algorithm.now))) }
{
    let due = due_refusal(algorithm);
    match due {
        Some(refusal) => Ok(Some(refusal)),
        None => {
            let known = known_macros(alloc, pool, &algorithm.macros)?;
            twice_refusal(alloc, pool, known, algorithm)
        }
    }
}
