//! The first offence against the rules on labels.

ghost use Rattle.std.specs.Prelude.{◌≡◌, ◌≤◌, length, IfOk};
ghost use Rattle.pcal_tree.specs.InMemory.{algorithm_at, past_algorithm};
ghost use Rattle.pcal_tree.specs.Offences.{first};
ghost use Rattle.pcal_tree.specs.OffencesLabels.{label_offences};

use crate::steps::steps_refusal;
use algorithm_limits::order::least;
use label_jumps::misplaced_refusal;
use pcal_tree::algorithm::Algorithm;
use std::alloc::{AllocError, Global};
use tla_pool::Pool;
use tla_token::Refusal;

/// The first offence of an algorithm against the rules on labels: labels that are missing, or elsewhere than they may be, jumps and
/// calls where none may be, and variables that are assigned twice in a step.
///
/// # Errors
///
/// Only for want of memory.
pub fn label_refusal(
    alloc: Global,
    pool: &Pool,
    algorithm: &Algorithm,
) -> Result<Option<Refusal>, AllocError>
    requires { past_algorithm algorithm.now ≤ length pool.now }
    ensures { IfOk result (λ r. r ≡ first (label_offences (algorithm_at pool.now algorithm.now))) }
{
    let steps = steps_refusal(alloc, pool, algorithm)?;
    let misplaced = misplaced_refusal(alloc, algorithm)?;
    Ok(least(steps, misplaced))
}
