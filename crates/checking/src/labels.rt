//! The first of what is wrong with the labels and the size of an algorithm.

ghost use Rattle.std.specs.Prelude.{◌≡◌, ◌≤◌, ◌++◌, length, IfOk};
ghost use Rattle.pcal_tree.specs.InMemory.{algorithm_at, past_algorithm};
ghost use Rattle.pcal_tree.specs.Offences.{first};
ghost use Rattle.pcal_tree.specs.OffencesLabels.{label_offences};
ghost use Rattle.macro_expand.specs.TooLarge.{too_large};

use algorithm_limits::order::least;
use expansion_size::too_large;
use label_steps::labels::label_refusal;
use pcal_tree::algorithm::Algorithm;
use std::alloc::{AllocError, Global};
use tla_pool::Pool;
use tla_token::Refusal;

/// The least of the rules on labels and sizes that an algorithm breaks, at its first place, if it breaks one.
///
/// # Errors
///
/// Only for want of memory.
#[tactic(auto, using(algorithm_answer::proofs::Joins::first_append))]
pub fn labels_and_size(
    alloc: Global,
    pool: &Pool,
    algorithm: &Algorithm,
) -> Result<Option<Refusal>, AllocError>
    requires { past_algorithm algorithm.now ≤ length pool.now }
    ensures { IfOk result (λ r. r ≡ first (label_offences (algorithm_at pool.now algorithm.now) ++ too_large (algorithm_at pool.now algorithm.now))) }
{
    let labels = label_refusal(alloc, pool, algorithm)?;
    Ok(least(labels, too_large(pool, algorithm)))
}
