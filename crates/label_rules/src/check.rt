//! Whether an algorithm keeps the rules on labels.

ghost use Rattle.std.specs.Prelude.{◌≡◌, ◌≤◌, [], length, Err, Some, OnOk};
ghost use Rattle.tla_token.specs.declared.rule.Refusal as refusals;
ghost use Rattle.tla_token.specs.declared.rule.Stop.TheVariants as stop;
ghost use Rattle.pcal_tree.specs.InMemory.{algorithm_at, past_algorithm};
ghost use Rattle.pcal_tree.specs.Offences.{first};
ghost use Rattle.pcal_tree.specs.OffencesLabels.{label_offences};

use label_steps::label_refusal;
use pcal_tree::algorithm::Algorithm;
use std::alloc::{AllocError, Global};
use tla_pool::Pool;
use tla_token::Stop;

/// Whether an algorithm keeps the rules on labels: none is missing or elsewhere than it may be, no jump or call is where none may be,
/// and no variable is assigned twice in a step.
///
/// # Errors
///
/// The first of the offences against these rules, which is that of the least rule, at its first place; or want of memory.
#[tactic(auto, using(crate::proofs::FirstNone::none_first))]
pub fn check_labels(alloc: Global, pool: &Pool, algorithm: &Algorithm) -> Result<(), Stop>
    requires { past_algorithm algorithm.now ≤ length pool.now }
    ensures clean { OnOk result (label_offences (algorithm_at pool.now algorithm.now) ≡ []) }
    ensures refused { (r : refusals.Refusal) → result ≡ Err (stop.Refused r) → first (label_offences (algorithm_at pool.now algorithm.now)) ≡ Some r }
{
    match label_refusal(alloc, pool, algorithm) {
        Ok(None) => Ok(()),
        Ok(Some(refusal)) => Err(Stop::Refused(refusal)),
        Err(AllocError) => Err(Stop::Memory),
    }
}
