//! An algorithm with its macro calls written out, whose macros stay in it.

ghost use Rattle.std.specs.Prelude.{◌≡◌, ◌≤◌, ◌↔◌, length, Some, None, Err, IfOk};
ghost use Rattle.tla_token.specs.declared.rule.Refusal as code_refusal;
ghost use Rattle.tla_token.specs.declared.rule.Stop.TheVariants as stop;
ghost use Rattle.tla_tree.specs.Pool.{Keeps};
ghost use Rattle.pcal_tree.specs.InMemory.{algorithm_at, past_algorithm};
ghost use Rattle.pcal_tree.specs.Offences.{first};
ghost use Rattle.macro_expand.specs.TooLarge.{too_large};
ghost use Rattle.step_forms.specs.Opened as pure;

use expansion::expand;
use pcal_tree::algorithm::Algorithm;
use std::alloc::Global;
use tla_pool::Pool;
use tla_token::Stop;

/// The algorithm with its macro calls written out; its macros are moved into it, so that its routines keep their numbers.
///
/// # Errors
///
/// Rule 49 at the algorithm's name, exactly where it is too large with its macro calls written out; else only for want of memory.
pub fn opened(alloc: Global, pool: &mut Pool, algorithm: Algorithm) -> Result<Algorithm, Stop>
    requires { past_algorithm algorithm ≤ length pool.old }
    ensures made { IfOk result (λ r. algorithm_at pool.new r ≡ pure.opened (algorithm_at pool.old algorithm)) }
    ensures within { IfOk result (λ r. past_algorithm r ≤ length pool.new) }
    ensures kept { Keeps pool.old pool.new }
    ensures fine { IfOk result (λ r. first (too_large (algorithm_at pool.old algorithm)) ≡ None) }
    ensures refused { (r : code_refusal.Refusal) → (result ≡ Err (stop.Refused r)) ↔ (first (too_large (algorithm_at pool.old algorithm)) ≡ Some r) }
{
    let mut made = expand(alloc, pool, &algorithm)?;
    made.macros = algorithm.macros;
    Ok(made)
}
