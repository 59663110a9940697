//! What reading all tokens of an algorithm is answered: by what was read, and by the rules that are looked at besides.

ghost use Rattle.std.specs.Prelude.{◌≡◌, ℕ, ◌≤◌, length, None, Some, Ok, Err, IfOk};
ghost use Rattle.tla_token.specs.declared.rule.Refusal as code;
ghost use Rattle.tla_token.specs.declared.rule.Stop.TheVariants as stop;
ghost use Rattle.pcal_tree.specs.InMemory.{past_algorithm};
ghost use Rattle.expr_nodes.specs.Ahead.{place_before};
ghost use Rattle.algorithm_reader.specs.AnsweredRead.{AnswersRead};

use algorithm_limits::within_limits;
use expr_nodes::cursor::Halt;
use expr_nodes::spot::place_before;
use pcal_tree::algorithm::Algorithm;
use std::alloc::Global;
use tla_pool::Pool;
use tla_token::{Refusal, Rule, Stop, Tokens};

// Refused by this rule, where so many tokens are left.
fn refused_before(tokens: &Tokens, rule: Rule, left: usize) -> Stop
    ensures { result ≡ stop.Refused (record { rule = rule; place = place_before tokens.now left }) }
{
    Stop::Refused(Refusal {
        rule,
        place: place_before(tokens, left),
    })
}

/// The algorithm that was read of all these tokens, where they and it break no rule.
///
/// # Errors
///
/// Of the rules that the tokens break one by one, of that by which reading them stopped, and of the limits of the algorithm the
/// least, at its first place; or want of memory.
pub fn answered(
    alloc: Global,
    tokens: &Tokens,
    pool: &Pool,
    read: Result<(Algorithm, usize), Halt>,
) -> Result<Algorithm, Stop>
    requires { IfOk read (λ x. past_algorithm x.0 ≤ length pool.now) }
    ensures kept { IfOk result (λ a. (n : ℕ) × (read ≡ Ok (a, n))) }
    ensures fine { IfOk result (λ a. AnswersRead tokens.now pool.now read None) }
    ensures refused { (r : code.Refusal) → result ≡ Err (stop.Refused r) → AnswersRead tokens.now pool.now read (Some r) }
{
    match read {
        Ok((algorithm, _)) => within_limits(alloc, tokens, pool, Ok(algorithm)),
        Err(Halt::Memory) => Err(Stop::Memory),
        Err(Halt::Refused(rule, left)) => {
            let stop = refused_before(tokens, rule, left);
            within_limits(alloc, tokens, pool, Err(stop))
        }
    }
}
