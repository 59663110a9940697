//! The limits of an algorithm that was read, and the one refusal by which an algorithm's tokens are answered.

ghost use Rattle.std.specs.Prelude.{◌≡◌, ◌≤◌, ◌++◌, length, None, Some, Ok, Err, IfOk};
ghost use Rattle.tla_token.specs.declared.rule.Refusal as code;
ghost use Rattle.tla_token.specs.declared.rule.Stop.TheVariants as stop;
ghost use Rattle.tla_token.specs.TokensSeen.{tokens_seen};
ghost use Rattle.pcal_tree.specs.InMemory.{algorithm_at, past_algorithm};
ghost use Rattle.pcal_tree.specs.Offences.{first};
ghost use Rattle.pcal_tree.specs.OffencesCounts.{count_offences};
ghost use Rattle.algorithm_answer.specs.TokensRefused.{token_refusals};
ghost use Rattle.algorithm_limits.specs.ReadOffences.{reading_offences};

use crate::chains::long_chain;
use crate::labels::labels;
use crate::names::{procedures, processes, variables};
use crate::nesting::deep_definition;
use crate::order::{least, lesser};
use crate::tokens::tokens_refusal;
use pcal_tree::algorithm::Algorithm;
use std::alloc::{AllocError, Global};
use tla_pool::Pool;
use tla_token::{Refusal, Stop, Tokens};

/// The first place at which an algorithm is past a limit: of variables, processes, procedures or labels, of chains of macros, or
/// of definitions with the bodies of others in place of their names.
///
/// # Errors
///
/// Only for want of memory.
pub fn count_refusal(
    alloc: Global,
    pool: &Pool,
    algorithm: &Algorithm,
) -> Result<Option<Refusal>, AllocError>
    requires { past_algorithm algorithm.now ≤ length pool.now }
    ensures { IfOk result (λ r. r ≡ first (count_offences (algorithm_at pool.now algorithm.now))) }
{
    let chains = long_chain(alloc, &algorithm.macros)?;
    let definitions = deep_definition(alloc, pool, &algorithm.definitions)?;
    let labelled = least(labels(algorithm).refusal(), least(chains, definitions));
    let called = least(procedures(algorithm).refusal(), labelled);
    let run = least(processes(&algorithm.main).refusal(), called);
    Ok(least(variables(algorithm).refusal(), run))
}

/// What was read, where neither the tokens one by one nor the algorithm is past a limit.
///
/// # Errors
///
/// The least of the rules that the tokens offend one by one, of that by which reading them stops, and of the limits of the
/// algorithm, at its first place; or want of memory.
pub fn within_limits(
    alloc: Global,
    tokens: &Tokens,
    pool: &Pool,
    read: Result<Algorithm, Stop>,
) -> Result<Algorithm, Stop>
    requires { IfOk read (λ a. past_algorithm a ≤ length pool.now) }
    ensures kept { IfOk result (λ a. read ≡ Ok a) }
    ensures fine { IfOk result (λ a. first (token_refusals (tokens_seen tokens.now) ++ reading_offences pool.now read) ≡ None) }
    ensures refused { (r : code.Refusal) → result ≡ Err (stop.Refused r) → first (token_refusals (tokens_seen tokens.now) ++ reading_offences pool.now read) ≡ Some r }
{
    let first = tokens_refusal(tokens);
    match read {
        Ok(algorithm) => {
            let second = count_refusal(alloc, pool, &algorithm)?;
            match least(first, second) {
                None => Ok(algorithm),
                Some(refusal) => Err(Stop::Refused(refusal)),
            }
        }
        Err(stop) => match stop {
            Stop::Refused(refusal) => Err(Stop::Refused(lesser(first, refusal))),
            Stop::Memory => Err(Stop::Memory),
        },
    }
}
