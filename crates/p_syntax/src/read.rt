//! The call that reads a whole algorithm in P-syntax, with all its rules.

ghost use Rattle.tla_expr.specs.Numbers.{NumbersFit};
ghost use Rattle.pcal_tree.specs.Grammar.{p_syntax};
ghost use Rattle.reading_answer.specs.AlgorithmRead.{AlgorithmRead};

use crate::algorithm::read_algorithm;
use algorithm_reader::answer::answered;
use pcal_tree::algorithm::Algorithm;
use std::alloc::Global;
use tla_pool::Pool;
use tla_token::{Stop, Tokens};

/// The algorithm that all these tokens are, the word that begins it the first of them ("A PlusCal User's Manual", appendix A).
///
/// # Errors
///
/// Of the rules on words that are left out (11), on too much (13 and 14) and on syntax (15) the least that the tokens break, at
/// its first place; or want of memory. By 14 and 15 it is refused where reading stops. Wherever reading stops at a token, or at the
/// end, the tokens before it are completed to an algorithm by those that are missing there, whatever else is wrong with them.
pub fn read_p(alloc: Global, tokens: &Tokens, pool: &mut Pool) -> Result<Algorithm, Stop>
    requires { NumbersFit tokens.now }
    ensures { AlgorithmRead p_syntax tokens.now pool.old pool.new result }
{
    let read = read_algorithm(alloc, tokens, pool);
    answered(alloc, tokens, pool, read)
}
