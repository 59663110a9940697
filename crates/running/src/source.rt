//! The algorithm of a module's text, in memory.

ghost use Rattle.std.specs.Prelude.{◌<◌, ◌^◌, length, None, Some, IfOk, IfErr};
ghost use Rattle.file_answer.specs.Checking.{AnswersChecking};
ghost use Rattle.file_answer.specs.Refusals.{IsStop};
ghost use Rattle.checking.specs.CheckedIn.{IsLabelled};

use checking::check::{Checked, checked_parts};
use module_split::split::split;
use std::alloc::Global;
use tla_pool::Pool;
use tla_token::Stop;

/// The algorithm of a text with which nothing is wrong, with its labels added and its written names, and what the module has outside.
///
/// # Errors
///
/// The least of the rules 1 to 49 that the text breaks, at its first place; or want of memory.
pub fn checked_source(
    alloc: Global,
    source: &[u8],
    forced: bool,
    pool: &mut Pool,
) -> Result<Checked, Stop>
    requires { length source.now < 2 ^ 29 }
    ensures labelled { IfOk result (λ c. IsLabelled forced source.now pool.new c) }
    ensures clean { IfOk result (λ c. AnswersChecking forced source.now None) }
    ensures stopped { IfErr result (λ e. IsStop (λ r. AnswersChecking forced source.now (Some r)) e) }
{
    let parts = match split(alloc, source) {
        Ok(parts) => parts,
        Err(stop) => return Err(stop),
    };
    checked_parts(alloc, &parts, forced, pool)
}
