//! What `make` writes: counts of a module with its translation.

ghost use Rattle.std.specs.Prelude.{◌≡◌, ◌<◌, ◌^◌, length, false, None, Some, IfOk, IfErr};
ghost use Rattle.file_answer.specs.Checking.{AnswersChecking};
ghost use Rattle.file_answer.specs.Refusals.{IsStop};
ghost use Rattle.pcal_cli.specs.Counted.{IsCounted, CountsKept};

use made_module::count_lines;
use std::alloc::{AllocError, Global};
use tla_token::Stop;
use translating::options::NO_OPTIONS;
use translating::{Counts, counts_of};

/// The counts of a module with its translation.
///
/// # Errors
///
/// The least of the rules 1 to 49 that the text breaks, at its first place; or want of memory.
pub fn counted(alloc: Global, text: &[u8]) -> Result<Vec<u8>, Stop>
    requires { length text.now < 2 ^ 29 }
    ensures counts { IfOk result (λ w. IsCounted text.now w.items) }
    ensures kept { IfOk result (λ w. CountsKept text.now w.items) }
    ensures clean { IfOk result (λ w. AnswersChecking false text.now None) }
    ensures stopped { IfErr result (λ e. IsStop (λ r. AnswersChecking false text.now (Some r)) e) }
{
    let Counts {
        labels,
        variables,
        bytes,
    } = match counts_of(alloc, text, NO_OPTIONS) {
        Ok(counts) => counts,
        Err(stop) => return Err(stop),
    };
    match count_lines(alloc, labels, variables, bytes) {
        Ok(lines) => Ok(lines),
        Err(AllocError) => Err(Stop::Memory),
    }
}
