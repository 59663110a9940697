//! What is counted of a module with its translation.

ghost use Rattle.std.specs.Prelude.{◌≡◌, ◌<◌, ◌^◌, length, None, Some, IfOk, IfErr};
ghost use Rattle.file_answer.specs.Checking.{AnswersChecking};
ghost use Rattle.file_answer.specs.Refusals.{IsStop};
ghost use Rattle.translating.specs.Translated.{options_of, AreCounts};

use crate::options::Options;
use crate::placed::with_its_translation;
use checking::check::checked_parts;
use made_module::labels_in;
use module_split::split::split;
use std::alloc::{AllocError, Global};
use tla_pool::Pool;
use tla_token::Stop;

/// Counts of a module with its translation.
#[derive(Clone, Copy)]
pub struct Counts {
    /// How many labels its algorithm has.
    pub labels: usize,
    /// How many variables its translation declares.
    pub variables: usize,
    /// How many bytes it has.
    pub bytes: usize,
}

/// The counts of what `translate_text` gives for a text.
///
/// # Errors
///
/// As `translate_text`.
pub fn counts_of(alloc: Global, text: &[u8], options: Options) -> Result<Counts, Stop>
    requires { length text.now < 2 ^ 29 }
    ensures counts { IfOk result (AreCounts (options_of options) text.now) }
    ensures clean { IfOk result (λ c. AnswersChecking options.label text.now None) }
    ensures stopped { IfErr result (λ e. IsStop (λ r. AnswersChecking options.label text.now (Some r)) e) }
{
    let Options {
        label,
        no_terminating,
    } = options;
    let parts = match split(alloc, text) {
        Ok(parts) => parts,
        Err(stop) => return Err(stop),
    };
    let mut pool = Pool::new(alloc);
    let checked = match checked_parts(alloc, &parts, label, &mut pool) {
        Ok(checked) => checked,
        Err(stop) => return Err(stop),
    };
    let labels = match labels_in(alloc, &checked.algorithm) {
        Ok(labels) => labels,
        Err(AllocError) => return Err(Stop::Memory),
    };
    match with_its_translation(alloc, &parts, &mut pool, checked, no_terminating) {
        Ok(translated) => Ok(Counts {
            labels,
            variables: translated.variables,
            bytes: translated.text.len(),
        }),
        Err(stop) => Err(stop),
    }
}
