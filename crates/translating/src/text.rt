//! A module with the translation of its algorithm, as text.

ghost use Rattle.std.specs.Prelude.{◌≡◌, ◌<◌, ◌^◌, length, None, Some, IfOk, IfErr};
ghost use Rattle.file_answer.specs.Checking.{AnswersChecking};
ghost use Rattle.file_answer.specs.Refusals.{IsStop};
ghost use Rattle.translation.specs.PromiseWhole.{WrittenWhole};
ghost use Rattle.promise.specs.Headline.{Headline};
ghost use Rattle.translating.specs.Translated.{options_of};

use crate::options::Options;
use crate::placed::with_its_translation;
use checking::check::checked_parts;
use module_split::split::split;
use std::alloc::Global;
use tla_pool::Pool;
use tla_token::Stop;

/// The module of this text with the translation of its algorithm in its place ("A PlusCal User's Manual", section 2.2).
///
/// # Errors
///
/// The least of the rules 1 to 49 that the text breaks, at its first place; or want of memory.
pub fn translate_text(alloc: Global, text: &[u8], options: Options) -> Result<Vec<u8>, Stop>
    requires { length text.now < 2 ^ 29 }
    ensures whole { IfOk result (λ w. WrittenWhole (options_of options) text.now w.items) }
    ensures promise { IfOk result (λ w. Headline (options_of options) text.now w.items) }
    ensures clean { IfOk result (λ w. AnswersChecking options.label text.now None) }
    ensures stopped { IfErr result (λ e. IsStop (λ r. AnswersChecking options.label text.now (Some r)) e) }
{
    let Options {
        label,
        no_terminating,
    } = options;
    let parts = match split(alloc, text) {
        Ok(parts) => parts,
        Err(stop) => return Err(stop),
    };
    let mut pool = Pool::new(alloc);
    let checked = match checked_parts(alloc, &parts, label, &mut pool) {
        Ok(checked) => checked,
        Err(stop) => return Err(stop),
    };
    match with_its_translation(alloc, &parts, &mut pool, checked, no_terminating) {
        Ok(translated) => Ok(translated.text),
        Err(stop) => Err(stop),
    }
}
