//! The translation of a checked algorithm, put in its place.

ghost use Rattle.std.specs.Prelude.{◌≡◌, ◌<◌, ◌≤◌, ◌^◌, Bool, length, None, IfOk, IfErr};
ghost use Rattle.tla_token.specs.declared.rule.Stop.TheVariants as stop;
ghost use Rattle.pcal_tree.specs.InMemory.{past_algorithm};
ghost use Rattle.module_split.specs.Splitting.{Splits};
ghost use Rattle.file_answer.specs.Checking.{AnswersChecking};
ghost use Rattle.checking.specs.CheckedIn.{IsLabelled};
ghost use Rattle.translating.specs.Translated.{IsTranslated};

use crate::region_text::region_text;
use checking::check::Checked;
use module_tree::Parts;
use module_write::write_file::with_translation;
use std::alloc::{AllocError, Global};
use tla_pool::Pool;
use tla_token::Stop;

/// A module with its translation.
#[derive(Drop)]
pub struct Translated {
    /// The module.
    pub text: Vec<u8>,
    /// How many variables the translation declares.
    pub variables: usize,
}

/// The file of these parts with the translation of its algorithm in its place, all other bytes being as they were
/// ("A PlusCal User's Manual", section 2.2).
///
/// # Errors
///
/// Only for want of memory, where nothing is wrong with the file.
pub fn with_its_translation(
    alloc: Global,
    parts: &Parts<'_>,
    pool: &mut Pool,
    checked: Checked,
    no_terminating: bool,
) -> Result<Translated, Stop>
    requires small { length parts.now.text.now < 2 ^ 29 }
    requires parts { Splits parts.now.text.now parts.now }
    requires past { past_algorithm checked.algorithm ≤ length pool.old }
    ensures whole { (forced : Bool) → IsLabelled forced parts.now.text.now pool.old checked → AnswersChecking forced parts.now.text.now None → IfOk result (IsTranslated (record { label = forced; no_terminating = no_terminating }) parts.now.text.now) }
    ensures memory { (forced : Bool) → IsLabelled forced parts.now.text.now pool.old checked → AnswersChecking forced parts.now.text.now None → IfErr result (λ e. e ≡ stop.Memory) }
{
    let made = match region_text(alloc, pool, checked, no_terminating) {
        Ok(made) => made,
        Err(stop) => return Err(stop),
    };
    match with_translation(alloc, parts, made.text.bytes()) {
        Ok(text) => Ok(Translated {
            text,
            variables: made.variables,
        }),
        Err(AllocError) => Err(Stop::Memory),
    }
}
