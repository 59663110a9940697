//! A module with its translation, made as a command would make it.

ghost use Rattle.std.specs.Prelude.{◌<◌, ◌^◌, ◌≡◌, length};

use checking::check::{Checked, checked_parts};
use module_builder::built_region;
use module_split::split::split;
use module_write::write_file::with_translation;
use module_write::write_units::write_region;
use std::alloc::{AllocError, Global};
use tla_pool::Pool;
use tla_token::Stop;
use tla_tree::Text;

/// How a module is translated.
#[derive(Clone, Copy)]
pub struct Options {
    /// Labels are added to every algorithm.
    pub label: bool,
    /// The translation has no `Terminating`.
    pub no_terminating: bool,
}

/// The module with its translation.
///
/// # Errors
///
/// The first rule that it breaks, or want of memory.
pub fn written_text(alloc: Global, text: &[u8], options: &Options) -> Result<Vec<u8>, Stop>
    requires { length text.now < 2 ^ 29 }
{
    let parts = match split(alloc, text) {
        Ok(parts) => parts,
        Err(stop) => return Err(stop),
    };
    let mut pool = Pool::new(alloc);
    let checked = match checked_parts(alloc, &parts, options.label, &mut pool) {
        Ok(checked) => checked,
        Err(stop) => return Err(stop),
    };
    let Checked {
        algorithm,
        naming,
        ..
    } = checked;
    let region = built_region(alloc, &mut pool, algorithm, &naming, options.no_terminating)?;
    let mut translation = Text::new(Vec::new(alloc));
    write_region(alloc, &pool, &region, &mut translation)?;
    Ok(with_translation(alloc, &parts, translation.bytes())?)
}
