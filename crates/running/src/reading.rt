//! Reads the files of a run.

ghost use Rattle.std.specs.Prelude.{◌≡◌, IfOk, IfErr};
ghost use Rattle.running.specs.InMemory.{files_of};
ghost use Rattle.running.specs.Names.{names_of};
ghost use Rattle.running.specs.Reading.{files_in, WasRead, StopsReading, AllRead, Unread};

use crate::answer::{Names, RunAnswer};
use crate::{Files, Which};
use outer_io::{LoadFault, Shelf, load};
use std::alloc::Global;

/// A file has at most so many bytes.
const MOST_BYTES: u64 = 1_048_576;

/// The texts of the files of a run.
#[derive(Drop)]
pub struct Loaded {
    /// Of the module.
    pub source: Vec<u8>,
    /// Of the values of its constants.
    pub config: Vec<u8>,
    /// Of the script of a run, or of a trace.
    pub third: Vec<u8>,
}

/// The text of one file.
///
/// # Errors
///
/// How a run ends of which this file can't be read.
fn load_one<H: Shelf>(
    alloc: Global,
    which: Which,
    name: &str,
    shelf: &mut H,
) -> Result<Vec<u8>, RunAnswer>
    ensures read { IfOk result (λ v. WasRead H.texts H.given H.faults name.now v.items shelf.old shelf.new) }
    ensures unread { IfErr result (λ a. StopsReading H.texts H.given H.faults name.now which a shelf.old shelf.new) }
{
    match load(alloc, shelf, name, MOST_BYTES) {
        Ok(text) => Ok(text),
        Err(LoadFault::Memory) => Err(RunAnswer::Memory),
        Err(LoadFault::Failed) => Err(RunAnswer::ReadFault(which)),
        Err(LoadFault::TooLong) => Err(RunAnswer::TooLong(which)),
    }
}

/// The texts of the files, read in their order.
///
/// # Errors
///
/// How a run ends of which the first of them that can't be read is this one.
pub fn load_three<H: Shelf>(
    alloc: Global,
    names: &Names<'_>,
    shelf: &mut H,
) -> Result<Loaded, RunAnswer>
    ensures read { IfOk result (λ t. AllRead H.texts H.given H.faults (names_of names.now) (files_in t) shelf.old shelf.new) }
    ensures unread { IfErr result (λ a. Unread H.texts H.given H.faults (names_of names.now) a shelf.old shelf.new) }
{
    let source = load_one(alloc, Which::Module, names.source, shelf)?;
    let config = load_one(alloc, Which::Config, names.config, shelf)?;
    let third = load_one(alloc, Which::Third, names.third, shelf)?;
    Ok(Loaded {
        source,
        config,
        third,
    })
}

/// The texts as a run takes them.
pub fn in_memory(loaded: &Loaded) -> Files<'_>
    ensures { files_of result ≡ files_in loaded.now }
{
    Files {
        source: &loaded.source,
        config: &loaded.config,
        third: &loaded.third,
    }
}
