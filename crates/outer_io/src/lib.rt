//! Files and output: a shelf of texts that are read by name, and a sink that takes bytes; each in memory, and as the
//! system has it.
#![tactic(auto)]

mod memory;
mod reading;
mod system;
mod writing;

pub use memory::{MemShelf, MemSink};
pub use reading::{LoadFault, Shelf, load};
pub use system::{DiskShelf, StdSink};
use thiserror::Error;
pub use writing::{Sink, put_all};

/// A call of a shelf or of a sink failed.
#[derive(Clone, Copy, Debug, PartialEq, Eq, Error)]
#[error("a call of a shelf or of a sink failed")]
pub struct Failed;
