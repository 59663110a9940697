// A shelf of texts, and the reading of a whole text.
ghost use Rattle.std.specs.Prelude.{◌≡◌, ◌⊎◌, ◌+◌, ℕ, ◌<◌, ◌≤◌, Option, length, IfOk, IsErr, OnErr, IsErrOf};
ghost use Rattle.outer_io.specs.Outer.{Texts, RoseBy, RoseAbove, HasNoText, Tells, HasText, IsPiece, piece_bytes};
ghost use Rattle.outer_io.specs.declared.reading.LoadFault.TheVariants as fault;

use crate::Failed;
use std::alloc::{AllocError, Global};
use thiserror::Error;

/// How many bytes are asked for at a time.
const PIECE: usize = 4096;

/// Why a text was not read.
#[derive(Clone, Copy, Debug, PartialEq, Eq, Error)]
pub enum LoadFault {
    /// There was no memory.
    #[error("out of memory")]
    Memory,

    /// The shelf failed, or has no such text.
    #[error("the text cannot be read")]
    Failed,

    /// The text has more bytes than were allowed.
    #[error("the text is too long")]
    TooLong,
}

impl From<AllocError> for LoadFault {
    ghost from_gives = { λ _ e. e ≡ fault.Memory };

    fn from(_: AllocError) -> Self {
        LoadFault::Memory
    }
}

impl From<Failed> for LoadFault {
    ghost from_gives = { λ _ e. e ≡ fault.Failed };

    fn from(_: Failed) -> Self {
        LoadFault::Failed
    }
}

/// Texts under names, which are read in pieces.
pub trait Shelf {
    /// The texts, where the shelf tells them.
    ghost texts: { Self → Option Texts };

    /// How many bytes were handed out, a count of 64 bits.
    ghost given: { Self → ℕ };

    /// How many calls failed by a fault of the shelf, a count of 64 bits.
    ghost faults: { Self → ℕ };

    /// Puts the bytes of the text `name` from `from` on into `into`, and returns how many it put there. None, where
    /// `into` isn't empty, is the text's end.
    fn fetch(&mut self, name: &str, from: u64, into: &mut [u8]) -> Result<usize, Failed>
        ensures room { IfOk result (λ n. n ≤ length into.old) }
        ensures piece { IfOk result (λ n. Tells (texts self.old) name.now (IsPiece from n into.new)) }
        ensures lacking { HasNoText (texts self.old) name.now → IsErr result }
        ensures cause { OnErr result (RoseBy 1 (faults self.old) (faults self.new) ⊎ HasNoText (texts self.old) name.now) }

        // What a call leaves as it was, and how the counts rise.
        ensures texts_stay { texts self.new ≡ texts self.old }
        ensures given { IfOk result (λ n. RoseBy n (given self.old) (given self.new)) }
        ensures none_given { OnErr result (given self.new ≡ given self.old) }
        ensures given_grows { given self.old ≤ given self.new }
        ensures faults_grow { faults self.old ≤ faults self.new }
        ensures ok_faults { IfOk result (λ n. faults self.new ≡ faults self.old) }
        ensures once { faults self.new ≤ faults self.old + 1 };
}

/// The whole text `name` of a shelf, where it has at most `most` bytes.
pub fn load<H: Shelf>(
    alloc: Global,
    shelf: &mut H,
    name: &str,
    most: u64,
) -> Result<Vec<u8>, LoadFault>
    ensures text { IfOk result (λ v. HasText (H.texts shelf.old) name.now v.items) }
    ensures short { IfOk result (λ v. length v.items ≤ most) }
    ensures given { IfOk result (λ v. RoseBy (length v.items) (H.given shelf.old) (H.given shelf.new)) }

    // When each error comes; `Memory` may come at any time, but not of a text that turned out too long.
    ensures failed { IsErrOf result LoadFault.Failed → RoseBy 1 (H.faults shelf.old) (H.faults shelf.new)
        ⊎ HasNoText (H.texts shelf.old) name.now }
    ensures lacking { HasNoText (H.texts shelf.old) name.now → IsErrOf result LoadFault.Failed }
    ensures too_long { IsErrOf result LoadFault.TooLong → RoseAbove most (H.given shelf.old) (H.given shelf.new) }
    ensures longer { IsErrOf result LoadFault.TooLong
        → Tells (H.texts shelf.old) name.now (λ text. most < length text) }

    ensures within { IsErrOf result LoadFault.TooLong ⊎ (H.given shelf.new ≤ H.given shelf.old + most) }

    // What was handed out, whatever the answer: no byte twice, and no piece after the first that is too much.
    ensures read_once { Tells (H.texts shelf.old) name.now (λ text. H.given shelf.new ≤ H.given shelf.old + length text) }
    ensures read_few { H.given shelf.new ≤ H.given shelf.old + most + piece_bytes }

    ensures texts_stay { H.texts shelf.new ≡ H.texts shelf.old }
    ensures given_grows { H.given shelf.old ≤ H.given shelf.new }
    ensures faults_grow { H.faults shelf.old ≤ H.faults shelf.new }
    ensures counted { IsErrOf result LoadFault.Failed ⊎ (H.faults shelf.new ≡ H.faults shelf.old) }
    ensures once { H.faults shelf.new ≤ H.faults shelf.old + 1 }
{
    let mut out = Vec::new(alloc);
    let mut piece = [0u8; PIECE];
    'pieces: loop {
        let n = shelf.fetch(name, out.len() as u64, &mut piece)?;
        if n == 0 {
            return Ok(out);
        }
        if n as u64 > most - out.len() as u64 {
            return Err(LoadFault::TooLong);
        }
        out.extend_from_slice(&piece[..n])?;
    }
}
