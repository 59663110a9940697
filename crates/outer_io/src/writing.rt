// A sink of bytes, and the writing of all of them.
ghost use Rattle.std.specs.Prelude.{◌≡◌, ◌+◌, ℕ, ◌<◌, ◌≤◌, List, Option, length, take, IfOk, OnOk, OnErr};
ghost use Rattle.outer_io.specs.Outer.{RoseBy, Grows, GrowsInPart};

use crate::Failed;

/// What takes bytes, a piece at a time.
pub trait Sink {
    /// What was written, where the sink tells it.
    ghost wrote: { Self → Option (List ℕ) };

    /// How many calls failed, a count of 64 bits.
    ghost faults: { Self → ℕ };

    /// Takes the first bytes of `piece`, and returns how many it took: at least one. A call that fails took none.
    fn write(&mut self, piece: &[u8]) -> Result<usize, Failed>
        requires { 0 < length piece.now }
        ensures some { IfOk result (λ n. 0 < n) }
        ensures within { IfOk result (λ n. n ≤ length piece.now) }
        ensures grows { IfOk result (λ n. Grows (wrote self.old) (wrote self.new) (take n piece.now)) }
        ensures none_taken { OnErr result (wrote self.new ≡ wrote self.old) }
        ensures cause { OnErr result (RoseBy 1 (faults self.old) (faults self.new)) }
        ensures faults_grow { faults self.old ≤ faults self.new }
        ensures ok_faults { IfOk result (λ n. faults self.new ≡ faults self.old) }
        ensures once { faults self.new ≤ faults self.old + 1 };
}

/// Writes all the bytes; where a call of the sink fails, some of the first of them have been written, and not all.
pub fn put_all<K: Sink>(sink: &mut K, bytes: &[u8]) -> Result<(), Failed>
    ensures ok { OnOk result (Grows (K.wrote sink.old) (K.wrote sink.new) bytes.now) }
    ensures err { OnErr result (GrowsInPart (K.wrote sink.old) (K.wrote sink.new) bytes.now) }
    ensures cause { OnErr result (RoseBy 1 (K.faults sink.old) (K.faults sink.new)) }
    ensures faults_grow { K.faults sink.old ≤ K.faults sink.new }
    ensures ok_faults { OnOk result (K.faults sink.new ≡ K.faults sink.old) }
    ensures once { K.faults sink.new ≤ K.faults sink.old + 1 }
{
    let mut at = 0;
    'pieces: while at < bytes.len() {
        at += sink.write(&bytes[at..])?;
    }
    Ok(())
}
