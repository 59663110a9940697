// A shelf and a sink in memory. They tell all that they hold, and fail at the calls that they are told to.
ghost use Rattle.std.specs.Prelude.{◌≡◌, ◌⊎◌, ◌+◌, ◌-◌, ◌^◌, ◌<◌, ◌≤◌, min, Some, None, [], IsTrue, IsFalse, IfOk, IsOk, IsErr, OnErr, length, take, vec_len, vec_capacity};
ghost use Rattle.std.specs.Option.{option_copied};
ghost use Rattle.outer_io.specs.Outer.{text_at, texts_in, HasNoText, Tells, IsPiece, Grows, RoseBy};

use crate::Failed;
use crate::reading::Shelf;
use crate::writing::Sink;
use std::alloc::{AllocError, Global};

/// How many calls were made, which are to fail, and how many failed.
#[derive(Drop)]
struct Calls {
    made: u64,
    to_fail: Vec<u64>,
    failed: u64,
}

impl Calls {
    ghost use Rattle.outer_io.specs.Memory.{next_call, next_fails};

    fn new(to_fail: Vec<u64>) -> Calls
        ensures { result ≡ record { made = 0; to_fail = to_fail; failed = 0 } }
    {
        Calls {
            made: 0,
            to_fail,
            failed: 0,
        }
    }

    /// Counts a call, and says whether it is to fail.
    fn begins_failing(&mut self) -> bool
        ensures value { result ≡ next_fails self.old }
        ensures counted { self.new ≡ record self.old { made = next_call self.old } }
    {
        self.made = self.made.saturating_add(1);
        self.to_fail.contains(&self.made)
    }

    /// Counts a failure.
    fn fail(&mut self) -> Failed
        ensures counted { self.new ≡ record self.old { failed = min (self.old.failed + 1) (2 ^ 64 - 1) } }
        ensures grows { self.old.failed ≤ self.new.failed }
    {
        self.failed = self.failed.saturating_add(1);
        Failed
    }
}

/// A shelf in memory.
#[derive(Drop)]
pub struct MemShelf {
    texts: Vec<(String, Vec<u8>)>,
    calls: Calls,
    most: usize,
    given: u64,
    ghost moves: { 0 < most },
}

impl MemShelf {
    ghost use Rattle.outer_io.specs.Memory.{fetches, most_given};

    /// A shelf of these names and texts, of which the first with a name counts. The calls with these numbers, from 1,
    /// are to fail, and a call gives at most so many bytes.
    pub fn new(texts: Vec<(String, Vec<u8>)>, fails: Vec<u64>, most: usize) -> MemShelf
        requires { 0 < most }
        ensures texts { ⟦<MemShelf as Shelf>⟧.texts result ≡ Some (texts_in texts.items) }
        ensures given { ⟦<MemShelf as Shelf>⟧.given result ≡ 0 }
        ensures faults { ⟦<MemShelf as Shelf>⟧.faults result ≡ 0 }
        ensures fetches { fetches result ≡ record { made = 0; to_fail = fails; failed = 0 } }
        ensures most { most_given result ≡ most }
    {
        MemShelf {
            texts,
            calls: Calls::new(fails),
            most,
            given: 0,
        }
    }
}

/// The text under a name.
fn find<'a>(texts: &'a [(String, Vec<u8>)], name: &str) -> Option<&'a [u8]>
    ensures { option_copied result ≡ text_at (texts_in texts.now) name.now }
{
    for (title, text) in texts {
        if title.as_str() == name {
            return Some(text.as_slice());
        }
    }
    None
}

/// Copies a piece of a text, of at most so many bytes, to the front of a buffer.
fn copy_piece(text: &[u8], from: u64, into: &mut [u8], most: usize) -> usize
    requires { 0 < most }
    ensures room { result ≤ length into.old }
    ensures few { result ≤ most }
    ensures piece { IsPiece from result into.new text.now }
{
    let Ok(start) = usize::try_from(from) else {
        return 0;
    };
    if start >= text.len() {
        return 0;
    }
    let n = (text.len() - start).min(into.len()).min(most);
    into[..n].copy_from_slice(&text[start..start + n]);
    n
}

impl Shelf for MemShelf {
    ghost use Rattle.outer_io.specs.Memory.{texts_of, given_of, most_given, fetches, next_fails, AddsCall};

    ghost texts = { texts_of };

    ghost given = { given_of };

    ghost faults = { λ s. (fetches s).failed };

    fn fetch(&mut self, name: &str, from: u64, into: &mut [u8]) -> Result<usize, Failed>
        ensures room { IfOk result (λ n. n ≤ length into.old) }
        ensures piece { IfOk result (λ n. Tells (texts_of self.old) name.now (IsPiece from n into.new)) }
        ensures lacking { HasNoText (texts_of self.old) name.now → IsErr result }
        ensures cause { OnErr result (RoseBy 1 (fetches self.old).failed (fetches self.new).failed
            ⊎ HasNoText (texts_of self.old) name.now) }
        ensures texts_stay { texts_of self.new ≡ texts_of self.old }
        ensures given { IfOk result (λ n. RoseBy n (given_of self.old) (given_of self.new)) }
        ensures none_given { OnErr result (given_of self.new ≡ given_of self.old) }
        ensures given_grows { given_of self.old ≤ given_of self.new }
        ensures faults_grow { (fetches self.old).failed ≤ (fetches self.new).failed }
        ensures ok_faults { IfOk result (λ n. (fetches self.new).failed ≡ (fetches self.old).failed) }
        ensures once { (fetches self.new).failed ≤ (fetches self.old).failed + 1 }

        // So far the trait's clauses. These say which calls fail, and that just these count a fault.
        ensures fails { IsTrue (next_fails (fetches self.old)) → IsErr result }
        ensures counted { IsTrue (next_fails (fetches self.old))
            → RoseBy 1 (fetches self.old).failed (fetches self.new).failed }
        ensures no_fault { IsFalse (next_fails (fetches self.old))
            → (fetches self.new).failed ≡ (fetches self.old).failed }
        ensures no_other { IsErr result → IsFalse (next_fails (fetches self.old))
            → HasNoText (texts_of self.old) name.now }
        ensures call { AddsCall (fetches self.old) (fetches self.new) }
        ensures few { IfOk result (λ n. n ≤ most_given self.old) }
        ensures most_stays { most_given self.new ≡ most_given self.old }
    {
        if self.calls.begins_failing() {
            return Err(self.calls.fail());
        }
        let Some(text) = find(&self.texts, name) else {
            return Err(Failed);
        };
        let n = copy_piece(text, from, into, self.most);
        self.given = self.given.saturating_add(n as u64);
        Ok(n)
    }
}

/// A sink in memory.
#[derive(Drop)]
pub struct MemSink {
    bytes: Vec<u8>,
    room: usize,
    calls: Calls,
    most: usize,
    ghost moves: { 0 < most },
    ghost within: { vec_len bytes ≤ room },
    ghost roomy: { room ≤ vec_capacity bytes },
}

impl MemSink {
    ghost use Rattle.outer_io.specs.Memory.{writes, most_taken, room_left};

    /// A sink with room for so many bytes, which it takes now. The calls with these numbers, from 1, are to fail, and a
    /// call takes at most so many bytes.
    pub fn new(
        alloc: Global,
        room: usize,
        fails: Vec<u64>,
        most: usize,
    ) -> Result<MemSink, AllocError>
        requires { 0 < most }
        ensures wrote { IfOk result (λ s. ⟦<MemSink as Sink>⟧.wrote s ≡ Some []) }
        ensures faults { IfOk result (λ s. ⟦<MemSink as Sink>⟧.faults s ≡ 0) }
        ensures writes { IfOk result (λ s. writes s ≡ record { made = 0; to_fail = fails; failed = 0 }) }
        ensures most { IfOk result (λ s. most_taken s ≡ most) }
        ensures room { IfOk result (λ s. room_left s ≡ room) }
    {
        Ok(MemSink {
            bytes: Vec::with_capacity(alloc, room)?,
            room,
            calls: Calls::new(fails),
            most,
        })
    }

    /// What was written.
    pub fn bytes(&self) -> &[u8]
        ensures { ⟦<MemSink as Sink>⟧.wrote self.now ≡ Some result.now }
    {
        &self.bytes
    }
}

impl Sink for MemSink {
    ghost use Rattle.outer_io.specs.Memory.{taken_of, room_left, most_taken, writes, next_fails, AddsCall};

    ghost wrote = { taken_of };

    ghost faults = { λ s. (writes s).failed };

    fn write(&mut self, piece: &[u8]) -> Result<usize, Failed>
        requires { 0 < length piece.now }
        ensures some { IfOk result (λ n. 0 < n) }
        ensures within { IfOk result (λ n. n ≤ length piece.now) }
        ensures grows { IfOk result (λ n. Grows (taken_of self.old) (taken_of self.new) (take n piece.now)) }
        ensures none_taken { OnErr result (taken_of self.new ≡ taken_of self.old) }
        ensures cause { OnErr result (RoseBy 1 (writes self.old).failed (writes self.new).failed) }
        ensures faults_grow { (writes self.old).failed ≤ (writes self.new).failed }
        ensures ok_faults { IfOk result (λ n. (writes self.new).failed ≡ (writes self.old).failed) }
        ensures once { (writes self.new).failed ≤ (writes self.old).failed + 1 }

        // So far the trait's clauses. These say which calls fail.
        ensures fails { IsTrue (next_fails (writes self.old)) → IsErr result }
        ensures full { room_left self.old ≡ 0 → IsErr result }
        ensures ok { IsFalse (next_fails (writes self.old)) → 0 < room_left self.old → IsOk result }
        ensures call { AddsCall (writes self.old) (writes self.new) }
        ensures few { IfOk result (λ n. n ≤ most_taken self.old) }
        ensures most_stays { most_taken self.new ≡ most_taken self.old }
        ensures room { IfOk result (λ n. room_left self.new + n ≡ room_left self.old) }
        ensures room_stays { OnErr result (room_left self.new ≡ room_left self.old) }
    {
        let fails = self.calls.begins_failing();
        let left = self.room - self.bytes.len();
        let n = piece.len().min(self.most).min(left);
        if fails || n == 0 {
            return Err(self.calls.fail());
        }
        self.bytes.extend_from_slice(&piece[..n]).unwrap();
        Ok(n)
    }
}

#[cfg(test)]
mod tests {
    use super::*;
    use crate::{LoadFault, load, put_all};
    use std::test::Fail;

    /// So many bytes, that go round through 251 values.
    fn text_of(alloc: Global, len: usize) -> Result<Vec<u8>, AllocError> {
        let mut text = Vec::with_capacity(alloc, len)?;
        for i in 0..len {
            text.push((i % 251) as u8)?;
        }
        Ok(text)
    }

    /// A shelf with this text, named `text`; one call fails.
    fn shelf_of(alloc: Global, text: &[u8], fails: u64, most: usize) -> Result<MemShelf, AllocError>
        requires { 0 < most }
    {
        let name = String::from_str(alloc, "text")?;
        let texts = vec![in alloc; (name, text.to_vec(alloc)?)]?;
        Ok(MemShelf::new(texts, vec![in alloc; fails]?, most))
    }

    const FAILED: Option<LoadFault> = Some(LoadFault::Failed);

    const TOO_LONG: Option<LoadFault> = Some(LoadFault::TooLong);

    /// The most bytes of a call, the length of the text and the most that `load` may read; the call that fails, if not 0;
    /// how `load` fails, and how many bytes `put_all` writes.
    const ROWS: [(usize, usize, u64, u64, Option<LoadFault>, usize); 22] = [
        (1, 0, 0, 0, None, 0),
        (7, 0, 0, 1, FAILED, 0),
        (1, 3, 3, 0, None, 3),
        (1, 3, 2, 0, TOO_LONG, 3),
        (1, 3, 3, 1, FAILED, 0),
        (1, 3, 3, 2, FAILED, 1),
        (1, 3, 3, 3, FAILED, 2),
        (1, 3, 3, 4, FAILED, 3),
        (1, 3, 3, 5, None, 3),
        (7, 20, 20, 0, None, 20),
        (7, 20, 19, 0, TOO_LONG, 20),
        (7, 20, 20, 1, FAILED, 0),
        (7, 20, 20, 2, FAILED, 7),
        (7, 20, 20, 3, FAILED, 14),
        (7, 20, 20, 4, FAILED, 20),
        (7, 20, 20, 5, None, 20),
        (4096, 5000, 5000, 0, None, 5000),
        (4096, 5000, 4999, 0, TOO_LONG, 5000),
        (4096, 5000, 5000, 1, FAILED, 0),
        (4096, 5000, 5000, 2, FAILED, 4096),
        (4096, 5000, 5000, 3, FAILED, 5000),
        (4096, 5000, 5000, 4, None, 5000),
    ];

    /// A text is read whole, or reading it fails so.
    #[test]
    fn reads_in_pieces(rt: HostRuntime) -> Result<(), Fail> {
        let alloc = rt.alloc();
        for (most, len, limit, fails, fault, _) in ROWS {
            assert!(rt; most > 0);
            let text = text_of(alloc, len)?;
            let mut shelf = shelf_of(alloc, &text, fails, most)?;
            let read = load(alloc, &mut shelf, "text", limit);
            let whole = read
                .as_ref()
                .is_ok_and(|bytes| bytes.as_slice() == text.as_slice());
            assert_eq!(rt; whole, fault.is_none());
            assert_eq!(rt;
                read.err(),
                fault,
                "call {fails} of {len} bytes, {most} a call"
            );
        }
        Ok(())
    }

    /// Of a text so many of the first bytes are written.
    #[test]
    fn writes_in_pieces(rt: HostRuntime) -> Result<(), Fail> {
        let alloc = rt.alloc();
        for (most, len, _, fails, _, taken) in ROWS {
            assert!(rt; most > 0);
            let text = text_of(alloc, len)?;
            let mut sink = MemSink::new(alloc, len, vec![in alloc; fails]?, most)?;
            let written = put_all(&mut sink, &text);
            assert_eq!(rt;
                written.is_ok(),
                taken == len,
                "call {fails} of {len} bytes, {most} a call"
            );
            assert_eq!(rt; sink.bytes(), text.get(..taken).unwrap_or(&[]));
        }
        Ok(())
    }

    /// A shelf that lacks the name, and a sink that has less room than is needed.
    #[test]
    fn lacks_a_name_and_room(rt: HostRuntime) -> Result<(), Fail> {
        let alloc = rt.alloc();
        let mut shelf = shelf_of(alloc, b"abc", 0, 7)?;
        assert_eq!(rt;
            load(alloc, &mut shelf, "other", 7).err(),
            Some(LoadFault::Failed)
        );
        assert_eq!(rt; shelf.calls.failed, 0);
        let mut sink = MemSink::new(alloc, 2, Vec::new(alloc), 7)?;
        assert!(rt; put_all(&mut sink, b"abc").is_err());
        assert_eq!(rt; sink.bytes(), b"ab".as_slice());
        assert_eq!(rt; sink.calls.failed, 1);
        Ok(())
    }
}
