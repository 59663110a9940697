// The files of the system as a shelf, and its streams as sinks. They tell no content, and count what the system refuses.
ghost use Rattle.std.specs.Prelude.{◌≡◌, ◌≤◌, None, IfOk, length, take};
ghost use Rattle.std.specs.Io.KnownBytes.{Appends};

use crate::Failed;
use crate::reading::Shelf;
use crate::writing::Sink;
use std::io::{Read, Seek, SeekFrom, Write};
use std::rt::Files;
use std::{fs, io};

/// No path that the system opens has more bytes.
const MOST_NAME: usize = 4096;

/// An open file, with its name, and the byte that it gives next.
#[derive(Drop)]
struct Opened<F: Drop> {
    file: F,
    name: [u8; MOST_NAME],
    name_len: usize,
    next: u64,
}

/// Opens a file, whose first byte comes next.
fn open<R: Files>(files: &R, path: &str) -> io::Result<Opened<R::File>> {
    let name_len = path.len();
    if name_len > MOST_NAME {
        return Err(io::Error::from(io::ErrorKind::InvalidFilename));
    }
    let mut name = [0u8; MOST_NAME];
    name[..name_len].copy_from_slice(path.as_bytes());
    match fs::open(files, path) {
        Ok(file) => Ok(Opened {
            file,
            name,
            name_len,
            next: 0,
        }),
        Err(error) => Err(error),
    }
}

impl<F: Read + Seek + Drop> Opened<F> {
    /// This is the file of a path.
    fn is_at(&self, path: &str) -> bool {
        self.name_len == path.len() && self.name.starts_with(path.as_bytes())
    }

    /// Reads bytes from a place on. Only where another one comes next that place is sought, so a file that can't seek is read on.
    fn read_from(&mut self, from: u64, into: &mut [u8]) -> io::Result<usize>
        ensures { IfOk result (λ n. n ≤ length into.old) }
    {
        if from != self.next {
            self.file.seek(SeekFrom::Start(from))?;
        }
        let n = self.file.read(into)?;
        self.next = from.saturating_add(n as u64);
        Ok(n)
    }
}

/// The files of a system, by their paths. The one that was read last stays open: a call for a later byte of it reads on in
/// the file that was opened, whatever has become of its path, and a call for the first byte opens it anew.
#[derive(Drop)]
pub struct DiskShelf<R: Files + Drop> {
    files: R,
    last: Option<Opened<R::File>>,
    given: u64,
    faults: u64,
}

impl<R: Files + Drop> DiskShelf<R> {
    /// A shelf that has handed out nothing yet.
    pub fn new(files: R) -> DiskShelf<R>
        ensures texts { ⟦<DiskShelf<R> as Shelf>⟧.texts result ≡ None }
        ensures given { ⟦<DiskShelf<R> as Shelf>⟧.given result ≡ 0 }
        ensures faults { ⟦<DiskShelf<R> as Shelf>⟧.faults result ≡ 0 }
    {
        DiskShelf {
            files,
            last: None,
            given: 0,
            faults: 0,
        }
    }
}

/// Reads bytes of a file, from a place on. A file that could not be read is closed.
fn read_from<R: Files>(
    files: &R,
    last: &mut Option<Opened<R::File>>,
    path: &str,
    from: u64,
    into: &mut [u8],
) -> io::Result<usize>
    ensures { IfOk result (λ n. n ≤ length into.old) }
{
    let mut opened = match last.take() {
        Some(opened) if from > 0 && opened.is_at(path) => opened,
        _ => open(files, path)?,
    };
    let n = opened.read_from(from, into)?;
    *last = Some(opened);
    Ok(n)
}

impl<R: Files + Drop> Shelf for DiskShelf<R> {
    ghost texts = { λ _. None };

    ghost given = { λ s. s.given };

    ghost faults = { λ s. s.faults };

    fn fetch(&mut self, name: &str, from: u64, into: &mut [u8]) -> Result<usize, Failed> {
        let Ok(n) = read_from(&self.files, &mut self.last, name, from, into) else {
            self.faults = self.faults.saturating_add(1);
            return Err(Failed);
        };
        self.given = self.given.saturating_add(n as u64);
        Ok(n)
    }
}

/// A stream of the system, as its output or its errors. Each call flushes it. Where the stream takes bytes and can't be
/// flushed the call fails, though these bytes may be out: so of a stream a failed call may have taken some.
#[derive(Drop)]
pub struct StdSink<W: Write + Drop> {
    stream: W,
    faults: u64,
}

impl<W: Write + Drop> StdSink<W> {
    /// A sink that has taken nothing yet.
    pub fn new(stream: W) -> StdSink<W>
        ensures wrote { ⟦<StdSink<W> as Sink>⟧.wrote result ≡ None }
        ensures faults { ⟦<StdSink<W> as Sink>⟧.faults result ≡ 0 }
    {
        StdSink { stream, faults: 0 }
    }
}

/// Writes the first bytes of a piece, and flushes; it fails where either fails.
fn write_through<W: Write>(stream: &mut W, piece: &[u8]) -> io::Result<usize>
    ensures within { IfOk result (λ n. n ≤ length piece.now) }
    ensures grows { IfOk result (λ n. Appends (W.contents stream.old) (W.contents stream.new) (take n piece.now)) }
{
    let n = stream.write(piece)?;
    stream.flush()?;
    Ok(n)
}

impl<W: Write + Drop> Sink for StdSink<W> {
    ghost wrote = { λ _. None };

    ghost faults = { λ s. s.faults };

    fn write(&mut self, piece: &[u8]) -> Result<usize, Failed> {
        match write_through(&mut self.stream, piece) {
            Ok(n) if n > 0 => Ok(n),
            _ => {
                self.faults = self.faults.saturating_add(1);
                Err(Failed)
            }
        }
    }
}

#[cfg(test)]
mod tests {
    use super::*;
    use crate::{LoadFault, load, put_all};
    use std::os::fd::AsRawFd;
    use std::test::Fail;
    use std::{env, process};

    /// A file of more than one piece is read whole.
    #[test]
    fn reads_a_file(rt: HostRuntime) -> Result<(), Fail> {
        let alloc = rt.alloc();
        let name = format!(in alloc; "outer_io_{}.txt", process::id(rt.process()))?;
        let path = env::temp_dir(&rt)?.join(alloc, name.as_str())?;
        let path = path.to_str().ok_or("a path of text")?;
        let mut text = [b'x'; 5000];
        text[4096] = b'y';
        fs::write(&rt, path, text.as_slice())?;

        let mut shelf = DiskShelf::new(&rt);
        let read = load(alloc, &mut shelf, path, 5000);
        fs::remove_file(&rt, path)?;
        assert!(rt; read.is_ok_and(|bytes| bytes.as_slice() == text.as_slice()));
        assert_eq!(rt; (shelf.given, shelf.faults), (5000, 0));
        Ok(())
    }

    /// A file that is replaced while it is read comes out as it was when it was opened; read again, as it is then.
    #[test]
    fn reads_one_version(rt: HostRuntime) -> Result<(), Fail> {
        let alloc = rt.alloc();
        let dir = env::temp_dir(&rt)?;
        let name = format!(in alloc; "outer_io_{}_old.txt", process::id(rt.process()))?;
        let old = dir.join(alloc, name.as_str())?;
        let old = old.to_str().ok_or("a path of text")?;
        let name = format!(in alloc; "outer_io_{}_new.txt", process::id(rt.process()))?;
        let new = dir.join(alloc, name.as_str())?;
        let new = new.to_str().ok_or("a path of text")?;
        fs::write(&rt, old, b"first version".as_slice())?;
        fs::write(&rt, new, b"another text!".as_slice())?;

        let mut shelf = DiskShelf::new(&rt);
        let mut piece = [0u8; 6];
        assert_eq!(rt; shelf.fetch(old, 0, &mut piece), Ok(6));
        assert_eq!(rt; piece.as_slice(), b"first ".as_slice());
        fs::rename(&rt, new, old)?;
        assert_eq!(rt; shelf.fetch(old, 6, &mut piece), Ok(6));
        assert_eq!(rt; piece.as_slice(), b"versio".as_slice());
        assert_eq!(rt; shelf.fetch(old, 9, &mut piece), Ok(4));
        assert_eq!(rt; &piece[..4], b"sion".as_slice());
        assert_eq!(rt; shelf.fetch(old, 0, &mut piece), Ok(6));
        assert_eq!(rt; piece.as_slice(), b"anothe".as_slice());
        fs::remove_file(&rt, old)?;
        Ok(())
    }

    /// A pipe, which can't seek, is read whole.
    #[test]
    fn reads_a_pipe(rt: HostRuntime) -> Result<(), Fail> {
        let alloc = rt.alloc();
        let (reader, mut writer) = io::pipe(&rt)?;
        let path = format!(in alloc; "/dev/fd/{}", reader.as_raw_fd())?;
        writer.write_all(&[b'x'; 9000])?;
        drop(writer);
        let read = load(alloc, &mut DiskShelf::new(&rt), &path, 9000);
        assert!(rt; read.is_ok_and(|bytes| bytes.as_slice() == [b'x'; 9000].as_slice()));
        drop(reader);
        Ok(())
    }

    /// A directory, which opens and can't be read, a file that isn't there, and one below a file that is no directory:
    /// each is one counted failure, and no empty text.
    #[test]
    fn counts_what_cannot_be_read(rt: HostRuntime) -> Result<(), Fail> {
        let mut shelf = DiskShelf::new(&rt);
        let mut faults = 0u64;
        for path in [".", "no such file", "/dev/null/file"] {
            let read = load(rt.alloc(), &mut shelf, path, 5000);
            faults = faults.saturating_add(1);
            assert_eq!(rt; read.err(), Some(LoadFault::Failed), "{path}");
            assert_eq!(rt; (shelf.given, shelf.faults), (0, faults), "{path}");
        }
        Ok(())
    }

    /// Output and errors take a line; a device that takes nothing is a counted failure.
    #[test]
    fn writes_to_streams(rt: HostRuntime) -> Result<(), Fail> {
        assert!(rt; put_all(&mut StdSink::new(rt.stdout()), b"output\n").is_ok());
        assert!(rt; put_all(&mut StdSink::new(rt.stderr()), b"errors\n").is_ok());
        let full = fs::OpenOptions::new().write(true).open(&rt, "/dev/full")?;
        let mut sink = StdSink::new(full);
        assert!(rt; put_all(&mut sink, b"lost").is_err());
        assert_eq!(rt; sink.faults, 1);
        Ok(())
    }
}
