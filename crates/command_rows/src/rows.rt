// A row: files, and lists of words, each of which is answered over the files that stand before it.

use outer_io::{MemShelf, MemSink};
use pcal_cli::{number, pcal};
use row_text::{lines_of, put_shown, word_of};
use std::alloc::{AllocError, Global};

/// A file of a row: its name, and its text as the row spells it, if it has lines.
#[derive(Clone, Copy)]
struct File<'a> {
    name: &'a str,
    spelled: Option<&'a str>,
}

/// Appends a row's name, and the answers to its words.
pub fn put_row(alloc: Global, told: &mut Vec<u8>, row: &str) -> Result<(), AllocError> {
    let mut files = Vec::new(alloc);
    for (i, section) in row.split("\n--- ").enumerate() {
        let (head, spelled) = match section.split_once('\n') {
            Some((head, lines)) => (head, Some(lines)),
            None => (section, None),
        };
        if i == 0 {
            put_parts(told, ["=== ", head, "\n"])?;
        } else if let Some(name) = head.strip_prefix("file ") {
            files.push(File { name, spelled })?;
        } else {
            put_parts(told, ["--- ", head, "\n"])?;
            put_answer(alloc, told, &files, head)?;
        }
    }
    Ok(())
}

/// Appends texts, one behind the other.
fn put_parts(told: &mut Vec<u8>, parts: [&str; 3]) -> Result<(), AllocError> {
    for part in parts {
        told.extend_from_slice(part.as_bytes())?;
    }
    Ok(())
}

/// The words in the head of a section, which begins with the section's own word.
fn words_in(alloc: Global, head: &str) -> Result<Vec<String>, AllocError> {
    let mut words = Vec::new(alloc);
    for word in head.split(' ').skip(1) {
        words.push(word_of(alloc, word)?)?;
    }
    Ok(words)
}

/// A shelf of the files.
fn shelf_of(alloc: Global, files: &[File]) -> Result<MemShelf, AllocError> {
    let mut texts = Vec::new(alloc);
    for file in files {
        texts.push((word_of(alloc, file.name)?, lines_of(alloc, file.spelled)?))?;
    }
    Ok(MemShelf::new(texts, Vec::new(alloc), 4096))
}

/// Appends how the words of a section are answered over the files.
fn put_answer(
    alloc: Global,
    told: &mut Vec<u8>,
    files: &[File],
    head: &str,
) -> Result<(), AllocError> {
    let words = words_in(alloc, head)?;
    let mut shelf = shelf_of(alloc, files)?;
    let mut out = MemSink::new(alloc, 2_000_000, Vec::new(alloc), 100)?;
    let mut err = MemSink::new(alloc, 10_000, Vec::new(alloc), 100)?;
    let status = number(pcal(alloc, &words, &mut shelf, &mut out, &mut err));
    let status = format!(in alloc; "{status}")?;
    put_parts(told, ["--- status ", &status, "\n"])?;
    if head.starts_with("words") {
        put_output(alloc, told, files, out.bytes())?;
    }
    put_text(told, "--- error\n", err.bytes())
}

/// Appends the output, or the name of the first file that has the same text.
fn put_output(
    alloc: Global,
    told: &mut Vec<u8>,
    files: &[File],
    bytes: &[u8],
) -> Result<(), AllocError> {
    for file in files {
        let text = lines_of(alloc, file.spelled)?;
        if !bytes.is_empty() && text.as_slice() == bytes {
            return put_parts(told, ["--- output as in ", file.name, "\n"]);
        }
    }
    put_text(told, "--- output\n", bytes)
}

/// Appends a head and a text, if there is one.
fn put_text(told: &mut Vec<u8>, head: &str, bytes: &[u8]) -> Result<(), AllocError> {
    if bytes.is_empty() {
        return Ok(());
    }
    told.extend_from_slice(head.as_bytes())?;
    put_shown(told, bytes)
}
