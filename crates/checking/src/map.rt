//! Where the labels of a module's algorithm are, as text.

ghost use Rattle.std.specs.Prelude.{◌≡◌, ◌<◌, List, ◌^◌, ◌++◌, length, None, Some, IfOk, IfErr, OnOk};
ghost use Rattle.std.specs.List.{flat_map};
ghost use Rattle.tla_tree.specs.Tree.{Tree};
ghost use Rattle.pcal_tree.specs.InMemory.{algorithm_at};
ghost use Rattle.source_map.specs.Lines.{lines, line_text, lines_text, place_text};
ghost use Rattle.file_answer.specs.Checking.{AnswersChecking};
ghost use Rattle.file_answer.specs.Mapped.{IsMapped};
ghost use Rattle.file_answer.specs.Refusals.{IsStop};
ghost use Rattle.label_lines.specs.Found.{line_seen, lines_seen};
ghost use Rattle.written_names.specs.Units.{naming_of};

use crate::check::{Checked, checked_parts};
use label_lines::line::Line;
use label_lines::lines::map;
use module_split::split::split;
use std::alloc::{AllocError, Global};
use tla_pool::Pool;
use tla_token::{Place, Stop};

// Appends a blank, and a place: its line and its column.
fn write_place(alloc: Global, out: &mut Vec<u8>, place: Place) -> Result<(), AllocError>
    ensures { OnOk result (out.new.items ≡ out.old.items ++ place_text place) }
{
    let Place { line, col } = place;
    let text = format!(in alloc; "{line}:{col}")?;
    out.extend_from_slice(text.as_bytes())?;
    Ok(())
}

// Appends a line.
fn write_line(alloc: Global, out: &mut Vec<u8>, line: &Line) -> Result<(), AllocError>
    ensures { OnOk result (out.new.items ≡ out.old.items ++ line_text (line_seen line.now)) }
{
    out.extend_from_slice(line.label.bytes())?;
    out.push(b' ')?;
    out.extend_from_slice(line.unit.bytes())?;
    out.push(b' ')?;
    write_place(alloc, out, line.first)?;
    out.push(b' ')?;
    write_place(alloc, out, line.last)?;
    out.push(b'\n')?;
    Ok(())
}

// The text of lines.
fn write_lines(alloc: Global, lines: &[Line]) -> Result<Vec<u8>, AllocError>
    ensures { IfOk result (λ w. w.items ≡ lines_text (lines_seen lines.now)) }
{
    let mut out = Vec::new(alloc);
    for line in lines {
        write_line(alloc, &mut out, line)?;
    }
    Ok(out)
}

// The lines of an algorithm, as text.
fn map_of(alloc: Global, checked: &Checked) -> Result<Vec<u8>, AllocError>
    ensures { IfOk result (λ w. (ts : List Tree) → w.items ≡ lines_text (lines (algorithm_at ts checked.now.algorithm) (naming_of checked.now.naming))) }
{
    let lines = map(alloc, &checked.algorithm, &checked.naming)?;
    write_lines(alloc, &lines)
}

/// Where each label of a module's algorithm is: a line for each label ("A PlusCal User's Manual", section 3.7, labels).
///
/// # Errors
///
/// The least of the rules 1 to 49 that the text breaks, at its first place; or want of memory.
pub fn map_text(alloc: Global, text: &[u8], forced: bool) -> Result<Vec<u8>, Stop>
    requires { length text.now < 2 ^ 29 }
    ensures mapped { IfOk result (λ w. IsMapped forced text.now w.items) }
    ensures clean { IfOk result (λ w. AnswersChecking forced text.now None) }
    ensures stopped { IfErr result (λ e. IsStop (λ r. AnswersChecking forced text.now (Some r)) e) }
{
    let parts = match split(alloc, text) {
        Ok(parts) => parts,
        Err(stop) => return Err(stop),
    };
    let mut pool = Pool::new(alloc);
    match checked_parts(alloc, &parts, forced, &mut pool) {
        Ok(checked) => match map_of(alloc, &checked) {
            Ok(lines) => Ok(lines),
            Err(AllocError) => Err(Stop::Memory),
        },
        Err(stop) => Err(stop),
    }
}
