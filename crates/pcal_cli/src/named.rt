//! The names of the three files of a run or of a trace, and the line of an answer about one of them.

ghost use Rattle.std.specs.Prelude.{◌≡◌, ◌+◌, ◌≤◌, length};
ghost use Rattle.running.specs.InMemory.{which_of};
ghost use Rattle.running.specs.Names.{names_of, name_of};
ghost use Rattle.pcal_cli.specs.Answers.{line_of};
ghost use Rattle.pcal_cli.specs.Room.{HasRoom};
ghost use Rattle.pcal_cli.specs.Told.{Told};

use crate::error_line::tell;
use crate::status::Answer;
use outer_io::Sink;
use running::{Names, Which};

/// The one of two names that is no shorter than the other.
fn longer<'a>(one: &'a str, other: &'a str) -> &'a str
    ensures one { length one.now ≤ length result.now }
    ensures other { length other.now ≤ length result.now }
{
    if one.len() < other.len() { other } else { one }
}

/// A name of a file, as long as each.
pub fn longest<'a>(names: &Names<'a>) -> &'a str
    ensures source { length names.now.source.now ≤ length result.now }
    ensures config { length names.now.config.now ≤ length result.now }
    ensures third { length names.now.third.now ≤ length result.now }
{
    longer(names.source, longer(names.config, names.third))
}

/// The name of one of the files.
fn name_of<'a>(names: &Names<'a>, which: Which) -> &'a str
    ensures { result.now ≡ name_of (names_of names.now) (which_of which) }
{
    match which {
        Which::Module => names.source,
        Which::Config => names.config,
        Which::Third => names.third,
    }
}

/// Writes the line of an answer about one of the files, of which room is the memory.
pub fn tell_of<E: Sink>(err: &mut E, room: Vec<u8>, names: &Names<'_>, which: Which, answer: Answer)
    requires room { HasRoom (names_of names.now) room }
    ensures told { Told (E.wrote err.old) (E.wrote err.new) (E.faults err.old) (E.faults err.new) (line_of answer (name_of (names_of names.now) (which_of which))) }
    ensures faults_grow { E.faults err.old ≤ E.faults err.new }
    ensures once { E.faults err.new ≤ E.faults err.old + 1 }
{
    let file = name_of(names, which);
    tell(err, room, answer, file.as_bytes());
}
