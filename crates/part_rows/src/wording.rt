//! Words of a command line, and what they mean.

use crate::scanning::put_text;
use command_words::{Command, Options, command_of};
use pcal_tree::Syntax;
use std::alloc::{AllocError, Global};

// The words of a line, which stand between bars, behind the program's own name.
fn words_in(alloc: Global, line: &str) -> Result<Vec<String>, AllocError> {
    let mut words = Vec::new(alloc);
    words.push(String::from_str(alloc, "pcal")?)?;
    for word in line.split('|') {
        words.push(String::from_str(alloc, word)?)?;
    }
    Ok(words)
}

/// Appends the command that the words of a line mean.
pub fn put_command(alloc: Global, told: &mut Vec<u8>, line: &[u8]) -> Result<(), AllocError> {
    let line = String::from_utf8_lossy(alloc, line)?;
    let words = words_in(alloc, line.as_str())?;
    match command_of(alloc, &words)? {
        Some(command) => put_text(told, shown(alloc, command)?),
        None => told.extend_from_slice(b"no command"),
    }
}

fn labels(forced: bool) -> &'static str {
    if forced { " with labels" } else { "" }
}

fn ending(options: Options) -> &'static str {
    if options.terminating {
        ""
    } else {
        " without an ending"
    }
}

fn syntax_name(syntax: Syntax) -> &'static str {
    match syntax {
        Syntax::P => "p",
        Syntax::C => "c",
    }
}

// A command, with the words that name files between bars.
fn shown(alloc: Global, command: Command<'_>) -> Result<String, AllocError> {
    match command {
        Command::Translate(file, options) => {
            let (label, end) = (labels(options.forced), ending(options));
            format!(in alloc; "translate |{file}|{label}{end}")
        }
        Command::Check(file, forced) => {
            let label = labels(forced);
            format!(in alloc; "check |{file}|{label}")
        }
        Command::Rewrite(file, syntax) => {
            let name = syntax_name(syntax);
            format!(in alloc; "rewrite |{file}| to {name}")
        }
        Command::Map(file, forced) => {
            let label = labels(forced);
            format!(in alloc; "map |{file}|{label}")
        }
        Command::Run(file, config, script, options) => {
            let (label, end) = (labels(options.forced), ending(options));
            format!(in alloc; "run |{file}|{config}|{script}|{label}{end}")
        }
        Command::Trace(file, config, trace, options) => {
            let (label, end) = (labels(options.forced), ending(options));
            format!(in alloc; "trace |{file}|{config}|{trace}|{label}{end}")
        }
        Command::Make(seed, count) => format!(in alloc; "make {seed} {count}"),
    }
}
