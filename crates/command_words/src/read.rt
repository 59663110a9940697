//! Reads the words of a command line.

ghost use Rattle.std.specs.Prelude.{◌≡◌, IfOk, codes, map, option_map, string_bytes};
ghost use Rattle.std.specs.List.{list_all};
ghost use Rattle.tla_token.specs.Lexemes.{is_digit};
ghost use Rattle.clap.specs.Walk.{rows_of};
ghost use Rattle.clap.specs.Matches.{found_of};
ghost use Rattle.command_words.specs.Table.{commands};
ghost use Rattle.command_words.specs.Commands.{meaning, meaning_in, syntax_in, options_in, is_set, is_decimal, between};
ghost use Rattle.pcal_tree.specs.Syntaxes.{syntax_of};
ghost use Rattle.command_words.specs.Meant.{meant, options_of};

use crate::command::{Command, Options};
use crate::table::table;
use clap::ArgMatches;
use clap::error::ErrorKind;
use pcal_tree::Syntax;
use std::alloc::{AllocError, Global};
use tla_token::bytes::{is_digit, number_value};

// ---- values

/// The syntax of a value of `--to`.
fn read_syntax(word: &str) -> Option<Syntax>
    ensures { option_map syntax_of result ≡ syntax_in word.now }
{
    match word {
        "p" => Some(Syntax::P),
        "c" => Some(Syntax::C),
        _ => None,
    }
}

/// Whether all bytes are digits.
fn are_digits(word: &[u8]) -> bool
    ensures { result ≡ list_all is_digit word.now }
{
    word.iter().all(|b| is_digit(*b))
}

/// Whether a word is decimal digits alone, and no zero before others.
fn is_decimal(word: &[u8]) -> bool
    ensures { result ≡ is_decimal word.now }
{
    match word {
        [] => false,
        [digit] => is_digit(*digit),
        [first, ..] => *first != b'0' && are_digits(word),
    }
}

/// A number from the first to the second.
fn between(low: u32, high: u32, word: &str) -> Option<u32>
    ensures { result ≡ between low high word.now }
{
    if !is_decimal(word.as_bytes()) {
        return None;
    }
    let number = number_value(word.as_bytes())?;
    if low as u128 <= number && number <= high as u128 {
        Some(number as u32)
    } else {
        None
    }
}

/// Whether an option that takes no value was given.
#[tactic(auto, using(crate::proofs::Found::row_value))]
fn is_set<'a>(found: &ArgMatches<'a>, id: &str) -> Option<bool>
    ensures { result ≡ is_set (rows_of (found_of found.now)) id.now }
{
    let value = found.get_str(id)?;
    Some(value == "true")
}

/// The options of a translation.
fn options_of<'a>(found: &ArgMatches<'a>) -> Option<Options>
    ensures { option_map options_of result ≡ options_in (rows_of (found_of found.now)) }
{
    let forced = is_set(found, "label")?;
    let without = is_set(found, "no-terminating")?;
    Some(Options {
        forced,
        terminating: !without,
    })
}

// ---- commands, from what clap found of their words

/// A translation.
#[tactic(auto, using(crate::proofs::Found::row_value))]
fn translation<'a>(found: &ArgMatches<'a>) -> Option<Command<'a>>
    ensures { option_map meant result ≡ meaning_in (codes "translate", rows_of (found_of found.now)) }
{
    let file = found.get_str("FILE")?;
    let options = options_of(found)?;
    Some(Command::Translate(file, options))
}

/// A check.
#[tactic(auto, using(crate::proofs::Found::row_value))]
fn checking<'a>(found: &ArgMatches<'a>) -> Option<Command<'a>>
    ensures { option_map meant result ≡ meaning_in (codes "check", rows_of (found_of found.now)) }
{
    let file = found.get_str("FILE")?;
    let forced = is_set(found, "label")?;
    Some(Command::Check(file, forced))
}

/// A rewriting.
#[tactic(auto, using(crate::proofs::Found::row_value))]
fn rewriting<'a>(found: &ArgMatches<'a>) -> Option<Command<'a>>
    ensures { option_map meant result ≡ meaning_in (codes "rewrite", rows_of (found_of found.now)) }
{
    let file = found.get_str("FILE")?;
    let to = found.get_str("to")?;
    let syntax = read_syntax(to)?;
    Some(Command::Rewrite(file, syntax))
}

/// A list of the labels' places.
#[tactic(auto, using(crate::proofs::Found::row_value))]
fn mapping<'a>(found: &ArgMatches<'a>) -> Option<Command<'a>>
    ensures { option_map meant result ≡ meaning_in (codes "map", rows_of (found_of found.now)) }
{
    let file = found.get_str("FILE")?;
    let forced = is_set(found, "label")?;
    Some(Command::Map(file, forced))
}

/// A run.
#[tactic(auto, using(crate::proofs::Found::row_value))]
fn running<'a>(found: &ArgMatches<'a>) -> Option<Command<'a>>
    ensures { option_map meant result ≡ meaning_in (codes "run", rows_of (found_of found.now)) }
{
    let file = found.get_str("FILE")?;
    let config = found.get_str("CONFIG")?;
    let script = found.get_str("SCRIPT")?;
    let options = options_of(found)?;
    Some(Command::Run(file, config, script, options))
}

/// The looking at a trace.
#[tactic(auto, using(crate::proofs::Found::row_value))]
fn tracing<'a>(found: &ArgMatches<'a>) -> Option<Command<'a>>
    ensures { option_map meant result ≡ meaning_in (codes "trace", rows_of (found_of found.now)) }
{
    let file = found.get_str("FILE")?;
    let config = found.get_str("CONFIG")?;
    let states = found.get_str("TRACE")?;
    let options = options_of(found)?;
    Some(Command::Trace(file, config, states, options))
}

/// The making of a module: SEED is from 0 to 4294967295, COUNT from 1 to 2000.
#[tactic(auto, using(crate::proofs::Found::row_value))]
fn making<'a>(found: &ArgMatches<'a>) -> Option<Command<'a>>
    ensures { option_map meant result ≡ meaning_in (codes "make", rows_of (found_of found.now)) }
{
    let seed = found.get_str("SEED")?;
    let count = found.get_str("COUNT")?;
    let seed = between(0, u32::MAX, seed)?;
    let count = between(1, 2000, count)?;
    Some(Command::Make(seed, count))
}

/// The command of this name.
fn named<'a>(name: &str, found: &ArgMatches<'a>) -> Option<Command<'a>>
    ensures { option_map meant result ≡ meaning_in (name.now, rows_of (found_of found.now)) }
{
    match name {
        "translate" => translation(found),
        "check" => checking(found),
        "rewrite" => rewriting(found),
        "map" => mapping(found),
        "run" => running(found),
        "trace" => tracing(found),
        "make" => making(found),
        _ => None,
    }
}

/// What the words of a command line mean, the first of them being the program's name; none, where they mean no command.
///
/// # Errors
///
/// Want of memory.
pub fn command_of<'a>(alloc: Global, words: &'a [String]) -> Result<Option<Command<'a>>, AllocError>
    ensures { IfOk result (λ c. option_map meant c ≡ meaning commands (map string_bytes words.now)) }
{
    let command = table(alloc)?;
    match command.try_get_matches_from(words) {
        Ok(matches) => match matches.subcommand() {
            Some((name, found)) => Ok(named(name, found)),
            None => Ok(None),
        },
        Err(e) => {
            if e.kind() == ErrorKind::OutOfMemory {
                Err(AllocError)
            } else {
                Ok(None)
            }
        }
    }
}
