//! The table of commands, as clap takes it.

ghost use Rattle.std.specs.Prelude.{◌≡◌, [], false, IfOk, map};
ghost use Rattle.clap.specs.Simple.{app_of, with_rule, with_subcommand};
ghost use Rattle.clap.specs.declared.builder.command.Command.TheViews.{out-Command};
ghost use Rattle.command_words.specs.Table as words;
ghost use Rattle.command_words.specs.Meant.{alone};
ghost use Rattle.command_words.specs.TableParts.{rule_of};

use clap::{Arg, ArgAction, Command};
use std::alloc::{AllocError, Global};

/// What a command takes, under a name.
#[derive(Clone, Copy)]
enum Part<'a> {
    /// A word, which must be there.
    Word(&'a str),
    /// An option that takes no value.
    Flag(&'a str),
    /// An option that takes a value and must be there.
    Value(&'a str),
}

/// A command that takes nothing.
fn named<'a>(alloc: Global, name: &'a str) -> Command<'a>
    ensures app { app_of result ≡ alone (words.command name.now []) }
    ensures local { (out-Command result).has_globals ≡ false }
{
    Command::new(alloc, name)
        .disable_help_flag(true)
        .disable_version_flag(true)
}

/// The command that takes this too.
fn with_part<'a>(
    alloc: Global,
    command: Command<'a>,
    part: Part<'a>,
) -> Result<Command<'a>, AllocError>
    requires local { (out-Command command).has_globals ≡ false }
    ensures app { IfOk result (λ c. app_of c ≡ with_rule (app_of command.entry) (rule_of part.entry)) }
    ensures local { IfOk result (λ c. (out-Command c).has_globals ≡ false) }
{
    match part {
        Part::Word(id) => command.arg(Arg::new(alloc, id).required(true)),
        Part::Flag(id) => command.arg(Arg::new(alloc, id).long(id).action(ArgAction::SetTrue)),
        Part::Value(id) => command.arg(Arg::new(alloc, id).long(id).required(true)),
    }
}

/// The command of this name that takes these.
fn with_parts<'a>(
    alloc: Global,
    name: &'a str,
    parts: &[Part<'a>],
) -> Result<Command<'a>, AllocError>
    ensures app { IfOk result (λ c. app_of c ≡ alone (words.command name.now (map rule_of parts.now))) }
    ensures local { IfOk result (λ c. (out-Command c).has_globals ≡ false) }
{
    let mut command = named(alloc, name);
    for part in parts {
        command = with_part(alloc, command, *part)?;
    }
    Ok(command)
}

/// The program with one more command.
fn with_command<'a>(
    alloc: Global,
    program: Command<'a>,
    name: &'a str,
    parts: &[Part<'a>],
) -> Result<Command<'a>, AllocError>
    ensures { IfOk result (λ c. app_of c ≡ with_subcommand (app_of program.entry) (words.command name.now (map rule_of parts.now))) }
{
    let command = with_parts(alloc, name, parts)?;
    program.subcommand(command)
}

/// The program before its commands.
fn program<'a>(alloc: Global) -> Command<'a>
    ensures { app_of result ≡ words.program }
{
    Command::new(alloc, "pcal")
        .disable_help_flag(true)
        .disable_help_subcommand(true)
        .disable_version_flag(true)
        .subcommand_required(true)
}

/// The table of all commands.
pub fn table<'a>(alloc: Global) -> Result<Command<'a>, AllocError>
    ensures { IfOk result (λ c. app_of c ≡ words.table words.commands) }
{
    let file = Part::Word("FILE");
    let config = Part::Word("CONFIG");
    let label = Part::Flag("label");
    let no_terminating = Part::Flag("no-terminating");
    let all = program(alloc);
    let all = with_command(alloc, all, "translate", &[file, label, no_terminating])?;
    let all = with_command(alloc, all, "check", &[file, label])?;
    let all = with_command(alloc, all, "rewrite", &[file, Part::Value("to")])?;
    let all = with_command(alloc, all, "map", &[file, label])?;
    let script = Part::Word("SCRIPT");
    let all = with_command(
        alloc,
        all,
        "run",
        &[file, config, script, label, no_terminating],
    )?;
    let states = Part::Word("TRACE");
    let all = with_command(
        alloc,
        all,
        "trace",
        &[file, config, states, label, no_terminating],
    )?;
    with_command(
        alloc,
        all,
        "make",
        &[Part::Word("SEED"), Part::Word("COUNT")],
    )
}
