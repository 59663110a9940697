//! The commands that the program runs: those of one text, and runs and traces of three files.

ghost use Rattle.std.specs.Prelude.{◌≡◌, option_map, IfOk, IfSome};
ghost use Rattle.command_words.specs.Meant.{meant};
ghost use Rattle.pcal_cli.specs.Words.{command_in};
ghost use Rattle.pcal_cli.specs.Tasks.{as_job, IsSmallJob};

use crate::task::Task;
use command_words::{Command, Options, command_of};
use running::Names;
use std::alloc::{AllocError, Global};

/// A command that the program runs.
#[derive(Clone, Copy)]
pub enum Job<'a> {
    /// One of one text.
    Text(Task<'a>),
    /// A run of the files with these names, with its options.
    Run(Names<'a>, Options),
    /// A trace to be explained, of the files with these names, with its options.
    Trace(Names<'a>, Options),
}

/// A command, as the program runs it.
fn job_for<'a>(command: Command<'a>) -> Job<'a>
    ensures { as_job result ≡ meant command.entry }
{
    match command {
        Command::Translate(file, options) => Job::Text(Task::Translate(file, options)),
        Command::Check(file, forced) => Job::Text(Task::Check(file, forced)),
        Command::Rewrite(file, to) => Job::Text(Task::Rewrite(file, to)),
        Command::Map(file, forced) => Job::Text(Task::Map(file, forced)),
        Command::Run(source, config, third, options) => {
            let names = Names {
                source,
                config,
                third,
            };
            Job::Run(names, options)
        }
        Command::Trace(source, config, third, options) => {
            let names = Names {
                source,
                config,
                third,
            };
            Job::Trace(names, options)
        }
        Command::Make(seed, count) => Job::Text(Task::Make(seed, count)),
    }
}

/// The command that the words mean, the program's name first.
///
/// # Errors
///
/// Want of memory.
#[tactic(auto, unfolding(crate::specs::Words::command_in))]
pub fn job_of<'a>(alloc: Global, words: &'a [String]) -> Result<Option<Job<'a>>, AllocError>
    ensures command { IfOk result (λ j. option_map as_job j ≡ command_in words.now) }
    ensures small { IfOk result (λ j. IfSome j IsSmallJob) }
{
    match command_of(alloc, words)? {
        Some(command) => Ok(Some(job_for(command))),
        None => Ok(None),
    }
}
