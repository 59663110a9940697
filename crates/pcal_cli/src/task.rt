//! The commands of one text, and what is written for the text of a command.

ghost use Rattle.std.specs.Prelude.{◌≡◌, ◌<◌, ◌≤◌, ◌^◌, length, IfOk, IfErr};
ghost use Rattle.file_answer.specs.Refusals.{IsStop};
ghost use Rattle.pcal_cli.specs.Words.{file_of, input_of};
ghost use Rattle.pcal_cli.specs.Tasks.{as_command, as_input, IsSmall, IsFew};
ghost use Rattle.pcal_cli.specs.Asked.{Refuses, Accepts, Makes, Promises, promised};
ghost use Rattle.translating.specs.Translated as translated;
ghost use Rattle.command_words.specs.Meant as meant;

use crate::counts::counted;
use checking::{check_text, map_text};
use pcal_tree::Syntax;
use rewriting::rewrite_text;
use std::alloc::Global;
use tla_token::Stop;
use translating::translate_text;

/// A command of one text, with the name of its file.
#[derive(Clone, Copy)]
pub enum Task<'a> {
    /// A translation, with its options.
    Translate(&'a str, command_words::Options),
    /// A check, and whether labels are added everywhere.
    Check(&'a str, bool),
    /// A rewriting in this syntax.
    Rewrite(&'a str, Syntax),
    /// A list of the labels' places, and whether labels are added everywhere.
    Map(&'a str, bool),
    /// A module of a seed and a count of steps.
    Make(u32, u32),
}

/// Where the text of a command comes from.
#[derive(Clone, Copy)]
pub enum Source<'a> {
    /// It is that of a file.
    File(&'a str),
    /// It is made of a seed and a count of steps.
    Made(u32, u32),
}

/// The file of a task; of one that reads none the empty name.
pub fn file<'a>(task: Task<'a>) -> &'a str
    ensures { result.now ≡ file_of (as_command task.entry) }
{
    match task {
        Task::Translate(file, _) => file,
        Task::Check(file, _) => file,
        Task::Rewrite(file, _) => file,
        Task::Map(file, _) => file,
        Task::Make(_, _) => "",
    }
}

/// Where the text of a task comes from.
pub fn source_of<'a>(task: Task<'a>) -> Source<'a>
    ensures input { as_input result ≡ input_of (as_command task.entry) }
    ensures few { IsSmall task.entry → IsFew result }
{
    match task {
        Task::Translate(file, _) => Source::File(file),
        Task::Check(file, _) => Source::File(file),
        Task::Rewrite(file, _) => Source::File(file),
        Task::Map(file, _) => Source::File(file),
        Task::Make(seed, count) => Source::Made(seed, count),
    }
}

/// The options of a translation.
fn as_options(options: command_words::Options) -> translating::Options
    ensures { translated.options_of result ≡ promised (meant.options_of options) }
{
    translating::Options {
        label: options.forced,
        no_terminating: !options.terminating,
    }
}

/// What is written for a text.
///
/// # Errors
///
/// How the command refuses the text; or want of memory.
pub fn written(alloc: Global, task: Task<'_>, text: &[u8]) -> Result<Vec<u8>, Stop>
    requires { length text.now < 2 ^ 29 }
    ensures makes { IfOk result (λ w. Makes (as_command task.entry) text.now w.items) }
    ensures promises { IfOk result (λ w. Promises (as_command task.entry) text.now w.items) }
    ensures clean { IfOk result (λ w. Accepts (as_command task.entry) text.now) }
    ensures stopped { IfErr result (λ e. IsStop (Refuses (as_command task.entry) text.now) e) }
{
    match task {
        Task::Translate(_, options) => translate_text(alloc, text, as_options(options)),
        Task::Check(_, forced) => check_text(alloc, text, forced),
        Task::Rewrite(_, to) => rewrite_text(alloc, text, to),
        Task::Map(_, forced) => map_text(alloc, text, forced),
        Task::Make(_, _) => counted(alloc, text),
    }
}
