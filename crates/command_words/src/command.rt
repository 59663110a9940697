//! The commands, with what their words name.

use pcal_tree::Syntax;

/// How a translation is made.
#[derive(Clone, Copy)]
pub struct Options {
    /// Labels are added everywhere where one is missing: `--label` was given.
    pub forced: bool,
    /// The translation says that nothing changes when all are done: `--no-terminating` wasn't given.
    pub terminating: bool,
}

/// A command, with the words that name its files.
#[derive(Clone, Copy)]
pub enum Command<'a> {
    /// `translate FILE`.
    Translate(&'a str, Options),
    /// `check FILE`, and whether labels are added everywhere.
    Check(&'a str, bool),
    /// `rewrite FILE --to p` or `c`.
    Rewrite(&'a str, Syntax),
    /// `map FILE`, and whether labels are added everywhere.
    Map(&'a str, bool),
    /// `run FILE CONFIG SCRIPT`.
    Run(&'a str, &'a str, &'a str, Options),
    /// `trace FILE CONFIG TRACE`.
    Trace(&'a str, &'a str, &'a str, Options),
    /// `make SEED COUNT`.
    Make(u32, u32),
}
