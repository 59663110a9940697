//! The options of a translation.

/// What is asked of a translation ("A PlusCal User's Manual", sections 3.7 and 4).
#[derive(Clone, Copy)]
pub struct Options {
    /// Labels are added in every algorithm, not only in a uniprocess one without any.
    pub label: bool,
    /// The translation has no `Terminating`: where all processes are done, nothing stutters.
    pub no_terminating: bool,
}

/// No option is given.
pub const NO_OPTIONS: Options = Options {
    label: false,
    no_terminating: false,
};
