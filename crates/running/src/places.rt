//! What stands for the names of a routine.

use prime_subst::{Local, Own};

/// What stands for the names of a routine: the written names, and then the parts of variables that are a process' own.
#[derive(Clone, Copy)]
pub struct Places<'a> {
    /// The written names of its own variables and parameters.
    pub local: Local<'a>,
    /// The variables that each process has for itself.
    pub own: Own<'a>,
}
