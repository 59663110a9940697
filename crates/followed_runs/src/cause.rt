//! Why a run stops before its end.

ghost use Rattle.std.specs.Prelude.{◌≡◌, Some, IfOk};
ghost use Rattle.pcal_tree.specs.Scope.{State};
ghost use Rattle.pcal_tree.specs.StepAnswers.{Reply};
ghost use Rattle.step_meaning.specs.Replies.{HaltsBy};
ghost use Rattle.followed_runs.specs.Stopping.{reply_by, stop_of};

use run_files::stops::{Trouble, Why};
use std::alloc::AllocError;
use step_meaning::Halt;

/// Why a step or the start isn't taken.
#[derive(Clone, Copy)]
pub enum Cause {
    /// It can't be.
    Step(Why),
    /// Something has no value, or is past the limits of a run.
    Trouble(Trouble),
}

/// The step that isn't taken, and why.
#[derive(Clone, Copy)]
pub struct Stop {
    /// Its number; that of the start is 0.
    pub step: usize,
    /// Why.
    pub cause: Cause,
}

// Why a step or the start isn't taken; want of memory is an error.
fn cause_of(halt: Halt) -> Result<Cause, AllocError>
    ensures { IfOk result (λ c. (r : Reply State) → HaltsBy halt r → r ≡ reply_by c) }
{
    match halt {
        Halt::Memory => Err(AllocError),
        Halt::Fault(kind, place) => Ok(Cause::Trouble(Trouble::Fault(kind, place))),
        Halt::Limit(place) => Ok(Cause::Trouble(Trouble::Limit(place))),
        Halt::Held(place) => Ok(Cause::Step(Why::Held(place))),
        Halt::NoLabel => Ok(Cause::Step(Why::NoLabel)),
        Halt::NeedsChoice(count, place) => Ok(Cause::Step(Why::NeedsChoice(count, place))),
        Halt::TooManyChoices(place) => Ok(Cause::Step(Why::TooManyChoices(place))),
    }
}

/// A run that stops at the step of a number.
///
/// # Errors
///
/// Only for want of memory.
pub fn stopped(step: usize, halt: Halt) -> Result<Option<Stop>, AllocError>
    ensures { IfOk result (λ o. (r : Reply State) → HaltsBy halt r → stop_of o ≡ Some (record { step = step; reply = r })) }
{
    let cause = cause_of(halt)?;
    Ok(Some(Stop { step, cause }))
}
