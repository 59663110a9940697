//! Why a step or a start isn't taken.

ghost use Rattle.std.specs.Prelude.{◌≡◌};
ghost use Rattle.step_meaning.specs.Replies.{halt_of, halted};
ghost use Rattle.step_meaning.specs.declared.halt.Halt.TheVariants.{Memory};

use std::alloc::{AllocError, AllocFailed};
use step_choices::Pause;
use tla_token::Place;
use tla_value::fault::FaultKind;
use tla_value::stop::EvalStop;

/// Why a step or a start isn't taken.
#[derive(Drop)]
pub enum Halt {
    /// Memory ran out.
    Memory,
    /// An expression has no value, or a part can't be set.
    Fault(FaultKind, Place),
    /// A value is past the limits of a run.
    Limit(Place),
    /// It can't be taken: there is a false `await`, or an empty set.
    Held(Place),
    /// The process is at no label, or there is no such process.
    NoLabel,
    /// One of so many is to be chosen, and the choice is missing, or none of them.
    NeedsChoice(usize, Place),
    /// Choices are left over.
    TooManyChoices(Place),
}

impl From<AllocError> for Halt {
    ghost from_gives = { λ _ e. e ≡ Memory };

    fn from(_e: AllocError) -> Halt {
        Halt::Memory
    }
}

impl<T: Drop> From<AllocFailed<T>> for Halt {
    ghost from_gives = { λ _ e. e ≡ Memory };

    fn from(_e: AllocFailed<T>) -> Halt {
        Halt::Memory
    }
}

impl From<EvalStop> for Halt {
    ghost from_gives = { λ s e. e ≡ halted s };

    fn from(stop: EvalStop) -> Halt {
        match stop {
            EvalStop::Memory => Halt::Memory,
            EvalStop::Fault(kind, place) => Halt::Fault(kind, place),
            EvalStop::Limit(place) => Halt::Limit(place),
        }
    }
}

impl From<Pause> for Halt {
    ghost from_gives = { λ p e. e ≡ halt_of p };

    fn from(pause: Pause) -> Halt {
        match pause {
            Pause::Memory => Halt::Memory,
            Pause::Fault(kind, place) => Halt::Fault(kind, place),
            Pause::Limit(place) => Halt::Limit(place),
            Pause::Held(place) => Halt::Held(place),
            Pause::Wants(count, place) => Halt::NeedsChoice(count, place),
        }
    }
}
