//! Why a part of a step, or of a start, doesn't go on.

ghost use Rattle.std.specs.Prelude.{◌≡◌};
ghost use Rattle.step_choices.specs.Pauses.{pause_of};
ghost use Rattle.step_choices.specs.declared.pause.Pause.TheVariants.{Memory};

use std::alloc::{AllocError, AllocFailed};
use tla_token::Place;
use tla_value::fault::FaultKind;
use tla_value::stop::EvalStop;

/// Why a part of a step, or of a start, doesn't go on.
#[derive(Drop)]
pub enum Pause {
    /// Memory ran out.
    Memory,
    /// An expression has no value, or a part can't be set.
    Fault(FaultKind, Place),
    /// A value is past the limits of a run.
    Limit(Place),
    /// It can't be taken: there is a false `await`, or an empty set.
    Held(Place),
    /// One of so many is to be chosen, and the choice is missing, or none of them.
    Wants(usize, Place),
}

impl From<AllocError> for Pause {
    ghost from_gives = { λ _ e. e ≡ Memory };

    fn from(_e: AllocError) -> Pause {
        Pause::Memory
    }
}

impl<T: Drop> From<AllocFailed<T>> for Pause {
    ghost from_gives = { λ _ e. e ≡ Memory };

    fn from(_e: AllocFailed<T>) -> Pause {
        Pause::Memory
    }
}

impl From<EvalStop> for Pause {
    ghost from_gives = { λ s e. e ≡ pause_of s };

    fn from(stop: EvalStop) -> Pause {
        match stop {
            EvalStop::Memory => Pause::Memory,
            EvalStop::Fault(kind, place) => Pause::Fault(kind, place),
            EvalStop::Limit(place) => Pause::Limit(place),
        }
    }
}
