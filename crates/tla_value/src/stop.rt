//! Why an evaluation gives no value.

ghost use Rattle.std.specs.Prelude.{◌≡◌};
ghost use Rattle.tla_value.specs.declared.stop.EvalStop.TheVariants.{Memory};

use crate::fault::FaultKind;
use std::alloc::{AllocError, AllocFailed};
use thiserror::Error;
use tla_token::place::Place;

/// Why an evaluation gives no value.
#[derive(Debug, Drop, Error)]
pub enum EvalStop {
    /// Memory ran out.
    #[error("out of memory")]
    Memory,
    /// The expression has no value: the kind of fault, and the first token of the smallest
    /// expression that has none.
    #[error("no value")]
    Fault(FaultKind, Place),
    /// A value is past the limits of a run, at this place.
    #[error("past the limits")]
    Limit(Place),
}

impl From<AllocError> for EvalStop {
    ghost from_gives = { λ _ e. e ≡ Memory };

    fn from(_e: AllocError) -> EvalStop {
        EvalStop::Memory
    }
}

impl<T: Drop> From<AllocFailed<T>> for EvalStop {
    ghost from_gives = { λ _ e. e ≡ Memory };

    fn from(_e: AllocFailed<T>) -> EvalStop {
        EvalStop::Memory
    }
}
