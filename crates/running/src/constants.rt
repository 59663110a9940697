//! The constants of a run.

ghost use Rattle.std.specs.Prelude.{◌≡◌, IfOk};
ghost use Rattle.tla_value.specs.States.{value_of};
ghost use Rattle.step_runner.specs.Config.{constants_of};

use crate::words::word;
use std::alloc::{AllocError, Global};
use step_meaning::values::default_value;
use tla_value::state::State;

/// The values of the constants of a run: these, and `defaultInitValue`, which is given by itself whatever these have of it.
///
/// # Errors
///
/// Only for want of memory.
pub fn with_default(alloc: Global, constants: State) -> Result<State, AllocError>
    ensures { IfOk result (λ r. value_of r ≡ constants_of constants) }
{
    let mut all = constants;
    let name = word(alloc, b"defaultInitValue")?;
    let value = default_value(alloc)?;
    all.set(name, value)?;
    Ok(all)
}
