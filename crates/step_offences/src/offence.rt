//! One offence behind those that were found.

ghost use Rattle.std.specs.Prelude.{◌≡◌, ◌++◌, OnOk};
ghost use Rattle.pcal_tree.specs.Offences.{offence_if};

use std::alloc::AllocError;
use tla_token::{Place, Refusal, Rule};

/// Puts an offence of a rule at a place behind those that were found, if it is one.
///
/// # Errors
///
/// Only for want of memory.
pub fn push_offence(
    found: &mut Vec<Refusal>,
    is_offence: bool,
    rule: Rule,
    place: Place,
) -> Result<(), AllocError>
    ensures { OnOk result (found.new.items ≡ found.old.items ++ offence_if is_offence rule place) }
{
    if is_offence {
        found.push(Refusal { rule, place })?;
    }
    Ok(())
}
