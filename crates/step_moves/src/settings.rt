//! Settings of a routine's variables, one for each.

ghost use Rattle.std.specs.Prelude.{◌≡◌, ◌++◌, replicate, IfOk, OnOk};
ghost use Rattle.pcal_tree.specs.Calls.{argument_settings};
ghost use Rattle.step_moves.specs.StatesOf.{settings_of};

use crate::Setting;
use std::alloc::{AllocError, Global};
use tla_token::Place;
use tla_tree::Name;
use tla_value::value::{Value, copied};
use value_forms::made::copies;

/// The same place so many times.
///
/// # Errors
///
/// Only for want of memory.
pub fn same_places(alloc: Global, at: Place, many: usize) -> Result<Vec<Place>, AllocError>
    ensures { IfOk result (λ r. r.items ≡ replicate many at) }
{
    let mut all = Vec::new(alloc);
    for _i in 0..many {
        all.push(at)?;
    }
    Ok(all)
}

/// Adds a setting of each of some variables, at a path, as long as there are places and values.
///
/// # Errors
///
/// Only for want of memory.
pub fn add_settings<'n>(
    alloc: Global,
    path: &[Value],
    names: &'n [Name],
    places: &[Place],
    values: &[Value],
    all: &mut Vec<Setting<'n>>,
) -> Result<(), AllocError>
    ensures { OnOk result (settings_of all.new.items ≡ settings_of all.old.items ++ argument_settings path.now names.now places.now values.now) }
{
    for i in 0..names.len() {
        if i >= places.len() || i >= values.len() {
            return Ok(());
        }
        all.push(Setting {
            place: places[i],
            variable: &names[i],
            path: copies(alloc, path)?,
            value: copied(alloc, &values[i])?,
        })?;
    }
    Ok(())
}
