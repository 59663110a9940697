//! Rows of values, with one more value in front of each.

ghost use Rattle.std.specs.Prelude.{◌≡◌, ◌∷◌, ◌++◌, IfOk, OnOk, map};

use std::alloc::{AllocError, Global};
use tla_value::value::{Value, Values, copied};
use value_forms::made::add_all;

/// A row with one more value in front.
///
/// # Errors
///
/// Only for want of memory.
pub fn prefixed(alloc: Global, v: &Value, row: &Values) -> Result<Values, AllocError>
    ensures { IfOk result (λ r. r ≡ v.now ∷ row.now) }
{
    let mut items = Vec::new(alloc);
    items.push(copied(alloc, v)?)?;
    add_all(alloc, &mut items, row.items.as_slice())?;
    Ok(Values { items })
}

/// Adds rows with one more value in front of each.
///
/// # Errors
///
/// Only for want of memory.
pub fn add_fronted(
    alloc: Global,
    all: &mut Vec<Values>,
    v: &Value,
    rows: &[Values],
) -> Result<(), AllocError>
    ensures { OnOk result (all.new.items ≡ all.old.items ++ map (λ r. v.now ∷ r) rows.now) }
{
    for row in rows {
        all.push(prefixed(alloc, v, row)?)?;
    }
    Ok(())
}
