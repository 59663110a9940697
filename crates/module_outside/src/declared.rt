//! What units declare: modules and constants.

ghost use Rattle.std.specs.Prelude.{◌≡◌, ◌++◌, ◌<◌, length, IfOk, unwrap_or, []};
ghost use Rattle.module_tree.specs.FileUnits.{cut};
ghost use Rattle.expr_nodes.specs.Ahead.{ahead};
ghost use Rattle.outside_reading.specs.PlainUnits.{modules_in, constants_in, constants_of_unit, all_modules, all_constants, declares};
ghost use Rattle.module_outside.specs.OutsideAt.{with_names};

use crate::names::{constants, modules};
use crate::unit::{next_begun, unit_tokens};
use std::alloc::{AllocError, Global};
use tla_token::Tokens;
use tla_tree::PlacedName;

/// Modules that are extended, and constants that are declared.
#[derive(Drop)]
pub struct Declared {
    pub extended: Vec<PlacedName>,
    pub constants: Vec<PlacedName>,
}

/// Whether a unit declares modules or constants.
///
/// # Errors
///
/// Only for want of memory.
pub fn is_declared(alloc: Global, unit: &Tokens) -> Result<bool, AllocError>
    ensures { IfOk result (λ b. b ≡ declares (ahead unit.now 0)) }
{
    match modules(alloc, unit)? {
        Some(_) => Ok(true),
        None => match constants(alloc, unit)? {
            Some(_) => Ok(true),
            None => Ok(false),
        },
    }
}

// With these names too, if there are any.
fn add(names: &mut Vec<PlacedName>, more: Option<Vec<PlacedName>>) -> Result<(), AllocError>
    ensures { IfOk result (λ u. names.new.items ≡ with_names names.old.items more) }
{
    if let Some(mut others) = more {
        names.append(&mut others)?;
    }
    Ok(())
}

// With what a unit declares.
fn declare(alloc: Global, unit: &Tokens, declared: &mut Declared) -> Result<(), AllocError>
    ensures extended { IfOk result (λ u. declared.new.extended.items ≡ declared.old.extended.items ++ unwrap_or (modules_in (ahead unit.now 0)) []) }
    ensures constants { IfOk result (λ u. declared.new.constants.items ≡ declared.old.constants.items ++ constants_of_unit (modules_in (ahead unit.now 0)) (constants_in (ahead unit.now 0))) }
{
    match modules(alloc, unit)? {
        Some(names) => {
            add(&mut declared.extended, Some(names))?;
        }
        None => {
            add(&mut declared.constants, constants(alloc, unit)?)?;
        }
    }
    Ok(())
}

/// With what the units among tokens declare.
///
/// # Errors
///
/// Only for want of memory.
pub fn declare_all(
    alloc: Global,
    tokens: &Tokens,
    declared: &mut Declared,
) -> Result<(), AllocError>
    ensures extended { IfOk result (λ u. declared.new.extended.items ≡ declared.old.extended.items ++ all_modules (cut (ahead tokens.now 0)).units) }
    ensures constants { IfOk result (λ u. declared.new.constants.items ≡ declared.old.constants.items ++ all_constants (cut (ahead tokens.now 0)).units) }
{
    let mut bytes = Vec::from_slice(alloc, &tokens.bytes)?;
    let mut at = next_begun(tokens, 0);
    while at < tokens.items.len() {
        let end = next_begun(tokens, at + 1);
        let unit = unit_tokens(alloc, bytes, tokens, at, end)?;
        declare(alloc, &unit, declared)?;
        bytes = unit.bytes;
        at = end;
    }
    Ok(())
}
