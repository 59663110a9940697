//! The units of a translation, one after the other.

ghost use Rattle.std.specs.Prelude.{◌≡◌, true, Some, length, IfOk, IfErr};
ghost use Rattle.tla_tree.specs.Pool.{Keeps};
ghost use Rattle.module_tree.specs.FileUnits.{cut};
ghost use Rattle.expr_nodes.specs.Ahead.{ahead};
ghost use Rattle.outside_reading.specs.SmallNumbers.{all_small};
ghost use Rattle.region_reading.specs.ModuleReader.{units_are};
ghost use Rattle.region_made.specs.UnitsAt.{units_at, UnitsIn};
ghost use Rattle.module_reading.specs.Translated.{module_bound, NoUnits};

use expr_nodes::cursor::Halt;
use module_outside::unit::{next_begun, unit_tokens};
use region_made::unit::Unit;
use region_units::units::unit;
use std::alloc::Global;
use tla_pool::Pool;
use tla_token::Tokens;

/// How many forms may be open at a token of a unit.
const DEEPEST: u32 = 1200;

/// The units that these tokens are, where the first of them begins one.
///
/// # Errors
///
/// The rule of syntax, where one of them is no unit, and that of depth, where one is none that nests no deeper than any may;
/// or want of memory.
pub fn units(alloc: Global, tokens: &Tokens, pool: &mut Pool) -> Result<Vec<Unit>, Halt>
    requires small { all_small (ahead tokens.now 0) ≡ true }
    ensures read { IfOk result (λ us. units_are module_bound (cut (ahead tokens.now 0)).units ≡ Some (units_at pool.new us.items)) }
    ensures within { IfOk result (λ us. UnitsIn (length pool.new) us.items) }
    ensures none { IfErr result (λ e. NoUnits (cut (ahead tokens.now 0)).units e) }
    ensures kept { Keeps pool.old pool.new }
{
    let mut list = Vec::new(alloc);
    let mut bytes = Vec::from_slice(alloc, &tokens.bytes)?;
    let mut at = next_begun(tokens, 0);
    while at < tokens.items.len() {
        let end = next_begun(tokens, at + 1);
        let one = unit_tokens(alloc, bytes, tokens, at, end)?;
        list.push(unit(alloc, &one, pool, DEEPEST)?)?;
        bytes = one.bytes;
        at = end;
    }
    Ok(list)
}
