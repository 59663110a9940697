//! Names of variables, as sets.

ghost use Rattle.std.specs.Prelude.{OnOk};
ghost use Rattle.algorithm_limits.specs.DepthsIn.{Hides};
ghost use Rattle.read_rules.specs.NumbersIn.{declared_in};

use algorithm_limits::bound::Bound;
use pcal_tree::algorithm::Declaration;
use std::alloc::AllocError;

/// Adds the names of these declarations.
///
/// # Errors
///
/// Only for want of memory.
pub fn add_declared(names: &mut Bound, list: &[Declaration]) -> Result<(), AllocError>
    ensures { OnOk result (Hides names.old names.new (declared_in list.now)) }
{
    for i in 0..list.len() {
        let declaration = &list[i];
        names.add(&declaration.name.name)?;
    }
    Ok(())
}
