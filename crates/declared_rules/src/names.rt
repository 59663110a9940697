//! Names of declarations, which are bound.

ghost use Rattle.std.specs.Prelude.{OnOk};
ghost use Rattle.tla_tree.specs.Tree.{words};
ghost use Rattle.algorithm_limits.specs.DepthsIn.{Hides};
ghost use Rattle.declared_rules.specs.Units.{declared_names};

use algorithm_limits::bound::Bound;
use pcal_tree::algorithm::Declaration;
use std::alloc::AllocError;

/// Binds the names of these declarations too.
///
/// # Errors
///
/// Only for want of memory.
#[tactic(auto, using(algorithm_limits::proofs::BoundLemmas::hides_none))]
pub fn add_declared(bound: &mut Bound, list: &[Declaration]) -> Result<(), AllocError>
    ensures { OnOk result (Hides bound.old bound.new (words (declared_names list.now))) }
{
    for i in 0..list.len() {
        let declaration = &list[i];
        bound.add(&declaration.name.name)?;
    }
    Ok(())
}
