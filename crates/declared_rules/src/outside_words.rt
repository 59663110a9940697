//! Names that are in scope outside the algorithm.

ghost use Rattle.std.specs.Prelude.{List, OnOk};
ghost use Rattle.tla_tree.specs.Tree.{Tree};
ghost use Rattle.pcal_tree.specs.Outside.{unit_names};
ghost use Rattle.algorithm_limits.specs.DepthsIn.{Hides};
ghost use Rattle.module_outside.specs.WholeAt.{outside_at};
ghost use Rattle.declared_rules.specs.OutsideWords.{read_words, passed_words};

use algorithm_limits::bound::Bound;
use module_outside::definition::ReadDefinition;
use module_outside::outside::Outside;
use module_outside::passed::Passed;
use std::alloc::AllocError;
use tla_tree::Name;

// Names.
fn bind_names(bound: &mut Bound, names: &[Name]) -> Result<(), AllocError>
    ensures { OnOk result (Hides bound.old bound.new names.now) }
{
    for name in names {
        bound.add(name)?;
    }
    Ok(())
}

// Those of definitions.
fn bind_read(bound: &mut Bound, list: &[ReadDefinition]) -> Result<(), AllocError>
    ensures { OnOk result (Hides bound.old bound.new (read_words list.now)) }
{
    for definition in list {
        bound.add(&definition.title.name)?;
    }
    Ok(())
}

// Those of units that are passed on.
fn bind_passed(bound: &mut Bound, list: &[Passed]) -> Result<(), AllocError>
    ensures { OnOk result (Hides bound.old bound.new (passed_words list.now)) }
{
    for unit in list {
        bind_names(bound, &unit.names)?;
    }
    Ok(())
}

/// Those of all units.
///
/// # Errors
///
/// Only for want of memory.
pub fn bind_units(bound: &mut Bound, outside: &Outside) -> Result<(), AllocError>
    ensures { OnOk result ((ts : List Tree) → Hides bound.old bound.new (unit_names (outside_at ts outside.now))) }
{
    bound.add_all(&outside.constants)?;
    bind_read(bound, &outside.definitions)?;
    bind_passed(bound, &outside.opaque)
}
