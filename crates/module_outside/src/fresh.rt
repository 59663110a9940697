//! Whether names may be bound.

ghost use Rattle.std.specs.Prelude.{◌≡◌, length, take, IfOk, OnOk, IsTrue};
ghost use Rattle.std.specs.List.{flat_map};
ghost use Rattle.tla_tree.specs.Tree.{words, Word};
ghost use Rattle.std.specs.Prelude.{List};
ghost use Rattle.tla_pool.specs.FormOf.{groups_of};
ghost use Rattle.module_tree.specs.Outside as pure;
ghost use Rattle.algorithm_limits.specs.DepthsIn.{Hides};
ghost use Rattle.module_outside.specs.SightIn.{Sees, Binds, fresh_in};

use crate::sight::Sight;
use algorithm_limits::bound::Bound;
use std::alloc::AllocError;
use tla_tree::{Name, PlacedName};

/// Whether a name may be a parameter or a bound name, where others are bound.
pub fn is_fresh(sight: &Sight, bound: &Bound, name: &Name) -> bool
    ensures { result ≡ fresh_in sight.now bound.now name.now }
{
    !sight.modules.is_standard(name.bytes())
        && !sight.constants.has(name)
        && sight.arities.get(name) == 0
        && !bound.has(name)
}

/// Whether these names may be bound, each where those before it are; they are bound then.
///
/// # Errors
///
/// Only for want of memory.
pub fn names_fresh(
    sight: &Sight,
    bound: &mut Bound,
    names: &[PlacedName],
) -> Result<bool, AllocError>
    ensures value { IfOk result (λ r. (v : pure.Sight) (bs : List Word) → Sees sight.now v → Binds bound.old bs → r ≡ pure.are_fresh v bs (words names.now)) }
    ensures hides { IfOk result (λ r. IsTrue r → Hides bound.old bound.new (words names.now)) }
    ensures kept { OnOk result (take (length bound.old) bound.new ≡ bound.old) }
{
    for one in names {
        if !is_fresh(sight, bound, &one.name) {
            return Ok(false);
        }
        bound.add(&one.name)?;
    }
    Ok(true)
}

/// The same of the names of these groups.
///
/// # Errors
///
/// Only for want of memory.
pub fn groups_fresh(
    sight: &Sight,
    bound: &mut Bound,
    groups: &[Vec<PlacedName>],
) -> Result<bool, AllocError>
    ensures value { IfOk result (λ r. (v : pure.Sight) (bs : List Word) → Sees sight.now v → Binds bound.old bs → r ≡ pure.are_fresh v bs (flat_map words (groups_of groups.now))) }
    ensures kept { OnOk result (take (length bound.old) bound.new ≡ bound.old) }
{
    for i in 0..groups.len() {
        if !names_fresh(sight, bound, &groups[i])? {
            return Ok(false);
        }
    }
    Ok(true)
}
