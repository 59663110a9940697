//! The names that a binder binds with the members of their sets, and the value of what it gathers.

ghost use Rattle.std.specs.Prelude.{◌≡◌, ◌++◌, OnOk, length};
ghost use Rattle.tla_pool.specs.FormOf.{groups_of};
ghost use Rattle.tla_value.specs.Value.{values_in};
ghost use Rattle.tla_value.specs.Limits.{bounded};
ghost use Rattle.value_forms.specs.Gives.{Gives, Tells};
ghost use Rattle.eval_visits.specs.GatheredOf.{gathered_of};
ghost use Rattle.eval_visits.specs.Visits.{whole as whole_value, over_sets as sets_over, over_group};

use crate::gathered::Gathered;
use crate::keys::{keys, table};
use eval_scopes::got::Got;
use eval_scopes::scope::OverName;
use std::alloc::{AllocError, Global};
use tla_token::Place;
use tla_tree::PlacedName;
use tla_value::stop::EvalStop;
use tla_value::value::Value;
use value_forms::kinds::members_of;
use value_forms::made;
use value_forms::made::copies;

/// The value of all that is gathered.
///
/// # Errors
///
/// For want of memory, and where the value is past the limits.
pub fn whole<'x>(alloc: Global, place: Place, gathered: Gathered) -> Result<Got<'x>, EvalStop>
    ensures { Tells result (bounded place (whole_value (gathered_of gathered))) }
{
    match gathered {
        Gathered::All(b) => Ok(Got::own(Value::truth(b))),
        Gathered::Some(b) => Ok(Got::own(Value::truth(b))),
        Gathered::Rows(rows) => {
            let members = keys(alloc, place, &rows)?;
            let set = made::set(place, members)?;
            Ok(Got::own(set))
        }
        Gathered::Picked(values) => {
            let set = made::set(place, values)?;
            Ok(Got::own(set))
        }
        Gathered::Table(rows, values) => {
            let many = rows.len().min(values.len());
            let arguments = keys(alloc, place, &rows[..many])?;
            let function = table(alloc, place, arguments, values)?;
            Ok(Got::own(function))
        }
    }
}

// The names of a group, each with the members, behind others.
fn push_group(
    alloc: Global,
    names: &mut Vec<OverName>,
    group: &[PlacedName],
    members: &[Value],
) -> Result<(), AllocError>
    ensures { OnOk result (names.new.items ≡ names.old.items ++ over_group group.now (values_in members.now)) }
{
    for x in group {
        let name = x.name.copied()?;
        let members = copies(alloc, members)?;
        names.push(OverName { name, members })?;
    }
    Ok(())
}

/// The names of groups, each with the members of the value of its group, which must be a set.
///
/// # Errors
///
/// For want of memory, and where a value isn't a set.
pub fn over_sets<'y>(
    alloc: Global,
    place: Place,
    groups: &[Vec<PlacedName>],
    values: &[Got<'y>],
) -> Result<Vec<OverName>, EvalStop>
    requires { length values.now ≡ length (groups_of groups.now) }
    ensures { Gives (λ v. v.items) result (sets_over place (groups_of groups.now) values.now) }
{
    let mut names = Vec::new(alloc);
    for i in 0..groups.len() {
        let v = &values[i];
        let members = members_of(place, v.get())?;
        push_group(alloc, &mut names, groups[i].as_slice(), members)?;
    }
    Ok(names)
}
