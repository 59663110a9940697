//! Uses of names in expressions.

ghost use Rattle.std.specs.Prelude.{◌≡◌, [], ◌∷◌, ◌++◌, OnOk};
ghost use Rattle.tla_tree.specs.Pool.{at, trees_at, AllBelow};
ghost use Rattle.pcal_tree.specs.Reads.{named};
ghost use Rattle.pcal_tree.specs.laws.MacroSpots.{uses, uses_of_all};
ghost use Rattle.read_rules.specs.UsesIn.{of_kind, uses_of, uses_as};

use std::alloc::AllocError;
use tla_pool::Pool;
use tla_pool::form::Form;
use tla_token::Place;
use tla_tree::{Name, NodeId, PlacedName};

/// How a name is used.
#[derive(Clone, Copy, PartialEq, Eq, Hash)]
pub enum Kind {
    /// For a macro's parameter its argument is put in.
    Value,
    /// A left side that is a name: it keeps its place.
    Left,
    /// An operator that is called, or what a jump uses.
    Other,
}

/// A use of a name.
#[derive(Drop)]
pub struct Use {
    /// How it is used.
    pub kind: Kind,
    /// The name, where it is.
    pub name: PlacedName,
}

/// One more use.
///
/// # Errors
///
/// Only for want of memory.
#[tactic(auto, using(crate::proofs::UseLaws::one_more))]
pub fn add_use(list: &mut Vec<Use>, kind: Kind, name: &Name, place: Place) -> Result<(), AllocError>
    ensures { OnOk result (uses_of list.new.items ≡ uses_of list.old.items ++ of_kind kind (named name.now place) ∷ []) }
{
    let name = PlacedName {
        name: name.copied()?,
        place,
    };
    list.push(Use { kind, name })?;
    Ok(())
}

/// Those of an expression. It calls itself as deep as forms are in forms.
///
/// # Errors
///
/// Only for want of memory.
#[cycle(uses)]
pub fn add_uses(list: &mut Vec<Use>, pool: &Pool, e: NodeId) -> Result<(), AllocError>
    ensures { OnOk result (uses_of list.new.items ≡ uses_of list.old.items ++ uses (at pool.now e)) }
{
    let place = pool.place(e);
    add_uses_as(list, pool, Kind::Value, place, e)
}

/// Those of an expression at a place, where a name that is all of it is used so.
///
/// # Errors
///
/// Only for want of memory.
#[cycle(uses)]
pub fn add_uses_as(
    list: &mut Vec<Use>,
    pool: &Pool,
    kind: Kind,
    place: Place,
    e: NodeId,
) -> Result<(), AllocError>
    ensures { OnOk result (uses_of list.new.items ≡ uses_of list.old.items ++ uses_as kind place (at pool.now e)) }
{
    let Some(node) = pool.get(e) else {
        return Ok(());
    };
    match &node.form {
        Form::Name(name) => add_use(list, kind, name, place),
        Form::Call(name) => {
            add_use(list, Kind::Other, name, place)?;
            add_parts(list, pool, &node.parts, e)
        }
        _ => add_parts(list, pool, &node.parts, e),
    }
}

// Those of the parts of an expression, which have smaller numbers than this.
#[cycle(uses)]
fn add_parts(
    list: &mut Vec<Use>,
    pool: &Pool,
    parts: &[NodeId],
    past: NodeId,
) -> Result<(), AllocError>
    requires { AllBelow past parts.now }
    ensures { OnOk result (uses_of list.new.items ≡ uses_of list.old.items ++ uses_of_all (trees_at pool.now parts.now)) }
{
    for i in 0..parts.len() {
        add_uses(list, pool, parts[i])?;
    }
    Ok(())
}

/// Those of several expressions.
///
/// # Errors
///
/// Only for want of memory.
pub fn add_all_uses(list: &mut Vec<Use>, pool: &Pool, es: &[NodeId]) -> Result<(), AllocError>
    ensures { OnOk result (uses_of list.new.items ≡ uses_of list.old.items ++ uses_of_all (trees_at pool.now es.now)) }
{
    for i in 0..es.len() {
        add_uses(list, pool, es[i])?;
    }
    Ok(())
}
