//! The processes that run a routine, and their identifiers.

ghost use Rattle.std.specs.Prelude.{◌≡◌, ◌++◌, ◌∷◌, [], List, map, Some, IfOk, OnOk, if◌then◌else◌};
ghost use Rattle.std.specs.Option.{option_copied, option_map};
ghost use Rattle.tla_tree.specs.Tree.{Tree};
ghost use Rattle.module_tree.specs.Formulas.{self};
ghost use Rattle.pcal_tree.specs.Program as pure;
ghost use Rattle.action_builder.specs.laws.WrittenScope.{written_scope};
ghost use Rattle.step_moves.specs.InMemory.{actor_at};
ghost use Rattle.step_moves.specs.ScopeIn.{scope_in};
ghost use Rattle.step_meaning.specs.Identified.{those, first, selves, HaveThese};

use std::alloc::{AllocError, Global};
use step_moves::{Actor, Bound};
use tla_tree::Name;
use tla_value::value::{Value, copied};

// Whether a process is one of those of a routine, or of all.
fn is_whose(whose: Option<usize>, actor: &Actor<'_>) -> bool
    ensures { (ts : List Tree) (vs : List pure.Actor) → those whose (actor_at ts actor.now ∷ vs) ≡ (if result then actor_at ts actor.now ∷ those whose vs else those whose vs) }
{
    match whose {
        None => true,
        Some(number) => {
            let own = actor.own;
            own.number == number
        }
    }
}

// Adds the identifier of a process, if it is one of those.
fn add_identifier(
    alloc: Global,
    whose: Option<usize>,
    actor: &Actor<'_>,
    all: &mut Vec<Value>,
) -> Result<(), AllocError>
    ensures { OnOk result ((ts : List Tree) → map Some all.new.items ≡ map Some all.old.items ++ selves (those whose (actor_at ts actor.now ∷ []))) }
{
    if is_whose(whose, actor) {
        match &actor.identifier {
            Some(identifier) => {
                all.push(copied(alloc, identifier)?)?;
                Ok(())
            }
            None => Err(AllocError),
        }
    } else {
        Ok(())
    }
}

/// The identifiers of the processes that run the routine of this number, or of all.
///
/// # Errors
///
/// Only for want of memory, and where one has none.
pub fn identifiers_of(
    alloc: Global,
    whose: Option<usize>,
    actors: &[Actor<'_>],
) -> Result<Vec<Value>, AllocError>
    ensures { IfOk result (λ r. (ts : List Tree) → HaveThese (those whose (map (actor_at ts) actors.now)) r.items) }
{
    let mut all = Vec::new(alloc);
    for actor in actors {
        add_identifier(alloc, whose, actor, &mut all)?;
    }
    Ok(all)
}

/// The first process that runs the routine of this number, or of all.
pub fn first_of<'x, 'a>(whose: Option<usize>, actors: &'x [Actor<'a>]) -> Option<&'x Actor<'a>>
    ensures { (ts : List Tree) → option_map (actor_at ts) (option_copied result) ≡ first (those whose (map (actor_at ts) actors.now)) }
{
    for actor in actors {
        if is_whose(whose, actor) {
            return Some(actor);
        }
    }
    None
}

/// The name `self` bound to an identifier.
///
/// # Errors
///
/// Only for want of memory.
pub fn bound_to(alloc: Global, this: &Name, identifier: &Value) -> Result<Bound, AllocError>
    ensures names { IfOk result (λ r. r.names.items ≡ this.now ∷ []) }
    ensures values { IfOk result (λ r. r.values.items ≡ identifier.now ∷ []) }
{
    let mut names = Vec::new(alloc);
    names.push(this.copied()?)?;
    let mut values = Vec::new(alloc);
    values.push(copied(alloc, identifier)?)?;
    Ok(Bound { names, values })
}

/// The name `self` bound to a process's identifier, where it has one.
///
/// # Errors
///
/// Only for want of memory.
pub fn bound_for(alloc: Global, this: &Name, actor: &Actor<'_>) -> Result<Bound, AllocError>
    ensures { IfOk result (λ r. (P : pure.Program) (ts : List Tree) → this.now ≡ self → written_scope P [] (actor_at ts actor.now) ≡ scope_in P r.names.items r.values.items) }
{
    match &actor.identifier {
        Some(identifier) => bound_to(alloc, this, identifier),
        None => Ok(unbound(alloc)),
    }
}

/// No name is bound.
pub fn unbound(alloc: Global) -> Bound
    ensures names { result.names.items ≡ [] }
    ensures values { result.values.items ≡ [] }
{
    Bound {
        names: Vec::new(alloc),
        values: Vec::new(alloc),
    }
}
