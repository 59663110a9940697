//! Processes in the canonical order of their identifiers, which differ.

ghost use Rattle.std.specs.Prelude.{◌≡◌, [], List, map, IfOk};
ghost use Rattle.tla_tree.specs.Tree.{Tree};
ghost use Rattle.pcal_tree.specs.Processes.{apart as pure_apart, sorted};
ghost use Rattle.value_forms.specs.Gives.{Gives};
ghost use Rattle.step_moves.specs.InMemory.{actor_at, named_at, entry_at};

use crate::actor::{Actor, Named};
use std::alloc::{AllocError, Global};
use std::collections::BTreeMap;
use step_spots::Routine;
use tla_value::fault::FaultKind;
use tla_value::stop::EvalStop;
use tla_value::value::{Value, copied};

/// What processes run, by their identifiers.
///
/// # Errors
///
/// For want of memory, and exactly where two processes share an identifier, at the name of the later one of the first that do.
pub fn apart<'a>(alloc: Global, all: &[Named<'a>]) -> Result<BTreeMap<Value, Routine<'a>>, EvalStop>
    ensures apart { (ts : List Tree) → Gives (λ m. map (named_at ts) all.now) result (pure_apart [] (map (named_at ts) all.now)) }
    ensures sorted { IfOk result (λ m. (ts : List Tree) → map (entry_at ts) m.entries ≡ sorted (map (named_at ts) all.now)) }
{
    let mut known = BTreeMap::new(alloc);
    for one in all {
        let own = one.own;
        let identifier = copied(alloc, &one.identifier)?;
        if known.insert(identifier, own)?.is_some() {
            let name = own.name;
            return Err(EvalStop::Fault(FaultKind::SameIdentifier, name.place));
        }
    }
    Ok(known)
}

/// The processes in the order of their identifiers.
///
/// # Errors
///
/// Only for want of memory.
pub fn in_order<'a>(
    alloc: Global,
    mut known: BTreeMap<Value, Routine<'a>>,
) -> Result<Vec<Actor<'a>>, AllocError>
    ensures { IfOk result (λ r. (ts : List Tree) → map (actor_at ts) r.items ≡ map (entry_at ts) known.entry.entries) }
{
    let mut all = Vec::new(alloc);
    while let Some((identifier, own)) = known.pop_first() {
        all.push(Actor {
            identifier: Some(identifier),
            own,
        })?;
    }
    Ok(all)
}
