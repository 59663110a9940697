//! The translation that a list of units is.

ghost use Rattle.std.specs.Prelude.{◌≡◌, ℕ, ◌<◌, List, map, IfOk, IfSome, MatchOption, MatchResult, Some, None};
ghost use Rattle.std.specs.Bool.{⊤};
ghost use Rattle.std.specs.Option.{option_map};
ghost use Rattle.std.specs.Vec.Iter.{into_iter_items};
ghost use Rattle.tla_tree.specs.Tree.{Tree};
ghost use Rattle.tla_tree.specs.Pool.{at};
ghost use Rattle.tla_value.specs.Defs.{definitions_at, DefinitionsIn};
ghost use Rattle.module_write.specs.InMemory.{region_at, fairness_at, actions_at, MaybeIn, AllFairnessIn, ActionsIn, RegionIn};
ghost use Rattle.region_reading.specs.RegionReader.{from_spec, from_next, from_terminating, from_actions, from_init, from_process_set, from_vars, from_definitions, from_variables, region_in};
ghost use Rattle.region_reading.specs.RegionReader as part;
ghost use Rattle.tla_value.specs.declared.names.Definition.{Definition as DefinitionKept};
ghost use Rattle.module_write.specs.declared.«module».Action.{Action as ActionKept};
ghost use Rattle.region_made.specs.declared.unit.Unit.TheVariants as kind;
ghost use Rattle.region_made.specs.UnitsAt.{units_at, UnitsIn};
ghost use Rattle.region_made.specs.Parts.{ahead, with_actions as part_actions, with_definitions as part_definitions, IsMade, Parts};

use crate::unit::Unit;
use module_write::module::{Action, Fairness, Region};
use std::alloc::{AllocError, Global};
use std::vec::IntoIter;
use tla_tree::{NameList, NodeId};
use tla_value::names::{Definition, Defs};

// ---- the units, of which the next one was taken

// Takes the next one, if there is one.
fn next_unit(units: &mut IntoIter<Unit>) -> Option<Unit>
    ensures { into_iter_items units.old ≡ ahead result units.new }
{
    units.next()
}

// ---- parts of a translation, and the unit behind them

// The test in Terminating.
fn ended(first: Option<Unit>, units: &mut IntoIter<Unit>) -> (Option<NodeId>, Option<Unit>)
    ensures { Parts from_terminating from_next (λ ts. part.with_ended (option_map (at ts) result.0)) (λ m. MaybeIn m result.0) (ahead first units.old) (ahead result.1 units.new) }
{
    match first {
        Some(Unit::Terminating(test)) => (Some(test), next_unit(units)),
        other => (None, other),
    }
}

// The action that a unit is, or else the unit.
fn as_action(unit: Option<Unit>) -> Result<Action, Option<Unit>>
    ensures { MatchResult result (λ a. unit ≡ Some (kind.Action a)) (λ o. (o ≡ unit) × ((a : ActionKept) → unit ≡ Some (kind.Action a) → ⊥)) }
{
    match unit {
        Some(Unit::Action(action)) => Ok(action),
        other => Err(other),
    }
}

// The actions that follow one another.
fn actions(
    alloc: Global,
    first: Option<Unit>,
    units: &mut IntoIter<Unit>,
) -> Result<(Vec<Action>, Option<Unit>), AllocError>
    ensures { IfOk result (λ r. Parts from_actions from_terminating (λ ts. part_actions (actions_at ts r.0.items)) (λ m. ActionsIn m r.0.items) (ahead first units.old) (ahead r.1 units.new)) }
{
    let mut actions = Vec::new(alloc);
    let mut next = first;
    loop {
        match as_action(next) {
            Ok(action) => {
                actions.push(action)?;
                next = next_unit(units);
            }
            Err(other) => return Ok((actions, other)),
        }
    }
}

// ProcSet.
fn process_set(first: Option<Unit>, units: &mut IntoIter<Unit>) -> (Option<NodeId>, Option<Unit>)
    ensures { Parts from_process_set from_init (λ ts. part.with_process_set (option_map (at ts) result.0)) (λ m. MaybeIn m result.0) (ahead first units.old) (ahead result.1 units.new) }
{
    match first {
        Some(Unit::ProcessSet(set)) => (Some(set), next_unit(units)),
        other => (None, other),
    }
}

// The definition that a unit is, or else the unit.
fn as_definition(unit: Option<Unit>) -> Result<Definition, Option<Unit>>
    ensures { MatchResult result (λ d. unit ≡ Some (kind.Definition d)) (λ o. (o ≡ unit) × ((d : DefinitionKept) → unit ≡ Some (kind.Definition d) → ⊥)) }
{
    match unit {
        Some(Unit::Definition(definition)) => Ok(definition),
        other => Err(other),
    }
}

// The definitions that follow one another.
fn definitions(
    alloc: Global,
    first: Option<Unit>,
    units: &mut IntoIter<Unit>,
) -> Result<(Defs, Option<Unit>), AllocError>
    ensures { IfOk result (λ r. Parts from_definitions from_vars (λ ts. part_definitions (definitions_at ts r.0)) (λ m. DefinitionsIn m r.0) (ahead first units.old) (ahead r.1 units.new)) }
{
    let mut definitions = Defs::new(alloc);
    let mut next = first;
    loop {
        match as_definition(next) {
            Ok(definition) => {
                definitions.push(definition)?;
                next = next_unit(units);
            }
            Err(other) => return Ok((definitions, other)),
        }
    }
}

// The names of CONSTANT; none where there are none behind it.
fn model_values(
    alloc: Global,
    first: Option<Unit>,
    units: &mut IntoIter<Unit>,
) -> Option<(NameList, Option<Unit>)>
    ensures { MatchOption result ((ts : List Tree) → region_in (units_at ts (ahead first units.old)) ≡ None)
        (λ r. Parts region_in from_variables (λ ts. part.with_model_values r.0) (λ m. ⊤) (ahead first units.old) (ahead r.1 units.new)) }
{
    match first {
        Some(Unit::Constant(names)) => {
            if names.len() == 0 {
                return None;
            }
            Some((names, next_unit(units)))
        }
        other => Some((NameList::new(alloc), other)),
    }
}

// ---- the translation from a part of it on: each puts its own into that of what is behind it

// Spec and Termination, and nothing else.
fn last_parts(alloc: Global, fairness: Vec<Fairness>, termination: NodeId) -> Region
    ensures region { (ts : List Tree) → region_at ts result ≡ part.last_parts (map (fairness_at ts) fairness.items) (at ts termination) }
    ensures within { (m : ℕ) → AllFairnessIn m fairness.items → termination < m → RegionIn m result }
{
    Region {
        model_values: NameList::new(alloc),
        variables: NameList::new(alloc),
        definitions: Defs::new(alloc),
        vars: NameList::new(alloc),
        process_set: None,
        init: Vec::new(alloc),
        actions: Vec::new(alloc),
        ended: None,
        next: Vec::new(alloc),
        fairness,
        termination,
    }
}

// Spec and Termination, at the end.
fn with_spec(alloc: Global, first: Option<Unit>, units: &mut IntoIter<Unit>) -> Option<Region>
    ensures { IsMade from_spec (ahead first units.old) result }
{
    let Some(Unit::Spec(fairness)) = first else {
        return None;
    };
    let Some(Unit::Termination(termination)) = next_unit(units) else {
        return None;
    };
    if next_unit(units).is_some() {
        return None;
    }
    Some(last_parts(alloc, fairness, termination))
}

// From Next on.
fn with_next(alloc: Global, first: Option<Unit>, units: &mut IntoIter<Unit>) -> Option<Region>
    ensures { IsMade from_next (ahead first units.old) result }
{
    let Some(Unit::Next(ways)) = first else {
        return None;
    };
    let second = next_unit(units);
    let mut region = with_spec(alloc, second, units)?;
    region.next = ways;
    Some(region)
}

// From Terminating on.
fn with_ended(alloc: Global, first: Option<Unit>, units: &mut IntoIter<Unit>) -> Option<Region>
    ensures { IsMade from_terminating (ahead first units.old) result }
{
    let (ended, next) = ended(first, units);
    let mut region = with_next(alloc, next, units)?;
    region.ended = ended;
    Some(region)
}

// From the actions on.
fn with_actions(
    alloc: Global,
    first: Option<Unit>,
    units: &mut IntoIter<Unit>,
) -> Result<Option<Region>, AllocError>
    ensures { IfOk result (λ o. IsMade from_actions (ahead first units.old) o) }
{
    let (actions, next) = actions(alloc, first, units)?;
    let Some(mut region) = with_ended(alloc, next, units) else {
        return Ok(None);
    };
    region.actions = actions;
    Ok(Some(region))
}

// From Init on.
fn with_init(
    alloc: Global,
    first: Option<Unit>,
    units: &mut IntoIter<Unit>,
) -> Result<Option<Region>, AllocError>
    ensures { IfOk result (λ o. IsMade from_init (ahead first units.old) o) }
{
    let Some(Unit::Init(conjuncts)) = first else {
        return Ok(None);
    };
    let second = next_unit(units);
    let Some(mut region) = with_actions(alloc, second, units)? else {
        return Ok(None);
    };
    region.init = conjuncts;
    Ok(Some(region))
}

// From ProcSet on.
fn with_process_set(
    alloc: Global,
    first: Option<Unit>,
    units: &mut IntoIter<Unit>,
) -> Result<Option<Region>, AllocError>
    ensures { IfOk result (λ o. IsMade from_process_set (ahead first units.old) o) }
{
    let (set, next) = process_set(first, units);
    let Some(mut region) = with_init(alloc, next, units)? else {
        return Ok(None);
    };
    region.process_set = set;
    Ok(Some(region))
}

// From vars on.
fn with_vars(
    alloc: Global,
    first: Option<Unit>,
    units: &mut IntoIter<Unit>,
) -> Result<Option<Region>, AllocError>
    ensures { IfOk result (λ o. IsMade from_vars (ahead first units.old) o) }
{
    let Some(Unit::Vars(names)) = first else {
        return Ok(None);
    };
    let second = next_unit(units);
    let Some(mut region) = with_process_set(alloc, second, units)? else {
        return Ok(None);
    };
    region.vars = names;
    Ok(Some(region))
}

// From the definitions on.
fn with_definitions(
    alloc: Global,
    first: Option<Unit>,
    units: &mut IntoIter<Unit>,
) -> Result<Option<Region>, AllocError>
    ensures { IfOk result (λ o. IsMade from_definitions (ahead first units.old) o) }
{
    let (definitions, next) = definitions(alloc, first, units)?;
    let Some(mut region) = with_vars(alloc, next, units)? else {
        return Ok(None);
    };
    region.definitions = definitions;
    Ok(Some(region))
}

// From VARIABLES on.
fn with_variables(
    alloc: Global,
    first: Option<Unit>,
    units: &mut IntoIter<Unit>,
) -> Result<Option<Region>, AllocError>
    ensures { IfOk result (λ o. IsMade from_variables (ahead first units.old) o) }
{
    let Some(Unit::Variables(names)) = first else {
        return Ok(None);
    };
    let second = next_unit(units);
    let Some(mut region) = with_definitions(alloc, second, units)? else {
        return Ok(None);
    };
    region.variables = names;
    Ok(Some(region))
}

// All of it.
fn with_model_values(
    alloc: Global,
    first: Option<Unit>,
    units: &mut IntoIter<Unit>,
) -> Result<Option<Region>, AllocError>
    ensures { IfOk result (λ o. IsMade region_in (ahead first units.old) o) }
{
    let Some((names, next)) = model_values(alloc, first, units) else {
        return Ok(None);
    };
    let Some(mut region) = with_variables(alloc, next, units)? else {
        return Ok(None);
    };
    region.model_values = names;
    Ok(Some(region))
}

/// The translation that has these units, if they are those of one, in its order.
///
/// # Errors
///
/// Only for want of memory.
pub fn region_of(alloc: Global, units: Vec<Unit>) -> Result<Option<Region>, AllocError>
    ensures region { IfOk result (λ o. (ts : List Tree) → option_map (region_at ts) o ≡ region_in (units_at ts units.items)) }
    ensures within { IfOk result (λ o. (m : ℕ) → UnitsIn m units.items → IfSome o (RegionIn m)) }
{
    let mut units = units.into_iter();
    let first = next_unit(&mut units);
    with_model_values(alloc, first, &mut units)
}
