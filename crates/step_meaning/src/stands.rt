//! The label that the value of `pc` names, and what a step from it begins with ("A PlusCal User's Manual", section 3.7, labels).

ghost use Rattle.std.specs.Prelude.{◌≡◌, ◌≤◌, ◌+◌, List, length, map, IfOk, IfSome};
ghost use Rattle.std.specs.Option.{option_map};
ghost use Rattle.tla_tree.specs.Tree.{Tree};
ghost use Rattle.pcal_tree.specs.Algorithm.{main_routines};
ghost use Rattle.pcal_tree.specs.InMemory.{past_statements};
ghost use Rattle.pcal_tree.specs.FirstTrouble.{stand_at as stand_so, stand_named as pure_stand_named};
ghost use Rattle.pcal_tree.specs.Processes.{OneOf};
ghost use Rattle.pcal_tree.specs.Step.{routines_of};
ghost use Rattle.step_moves.specs.Programs.{program_at};
ghost use Rattle.step_spots.specs.InMemory.{spot_at, routine_at, past_spots};
ghost use Rattle.step_spots.specs.Spots.{spot_named, place_of};
ghost use Rattle.step_moves.specs.InMemory.{actor_at};
ghost use Rattle.written_runs.specs.Stands.{stand_in as pure_stand_in, stand_by_spots};
ghost use Rattle.step_meaning.specs.Stages.{IsStage};
ghost use Rattle.step_meaning.specs.StandsAt.{stand_at, prepared_at, prepared_procedure_routines, IsPlaced};

use crate::stage::{Stage, own_routine};
use std::alloc::{AllocError, Global};
use step_moves::{Actor, Program, label_value};
use step_spots::walk::{Spot, spot_of, spots};
use step_spots::{Routine, Target};
use tla_tree::Name;
use tla_value::value::Value;

/// Where a process is: a routine, prepared, and a label of it.
#[derive(Clone, Copy)]
pub struct Stand<'a> {
    /// The routine.
    pub routine: Routine<'a>,
    /// The label, with what a step from it begins with.
    pub spot: Spot<'a>,
}

// The first of some labels of a routine that has a name.
fn first_stand<'a>(routine: Routine<'a>, all: &[Spot<'a>], name: &Name) -> Option<Stand<'a>>
    ensures found { (ts : List Tree) → option_map (stand_at ts) result ≡ stand_so (routine_at ts routine.entry) name.now (option_map (λ s. s.begins) (spot_named (map (spot_at ts) all.now) name.now)) }
    ensures routine { IfSome result (λ s. s.routine ≡ routine.entry) }
    ensures within { IfSome result (λ s. past_statements s.spot.items.now ≤ past_spots all.now) }
    ensures place { (ts : List Tree) → IfSome result (λ s. place_of (spot_named (map (spot_at ts) all.now) s.spot.label.now.word) ≡ s.spot.label.now.place) }
{
    match spot_of(all, name) {
        Some(spot) => Some(Stand { routine, spot }),
        None => None,
    }
}

// The first label of a routine in memory that a value of `pc` names.
fn stand_in<'a>(
    alloc: Global,
    program: &Program<'_>,
    routine: Routine<'a>,
    label: &Value,
) -> Result<Option<Stand<'a>>, AllocError>
    requires within { past_statements routine.body.now ≤ length program.now.pool.now }
    ensures found { IfOk result (λ r. option_map (stand_at program.now.pool.now) r ≡ pure_stand_in (program_at program.now) label.now (routine_at program.now.pool.now routine.entry)) }
    ensures placed { IfOk result (λ r. IfSome r (IsPlaced program.now)) }
{
    let all = spots(alloc, routine.body, routine.exit)?;
    for i in 0..all.len() {
        let spot = all[i];
        let name = spot.label;
        let target = Target::Label(&name.name);
        let value = label_value(alloc, program.naming, routine.number, target)?;
        if *label == value {
            return Ok(first_stand(routine, &all, &name.name));
        }
    }
    Ok(None)
}

// The sum of two numbers. One past the largest number is more routines than memory has.
fn sum(m: usize, n: usize) -> Result<usize, AllocError>
    ensures { IfOk result (λ s. s ≡ m + n) }
{
    m.checked_add(n).ok_or(AllocError)
}

// The label of a procedure that a value of `pc` names, of the first that has one.
fn stand_in_procedures<'a>(
    alloc: Global,
    stage: &Stage<'a>,
    label: &Value,
) -> Result<Option<Stand<'a>>, AllocError>
    requires stage { IsStage stage.now }
    ensures found { IfOk result (λ r. option_map (stand_at stage.now.program.pool.now) r ≡ stand_by_spots (program_at stage.now.program) label.now (prepared_procedure_routines (program_at stage.now.program))) }
    ensures placed { IfOk result (λ r. IfSome r (IsPlaced stage.now.program)) }
{
    let first = stage.program.first_procedure();
    let procedures = stage.procedures;
    for i in 0..procedures.len() {
        let procedure = &procedures[i];
        let routine = Routine {
            number: sum(first, i)?,
            name: &procedure.name,
            params: &procedure.params,
            variables: &procedure.variables,
            spread: true,
            body: &procedure.body,
            exit: Target::Error,
        };
        match stand_in(alloc, &stage.program, routine, label)? {
            Some(stand) => return Ok(Some(stand)),
            None => {}
        }
    }
    Ok(None)
}

/// The label that a value of `pc` names for a process: of its own routine, or else of the first procedure that has one.
///
/// # Errors
///
/// Only for want of memory.
pub fn stand_named<'a>(
    alloc: Global,
    stage: &Stage<'a>,
    actor: &Actor<'a>,
    label: &Value,
) -> Result<Option<Stand<'a>>, AllocError>
    requires stage { IsStage stage.now }
    requires own { OneOf (routine_at stage.now.program.pool.now actor.now.own) (main_routines (program_at stage.now.program).algorithm (program_at stage.now.program).algorithm.main) }
    ensures found { IfOk result (λ r. option_map (stand_at stage.now.program.pool.now) r ≡ option_map (prepared_at (program_at stage.now.program)) (pure_stand_named (program_at stage.now.program) label.now (routines_of (program_at stage.now.program) (actor_at stage.now.program.pool.now actor.now)))) }
    ensures placed { IfOk result (λ r. IfSome r (IsPlaced stage.now.program)) }
{
    let own = own_routine(stage, &actor.own)?;
    match stand_in(alloc, &stage.program, own, label)? {
        Some(stand) => Ok(Some(stand)),
        None => stand_in_procedures(alloc, stage, label),
    }
}
