//! One step of a process by a list of choices ("A PlusCal User's Manual", section 3.7, labels).

ghost use Rattle.std.specs.Prelude.{◌≡◌, ◌≤◌, [], length, Some, OnOk, IfOk};
ghost use Rattle.tla_tree.specs.Tree.{Word};
ghost use Rattle.tla_value.specs.Value.{text};
ghost use Rattle.pcal_tree.specs.Algorithm.{Routine as PureRoutine, main_routines};
ghost use Rattle.pcal_tree.specs.InMemory.{past_statements};
ghost use Rattle.pcal_tree.specs.Processes.{OneOf};
ghost use Rattle.pcal_tree.specs.Program.{Actor as PureActor};
ghost use Rattle.pcal_tree.specs.Step.{pc_of as pure_pc_of, Stand as PureStand};
ghost use Rattle.pcal_tree.specs.StepAnswers.{replied, label_place};
ghost use Rattle.value_forms.specs.Gives.{Tells};
ghost use Rattle.step_runner.specs.Shown.{step_before, stepped as from_label};
ghost use Rattle.step_walks.specs.WrittenFlows.{written_flow_by};
ghost use Rattle.step_moves.specs.Runners.{IsRunner};
ghost use Rattle.step_flow.specs.Ends.{Stands};
ghost use Rattle.step_spots.specs.InMemory.{routine_at};
ghost use Rattle.step_moves.specs.Programs.{program_at};
ghost use Rattle.step_moves.specs.StatesOf.{state_of};
ghost use Rattle.action_builder.specs.laws.WrittenScope.{written_scope};
ghost use Rattle.step_moves.specs.ScopeIn.{scope_in, IsScene};
ghost use Rattle.step_moves.specs.InMemory.{actor_at};
ghost use Rattle.written_runs.specs.Ways.{by_written_names, step_of_by};
ghost use Rattle.step_meaning.specs.Replies.{Replies};
ghost use Rattle.step_meaning.specs.Stages.{IsStage};
ghost use Rattle.step_meaning.specs.StandsAt.{IsPlaced, IsStandOf};
ghost use Rattle.step_meaning.specs.Walks.{walk_of, Walks};

use crate::halt::Halt;
use crate::stage::Stage;
use crate::stands::{Stand, stand_named};
use std::alloc::{AllocError, Global};
use step_choices::Pause;
use step_flow::going::go_to;
use step_flow::{End, Going, flow};
use step_moves::reads::read;
use step_moves::{Actor, Bound, Runner};
use step_spots::Target;
use step_spots::walk::Spot;
use tla_token::Place;
use tla_tree::Name;
use tla_value::state::State;
use tla_value::stop::EvalStop;
use tla_value::value::{Kind, Value, copied};

/// A step that was taken.
#[derive(Drop)]
pub struct Taken {
    /// The state after it.
    pub state: State,
    /// The written name of the label from which it was taken.
    pub label: Name,
    /// Where that label is.
    pub place: Place,
}

// The value of a process's `pc`.
fn pc_of(
    alloc: Global,
    stage: &Stage<'_>,
    actor: &Actor<'_>,
    state: &State,
) -> Result<Value, EvalStop>
    requires stage { IsStage stage.now }
    ensures { Tells result (pure_pc_of (actor_at stage.now.program.pool.now actor.now) (state_of state.now)) }
{
    let mut path = Vec::new(alloc);
    if let Some(identifier) = &actor.identifier {
        path.push(copied(alloc, identifier)?)?;
    }
    let own = actor.own;
    let name = own.name;
    read(alloc, state, name.place, stage.pc, &path)
}

// The word of a value of `pc` that names a label.
fn label_of(pc: Value) -> Result<Name, AllocError>
    ensures { IfOk result (λ r. (x : Word) → pc ≡ text x → r ≡ x) }
{
    match pc.kind {
        Kind::Text(word) => Ok(word),
        Kind::Bool(_) | Kind::Int(_) | Kind::Model(_) | Kind::Set(_) | Kind::Fun(_, _) => {
            Err(AllocError)
        }
    }
}

// Goes through the statements after a label, and jumps to their exit where they fall through.
fn walk_from(
    alloc: Global,
    runner: &Runner<'_>,
    choices: &[u32],
    spot: &Spot<'_>,
    going: &mut Going,
) -> Result<(), Pause>
    requires below { past_statements spot.now.items.now ≤ length runner.now.program.pool.now }
    requires stands { Stands runner.now going.old }
    ensures walks { (v : PureActor) (u : PureRoutine) → IsRunner runner.now v u → Walks result going.new choices.now (walk_of runner.now v u spot.now going.old choices.now) }
    ensures stands { OnOk result (Stands runner.now going.new) }
{
    let label = spot.label;
    let here = Target::Label(&label.name);
    let end = flow(alloc, runner, choices, spot.items, here, spot.exit, going)?;
    match end {
        End::Over => Ok(()),
        End::Falls => {
            go_to(alloc, runner, choices, spot.exit, going)?;
            Ok(())
        }
    }
}

// What is bound where a process is: `self`, where there are processes.
fn own_bound(alloc: Global, stage: &Stage<'_>, actor: &Actor<'_>) -> Result<Bound, AllocError>
    requires stage { IsStage stage.now }
    ensures scope { IfOk result (λ r. scope_in (program_at stage.now.program) r.names.items r.values.items ≡ written_scope (program_at stage.now.program) [] (actor_at stage.now.program.pool.now actor.now)) }
    ensures paired { IfOk result (λ r. length r.names.items ≡ length r.values.items) }
{
    let mut names = Vec::new(alloc);
    let mut values = Vec::new(alloc);
    if let Some(identifier) = &actor.identifier {
        names.push(stage.this.copied()?)?;
        values.push(copied(alloc, identifier)?)?;
    }
    Ok(Bound { names, values })
}

// The state after the step of a process from where it is.
fn state_after(
    alloc: Global,
    stage: &Stage<'_>,
    actor: &Actor<'_>,
    stand: Stand<'_>,
    state: State,
    choices: &[u32],
) -> Result<State, Halt>
    requires stage { IsStage stage.now }
    requires scene { IsScene stage.now.program state }
    requires placed { IsPlaced stage.now.program stand }
    requires stand { (d : PureStand) × IsStandOf stage.now stand d }
    ensures replied { (d : PureStand) → IsStandOf stage.now stand.entry d → Replies (λ s. state_of s) result (replied (λ s. s) (label_place d.routine d.label) (written_flow_by (program_at stage.now.program) [] (actor_at stage.now.program.pool.now actor.now) d (state_of state) choices.now)) }
    ensures scene { IfOk result (λ s. IsScene stage.now.program s) }
{
    let runner = stage.runner(actor, stand.routine);
    let bound = own_bound(alloc, stage, actor)?;
    let mut going = Going {
        state,
        bound,
        used: 0,
    };
    walk_from(alloc, &runner, choices, &stand.spot, &mut going)?;
    if going.used < choices.len() {
        let label = stand.spot.label;
        return Err(Halt::TooManyChoices(label.place));
    }
    Ok(going.state)
}

/// Takes one step of a process, from the label that its `pc` names, by a list of choices.
///
/// # Errors
///
/// For want of memory, and exactly where the step can't be taken: where `pc` can't be read or names no label, where something has no value
/// or is past the limits of a run, where the process is held, where a choice is missing or is none of those there are, and where choices
/// are left over.
pub fn step(
    alloc: Global,
    stage: &Stage<'_>,
    actor: &Actor<'_>,
    state: State,
    choices: &[u32],
) -> Result<Taken, Halt>
    requires stage { IsStage stage.now }
    requires own { OneOf (routine_at stage.now.program.pool.now actor.now.own) (main_routines (program_at stage.now.program).algorithm (program_at stage.now.program).algorithm.main) }
    requires scene { IsScene stage.now.program state }
    ensures stepped { Replies (λ r. (state_of r.state, r.label)) result (step_of_by by_written_names (program_at stage.now.program) (state_of state) choices.now (Some (actor_at stage.now.program.pool.now actor.now))) }
    ensures before { IfOk result (λ r. step_before (program_at stage.now.program) (state_of state) (Some (actor_at stage.now.program.pool.now actor.now)) ≡ from_label r.label actor.now.identifier r.place) }
    ensures scene { IfOk result (λ r. IsScene stage.now.program r.state) }
{
    let pc = pc_of(alloc, stage, actor, &state)?;
    match stand_named(alloc, stage, actor, &pc)? {
        Some(stand) => {
            let label = label_of(pc)?;
            let name = stand.spot.label;
            let after = state_after(alloc, stage, actor, stand, state, choices)?;
            Ok(Taken {
                state: after,
                label,
                place: name.place,
            })
        }
        None => Err(Halt::NoLabel),
    }
}
