//! The step that leads to a state: of the first process whose it is, from the label where that is ("A PlusCal User's Manual", section 3.7,
//! labels).

ghost use Rattle.std.specs.Prelude.{◌≡◌, map, Ok, Some, IfOk, IfSome};
ghost use Rattle.std.specs.Option.{option_map};
ghost use Rattle.tla_tree.specs.Tree.{Word};
ghost use Rattle.tla_value.specs.Value.{text, Outcome};
ghost use Rattle.tla_value.specs.Value as pure;
ghost use Rattle.module_tree.specs.Module.{Module};
ghost use Rattle.pcal_tree.specs.Algorithm.{main_routines};
ghost use Rattle.pcal_tree.specs.Processes.{OneOf};
ghost use Rattle.pcal_tree.specs.Scope.{State as PureState};
ghost use Rattle.pcal_tree.specs.Step.{pc_of as pure_pc_of};
ghost use Rattle.step_moves.specs.InMemory.{actor_at};
ghost use Rattle.step_moves.specs.Programs.{program_at};
ghost use Rattle.step_runner.specs.Shown.{is_so, first_holding, step_before};
ghost use Rattle.step_spots.specs.InMemory.{routine_at};
ghost use Rattle.step_moves.specs.StatesOf.{state_of};
ghost use Rattle.value_forms.specs.Gives.{Tells};
ghost use Rattle.step_meaning.specs.Stages.{IsStage};
ghost use Rattle.action_truth.specs.AskedOf.{IsAsked};
ghost use Rattle.explained_traces.specs.Judging.{IsJudge, IsPair, mine_of, read_of};
ghost use Rattle.explained_traces.specs.Shows.{before_by, before_pair};

use crate::judge::{Judge, Pair};
use crate::verdicts::truth;
use action_truth::by_process;
use std::alloc::{AllocError, Global};
use step_meaning::Stage;
use step_meaning::stands::stand_named;
use step_moves::Actor;
use step_moves::reads::read;
use tla_token::Place;
use tla_tree::Name;
use tla_value::state::State;
use tla_value::stop::EvalStop;
use tla_value::value::{Kind, Value, copied};

/// The label from which a step is taken.
#[derive(Drop)]
pub struct Leaving<'a> {
    /// Its written name.
    pub label: Name,
    /// The identifier of the process, where there are processes.
    pub who: Option<&'a Value>,
    /// Where it is.
    pub place: Place,
}

// Whether what Next says of a process is true of a pair.
fn is_by(
    alloc: Global,
    judge: &Judge<'_>,
    pair: &Pair<'_>,
    actor: &Actor<'_>,
) -> Result<bool, AllocError>
    requires judge { IsJudge judge.now }
    requires pair { IsPair judge.now pair.now }
    ensures { IfOk result (λ b. (m : Module) → IsAsked judge.now.asked m → is_so (mine_of judge.now m pair.now actor.now.identifier) ≡ b) }
{
    let who = actor.identifier.as_ref();
    let so = truth(by_process(alloc, &judge.asked, pair.from, pair.to, who))?;
    Ok(so.unwrap_or(false))
}

// The first of some processes of which Next says what is true of a pair.
fn stepper<'a>(
    alloc: Global,
    judge: &Judge<'_>,
    pair: &Pair<'_>,
    actors: &'a [Actor<'a>],
) -> Result<Option<&'a Actor<'a>>, AllocError>
    requires judge { IsJudge judge.now }
    requires pair { IsPair judge.now pair.now }
    ensures found { IfOk result (λ o. (m : Module) → IsAsked judge.now.asked m → option_map (λ a. actor_at judge.now.party.stage.program.pool.now a.now) o ≡ first_holding (mine_of judge.now m pair.now) (map (actor_at judge.now.party.stage.program.pool.now) actors.now)) }
    ensures among { IfOk result (λ o. IfSome o (λ a. OneOf a.now actors.now)) }
{
    for actor in actors {
        if is_by(alloc, judge, pair, actor)? {
            return Ok(Some(actor));
        }
    }
    Ok(None)
}

// The value of a process's `pc`.
fn pc_of(
    alloc: Global,
    stage: &Stage<'_>,
    actor: &Actor<'_>,
    state: &State,
) -> Result<Value, EvalStop>
    requires stage { IsStage stage.now }
    ensures { Tells result (pure_pc_of (actor_at stage.now.program.pool.now actor.now) (state_of state.now)) }
{
    let mut path = Vec::new(alloc);
    if let Some(identifier) = &actor.identifier {
        path.push(copied(alloc, identifier)?)?;
    }
    let own = actor.own;
    let name = own.name;
    read(alloc, state, name.place, stage.pc, &path)
}

// What is read; none where it can't be.
fn readable(told: Result<Value, EvalStop>) -> Result<Option<Value>, AllocError>
    ensures { IfOk result (λ o. (v : Outcome pure.Value) → Tells told v → read_of v ≡ o) }
{
    match told {
        Ok(value) => Ok(Some(value)),
        Err(stop) => match stop {
            EvalStop::Memory => Err(AllocError),
            EvalStop::Fault(_, _) | EvalStop::Limit(_) => Ok(None),
        },
    }
}

// The word of a value of `pc` that names a label.
fn label_of(pc: Value) -> Result<Name, AllocError>
    ensures { IfOk result (λ r. (x : Word) → pc ≡ text x → r ≡ x) }
{
    match pc.kind {
        Kind::Text(word) => Ok(word),
        Kind::Bool(_) | Kind::Int(_) | Kind::Model(_) | Kind::Set(_) | Kind::Fun(_, _) => {
            Err(AllocError)
        }
    }
}

// The label that the value of a process's `pc` names; none where it names none.
fn label_named<'a>(
    alloc: Global,
    stage: &Stage<'a>,
    actor: &'a Actor<'a>,
    pc: Value,
) -> Result<Option<Leaving<'a>>, AllocError>
    requires stage { IsStage stage.now }
    requires own { OneOf (routine_at stage.now.program.pool.now actor.now.own) (main_routines (program_at stage.now.program).algorithm (program_at stage.now.program).algorithm.main) }
    ensures { IfOk result (λ o. (s : PureState) → pure_pc_of (actor_at stage.now.program.pool.now actor.now) s ≡ Ok pc → before_by o ≡ step_before (program_at stage.now.program) s (Some (actor_at stage.now.program.pool.now actor.now))) }
{
    match stand_named(alloc, stage, actor, &pc)? {
        Some(stand) => {
            let label = label_of(pc)?;
            let name = stand.spot.label;
            Ok(Some(Leaving {
                label,
                who: actor.identifier.as_ref(),
                place: name.place,
            }))
        }
        None => Ok(None),
    }
}

/// The label from which the step to the state of a pair is taken; none where what Next says of no process is true of the pair,
/// or where the process's `pc` names no label.
///
/// # Errors
///
/// Only for want of memory.
pub fn step_to<'a>(
    alloc: Global,
    judge: &Judge<'a>,
    pair: &Pair<'_>,
) -> Result<Option<Leaving<'a>>, AllocError>
    requires judge { IsJudge judge.now }
    requires pair { IsPair judge.now pair.now }
    ensures { IfOk result (λ o. (m : Module) → IsAsked judge.now.asked m → before_by o ≡ before_pair judge.now m pair.now) }
{
    let party = judge.party;
    match stepper(alloc, judge, pair, party.actors)? {
        Some(actor) => match readable(pc_of(alloc, &party.stage, actor, pair.from))? {
            Some(pc) => label_named(alloc, &party.stage, actor, pc),
            None => Ok(None),
        },
        None => Ok(None),
    }
}
