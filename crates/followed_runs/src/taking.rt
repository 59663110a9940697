//! One step of a script.

ghost use Rattle.std.specs.Prelude.{◌≡◌, map, List, IfOk, IfSome};
ghost use Rattle.std.specs.Option.{option_map};
ghost use Rattle.tla_tree.specs.Tree.{Tree};
ghost use Rattle.pcal_tree.specs.Processes.{OneOf};
ghost use Rattle.pcal_tree.specs.StepAnswers.{is_self, with_self};
ghost use Rattle.step_moves.specs.InMemory.{actor_at};
ghost use Rattle.step_runner.specs.Shown.{step_before, stepped as from_label};
ghost use Rattle.step_moves.specs.StatesOf.{state_of};
ghost use Rattle.step_moves.specs.ScopeIn.{IsScene};
ghost use Rattle.written_runs.specs.Ways.{by_written_names, step_of_by};
ghost use Rattle.step_meaning.specs.Replies.{Replies};
ghost use Rattle.followed_runs.specs.Parties.{program_of, actors_of, IsParty};

use crate::party::Party;
use run_files::script::Turn;
use std::alloc::Global;
use step_meaning::{Halt, Taken, step};
use step_moves::Actor;
use tla_value::state::State;
use tla_value::value::Value;

/// A step that was taken, with the process that took it.
#[derive(Drop)]
pub struct Turned<'a> {
    /// The step.
    pub taken: Taken,
    /// The process.
    pub actor: &'a Actor<'a>,
}

// Whether it is the identifier of a process; the one body has none.
fn is_of(who: &Option<Value>, actor: &Actor<'_>) -> bool
    ensures { result ≡ is_self who.now actor.now.identifier }
{
    match who {
        Some(v) => match &actor.identifier {
            Some(w) => v == w,
            None => false,
        },
        None => actor.identifier.is_none(),
    }
}

// The process that has the identifier.
fn actor_of<'a>(actors: &'a [Actor<'a>], who: &Option<Value>) -> Option<&'a Actor<'a>>
    ensures found { (ts : List Tree) → option_map (λ a. actor_at ts a.now) result ≡ with_self who.now (map (actor_at ts) actors.now) }
    ensures among { IfSome result (λ a. OneOf a.now actors.now) }
{
    for actor in actors {
        if is_of(who, actor) {
            return Some(actor);
        }
    }
    None
}

/// Takes one step of a script, by the process that it names.
///
/// # Errors
///
/// For want of memory, and exactly where the step can't be taken: where no process has the identifier, and where the step of the one that
/// has it can't be.
pub fn take<'a>(
    alloc: Global,
    party: &Party<'a>,
    one: &Turn,
    state: State,
) -> Result<Turned<'a>, Halt>
    requires party { IsParty party.now }
    requires scene { IsScene party.now.stage.program state }
    ensures replies { Replies (λ r. (state_of r.taken.state, r.taken.label)) result (step_of_by by_written_names (program_of party.now) (state_of state) one.now.choices (with_self one.now.who (actors_of party.now))) }
    ensures before { IfOk result (λ r. step_before (program_of party.now) (state_of state) (with_self one.now.who (actors_of party.now)) ≡ from_label r.taken.label r.actor.now.identifier r.taken.place) }
    ensures scene { IfOk result (λ r. IsScene party.now.stage.program r.taken.state) }
{
    let actors = party.actors;
    match actor_of(actors, &one.who) {
        Some(actor) => {
            let taken = step(alloc, &party.stage, actor, state, &one.choices)?;
            Ok(Turned { taken, actor })
        }
        None => Err(Halt::NoLabel),
    }
}
