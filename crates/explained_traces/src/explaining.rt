//! Explaining a trace.

ghost use Rattle.std.specs.Prelude.{◌≡◌, List, map, IfOk};
ghost use Rattle.std.specs.List.{AllByRecursion};
ghost use Rattle.tla_value.specs.States.{value_of};
ghost use Rattle.pcal_tree.specs.Variables.{vars};
ghost use Rattle.module_tree.specs.Module.{Module};
ghost use Rattle.step_runner.specs.Shown.{trace_text};
ghost use Rattle.step_moves.specs.Programs.{program_at};
ghost use Rattle.step_moves.specs.StatesOf.{state_of, HasJust};
ghost use Rattle.step_meaning.specs.Stages.{IsStage};
ghost use Rattle.action_truth.specs.AskedOf.{IsAsked, IsReady};
ghost use Rattle.followed_runs.specs.Parties.{program_of, actors_of};
ghost use Rattle.written_traces.specs.WrittenTraces.{states_explained_once, explained_once};
ghost use Rattle.explained_traces.specs.Halts.{halt_of};
ghost use Rattle.explained_traces.specs.Judging.{IsJudge, IsState};
ghost use Rattle.explained_traces.specs.Shows.{Shows};

use crate::judge::Judge;
use crate::pairs::add_pairs;
use crate::verdicts::{start_halt, trouble_by};
use action_truth::Asked;
use followed_runs::party::Party;
use run_files::Trouble;
use run_files::state::{Before, add_state};
use std::alloc::{AllocError, Global};
use step_meaning::Stage;
use step_moves::actors;
use tla_tree::{Name, Text};
use tla_value::state::State;

/// Why a trace stops before its end.
#[derive(Clone, Copy)]
pub enum Halt {
    /// State 0 isn't initial, or the state of this number is no step.
    Untrue(usize),
    /// It can't be told, for this trouble.
    Troubled(Trouble),
}

/// A trace that was explained, to its end or as far as it can be.
#[derive(Drop)]
pub struct Explained {
    /// The text of the states.
    pub text: Vec<u8>,
    /// Why it stops before its end; none where all states are shown.
    pub halt: Option<Halt>,
}

// Looks at the states of a trace, one after the other, and adds the text of each; with why it stops, if it does.
fn add_states(
    alloc: Global,
    judge: &Judge<'_>,
    trace: &[State],
    text: &mut Text,
) -> Result<Option<Halt>, AllocError>
    requires judge { IsJudge judge.now }
    requires trace { AllByRecursion (IsState judge.now) trace.now }
    ensures { IfOk result (λ o. (m : Module) → IsAsked judge.now.asked m → Shows (trace_text (program_of judge.now.party) m (value_of judge.now.asked.constants.now)) text.old text.new o (states_explained_once (program_of judge.now.party) m (value_of judge.now.asked.constants.now) (actors_of judge.now.party) (map state_of trace.now))) }
{
    match trace.split_first() {
        Some((first, rest)) => match start_halt(alloc, judge, first)? {
            Some(halt) => Ok(Some(halt)),
            None => {
                let party = judge.party;
                add_state(alloc, text, 0, Before::Initial, party.variables, first)?;
                add_pairs(alloc, judge, first, rest, text)
            }
        },
        None => Ok(None),
    }
}

// Tells the processes, looks at the states of a trace, and adds the text of each; with why it stops, if it does.
fn add_all(
    alloc: Global,
    stage: &Stage<'_>,
    variables: &[Name],
    asked: &Asked<'_>,
    trace: &[State],
    text: &mut Text,
) -> Result<Option<Halt>, AllocError>
    requires stage { IsStage stage.now }
    requires variables { variables.now ≡ vars (program_at stage.now.program) }
    requires ready { IsReady asked.now }
    requires states { AllByRecursion (HasJust (vars (program_at stage.now.program))) trace.now }
    ensures { IfOk result (λ o. (m : Module) → IsAsked asked.now m → Shows (trace_text (program_at stage.now.program) m (value_of asked.now.constants.now)) text.old text.new o (explained_once (program_at stage.now.program) m (value_of asked.now.constants.now) (map state_of trace.now))) }
{
    match actors(alloc, &stage.program) {
        Ok(actors) => {
            let party = Party {
                stage: *stage,
                variables,
                actors: &actors,
            };
            let judge = Judge {
                party,
                asked: *asked,
            };
            add_states(alloc, &judge, trace, text)
        }
        Err(stop) => Ok(Some(Halt::Troubled(trouble_by(stop)?))),
    }
}

/// Explains a trace: state 0 is to be initial, and each next one a step from the state before. The text has each state with its number and
/// with the step that leads to it, of the first process whose it is ("Specifying Systems", section 2.3).
///
/// # Errors
///
/// Only for want of memory.
pub fn explain(
    alloc: Global,
    stage: &Stage<'_>,
    variables: &[Name],
    asked: &Asked<'_>,
    trace: &[State],
) -> Result<Explained, AllocError>
    requires stage { IsStage stage.now }
    requires variables { variables.now ≡ vars (program_at stage.now.program) }
    requires ready { IsReady asked.now }
    requires constants { asked.now.constants.now ≡ stage.now.program.constants.now }
    requires states { AllByRecursion (HasJust (vars (program_at stage.now.program))) trace.now }
    ensures text { IfOk result (λ r. (m : Module) → IsAsked asked.now m → r.text.items ≡ trace_text (program_at stage.now.program) m (value_of asked.now.constants.now) (explained_once (program_at stage.now.program) m (value_of asked.now.constants.now) (map state_of trace.now)).states) }
    ensures halt { IfOk result (λ r. (m : Module) → IsAsked asked.now m → halt_of r.halt ≡ (explained_once (program_at stage.now.program) m (value_of asked.now.constants.now) (map state_of trace.now)).halt) }
{
    let mut text = Text::new(Vec::new(alloc));
    let halt = add_all(alloc, stage, variables, asked, trace, &mut text)?;
    Ok(Explained {
        text: text.into_bytes(),
        halt,
    })
}
