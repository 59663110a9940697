//! Following a script.

ghost use Rattle.std.specs.Prelude.{◌≡◌, IfOk};
ghost use Rattle.pcal_tree.specs.Variables.{vars};
ghost use Rattle.step_moves.specs.Programs.{program_at};
ghost use Rattle.step_runner.specs.Shown.{run_text};
ghost use Rattle.step_moves.specs.StatesOf.{state_of};
ghost use Rattle.step_moves.specs.ScopeIn.{IsScene};
ghost use Rattle.written_runs.specs.WrittenRuns.{begun_in, followed_in, followed_once};
ghost use Rattle.run_files.specs.Turns.{script_of};
ghost use Rattle.step_meaning.specs.Replies.{Replies};
ghost use Rattle.step_meaning.specs.Stages.{IsStage};
ghost use Rattle.followed_runs.specs.Parties.{program_of, actors_of, IsParty};
ghost use Rattle.followed_runs.specs.Stopping.{stop_of, Shows};

use crate::adding::add_turns;
use crate::cause::{Stop, stopped};
use crate::party::Party;
use run_files::script::Script;
use run_files::state::{Before, add_state};
use std::alloc::{AllocError, Global};
use step_meaning::{Halt, Origin, Stage, start};
use step_moves::actors;
use tla_tree::{Name, Text};
use tla_value::state::State;

/// A script that was followed, to its end or as far as it can be.
#[derive(Drop)]
pub struct Followed {
    /// The text of the states.
    pub text: Vec<u8>,
    /// The step that isn't taken, and why; none where the whole script was followed.
    pub stop: Option<Stop>,
}

// The start, by choices that are all used.
fn begun(alloc: Global, party: &Party<'_>, choices: &[u32]) -> Result<State, Halt>
    requires party { IsParty party.now }
    ensures replies { Replies state_of result (begun_in (program_of party.now) choices.now (actors_of party.now)) }
    ensures scene { IfOk result (IsScene party.now.stage.program) }
{
    let stage = party.stage;
    let program = stage.program;
    let origin = Origin {
        program,
        procedures: stage.procedures,
        main: stage.main,
        variables: party.variables,
        this: stage.this,
    };
    let begin = start(alloc, &origin, party.actors, choices)?;
    if begin.used < choices.len() {
        let algorithm = program.algorithm;
        return Err(Halt::TooManyChoices(algorithm.name.place));
    }
    Ok(begin.state)
}

// Follows a script, and adds the text of the states; with the step that isn't taken, if there is one.
fn add_run(
    alloc: Global,
    party: &Party<'_>,
    script: &Script,
    text: &mut Text,
) -> Result<Option<Stop>, AllocError>
    requires party { IsParty party.now }
    ensures { IfOk result (λ o. Shows (run_text (program_of party.now) (script_of script.now).turns) text.old text.new o (followed_in (program_of party.now) (script_of script.now) (actors_of party.now))) }
{
    match begun(alloc, party, &script.choices) {
        Ok(state) => {
            add_state(alloc, text, 0, Before::Initial, party.variables, &state)?;
            add_turns(alloc, party, &script.turns, state, text)
        }
        Err(halt) => stopped(0, halt),
    }
}

// Tells the processes, follows a script by their steps, and adds the text of the states.
fn add_all(
    alloc: Global,
    stage: &Stage<'_>,
    variables: &[Name],
    script: &Script,
    text: &mut Text,
) -> Result<Option<Stop>, AllocError>
    requires stage { IsStage stage.now }
    requires variables { variables.now ≡ vars (program_at stage.now.program) }
    ensures { IfOk result (λ o. Shows (run_text (program_at stage.now.program) (script_of script.now).turns) text.old text.new o (followed_once (program_at stage.now.program) (script_of script.now))) }
{
    match actors(alloc, &stage.program) {
        Ok(actors) => {
            let party = Party {
                stage: *stage,
                variables,
                actors: &actors,
            };
            add_run(alloc, &party, script, text)
        }
        Err(stop) => stopped(0, Halt::from(stop)),
    }
}

/// Follows a script: the start by its choices ("A PlusCal User's Manual", sections 3.3 and 3.4), and then each step of it by the process
/// that it names and by its choices (section 3.7, labels). The text has each state with its number and with what came before it.
///
/// # Errors
///
/// Only for want of memory.
pub fn follow(
    alloc: Global,
    stage: &Stage<'_>,
    variables: &[Name],
    script: &Script,
) -> Result<Followed, AllocError>
    requires stage { IsStage stage.now }
    requires variables { variables.now ≡ vars (program_at stage.now.program) }
    ensures text { IfOk result (λ f. f.text.items ≡ run_text (program_at stage.now.program) (script_of script.now).turns (followed_once (program_at stage.now.program) (script_of script.now)).states) }
    ensures stop { IfOk result (λ f. stop_of f.stop ≡ (followed_once (program_at stage.now.program) (script_of script.now)).stop) }
{
    let mut text = Text::new(Vec::new(alloc));
    let stop = add_all(alloc, stage, variables, script, &mut text)?;
    Ok(Followed {
        text: text.into_bytes(),
        stop,
    })
}
