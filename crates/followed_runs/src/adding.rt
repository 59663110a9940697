//! The steps of a script, one after the other, with the text of each state.

ghost use Rattle.std.specs.Prelude.{IfOk};
ghost use Rattle.pcal_tree.specs.StepAnswers.{with_self};
ghost use Rattle.step_runner.specs.Followed.{landed};
ghost use Rattle.step_runner.specs.Shown.{state_text, turn_before, turns_text};
ghost use Rattle.step_moves.specs.StatesOf.{state_of};
ghost use Rattle.step_moves.specs.ScopeIn.{IsScene};
ghost use Rattle.written_runs.specs.Ways.{by_written_names, step_of_by, turns_followed_in};
ghost use Rattle.step_meaning.specs.Replies.{Replies};
ghost use Rattle.followed_runs.specs.Parties.{program_of, actors_of, IsParty};
ghost use Rattle.followed_runs.specs.Stopping.{Adds, Shows};

use crate::cause::{Stop, stopped};
use crate::party::Party;
use crate::taking::take;
use run_files::script::Turn;
use run_files::state::{Before, add_state};
use std::alloc::{AllocError, Global};
use step_meaning::Halt;
use tla_tree::Text;
use tla_value::state::State;

// Takes one step of a script, and adds the text of the state after it.
fn next_state(
    alloc: Global,
    party: &Party<'_>,
    one: &Turn,
    number: usize,
    state: State,
    text: &mut Text,
) -> Result<State, Halt>
    requires party { IsParty party.now }
    requires scene { IsScene party.now.stage.program state }
    ensures replies { Replies state_of result (landed (step_of_by by_written_names (program_of party.now) (state_of state) one.now.choices (with_self one.now.who (actors_of party.now)))) }
    ensures adds { Adds (state_text (program_of party.now) number (turn_before (program_of party.now) (state_of state) one.now.who)) text.old text.new result }
    ensures scene { IfOk result (IsScene party.now.stage.program) }
{
    let turned = take(alloc, party, one, state)?;
    let taken = turned.taken;
    let before = Before::Stepped {
        label: &taken.label,
        who: turned.actor.identifier.as_ref(),
        at: taken.place,
    };
    add_state(alloc, text, number, before, party.variables, &taken.state)?;
    Ok(taken.state)
}

/// Takes the steps of a script, one after the other, and adds the text of each state; with the step that isn't taken, if there is one.
///
/// # Errors
///
/// Only for want of memory.
pub fn add_turns(
    alloc: Global,
    party: &Party<'_>,
    turns: &[Turn],
    first: State,
    text: &mut Text,
) -> Result<Option<Stop>, AllocError>
    requires party { IsParty party.now }
    requires scene { IsScene party.now.stage.program first }
    ensures { IfOk result (λ o. Shows (turns_text (program_of party.now) 1 turns.now (state_of first)) text.old text.new o (turns_followed_in by_written_names (program_of party.now) (actors_of party.now) turns.now 1 (state_of first))) }
{
    let mut state = first;
    for i in 0..turns.len() {
        let number = i + 1;
        match next_state(alloc, party, &turns[i], number, state, text) {
            Ok(next) => state = next,
            Err(halt) => return stopped(number, halt),
        }
    }
    Ok(None)
}
