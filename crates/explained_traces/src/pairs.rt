//! The states of a trace after the first, one after the other, with the text of each.

ghost use Rattle.std.specs.Prelude.{◌≡◌, ◌++◌, List, map, IfOk, OnOk};
ghost use Rattle.std.specs.List.{AllByRecursion};
ghost use Rattle.tla_value.specs.States.{value_of};
ghost use Rattle.module_tree.specs.Module.{Module};
ghost use Rattle.step_runner.specs.Shown.{pairs_text};
ghost use Rattle.step_moves.specs.StatesOf.{state_of};
ghost use Rattle.action_truth.specs.AskedOf.{IsAsked};
ghost use Rattle.followed_runs.specs.Parties.{program_of, actors_of};
ghost use Rattle.written_traces.specs.WrittenTraces.{pairs_explained_once};
ghost use Rattle.explained_traces.specs.Judging.{IsJudge, IsState, IsPair};
ghost use Rattle.explained_traces.specs.Shows.{pair_text, Shows};

use crate::befores::step_to;
use crate::explaining::Halt;
use crate::judge::{Judge, Pair};
use crate::verdicts::pair_halt;
use run_files::state::{Before, add_state};
use std::alloc::{AllocError, Global};
use tla_tree::Text;
use tla_value::state::State;

// Adds the text of the state of a pair, behind the step that leads to it.
fn add_second(
    alloc: Global,
    judge: &Judge<'_>,
    pair: &Pair<'_>,
    text: &mut Text,
) -> Result<(), AllocError>
    requires judge { IsJudge judge.now }
    requires pair { IsPair judge.now pair.now }
    ensures { OnOk result ((m : Module) → IsAsked judge.now.asked m → text.new ≡ text.old ++ pair_text judge.now m pair.now) }
{
    let party = judge.party;
    let names = party.variables;
    match step_to(alloc, judge, pair)? {
        Some(leaving) => {
            let before = Before::Stepped {
                label: &leaving.label,
                who: leaving.who,
                at: leaving.place,
            };
            add_state(alloc, text, pair.number, before, names, pair.to)
        }
        None => add_state(
            alloc,
            text,
            pair.number,
            Before::Terminating,
            names,
            pair.to,
        ),
    }
}

/// Looks at the states of a trace after the first, one after the other, and adds the text of each; with why the trace stops, if it does.
///
/// # Errors
///
/// Only for want of memory.
pub fn add_pairs(
    alloc: Global,
    judge: &Judge<'_>,
    first: &State,
    rest: &[State],
    text: &mut Text,
) -> Result<Option<Halt>, AllocError>
    requires judge { IsJudge judge.now }
    requires first { IsState judge.now first.now }
    requires rest { AllByRecursion (IsState judge.now) rest.now }
    ensures { IfOk result (λ o. (m : Module) → IsAsked judge.now.asked m → Shows (pairs_text (program_of judge.now.party) m (value_of judge.now.asked.constants.now) 1 (state_of first.now)) text.old text.new o (pairs_explained_once (program_of judge.now.party) m (value_of judge.now.asked.constants.now) (actors_of judge.now.party) 1 (state_of first.now) (map state_of rest.now))) }
{
    let mut from = first;
    for i in 0..rest.len() {
        let to = &rest[i];
        let number = i + 1;
        let pair = Pair { number, from, to };
        match pair_halt(alloc, judge, &pair)? {
            Some(halt) => return Ok(Some(halt)),
            None => add_second(alloc, judge, &pair, text)?,
        }
        from = to;
    }
    Ok(None)
}
