//! What the formulas of a module say of states, and why a trace stops by it ("Specifying Systems", section 2.3).

ghost use Rattle.std.specs.Prelude.{◌≡◌, List, Err, IfOk};
ghost use Rattle.std.specs.Option.{option_map};
ghost use Rattle.module_tree.specs.ActionTruth.{Verdict};
ghost use Rattle.module_tree.specs.Module.{Module};
ghost use Rattle.pcal_tree.specs.Program.{Actor};
ghost use Rattle.run_files.specs.InMemory.{trouble_of};
ghost use Rattle.step_moves.specs.Programs.{program_at};
ghost use Rattle.step_runner.specs.Explained.{told, troubled};
ghost use Rattle.step_moves.specs.StatesOf.{state_of};
ghost use Rattle.value_forms.specs.Gives.{Stops, Tells};
ghost use Rattle.tla_value.specs.Value.{Outcome};
ghost use Rattle.action_truth.specs.AskedOf.{IsAsked};
ghost use Rattle.followed_runs.specs.Parties.{program_of, actors_of, IsParty};
ghost use Rattle.written_traces.specs.WrittenTraces.{written_start_trouble};
ghost use Rattle.explained_traces.specs.Halts.{halt_by, halt_of};
ghost use Rattle.explained_traces.specs.Judging.{IsJudge, IsState, IsPair, truth_of, pair_halts, start_halts};

use crate::explaining::Halt;
use crate::judge::{Judge, Pair};
use action_truth::{holds, starts};
use followed_runs::first_trouble;
use run_files::Trouble;
use start_troubles::start_trouble;
use std::alloc::{AllocError, Global};
use step_meaning::Origin;
use step_moves::Program;
use tla_value::state::State;
use tla_value::stop::EvalStop;

/// Whether it is so; none where this is neither true nor false.
///
/// # Errors
///
/// Only for want of memory.
pub fn truth(told: Result<bool, EvalStop>) -> Result<Option<bool>, AllocError>
    ensures { IfOk result (λ o. (v : Verdict) → Tells told v → truth_of v ≡ o) }
{
    match told {
        Ok(so) => Ok(Some(so)),
        Err(stop) => match stop {
            EvalStop::Memory => Err(AllocError),
            EvalStop::Fault(_, _) | EvalStop::Limit(_) => Ok(None),
        },
    }
}

/// The trouble where the processes can't be told.
///
/// # Errors
///
/// Only for want of memory.
pub fn trouble_by(stop: EvalStop) -> Result<Trouble, AllocError>
    ensures { IfOk result (λ t. (p : Outcome (List Actor)) → Stops stop p → p ≡ Err (trouble_of t)) }
{
    match stop {
        EvalStop::Memory => Err(AllocError),
        EvalStop::Fault(kind, place) => Ok(Trouble::Fault(kind, place)),
        EvalStop::Limit(place) => Ok(Trouble::Limit(place)),
    }
}

// Stops by the trouble that is found. Where there is none a formula alone passes a limit, and that is told at the algorithm's name.
fn troubled_by(program: &Program<'_>, found: Option<Trouble>) -> Halt
    ensures { halt_by result ≡ troubled (told (program_at program.now) (option_map trouble_of found)) }
{
    let algorithm = program.algorithm;
    let at = algorithm.name.place;
    Halt::Troubled(found.unwrap_or(Trouble::Limit(at)))
}

/// Why a trace stops at the state of a pair; none where it is a step.
///
/// # Errors
///
/// Only for want of memory.
pub fn pair_halt(
    alloc: Global,
    judge: &Judge<'_>,
    pair: &Pair<'_>,
) -> Result<Option<Halt>, AllocError>
    requires judge { IsJudge judge.now }
    requires pair { IsPair judge.now pair.now }
    ensures { IfOk result (λ o. (m : Module) → IsAsked judge.now.asked m → halt_of o ≡ pair_halts judge.now m pair.now) }
{
    match truth(holds(alloc, &judge.asked, pair.from, pair.to))? {
        Some(true) => Ok(None),
        Some(false) => Ok(Some(Halt::Untrue(pair.number))),
        None => {
            let party = judge.party;
            let found = first_trouble(alloc, &party, pair.from)?;
            Ok(Some(troubled_by(&party.stage.program, found)))
        }
    }
}

// The trouble that is met while it is looked whether a state is initial.
fn trouble_at_start(
    alloc: Global,
    judge: &Judge<'_>,
    state: &State,
) -> Result<Option<Trouble>, AllocError>
    requires judge { IsJudge judge.now }
    requires state { IsState judge.now state.now }
    ensures { IfOk result (λ o. option_map trouble_of o ≡ written_start_trouble (program_of judge.now.party) (actors_of judge.now.party) (state_of state.now)) }
{
    let party = judge.party;
    let stage = party.stage;
    let origin = Origin {
        program: stage.program,
        procedures: stage.procedures,
        main: stage.main,
        variables: party.variables,
        this: stage.this,
    };
    start_trouble(alloc, &origin, party.actors, state)
}

/// Why a trace stops at its first state; none where that is initial.
///
/// # Errors
///
/// Only for want of memory.
pub fn start_halt(
    alloc: Global,
    judge: &Judge<'_>,
    state: &State,
) -> Result<Option<Halt>, AllocError>
    requires judge { IsJudge judge.now }
    requires state { IsState judge.now state.now }
    ensures { IfOk result (λ o. (m : Module) → IsAsked judge.now.asked m → halt_of o ≡ start_halts judge.now m state.now) }
{
    match truth(starts(alloc, &judge.asked, state))? {
        Some(true) => Ok(None),
        Some(false) => Ok(Some(Halt::Untrue(0))),
        None => {
            let party = judge.party;
            let found = trouble_at_start(alloc, judge, state)?;
            Ok(Some(troubled_by(&party.stage.program, found)))
        }
    }
}
