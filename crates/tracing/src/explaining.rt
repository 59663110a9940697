//! A trace of a checked algorithm, explained beside its translation.

ghost use Rattle.std.specs.Prelude.{IfOk};
ghost use Rattle.std.specs.List.{AllByRecursion};
ghost use Rattle.tla_value.specs.States.{Entries};
ghost use Rattle.module_tree.specs.Module.{Module};
ghost use Rattle.step_moves.specs.StatesOf.{HasJust};
ghost use Rattle.running.specs.GroundsOf.{AreGrounds};
ghost use Rattle.running.specs.Ready.{CanRun, program_read};
ghost use Rattle.tracing.specs.Beside.{variables_read};
ghost use Rattle.tracing.specs.Explained.{IsExplained, IsExplainedOnce, CanExplain};
ghost use Rattle.tracing.specs.Translated.{StandsFor, IsWithin};

use crate::beside::ReadBeside;
use crate::translated::Translation;
use action_truth::{Asked, titles};
use checking::check::Checked;
use explained_traces::{Explained, explain};
use running::{Grounds, run_definitions, stage, with_default};
use std::alloc::{AllocError, Global};
use step_moves::Program;
use tla_pool::Pool;
use tla_value::state::State;

// A trace of a program, explained from what was made of it, beside a translation.
fn explained_from(
    alloc: Global,
    made: &Grounds,
    program: Program<'_>,
    translation: &Translation,
    trace: &[State],
) -> Result<Explained, AllocError>
    requires can { CanExplain program made.now trace.now }
    requires within { IsWithin translation.now }
    ensures { IfOk result (λ e. (m : Module) → StandsFor translation.now m → IsExplainedOnce program.entry m trace.now e) }
{
    let from = stage(made, program);
    let actions = translation.region.actions.as_slice();
    let titles = titles(alloc, actions)?;
    let nothing = State::new(alloc);
    let asked = Asked {
        pool: &translation.pool,
        region: &translation.region,
        defs: &translation.defs,
        constants: program.constants,
        titles: &titles,
        nothing: &nothing,
    };
    let variables = made.variables.as_slice();
    explain(alloc, &from, variables, &asked, trace)
}

/// The trace that was read beside a checked algorithm, explained by the algorithm and by its translation, over a pool that grows no more.
///
/// # Errors
///
/// Only for want of memory.
pub fn explained_beside(
    alloc: Global,
    pool: &Pool,
    checked: &Checked,
    read: ReadBeside,
    translation: &Translation,
) -> Result<Explained, AllocError>
    requires can { CanRun pool.now checked.now }
    requires made { (es : Entries) → AreGrounds pool.now read.made (program_read pool.now checked.now es) }
    requires states { AllByRecursion (HasJust (variables_read pool.now checked.now)) read.trace.items }
    requires within { IsWithin translation.now }
    ensures { IfOk result (λ e. (m : Module) → StandsFor translation.now m → IsExplained (program_read pool.now checked.now read.constants) m read.trace.items e) }
{
    let ReadBeside {
        constants,
        made,
        trace,
    } = read;
    let outside = checked.outside.definitions.as_slice();
    let defs = run_definitions(alloc, outside, &checked.algorithm)?;
    let values = with_default(alloc, constants)?;
    let program = Program {
        pool,
        algorithm: &checked.algorithm,
        constants: &values,
        defs: &defs,
        outside: outside.len(),
        naming: &checked.naming,
    };
    let states = trace.as_slice();
    explained_from(alloc, &made, program, translation, states)
}
