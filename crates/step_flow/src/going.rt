//! How far a step got, and how a part of it ends.

ghost use Rattle.std.specs.Prelude.{OnOk};
ghost use Rattle.pcal_tree.specs.Algorithm.{Routine};
ghost use Rattle.pcal_tree.specs.Program.{Actor};
ghost use Rattle.step_spots.specs.Targets.{target_word};
ghost use Rattle.step_moves.specs.Runners.{IsRunner};
ghost use Rattle.step_flow.specs.Ends.{jump_from, Ends, Stands, Rebound};

use std::alloc::Global;
use step_choices::Pause;
use step_moves::{Bound, Runner, jump};
use step_spots::Target;
use tla_value::state::State;

/// How far a step got.
#[derive(Drop)]
pub struct Going {
    /// The state.
    pub state: State,
    /// The names that are bound where it is.
    pub bound: Bound,
    /// How many of the choices are used.
    pub used: usize,
}

/// How a part of a step ends.
#[derive(Clone, Copy)]
pub enum End {
    /// It goes on with what follows.
    Falls,
    /// The step is over.
    Over,
}

/// Jumps to a label, with which the step is over.
///
/// # Errors
///
/// For want of memory, and exactly where `pc` can't be set.
pub fn go_to(
    alloc: Global,
    runner: &Runner<'_>,
    choices: &[u32],
    label: Target<'_>,
    going: &mut Going,
) -> Result<End, Pause>
    requires stands { Stands runner.now going.old }
    ensures ends { (v : Actor) (u : Routine) → IsRunner runner.now v u → Ends result going.new choices.now (jump_from runner.now v u (target_word label.entry) going.old choices.now) }
    ensures stands { OnOk result (Stands runner.now going.new) }
    ensures bound { OnOk result (Rebound going.old going.new) }
{
    jump(alloc, runner, &mut going.state, label)?;
    Ok(End::Over)
}
