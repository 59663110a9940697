//! The truth of Next, of Init, and of what Next says of one process ("Specifying Systems", sections 2.3 and 16.2.3).

ghost use Rattle.std.specs.Option.{option_copied};
ghost use Rattle.tla_value.specs.Limits.{bounded};
ghost use Rattle.tla_value.specs.States.{value_of};
ghost use Rattle.module_tree.specs.Module.{Module};
ghost use Rattle.module_tree.specs.ModuleTruth.{next_holds, init_holds};
ghost use Rattle.module_tree.specs.ProcessPart.{mine_holds};
ghost use Rattle.value_forms.specs.Gives.{Tells};
ghost use Rattle.action_truth.specs.AskedOf.{IsAsked, IsReady};

use crate::actions::some_way;
use crate::asked::{Asked, count};
use crate::formulas::{Bound, Pair, all_true};
use crate::processes::{process_holds, steps_hold};
use std::alloc::Global;
use tla_value::state::State;
use tla_value::stop::EvalStop;
use tla_value::value::Value;

/// Whether Next is true of a pair of states.
///
/// # Errors
///
/// For want of memory, and exactly where Next is neither true nor false: the kind and place of the first fault, or the place of the first
/// value past the limits of a run.
pub fn holds(alloc: Global, asked: &Asked<'_>, from: &State, to: &State) -> Result<bool, EvalStop>
    requires ready { IsReady asked.now }
    ensures { (m : Module) → IsAsked asked.now m → Tells result (next_holds bounded m (value_of asked.now.constants.now) (value_of from.now) (value_of to.now)) }
{
    let pair = Pair {
        asked: *asked,
        from,
        to,
    };
    let mut none = Bound::new(alloc);
    some_way(alloc, &pair, &mut none, &asked.region.next, count(asked))
}

/// Whether Init is true of a state.
///
/// # Errors
///
/// As of `holds`.
pub fn starts(alloc: Global, asked: &Asked<'_>, state: &State) -> Result<bool, EvalStop>
    requires ready { IsReady asked.now }
    ensures { (m : Module) → IsAsked asked.now m → Tells result (init_holds bounded m (value_of asked.now.constants.now) (value_of state.now)) }
{
    let pair = Pair {
        asked: *asked,
        from: state,
        to: asked.nothing,
    };
    let none = Bound::new(alloc);
    all_true(alloc, &pair, &none, &asked.region.init)
}

/// Whether what Next says of a process is true of a pair of states: its own action, or a procedure's with the process for `self`; without a
/// process, all of Next but `Terminating`.
///
/// # Errors
///
/// As of `holds`.
pub fn by_process(
    alloc: Global,
    asked: &Asked<'_>,
    from: &State,
    to: &State,
    who: Option<&Value>,
) -> Result<bool, EvalStop>
    requires ready { IsReady asked.now }
    ensures { (m : Module) → IsAsked asked.now m → Tells result (mine_holds bounded m (value_of asked.now.constants.now) (value_of from.now) (value_of to.now) (option_copied who.entry)) }
{
    let pair = Pair {
        asked: *asked,
        from,
        to,
    };
    match who {
        Some(v) => process_holds(alloc, &pair, v),
        None => {
            let mut none = Bound::new(alloc);
            steps_hold(alloc, &pair, &mut none, &asked.region.next)
        }
    }
}
