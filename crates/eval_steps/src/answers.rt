//! Which answers of a binder's body count.

ghost use Rattle.tla_value.specs.Value.{Outcome, Value as pure_value};
ghost use Rattle.value_forms.specs.Gives.{Gives, Tells};
ghost use Rattle.eval_scopes.specs.Choices.{members_of_choice};
ghost use Rattle.eval_visits.specs.Gathered.{row_answered};
ghost use Rattle.eval_visits.specs.GatheredOf.{gathered_of};

use eval_scopes::got::Got;
use eval_scopes::scope::OverName;
use eval_visits::gathered::{Gathered, with_row};
use std::alloc::Global;
use tla_token::Place;
use tla_tree::Binder;
use tla_value::stop::EvalStop;

/// What is gathered with the answer of the body at one choice more: it counts also where a quantifier is decided already.
///
/// # Errors
///
/// For want of memory, where the body has no value, and where a truth value is needed and there is another.
pub fn with_answer<'x>(
    alloc: Global,
    binder: Binder,
    place: Place,
    gathered: Gathered,
    names: &[OverName],
    left: &[usize],
    answer: Result<Got<'x>, EvalStop>,
) -> Result<Gathered, EvalStop>
    ensures { (o : Outcome pure_value) → Tells answer.entry o → Gives gathered_of result (row_answered binder place (gathered_of gathered) (members_of_choice names.now left.now) o) }
{
    let v = answer?;
    with_row(alloc, binder, place, gathered, names, left, v)
}
