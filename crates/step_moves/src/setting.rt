//! Parts of variables set to values, one after another.

ghost use Rattle.std.specs.Prelude.{◌≡◌, ◌||◌, OnOk, IfOk, List, bytes_eq, true};
ghost use Rattle.std.specs.Option.{is_some};
ghost use Rattle.tla_token.specs.Signs.{is_among};
ghost use Rattle.tla_tree.specs.Tree.{Word};
ghost use Rattle.tla_value.specs.Limits.{bounded};
ghost use Rattle.tla_value.specs.States.{value_of};
ghost use Rattle.pcal_tree.specs.Assign.{set_one as pure_set_one, set_all as pure_set_all};
ghost use Rattle.value_forms.specs.Gives.{Gives};
ghost use Rattle.step_moves.specs.StatesOf.{state_of, setting_of, settings_of, HasJust, AreOf};

use except_forms::changes::changed_at;
use tla_token::Place;
use tla_tree::Name;
use tla_value::state::State;
use tla_value::stop::EvalStop;
use tla_value::value::Value;

/// A part of a variable with its new value.
#[derive(Drop)]
pub struct Setting<'a> {
    /// Where setting it faults.
    pub place: Place,
    /// The variable.
    pub variable: &'a Name,
    /// The part of it; empty for the whole.
    pub path: Vec<Value>,
    /// The new value.
    pub value: Value,
}

/// Sets a part of a variable ("A PlusCal User's Manual", section 3.2, on assignment). The rest of the value stays where it is.
///
/// # Errors
///
/// For want of memory, and exactly where the path leads out of functions, or the new value is past the limits. The state may then
/// have changed.
pub fn set_one(state: &mut State, one: Setting<'_>) -> Result<(), EvalStop>
    ensures set { Gives (λ u. state_of state.new) result (pure_set_one bounded (setting_of one.entry) (state_of state.old)) }
    ensures names { OnOk result ((x : Word) → is_some (value_of state.new x) ≡ (bytes_eq one.entry.variable.now x || is_some (value_of state.old x))) }
{
    let Setting {
        place,
        variable,
        path,
        value,
    } = one;
    let old = state.replace(variable.copied()?, Value::truth(false))?;
    let new = changed_at(place, &path, value, old.unwrap_or(Value::truth(false)))?;
    state.set(variable.copied()?, new)?;
    Ok(())
}

/// Sets parts of variables, from left to right.
///
/// # Errors
///
/// As of `set_one`, at the first that has one.
pub fn set_all(state: &mut State, all: Vec<Setting<'_>>) -> Result<(), EvalStop>
    ensures set { Gives (λ u. state_of state.new) result (pure_set_all bounded (settings_of all.entry.items) (state_of state.old)) }
    ensures names { (xs : List Word) → AreOf xs all.entry.items → HasJust xs state.old → OnOk result (HasJust xs state.new) }
{
    for one in all {
        set_one(state, one)?;
    }
    Ok(())
}
