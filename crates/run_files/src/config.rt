//! Files of constants.

ghost use Rattle.std.specs.Prelude.{◌≡◌, ◌<◌, ◌≤◌, length, Err, IfOk};
ghost use Rattle.tla_token.specs.declared.rule.Refusal as code;
ghost use Rattle.tla_token.specs.Limits.{past_text};
ghost use Rattle.tla_value.specs.Outside.{Outside};
ghost use Rattle.step_runner.specs.Fronts.{bad_line};
ghost use Rattle.step_runner.specs.Config.{SpellsConfig, ConfigOffends};

use crate::items::{Halt, are_given, read_items};
use algorithm_limits::bound::Bound;
use std::alloc::Global;
use tla_token::{Refusal, Rule, Stop, place_of};
use tla_tree::PlacedName;
use tla_value::state::State;

/// The refusal of a text that offends at this index.
pub fn refused(text: &[u8], at: usize) -> Refusal
    requires within { at ≤ length text.now }
    requires small { length text.now < past_text }
    ensures { result ≡ bad_line text.now at }
{
    Refusal {
        rule: Rule::BadLine,
        place: place_of(text, at),
    }
}

/// The values that a file of constants gives to the constants of a module.
///
/// # Errors
///
/// For want of memory, and by the rule for lines exactly where the file gives no such values.
pub fn read_config(alloc: Global, text: &[u8], constants: &[PlacedName]) -> Result<State, Stop>
    requires { length text.now < past_text }
    ensures read { (o : Outside) → o.constants ≡ constants.now → IfOk result (λ s. SpellsConfig o text.now s) }
    ensures refused { (o : Outside) (r : code.Refusal) → o.constants ≡ constants.now → result ≡ Err (Stop.Refused r) → ConfigOffends o text.now r }
{
    let mut known = Bound::new(alloc);
    known.add_all(constants)?;
    match read_items(alloc, text, false, &known) {
        Ok(state) => {
            if are_given(constants, &state) {
                Ok(state)
            } else {
                Err(Stop::Refused(refused(text, text.len())))
            }
        }
        Err(Halt::Memory) => Err(Stop::Memory),
        Err(Halt::At(at)) => Err(Stop::Refused(refused(text, at))),
    }
}
