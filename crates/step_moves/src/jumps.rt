//! Jumps to labels ("A PlusCal User's Manual", section 3.7, labels).

ghost use Rattle.std.specs.Prelude.{◌≡◌, ◌||◌, bytes_eq, codes, IfOk, OnOk};
ghost use Rattle.std.specs.Option.{option_copied};
ghost use Rattle.tla_value.specs.Limits.{bounded};
ghost use Rattle.pcal_tree.specs.Algorithm.{Routine};
ghost use Rattle.pcal_tree.specs.Assign.{set_one as pure_set_one};
ghost use Rattle.pcal_tree.specs.Program.{Program, Actor, index};
ghost use Rattle.pcal_tree.specs.Calls.{label_value as label_value_of, jumped, setting};
ghost use Rattle.pcal_tree.specs.Variables.{pc};
ghost use Rattle.value_forms.specs.Gives.{Gives};
ghost use Rattle.written_names.specs.Units.{naming_of};
ghost use Rattle.step_spots.specs.Targets.{target_word};
ghost use Rattle.step_moves.specs.Programs.{program_at};
ghost use Rattle.step_moves.specs.StatesOf.{state_of};
ghost use Rattle.step_moves.specs.ScopeIn.{IsScene};
ghost use Rattle.step_moves.specs.Runners.{IsReady, IsRunner};

use crate::runner::Runner;
use crate::{Setting, set_one};
use std::alloc::{AllocError, Global};
use step_spots::Target;
use tla_token::Place;
use tla_tree::Name;
use tla_value::state::State;
use tla_value::stop::EvalStop;
use tla_value::value::{Value, copied};
use written_names::naming::Naming;

// Whether it is a label of all routines.
fn is_end(label: &Name) -> bool
    ensures { result ≡ (bytes_eq (codes "Done") label.now || bytes_eq (codes "Error") label.now) }
{
    label.bytes() == b"Done".as_slice() || label.bytes() == b"Error".as_slice()
}

// The word of a label.
fn word_of(alloc: Global, target: Target<'_>) -> Result<Name, AllocError>
    ensures { IfOk result (λ r. r ≡ target_word target.entry) }
{
    match target {
        Target::Nowhere => Ok(Name::new(Vec::new(alloc))),
        Target::Label(name) => name.copied(),
        Target::Done => Ok(Name::new(Vec::from_slice(alloc, b"Done")?)),
        Target::Error => Ok(Name::new(Vec::from_slice(alloc, b"Error")?)),
    }
}

/// The value of `pc` at a label of the routine with this number.
///
/// # Errors
///
/// Only for want of memory.
pub fn label_value(
    alloc: Global,
    naming: &Naming,
    unit: usize,
    target: Target<'_>,
) -> Result<Value, AllocError>
    ensures { IfOk result (λ r. (P : Program) (u : Routine) → naming_of naming.now ≡ P.naming → u.number ≡ unit → r ≡ label_value_of P u (target_word target.entry)) }
{
    let word = word_of(alloc, target)?;
    if is_end(&word) {
        Ok(Value::text(word))
    } else {
        Ok(Value::text(naming.label(unit, &word).copied()?))
    }
}

/// Where a process's own part of `pc` and of the stack is.
///
/// # Errors
///
/// Only for want of memory.
pub fn own_path(alloc: Global, runner: &Runner<'_>) -> Result<Vec<Value>, AllocError>
    ensures { IfOk result (λ r. r.items ≡ index (option_copied runner.now.identifier)) }
{
    let mut path = Vec::new(alloc);
    if let Some(identifier) = runner.identifier {
        path.push(copied(alloc, identifier)?)?;
    }
    Ok(path)
}

/// Sets a process's `pc`.
///
/// # Errors
///
/// For want of memory, and exactly where it can't be set. The state may then have changed.
pub fn set_pc(
    alloc: Global,
    runner: &Runner<'_>,
    state: &mut State,
    at: Place,
    label: Value,
) -> Result<(), EvalStop>
    requires ready { IsReady runner.now }
    requires scene { IsScene runner.now.program state.old }
    ensures set { (v : Actor) (u : Routine) → IsRunner runner.now v u → Gives (λ _. state_of state.new) result (pure_set_one bounded (setting at pc (index v.self) label) (state_of state.old)) }
    ensures scene { OnOk result (IsScene runner.now.program state.new) }
{
    let path = own_path(alloc, runner)?;
    set_one(
        state,
        Setting {
            place: at,
            variable: runner.pc,
            path,
            value: label,
        },
    )
}

/// Jumps to a label ("A PlusCal User's Manual", section 3.2, on `goto`; section 3.7, labels).
///
/// # Errors
///
/// For want of memory, and exactly where `pc` can't be set. The state may then have changed.
pub fn jump(
    alloc: Global,
    runner: &Runner<'_>,
    state: &mut State,
    target: Target<'_>,
) -> Result<(), EvalStop>
    requires ready { IsReady runner.now }
    requires scene { IsScene runner.now.program state.old }
    ensures jumped { (v : Actor) (u : Routine) → IsRunner runner.now v u → Gives (λ _. state_of state.new) result (jumped (program_at runner.now.program) v u (target_word target.entry) (state_of state.old)) }
    ensures scene { OnOk result (IsScene runner.now.program state.new) }
{
    let label = label_value(alloc, runner.program.naming, runner.routine.number, target)?;
    set_pc(alloc, runner, state, runner.place, label)
}
