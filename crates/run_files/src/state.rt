//! The text of a state: its number, what came before it, and a line for each variable.

ghost use Rattle.std.specs.Prelude.{◌≡◌, ◌++◌, OnOk};
ghost use Rattle.std.specs.List.{flat_map};
ghost use Rattle.std.specs.Option.{option_copied};
ghost use Rattle.tla_value.specs.ValueText.{value_text};
ghost use Rattle.pcal_tree.specs.Program.{Program};
ghost use Rattle.pcal_tree.specs.Variables.{vars};
ghost use Rattle.step_runner.specs.Shown.{before_text, who_text, variable_text, state_text};
ghost use Rattle.step_runner.specs.Explained.{state_of};
ghost use Rattle.run_files.specs.InMemory.{before_of};

use crate::parts::{add_number, add_place};
use std::alloc::{AllocError, Global};
use tla_token::Place;
use tla_tree::{Name, Text};
use tla_value::state::State;
use tla_value::value::Value;
use value_text::write_value;

/// What came before a state.
#[derive(Clone, Copy)]
pub enum Before<'a> {
    /// No state; it is initial.
    Initial,
    /// A step from a label.
    Stepped {
        /// The label's written name.
        label: &'a Name,
        /// The identifier of the process, where there are processes.
        who: Option<&'a Value>,
        /// Where the label is.
        at: Place,
    },
    /// The step that changes nothing where all is done.
    Terminating,
}

// Adds whose step it was.
fn add_who(alloc: Global, out: &mut Text, who: Option<&Value>) -> Result<(), AllocError>
    ensures { OnOk result (out.new ≡ out.old ++ who_text (option_copied who.entry)) }
{
    match who {
        None => Ok(()),
        Some(value) => {
            out.extend(b" of ")?;
            write_value(alloc, value, out)
        }
    }
}

// Adds what came before a state.
fn add_before(alloc: Global, out: &mut Text, before: Before<'_>) -> Result<(), AllocError>
    ensures { OnOk result (out.new ≡ out.old ++ before_text (before_of before.entry)) }
{
    match before {
        Before::Initial => out.extend(b"initial"),
        Before::Stepped { label, who, at } => {
            out.extend(label.bytes())?;
            add_who(alloc, out, who)?;
            out.extend(b" at ")?;
            add_place(alloc, out, at)
        }
        Before::Terminating => out.extend(b"Terminating"),
    }
}

// Adds the value of a variable; FALSE where the state has none.
fn add_value(alloc: Global, out: &mut Text, state: &State, name: &Name) -> Result<(), AllocError>
    ensures { OnOk result (out.new ≡ out.old ++ value_text (state_of state.now name.now)) }
{
    match state.get(name) {
        Some(value) => write_value(alloc, value, out),
        None => out.extend(b"FALSE"),
    }
}

// Adds the line of a variable.
fn add_variable(alloc: Global, out: &mut Text, state: &State, name: &Name) -> Result<(), AllocError>
    ensures { OnOk result (out.new ≡ out.old ++ variable_text (state_of state.now) name.now) }
{
    out.extend(b"/\\ ")?;
    out.extend(name.bytes())?;
    out.extend(b" = ")?;
    add_value(alloc, out, state, name)?;
    out.push(b'\n')
}

// Adds the lines of variables.
fn add_variables(
    alloc: Global,
    out: &mut Text,
    state: &State,
    names: &[Name],
) -> Result<(), AllocError>
    ensures { OnOk result (out.new ≡ out.old ++ flat_map (variable_text (state_of state.now)) names.now) }
{
    for name in names {
        add_variable(alloc, out, state, name)?;
    }
    Ok(())
}

/// Adds the text of a state with this number, over the variables with these names. For one that has no value in it, FALSE is written.
///
/// # Errors
///
/// Only for want of memory.
pub fn add_state(
    alloc: Global,
    out: &mut Text,
    number: usize,
    before: Before<'_>,
    names: &[Name],
    state: &State,
) -> Result<(), AllocError>
    ensures { OnOk result ((P : Program) → vars P ≡ names.now → out.new ≡ out.old ++ state_text P number (before_of before.entry) (state_of state.now)) }
{
    out.extend(b"State ")?;
    add_number(alloc, out, number)?;
    out.extend(b": ")?;
    add_before(alloc, out, before)?;
    out.push(b'\n')?;
    add_variables(alloc, out, state, names)
}
