//! The lines that are written where a run or a trace stops.

ghost use Rattle.std.specs.Prelude.{◌≡◌, ◌++◌, [], Some, unwrap_or, IfOk, OnOk};
ghost use Rattle.step_runner.specs.Shown.{why_text};
ghost use Rattle.step_runner.specs.StopLines.{fault_name, trouble_text};
ghost use Rattle.step_runner.specs.StopLines as pure;
ghost use Rattle.run_files.specs.InMemory.{reply_of, trouble_of};

use crate::parts::{add_number, add_place};
use std::alloc::{AllocError, Global};
use tla_token::Place;
use tla_tree::Text;
use tla_value::fault::FaultKind;

/// Why a step of a script can't be taken.
#[derive(Clone, Copy)]
pub enum Why {
    /// An `await` is false there, or a set is empty.
    Held(Place),
    /// The process is at no label, or there is no such process.
    NoLabel,
    /// A choice of so many is missing, or is none of them.
    NeedsChoice(usize, Place),
    /// Choices are left over.
    TooManyChoices(Place),
}

/// What keeps an expression or a statement from having a value.
#[derive(Clone, Copy)]
pub enum Trouble {
    /// A fault.
    Fault(FaultKind, Place),
    /// A value past the limits.
    Limit(Place),
}

// ---- scripts

// Adds why a step can't be taken.
fn add_why(alloc: Global, out: &mut Text, why: Why) -> Result<(), AllocError>
    ensures { OnOk result (out.new ≡ out.old ++ unwrap_or (why_text (reply_of why)) []) }
{
    match why {
        Why::Held(place) => {
            out.extend(b"held at ")?;
            add_place(alloc, out, place)
        }
        Why::NoLabel => out.extend(b"no label"),
        Why::NeedsChoice(count, place) => {
            out.extend(b"choice of ")?;
            add_number(alloc, out, count)?;
            out.extend(b" at ")?;
            add_place(alloc, out, place)
        }
        Why::TooManyChoices(place) => {
            out.extend(b"too many choices at ")?;
            add_place(alloc, out, place)
        }
    }
}

/// The line of a step of a script that can't be taken; step 0 is the start.
///
/// # Errors
///
/// Only for want of memory.
pub fn script_line(alloc: Global, step: usize, why: Why) -> Result<Vec<u8>, AllocError>
    ensures { IfOk result (λ w. pure.script_line step (reply_of why) ≡ Some w.items) }
{
    let mut line = Text::new(Vec::new(alloc));
    line.extend(b"pcal: script step ")?;
    add_number(alloc, &mut line, step)?;
    line.extend(b": ")?;
    add_why(alloc, &mut line, why)?;
    line.push(b'\n')?;
    Ok(line.into_bytes())
}

// ---- traces

/// The line of a state of a trace that isn't initial, or to which no step leads.
///
/// # Errors
///
/// Only for want of memory.
pub fn state_line(alloc: Global, number: usize) -> Result<Vec<u8>, AllocError>
    ensures { IfOk result (λ w. w.items ≡ pure.state_line number) }
{
    let mut line = Text::new(Vec::new(alloc));
    line.extend(b"pcal: state ")?;
    add_number(alloc, &mut line, number)?;
    line.extend(if number == 0 {
        b" is not initial\n"
    } else {
        b" is no step\n"
    })?;
    Ok(line.into_bytes())
}

// ---- both

fn fault_bytes(kind: FaultKind) -> &'static [u8]
    ensures { result.now ≡ fault_name kind }
{
    match kind {
        FaultKind::NotBoolean => b"NotBoolean",
        FaultKind::NotInteger => b"NotInteger",
        FaultKind::NotSet => b"NotSet",
        FaultKind::NotFunction => b"NotFunction",
        FaultKind::NotSequence => b"NotSequence",
        FaultKind::EmptySequence => b"EmptySequence",
        FaultKind::NotInDomain => b"NotInDomain",
        FaultKind::BadDivisor => b"BadDivisor",
        FaultKind::NoCase => b"NoCase",
        FaultKind::AssertFailed => b"AssertFailed",
        FaultKind::SameIdentifier => b"SameIdentifier",
    }
}

// Adds where there is trouble, and which.
fn add_trouble(alloc: Global, out: &mut Text, trouble: Trouble) -> Result<(), AllocError>
    ensures { OnOk result (out.new ≡ out.old ++ trouble_text (trouble_of trouble)) }
{
    match trouble {
        Trouble::Fault(kind, place) => {
            add_place(alloc, out, place)?;
            out.extend(b": fault ")?;
            out.extend(fault_bytes(kind))
        }
        Trouble::Limit(place) => {
            add_place(alloc, out, place)?;
            out.extend(b": limit")
        }
    }
}

/// The line of trouble at a place of a file.
///
/// # Errors
///
/// Only for want of memory.
pub fn trouble_line(alloc: Global, file: &[u8], trouble: Trouble) -> Result<Vec<u8>, AllocError>
    ensures { IfOk result (λ w. w.items ≡ pure.trouble_line file.now (trouble_of trouble)) }
{
    let mut line = Text::new(Vec::new(alloc));
    line.extend(b"pcal: ")?;
    line.extend(file)?;
    line.push(b':')?;
    add_trouble(alloc, &mut line, trouble)?;
    line.push(b'\n')?;
    Ok(line.into_bytes())
}
