//! Procedures that are called, and the names of parameters and variables.

ghost use Rattle.std.specs.Prelude.{◌≡◌, ◌++◌, IfOk, OnOk};
ghost use Rattle.draft.specs.RoutineNames.{words_of};

use pcal_tree::algorithm::{Declaration, Procedure};
use std::alloc::{AllocError, Global};
use tla_tree::{Name, NameList};
use written_names::naming::Naming;

/// A procedure that is called.
#[derive(Clone, Copy)]
pub struct Callee<'a> {
    /// Its number among the macros, procedures and processes of the algorithm.
    pub number: usize,
    /// The procedure.
    pub procedure: &'a Procedure,
}

// Adds the names of declarations.
fn add_names(declarations: &[Declaration], into: &mut NameList) -> Result<(), AllocError>
    ensures { OnOk result (into.new ≡ into.old ++ words_of declarations.now) }
{
    for declaration in declarations {
        into.push(declaration.name.name.copied()?)?;
    }
    Ok(())
}

/// The names of a procedure's parameters, and behind them those of its variables, as they stand in the text.
///
/// # Errors
///
/// Only for want of memory.
pub fn local_names(alloc: Global, procedure: &Procedure) -> Result<NameList, AllocError>
    ensures { IfOk result (λ r. r ≡ words_of procedure.now.params.items ++ words_of procedure.now.variables.items) }
{
    let mut names = NameList::new(alloc);
    add_names(&procedure.params, &mut names)?;
    add_names(&procedure.variables, &mut names)?;
    Ok(names)
}

/// Names of a routine's parameters and variables, with what they are written by.
#[derive(Clone, Copy)]
pub(crate) struct Locals<'a> {
    /// The number of the routine.
    pub unit: usize,
    /// The names, as they stand in the text.
    pub names: &'a [Name],
    /// The written names.
    pub naming: &'a Naming,
}
