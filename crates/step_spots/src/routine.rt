//! What has labels in memory: the one body, a process, a procedure ("A PlusCal User's Manual", sections 3.3 and 3.4).

ghost use Rattle.std.specs.Prelude.{◌≡◌, List};
ghost use Rattle.tla_tree.specs.Tree.{Tree};
ghost use Rattle.pcal_tree.specs.Algorithm.{procedure_routine, process_routine};
ghost use Rattle.pcal_tree.specs.InMemory.{procedure_at, process_at, statements_at};
ghost use Rattle.step_spots.specs.InMemory.{routine_at, alone_body};

use crate::target::Target;
use pcal_tree::algorithm::{Declaration, Procedure, Process, Stmt};
use tla_tree::PlacedName;

/// The one body, a process or a procedure.
#[derive(Clone, Copy)]
pub struct Routine<'a> {
    /// Its number among macros, procedures and processes in the order of the text.
    pub number: usize,
    /// Its name.
    pub name: &'a PlacedName,
    /// Its parameters.
    pub params: &'a [Declaration],
    /// Its own variables.
    pub variables: &'a [Declaration],
    /// Its variables are functions of the identifiers of processes.
    pub spread: bool,
    /// Its labels and statements.
    pub body: &'a [Stmt],
    /// The label to which the end of its body goes.
    pub exit: Target<'a>,
}

impl<'a> Routine<'a> {
    /// A procedure.
    pub fn procedure(number: usize, procedure: &'a Procedure) -> Routine<'a>
        ensures { (ts : List Tree) → routine_at ts result ≡ procedure_routine number (procedure_at ts procedure.now) }
    {
        Routine {
            number,
            name: &procedure.name,
            params: &procedure.params,
            variables: &procedure.variables,
            spread: true,
            body: &procedure.body,
            exit: Target::Error,
        }
    }

    /// A process.
    pub fn process(number: usize, process: &'a Process) -> Routine<'a>
        ensures { (ts : List Tree) → routine_at ts result ≡ process_routine number (process_at ts process.now) }
    {
        Routine {
            number,
            name: &process.name,
            params: &[],
            variables: &process.variables,
            spread: process.several,
            body: &process.body,
            exit: Target::Done,
        }
    }

    /// The one body of an algorithm with a name.
    pub fn alone(number: usize, name: &'a PlacedName, body: &'a [Stmt]) -> Routine<'a>
        ensures { (ts : List Tree) → routine_at ts result ≡ alone_body number name.now (statements_at ts body.now) }
    {
        Routine {
            number,
            name,
            params: &[],
            variables: &[],
            spread: false,
            body,
            exit: Target::Done,
        }
    }
}
