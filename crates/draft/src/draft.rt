//! An algorithm with its written names, its variables, and those of them that each process has for itself.

ghost use Rattle.std.specs.Prelude.{◌≡◌, ◌||◌, List, bytes_eq, codes, IfOk, MatchOption};
ghost use Rattle.tla_tree.specs.Tree.{Word, Tree};
ghost use Rattle.pcal_tree.specs.Algorithm.{Routine, Statements};
ghost use Rattle.pcal_tree.specs.InMemory.{stmt_at, statements_at};
ghost use Rattle.pcal_tree.specs.Run.{label_of as label_of_statements, unlabelled};
ghost use Rattle.pcal_tree.specs.Program.{Program};
ghost use Rattle.pcal_tree.specs.Calls.{label_name as label_name_of, first_label as first_label_of};
ghost use Rattle.written_names.specs.Units.{naming_of};

use name_bits::{Bits, Order};
use pcal_tree::algorithm::{Algorithm, Stmt};
use std::alloc::{AllocError, Global};
use tla_tree::Name;
use written_names::naming::Naming;

/// An algorithm whose macro calls are written out, with what its translation is written from.
#[derive(Clone, Copy)]
pub struct Draft<'a> {
    /// The algorithm, whose macros stay in it so that its routines keep their numbers.
    pub algorithm: &'a Algorithm,
    /// The written names.
    pub naming: &'a Naming,
    /// The variables of the translation.
    pub order: &'a Order,
    /// Those of them that each process has for itself.
    pub own: &'a Bits,
    /// The name `self`.
    pub this: &'a Name,
}

// Whether it is a label of all routines.
fn is_end(label: &Name) -> bool
    ensures { result ≡ (bytes_eq (codes "Done") label.now || bytes_eq (codes "Error") label.now) }
{
    label.bytes() == b"Done".as_slice() || label.bytes() == b"Error".as_slice()
}

// The label that a statement of a list is, if it is one.
fn own_label(stmt: &Stmt) -> Option<&Name>
    ensures { MatchOption result ((ts : List Tree) (rest : Statements) (exit : Word) → label_of_statements (stmt_at ts stmt.now rest) exit ≡ unlabelled) (λ l. (ts : List Tree) (rest : Statements) (exit : Word) → label_of_statements (stmt_at ts stmt.now rest) exit ≡ l.now) }
{
    match stmt {
        Stmt::Label(name, _) => Some(&name.name),
        Stmt::Simple(_, _) => None,
        Stmt::If(_, _, _, _) => None,
        Stmt::Either(_, _) => None,
        Stmt::With(_, _, _) => None,
        Stmt::While(_, _, _) => None,
    }
}

// The label before the first statement, which may have none; before the end of an empty list its exit.
fn label_of(alloc: Global, body: &[Stmt], exit: &[u8]) -> Result<Name, AllocError>
    ensures { IfOk result (λ r. (ts : List Tree) → r ≡ label_of_statements (statements_at ts body.now) exit.now) }
{
    if body.is_empty() {
        return Ok(Name::new(Vec::from_slice(alloc, exit)?));
    }
    match own_label(&body[0]) {
        Some(label) => label.copied(),
        None => Ok(Name::new(Vec::new(alloc))),
    }
}

impl<'a> Draft<'a> {
    /// The written name of a label of a routine with this number; `Done` and `Error` are labels of all.
    pub fn label_name<'n>(&'n self, unit: usize, label: &'n Name) -> &'n Name
        ensures { (P : Program) (u : Routine) → naming_of self.now.naming.now ≡ P.naming → u.number ≡ unit → result.now ≡ label_name_of P u label.now }
    {
        if is_end(label) {
            label
        } else {
            self.naming.label(unit, label)
        }
    }

    /// The written name of the first label of a routine with this number and this body, whose end goes to this label.
    ///
    /// # Errors
    ///
    /// Only for want of memory.
    pub fn first_label(
        &self,
        alloc: Global,
        unit: usize,
        body: &[Stmt],
        exit: &[u8],
    ) -> Result<Name, AllocError>
        ensures { IfOk result (λ r. (ts : List Tree) (P : Program) (u : Routine) → naming_of self.now.naming.now ≡ P.naming → u.number ≡ unit → u.body ≡ statements_at ts body.now → u.exit ≡ exit.now → r ≡ label_name_of P u (first_label_of u)) }
    {
        let label = label_of(alloc, body, exit)?;
        self.label_name(unit, &label).copied()
    }
}
