//! A labelled algorithm in memory, with what its meaning rests on.

ghost use Rattle.std.specs.Prelude.{◌≡◌, IfOk};
ghost use Rattle.pcal_tree.specs.Algorithm.{first_procedure as first_procedure_of, first_process as first_process_of};
ghost use Rattle.step_moves.specs.Programs.{program_at};

use pcal_tree::algorithm::Algorithm;
use std::alloc::AllocError;
use tla_pool::Pool;
use tla_value::names::Defs;
use tla_value::state::State;
use written_names::naming::Naming;

/// A labelled algorithm in memory, with what its meaning rests on. The limits of values are those of a run.
#[derive(Clone, Copy)]
pub struct Program<'a> {
    /// The expressions.
    pub pool: &'a Pool,
    /// The algorithm.
    pub algorithm: &'a Algorithm,
    /// The values of the constants.
    pub constants: &'a State,
    /// All definitions: those outside the algorithm, and then its own.
    pub defs: &'a Defs,
    /// How many of them are outside the algorithm.
    pub outside: usize,
    /// The written names.
    pub naming: &'a Naming,
}

impl<'a> Program<'a> {
    /// The number of the first procedure among the routines.
    pub fn first_procedure(&self) -> usize
        ensures { result ≡ first_procedure_of (program_at self.now).algorithm }
    {
        self.algorithm.macros.len()
    }

    /// The number of the first process among the routines.
    ///
    /// # Errors
    ///
    /// Only where there are more routines than memory has.
    pub fn first_process(&self) -> Result<usize, AllocError>
        ensures { IfOk result (λ r. r ≡ first_process_of (program_at self.now).algorithm) }
    {
        let macros = self.algorithm.macros.len();
        let procedures = self.algorithm.procedures.len();
        macros.checked_add(procedures).ok_or(AllocError)
    }
}
