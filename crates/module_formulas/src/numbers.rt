//! The numbers of routines: macros are counted first, then procedures, then processes or the one body, from 0.

ghost use Rattle.std.specs.Prelude.{◌≡◌, ◌+◌, List, IfOk};
ghost use Rattle.tla_tree.specs.Tree.{Tree};
ghost use Rattle.pcal_tree.specs.Algorithm.{first_procedure as first_procedure_of, first_process as first_process_of};
ghost use Rattle.pcal_tree.specs.InMemory.{algorithm_at};

use pcal_tree::algorithm::Algorithm;
use std::alloc::AllocError;

/// The number after this one. One past the largest number is more routines than memory has.
///
/// # Errors
///
/// Only for want of memory.
pub fn after(number: usize) -> Result<usize, AllocError>
    ensures { IfOk result (λ r. r ≡ number + 1) }
{
    number.checked_add(1).ok_or(AllocError)
}

/// The number of the first procedure.
pub fn first_procedure(algorithm: &Algorithm) -> usize
    ensures { (ts : List Tree) → result ≡ first_procedure_of (algorithm_at ts algorithm.now) }
{
    algorithm.macros.len()
}

/// The number of the first process, or of the one body.
///
/// # Errors
///
/// Only for want of memory.
pub fn first_process(algorithm: &Algorithm) -> Result<usize, AllocError>
    ensures { IfOk result (λ r. (ts : List Tree) → r ≡ first_process_of (algorithm_at ts algorithm.now)) }
{
    let procedures = algorithm.procedures.len();
    algorithm
        .macros
        .len()
        .checked_add(procedures)
        .ok_or(AllocError)
}
