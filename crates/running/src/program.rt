//! The procedures and the main part of an algorithm, made once before a run.

ghost use Rattle.std.specs.Prelude.{◌≡◌, ◌≤◌, length, IfOk};
ghost use Rattle.std.specs.Prelude as prelude;
ghost use Rattle.tla_tree.specs.Pool.{Keeps};
ghost use Rattle.tla_tree.specs.Nesting.{greatest};
ghost use Rattle.pcal_tree.specs.Algorithm.{numbered, first_process, alone_routine};
ghost use Rattle.pcal_tree.specs.InMemory.{statements_at, procedure_at, process_at, main_at, past_statements, past_procedure, past_process, past_main, past_algorithm};
ghost use Rattle.pcal_tree.specs.Program.{Program};
ghost use Rattle.draft.specs.Drafts.{IsDraft};
ghost use Rattle.step_walks.specs.WrittenFlows.{own_statements};
ghost use Rattle.step_moves.specs.Prepared as pure;

use crate::locals::{declared_names, places_of};
use crate::parts::{declarations, statements};
use crate::preparing::Prepared;
use draft::Draft;
use pcal_tree::algorithm::{Main, Procedure, Process, Stmt};
use std::alloc::{AllocError, Global};
use tla_pool::Pool;

// The sum of two numbers. One past the largest number is more routines than memory has.
fn sum(m: usize, n: usize) -> Result<usize, AllocError>
    ensures { IfOk result (λ s. s ≡ prelude.◌+◌ m n) }
{
    m.checked_add(n).ok_or(AllocError)
}

// The procedure of this number.
fn procedure(
    alloc: Global,
    pool: &mut Pool,
    draft: &Draft<'_>,
    number: usize,
    one: &Procedure,
) -> Result<Procedure, AllocError>
    requires draft { past_algorithm draft.now.algorithm.now ≤ length pool.old }
    requires there { past_procedure one.now ≤ length pool.old }
    ensures made { IfOk result (λ r. (P : Program) → IsDraft pool.old draft.now P → procedure_at pool.new r ≡ pure.prepared_procedure P number (procedure_at pool.old one.now)) }
    ensures within { IfOk result (λ r. past_procedure r ≤ length pool.new) }
    ensures kept { Keeps pool.old pool.new }
{
    let names = declared_names(alloc, &one.params, &one.variables)?;
    let places = places_of(
        number,
        &names,
        draft.naming,
        draft.order,
        draft.own,
        draft.this,
    );
    let params = declarations(alloc, pool, &places, &one.params)?;
    let variables = declarations(alloc, pool, &places, &one.variables)?;
    let body = statements(alloc, pool, &draft.algorithm.macros, &places, &one.body)?;
    Ok(Procedure {
        name: one.name.copied()?,
        params,
        variables,
        body,
    })
}

// Procedures, of which the first has this number.
fn procedures(
    alloc: Global,
    pool: &mut Pool,
    draft: &Draft<'_>,
    first: usize,
    list: &[Procedure],
) -> Result<Vec<Procedure>, AllocError>
    requires draft { past_algorithm draft.now.algorithm.now ≤ length pool.old }
    requires there { greatest (prelude.map past_procedure list.now) ≤ length pool.old }
    ensures made { IfOk result (λ r. (P : Program) → IsDraft pool.old draft.now P → prelude.map (procedure_at pool.new) r.items ≡ numbered (pure.prepared_procedure P) first (prelude.map (procedure_at pool.old) list.now)) }
    ensures within { IfOk result (λ r. greatest (prelude.map past_procedure r.items) ≤ length pool.new) }
    ensures kept { Keeps pool.old pool.new }
{
    let mut made = Vec::new(alloc);
    let mut number = first;
    for one in list {
        made.push(procedure(alloc, pool, draft, number, one)?)?;
        number = sum(number, 1)?;
    }
    Ok(made)
}

// The process of this number. Its set of identifiers, or its one, stays as it is.
fn process(
    alloc: Global,
    pool: &mut Pool,
    draft: &Draft<'_>,
    number: usize,
    one: &Process,
) -> Result<Process, AllocError>
    requires draft { past_algorithm draft.now.algorithm.now ≤ length pool.old }
    requires there { past_process one.now ≤ length pool.old }
    ensures made { IfOk result (λ r. (P : Program) → IsDraft pool.old draft.now P → process_at pool.new r ≡ pure.prepared_process P number (process_at pool.old one.now)) }
    ensures within { IfOk result (λ r. past_process r ≤ length pool.new) }
    ensures kept { Keeps pool.old pool.new }
{
    let names = declared_names(alloc, &[], &one.variables)?;
    let places = places_of(
        number,
        &names,
        draft.naming,
        draft.order,
        draft.own,
        draft.this,
    );
    let variables = declarations(alloc, pool, &places, &one.variables)?;
    let body = statements(alloc, pool, &draft.algorithm.macros, &places, &one.body)?;
    Ok(Process {
        name: one.name.copied()?,
        fairness: one.fairness,
        several: one.several,
        identity: one.identity,
        variables,
        body,
    })
}

// Processes, of which the first has this number.
fn processes(
    alloc: Global,
    pool: &mut Pool,
    draft: &Draft<'_>,
    first: usize,
    list: &[Process],
) -> Result<Vec<Process>, AllocError>
    requires draft { past_algorithm draft.now.algorithm.now ≤ length pool.old }
    requires there { greatest (prelude.map past_process list.now) ≤ length pool.old }
    ensures made { IfOk result (λ r. (P : Program) → IsDraft pool.old draft.now P → prelude.map (process_at pool.new) r.items ≡ numbered (pure.prepared_process P) first (prelude.map (process_at pool.old) list.now)) }
    ensures within { IfOk result (λ r. greatest (prelude.map past_process r.items) ≤ length pool.new) }
    ensures kept { Keeps pool.old pool.new }
{
    let mut made = Vec::new(alloc);
    let mut number = first;
    for one in list {
        made.push(process(alloc, pool, draft, number, one)?)?;
        number = sum(number, 1)?;
    }
    Ok(made)
}

// The one body, of this number. It declares nothing.
fn alone(
    alloc: Global,
    pool: &mut Pool,
    draft: &Draft<'_>,
    number: usize,
    list: &[Stmt],
) -> Result<Vec<Stmt>, AllocError>
    requires draft { past_algorithm draft.now.algorithm.now ≤ length pool.old }
    requires there { past_statements list.now ≤ length pool.old }
    ensures made { IfOk result (λ r. (P : Program) → IsDraft pool.old draft.now P → number ≡ first_process P.algorithm → statements_at pool.new r.items ≡ own_statements P (alone_routine P.algorithm (statements_at pool.old list.now)) (statements_at pool.old list.now)) }
    ensures within { IfOk result (λ r. past_statements r.items ≤ length pool.new) }
    ensures kept { Keeps pool.old pool.new }
{
    let names = declared_names(alloc, &[], &[])?;
    let places = places_of(
        number,
        &names,
        draft.naming,
        draft.order,
        draft.own,
        draft.this,
    );
    let made = statements(alloc, pool, &draft.algorithm.macros, &places, list)?;
    Ok(made)
}

// What runs, of which the first has this number.
fn main_part(
    alloc: Global,
    pool: &mut Pool,
    draft: &Draft<'_>,
    number: usize,
    main: &Main,
) -> Result<Main, AllocError>
    requires draft { past_algorithm draft.now.algorithm.now ≤ length pool.old }
    requires there { past_main main.now ≤ length pool.old }
    ensures made { IfOk result (λ r. (P : Program) → IsDraft pool.old draft.now P → number ≡ first_process P.algorithm → main_at pool.new r ≡ pure.prepared_main P (main_at pool.old main.now)) }
    ensures within { IfOk result (λ r. past_main r ≤ length pool.new) }
    ensures kept { Keeps pool.old pool.new }
{
    match main {
        Main::Alone(list) => Ok(Main::Alone(alone(alloc, pool, draft, number, list)?)),
        Main::Processes(list) => Ok(Main::Processes(processes(alloc, pool, draft, number, list)?)),
    }
}

/// The procedures and the main part of an algorithm, with macro calls written out, and with their statements and first values by
/// their written names, where each process' own variables are read and assigned at `self` ("A PlusCal User's Manual", section 4, on
/// names in the translation). What stands in the pool stays.
///
/// # Errors
///
/// Only for want of memory; the pool may then have more nodes than before.
pub fn prepared(alloc: Global, pool: &mut Pool, draft: &Draft<'_>) -> Result<Prepared, AllocError>
    requires { past_algorithm draft.now.algorithm.now ≤ length pool.old }
    ensures procedures { IfOk result (λ r. (P : Program) → IsDraft pool.old draft.now P → prelude.map (procedure_at pool.new) r.procedures.items ≡ pure.prepared_procedures P) }
    ensures main { IfOk result (λ r. (P : Program) → IsDraft pool.old draft.now P → main_at pool.new r.main ≡ pure.prepared_main P P.algorithm.main) }
    ensures within { IfOk result (λ r. (greatest (prelude.map past_procedure r.procedures.items) ≤ length pool.new) × (past_main r.main ≤ length pool.new)) }
    ensures kept { Keeps pool.old pool.new }
{
    let algorithm = draft.algorithm;
    let first = algorithm.macros.len();
    let procedures = procedures(alloc, pool, draft, first, &algorithm.procedures)?;
    let number = sum(first, algorithm.procedures.len())?;
    let main = main_part(alloc, pool, draft, number, &algorithm.main)?;
    Ok(Prepared { procedures, main })
}
