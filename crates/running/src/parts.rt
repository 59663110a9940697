//! Declarations and bodies of routines by their written names.

ghost use Rattle.std.specs.Prelude.{◌≡◌, ◌≤◌, length, map, IfOk};
ghost use Rattle.tla_tree.specs.Pool.{Keeps};
ghost use Rattle.tla_tree.specs.Nesting.{greatest};
ghost use Rattle.pcal_tree.specs.Algorithm.{Routine};
ghost use Rattle.pcal_tree.specs.InMemory.{statements_at, declarations_at, macro_at, past_statements, past_declarations, past_macro};
ghost use Rattle.pcal_tree.specs.Program.{Program};
ghost use Rattle.step_walks.specs.WrittenFlows.{own_statements};
ghost use Rattle.step_moves.specs.Prepared as pure;
ghost use Rattle.running.specs.PlacesOf.{IsPlaces};

use crate::declarations::prepared_declarations;
use crate::places::Places;
use crate::statements::prepared_statements;
use expansion::bodies::body as written_out;
use expansion_size::frames::Frames;
use pcal_tree::algorithm::{Declaration, Macro, Stmt};
use std::alloc::{AllocError, Global};
use tla_pool::Pool;

/// Declarations of a routine with their first values.
///
/// # Errors
///
/// Only for want of memory; the pool may then have more nodes than before.
pub fn declarations(
    alloc: Global,
    pool: &mut Pool,
    places: &Places<'_>,
    list: &[Declaration],
) -> Result<Vec<Declaration>, AllocError>
    requires { past_declarations list.now ≤ length pool.old }
    ensures made { IfOk result (λ r. (P : Program) (u : Routine) → IsPlaces places.now P u → declarations_at pool.new r.items ≡ pure.prepared_declarations P u (declarations_at pool.old list.now)) }
    ensures within { IfOk result (λ r. past_declarations r.items ≤ length pool.new) }
    ensures kept { Keeps pool.old pool.new }
{
    let made = prepared_declarations(alloc, pool, places, list)?;
    Ok(made)
}

/// The body of a routine, where the algorithm has these macros. Its macro calls are written out.
///
/// # Errors
///
/// Only for want of memory; the pool may then have more nodes than before.
pub fn statements(
    alloc: Global,
    pool: &mut Pool,
    macros: &[Macro],
    places: &Places<'_>,
    list: &[Stmt],
) -> Result<Vec<Stmt>, AllocError>
    requires there { past_statements list.now ≤ length pool.old }
    requires called { greatest (map past_macro macros.now) ≤ length pool.old }
    ensures made { IfOk result (λ r. (P : Program) (u : Routine) → IsPlaces places.now P u → map (macro_at pool.old) macros.now ≡ P.algorithm.macros → statements_at pool.new r.items ≡ own_statements P u (statements_at pool.old list.now)) }
    ensures within { IfOk result (λ r. past_statements r.items ≤ length pool.new) }
    ensures kept { Keeps pool.old pool.new }
{
    let written = written_out(alloc, pool, macros, &Frames::Outside, list)?;
    let made = prepared_statements(alloc, pool, places, &written)?;
    Ok(made)
}
