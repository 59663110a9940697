//! All definitions of a run: those outside the algorithm, and then its own.

ghost use Rattle.std.specs.Prelude.{◌≡◌, ◌≤◌, ◌++◌, ℕ, List, length, map, take, IfOk};
ghost use Rattle.tla_tree.specs.Tree.{Tree};
ghost use Rattle.tla_value.specs.Defs.{DefinitionsIn, definitions_at};
ghost use Rattle.tla_value.specs.Outside.{found};
ghost use Rattle.pcal_tree.specs.InMemory.{algorithm_at, past_algorithm};
ghost use Rattle.pcal_tree.specs.Program.{inner};
ghost use Rattle.module_outside.specs.OutsideAt.{definition_seen};
ghost use Rattle.module_outside.specs.FoundAt.{AreHeld};
ghost use Rattle.step_moves.specs.declared.program.Program as code;
ghost use Rattle.step_moves.specs.Programs.{IsWhole};

use module_outside::definition::ReadDefinition;
use module_outside::kept::all_kept;
use pcal_tree::algorithm::Algorithm;
use std::alloc::{AllocError, Global};
use step_moves::add_definitions;
use tla_value::names::Defs;

/// All definitions that expressions of an algorithm may use: those that were read outside of it, as they are found there, and then its
/// own ("A PlusCal User's Manual", section 3.6, definitions). The first of them, as many as were read, are those outside.
///
/// # Errors
///
/// Only for want of memory.
pub fn run_definitions(
    alloc: Global,
    outside: &[ReadDefinition],
    algorithm: &Algorithm,
) -> Result<Defs, AllocError>
    ensures all { IfOk result (λ r. (ts : List Tree) → definitions_at ts r ≡ found (map (definition_seen ts) outside.now) ++ map inner (algorithm_at ts algorithm.now).definitions) }
    ensures outside { IfOk result (λ r. (ts : List Tree) → definitions_at ts (take (length outside.now) r) ≡ found (map (definition_seen ts) outside.now)) }
    ensures within { IfOk result (λ r. (m : ℕ) → AreHeld m outside.now → past_algorithm algorithm.now ≤ m → DefinitionsIn m r) }
    ensures whole { IfOk result (λ r. (p : code.Program) → p.algorithm.now ≡ algorithm.now → p.defs.now ≡ r → p.outside ≡ length outside.now → past_algorithm algorithm.now ≤ length p.pool.now → AreHeld (length p.pool.now) outside.now → IsWhole p) }
{
    let mut all = all_kept(alloc, outside)?;
    add_definitions(alloc, &algorithm.definitions, &mut all)?;
    Ok(all)
}
