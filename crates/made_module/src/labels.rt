//! How many labels an algorithm has.

ghost use Rattle.std.specs.Prelude.{◌≡◌, List, IfOk};
ghost use Rattle.tla_tree.specs.Tree.{Tree};
ghost use Rattle.pcal_tree.specs.InMemory.{algorithm_at};
ghost use Rattle.make_module.specs.Big.{label_count};

use label_lines::lines::map;
use pcal_tree::algorithm::Algorithm;
use std::alloc::{AllocError, Global};
use written_names::naming::Naming;

/// How many labels an algorithm has, but for those in macros: as many as its map has lines, whatever names they are written with.
///
/// # Errors
///
/// Only for want of memory.
pub fn labels_in(alloc: Global, algorithm: &Algorithm) -> Result<usize, AllocError>
    ensures { IfOk result (λ n. (ts : List Tree) → n ≡ label_count (algorithm_at ts algorithm.now)) }
{
    let as_typed = Naming::new(Vec::new(alloc));
    let lines = map(alloc, algorithm, &as_typed)?;
    Ok(lines.len())
}
