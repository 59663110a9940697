//! Forms that only ProcSet and Init have: a union, the empty tuple, and a choice by cases.

ghost use Rattle.std.specs.Prelude.{◌≡◌, ◌<◌, length, false, IfOk};
ghost use Rattle.std.specs.Prelude as prelude;
ghost use Rattle.tla_token.specs.Places.{nowhere};
ghost use Rattle.tla_tree.specs.Tree.{cases, node, no_trees, operator, strict, tree};
ghost use Rattle.tla_tree.specs.Pool.{at, trees_at, AllBelow, Keeps};
ghost use Rattle.tla_tree.specs.Shapes.{IsPaired};
ghost use Rattle.module_tree.specs.Formulas.{empty_tuple as empty_tuple_tree};

use std::alloc::{AllocError, Global};
use tla_pool::Pool;
use tla_pool::form::{Form, Strict};
use tla_token::Place;
use tla_tree::{NodeId, Op};

const NOWHERE: Place = Place { line: 0, col: 0 };

/// `a \cup b`
///
/// # Errors
///
/// Only for want of memory.
pub fn cup(alloc: Global, pool: &mut Pool, a: NodeId, b: NodeId) -> Result<NodeId, AllocError>
    requires { (a < length pool.old) × (b < length pool.old) }
    ensures tree { IfOk result (λ r. at pool.new r ≡ node (strict (operator Op.Cup)) nowhere (tree (at pool.old a) (tree (at pool.old b) no_trees))) }
    ensures within { IfOk result (λ r. r < length pool.new) }
    ensures kept { Keeps pool.old pool.new }
{
    let sides = Vec::from_array(alloc, [a, b])?;
    pool.put(Form::Strict(Strict::Operator(Op::Cup)), NOWHERE, sides)
}

/// `<<>>`
///
/// # Errors
///
/// Only for want of memory.
pub fn empty_tuple(alloc: Global, pool: &mut Pool) -> Result<NodeId, AllocError>
    ensures tree { IfOk result (λ r. at pool.new r ≡ empty_tuple_tree) }
    ensures within { IfOk result (λ r. r < length pool.new) }
    ensures kept { Keeps pool.old pool.new }
{
    pool.put(Form::Strict(Strict::Tuple), NOWHERE, Vec::new(alloc))
}

/// `CASE a -> b [] c -> d`
///
/// # Errors
///
/// Only for want of memory.
pub fn choice(pool: &mut Pool, arms: Vec<NodeId>) -> Result<NodeId, AllocError>
    requires below { AllBelow (length pool.old) arms.items }
    requires paired { IsPaired (length arms.items) }
    ensures tree { IfOk result (λ r. at pool.new r ≡ node (cases false) nowhere (trees_at pool.old arms.items)) }
    ensures within { IfOk result (λ r. r < length pool.new) }
    ensures kept { Keeps pool.old pool.new }
{
    pool.put(Form::Cases(false), NOWHERE, arms)
}
