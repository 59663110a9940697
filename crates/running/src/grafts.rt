//! What statements have of expressions, with what stands for their names.

ghost use Rattle.std.specs.Prelude.{◌≡◌, ◌<◌, ◌≤◌, length, map, IfOk};
ghost use Rattle.tla_tree.specs.Tree.{graft, grafts};
ghost use Rattle.tla_tree.specs.Pool.{at, trees_at, Keeps};
ghost use Rattle.tla_tree.specs.Nesting.{greatest};
ghost use Rattle.pcal_tree.specs.Algorithm as pure;
ghost use Rattle.pcal_tree.specs.Expand.{graft_left, graft_assignments, graft_binds, graft_one};
ghost use Rattle.pcal_tree.specs.InMemory.{assignments_at, bind_at, binds_at, simple_at, past_numbers, past_assignment, past_bind, past_binds, past_simple};
ghost use Rattle.running.specs.Prepared.{names_put, own_put};

use crate::places::Places;
use pcal_tree::algorithm::{Assignment, Bind, Simple};
use prime_subst::localise;
use std::alloc::{AllocError, Global};
use tla_pool::Pool;
use tla_tree::NodeId;

/// An expression.
///
/// # Errors
///
/// Only for want of memory; the pool may then have more nodes than before.
pub fn expression(
    alloc: Global,
    pool: &mut Pool,
    places: &Places<'_>,
    e: NodeId,
) -> Result<NodeId, AllocError>
    requires { e < length pool.old }
    ensures tree { IfOk result (λ r. at pool.new r ≡ graft (own_put places.now.own) (graft (names_put places.now.local) (at pool.old e))) }
    ensures within { IfOk result (λ r. r < length pool.new) }
    ensures kept { Keeps pool.old pool.new }
{
    localise(alloc, pool, e, &places.local, &places.own)
}

/// Expressions, one after another.
///
/// # Errors
///
/// Only for want of memory; the pool may then have more nodes than before.
pub fn expressions(
    alloc: Global,
    pool: &mut Pool,
    places: &Places<'_>,
    list: &[NodeId],
) -> Result<Vec<NodeId>, AllocError>
    requires { past_numbers list.now ≤ length pool.old }
    ensures trees { IfOk result (λ r. trees_at pool.new r.items ≡ grafts (own_put places.now.own) (grafts (names_put places.now.local) (trees_at pool.old list.now))) }
    ensures within { IfOk result (λ r. past_numbers r.items ≤ length pool.new) }
    ensures kept { Keeps pool.old pool.new }
{
    let mut made = Vec::new(alloc);
    for i in 0..list.len() {
        made.push(expression(alloc, pool, places, list[i])?)?;
    }
    Ok(made)
}

// One of the left and right sides of a statement. What stands for a name is at its place, so a left side keeps its own.
fn assignment(
    alloc: Global,
    pool: &mut Pool,
    places: &Places<'_>,
    one: &Assignment,
) -> Result<Assignment, AllocError>
    requires { past_assignment one.now ≤ length pool.old }
    ensures left { IfOk result (λ r. at pool.new r.left ≡ graft_left (own_put places.now.own) (graft_left (names_put places.now.local) (at pool.old one.now.left))) }
    ensures right { IfOk result (λ r. at pool.new r.right ≡ graft (own_put places.now.own) (graft (names_put places.now.local) (at pool.old one.now.right))) }
    ensures within { IfOk result (λ r. past_assignment r ≤ length pool.new) }
    ensures kept { Keeps pool.old pool.new }
{
    let left = expression(alloc, pool, places, one.left)?;
    let right = expression(alloc, pool, places, one.right)?;
    Ok(Assignment { left, right })
}

// Left and right sides.
fn assignments(
    alloc: Global,
    pool: &mut Pool,
    places: &Places<'_>,
    list: &[Assignment],
) -> Result<Vec<Assignment>, AllocError>
    requires { greatest (map past_assignment list.now) ≤ length pool.old }
    ensures made { IfOk result (λ r. assignments_at pool.new r.items ≡ graft_assignments (own_put places.now.own) (graft_assignments (names_put places.now.local) (assignments_at pool.old list.now))) }
    ensures within { IfOk result (λ r. greatest (map past_assignment r.items) ≤ length pool.new) }
    ensures kept { Keeps pool.old pool.new }
{
    let mut made = Vec::new(alloc);
    for one in list {
        made.push(assignment(alloc, pool, places, one)?)?;
    }
    Ok(made)
}

// What a `with` names once.
fn bind(alloc: Global, pool: &mut Pool, places: &Places<'_>, one: &Bind) -> Result<Bind, AllocError>
    requires { past_bind one.now ≤ length pool.old }
    ensures made { IfOk result (λ r. (bs : pure.Binds) → bind_at pool.new r (graft_binds (own_put places.now.own) (graft_binds (names_put places.now.local) bs)) ≡ graft_binds (own_put places.now.own) (graft_binds (names_put places.now.local) (bind_at pool.old one.now bs))) }
    ensures within { IfOk result (λ r. past_bind r ≤ length pool.new) }
    ensures kept { Keeps pool.old pool.new }
{
    match one {
        Bind::Among(name, e) => {
            let set = expression(alloc, pool, places, *e)?;
            Ok(Bind::Among(name.copied()?, set))
        }
        Bind::Is(name, e) => {
            let value = expression(alloc, pool, places, *e)?;
            Ok(Bind::Is(name.copied()?, value))
        }
    }
}

/// What a `with` names.
///
/// # Errors
///
/// Only for want of memory; the pool may then have more nodes than before.
pub fn binds(
    alloc: Global,
    pool: &mut Pool,
    places: &Places<'_>,
    list: &[Bind],
) -> Result<Vec<Bind>, AllocError>
    requires { past_binds list.now ≤ length pool.old }
    ensures made { IfOk result (λ r. binds_at pool.new r.items ≡ graft_binds (own_put places.now.own) (graft_binds (names_put places.now.local) (binds_at pool.old list.now))) }
    ensures within { IfOk result (λ r. past_binds r.items ≤ length pool.new) }
    ensures kept { Keeps pool.old pool.new }
{
    let mut made = Vec::new(alloc);
    for one in list {
        made.push(bind(alloc, pool, places, one)?)?;
    }
    Ok(made)
}

/// A statement that has none in it, a macro call too.
///
/// # Errors
///
/// Only for want of memory; the pool may then have more nodes than before.
pub fn simple(
    alloc: Global,
    pool: &mut Pool,
    places: &Places<'_>,
    one: &Simple,
) -> Result<Simple, AllocError>
    requires { past_simple one.now ≤ length pool.old }
    ensures made { IfOk result (λ r. simple_at pool.new r ≡ graft_one (own_put places.now.own) (graft_one (names_put places.now.local) (simple_at pool.old one.now))) }
    ensures within { IfOk result (λ r. past_simple r ≤ length pool.new) }
    ensures kept { Keeps pool.old pool.new }
{
    match one {
        Simple::Assign(list) => Ok(Simple::Assign(assignments(alloc, pool, places, list)?)),
        Simple::Await(e) => Ok(Simple::Await(expression(alloc, pool, places, *e)?)),
        Simple::Print(e) => Ok(Simple::Print(expression(alloc, pool, places, *e)?)),
        Simple::Assert(e) => Ok(Simple::Assert(expression(alloc, pool, places, *e)?)),
        Simple::Skip => Ok(Simple::Skip),
        Simple::Goto(name) => Ok(Simple::Goto(name.copied()?)),
        Simple::Macro(name, list) => {
            let given = expressions(alloc, pool, places, list)?;
            Ok(Simple::Macro(name.copied()?, given))
        }
        Simple::Call(name, list) => {
            let given = expressions(alloc, pool, places, list)?;
            Ok(Simple::Call(name.copied()?, given))
        }
        Simple::Return => Ok(Simple::Return),
    }
}
