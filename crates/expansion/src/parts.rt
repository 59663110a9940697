//! What statements have of expressions, with what stands for names there.

ghost use Rattle.std.specs.Prelude.{◌≡◌, ◌≤◌, length, map, IfOk};
ghost use Rattle.tla_tree.specs.Tree.{graft};
ghost use Rattle.tla_tree.specs.Pool.{at, Keeps};
ghost use Rattle.tla_tree.specs.Nesting.{greatest};
ghost use Rattle.pcal_tree.specs.Expand.{graft_left, graft_assignments, graft_binds, graft_one};
ghost use Rattle.pcal_tree.specs.InMemory.{assignments_at, bind_at, binds_at, simple_at, past_assignment, past_bind, past_binds, past_simple};
ghost use Rattle.expansion_size.specs.FramesIn.{put_by, past_frames};
ghost use Rattle.macro_arguments.specs.Expressions.{StandAssignments, StandBinds, StandSimple, bind_put};

use expansion_size::frames::Frames;
use macro_arguments::expressions::{expression, expressions, left_side};
use pcal_tree::algorithm::{Assignment, Bind, Simple};
use std::alloc::{AllocError, Global};
use tla_pool::Pool;

// One of the left and right sides of a statement.
fn assignment(
    alloc: Global,
    pool: &mut Pool,
    frames: &Frames<'_>,
    one: &Assignment,
) -> Result<Assignment, AllocError>
    requires there { past_assignment one.now ≤ length pool.old }
    requires inner { past_frames frames.now ≤ length pool.old }
    ensures left { IfOk result (λ r. at pool.new r.left ≡ graft_left (put_by pool.old frames.now) (at pool.old one.now.left)) }
    ensures right { IfOk result (λ r. at pool.new r.right ≡ graft (put_by pool.old frames.now) (at pool.old one.now.right)) }
    ensures within { IfOk result (λ r. past_assignment r ≤ length pool.new) }
    ensures kept { Keeps pool.old pool.new }
{
    let left = left_side(alloc, pool, frames, one.left)?;
    let right = expression(alloc, pool, frames, one.right)?;
    Ok(Assignment { left, right })
}

// Left and right sides.
fn assignments(
    alloc: Global,
    pool: &mut Pool,
    frames: &Frames<'_>,
    list: &[Assignment],
) -> Result<Vec<Assignment>, AllocError>
    requires there { greatest (map past_assignment list.now) ≤ length pool.old }
    requires inner { past_frames frames.now ≤ length pool.old }
    ensures made { IfOk result (λ r. StandAssignments pool.new r.items (graft_assignments (put_by pool.old frames.now) (assignments_at pool.old list.now))) }
    ensures kept { Keeps pool.old pool.new }
{
    let mut made = Vec::new(alloc);
    for one in list {
        made.push(assignment(alloc, pool, frames, one)?)?;
    }
    Ok(made)
}

// What a `with` names once.
fn bind(alloc: Global, pool: &mut Pool, frames: &Frames<'_>, one: &Bind) -> Result<Bind, AllocError>
    requires there { past_bind one.now ≤ length pool.old }
    requires inner { past_frames frames.now ≤ length pool.old }
    ensures made { IfOk result (λ r. bind_at pool.new r ≡ bind_put (put_by pool.old frames.now) pool.old one.now) }
    ensures within { IfOk result (λ r. past_bind r ≤ length pool.new) }
    ensures kept { Keeps pool.old pool.new }
{
    match one {
        Bind::Among(name, e) => {
            let set = expression(alloc, pool, frames, *e)?;
            Ok(Bind::Among(name.copied()?, set))
        }
        Bind::Is(name, e) => {
            let value = expression(alloc, pool, frames, *e)?;
            Ok(Bind::Is(name.copied()?, value))
        }
    }
}

/// What a `with` names.
///
/// # Errors
///
/// Only for want of memory; the pool may then have more nodes than before.
pub fn binds(
    alloc: Global,
    pool: &mut Pool,
    frames: &Frames<'_>,
    list: &[Bind],
) -> Result<Vec<Bind>, AllocError>
    requires there { past_binds list.now ≤ length pool.old }
    requires inner { past_frames frames.now ≤ length pool.old }
    ensures made { IfOk result (λ r. StandBinds pool.new r.items (graft_binds (put_by pool.old frames.now) (binds_at pool.old list.now))) }
    ensures kept { Keeps pool.old pool.new }
{
    let mut made = Vec::new(alloc);
    for one in list {
        made.push(bind(alloc, pool, frames, one)?)?;
    }
    Ok(made)
}

/// A statement that has none in it, a macro call too.
///
/// # Errors
///
/// Only for want of memory; the pool may then have more nodes than before.
pub fn simple(
    alloc: Global,
    pool: &mut Pool,
    frames: &Frames<'_>,
    one: &Simple,
) -> Result<Simple, AllocError>
    requires there { past_simple one.now ≤ length pool.old }
    requires inner { past_frames frames.now ≤ length pool.old }
    ensures made { IfOk result (λ r. StandSimple pool.new r (graft_one (put_by pool.old frames.now) (simple_at pool.old one.now))) }
    ensures kept { Keeps pool.old pool.new }
{
    match one {
        Simple::Assign(list) => Ok(Simple::Assign(assignments(alloc, pool, frames, list)?)),
        Simple::Await(e) => Ok(Simple::Await(expression(alloc, pool, frames, *e)?)),
        Simple::Print(e) => Ok(Simple::Print(expression(alloc, pool, frames, *e)?)),
        Simple::Assert(e) => Ok(Simple::Assert(expression(alloc, pool, frames, *e)?)),
        Simple::Skip => Ok(Simple::Skip),
        Simple::Goto(name) => Ok(Simple::Goto(name.copied()?)),
        Simple::Macro(name, list) => {
            let given = expressions(alloc, pool, frames, list)?;
            Ok(Simple::Macro(name.copied()?, given))
        }
        Simple::Call(name, list) => {
            let given = expressions(alloc, pool, frames, list)?;
            Ok(Simple::Call(name.copied()?, given))
        }
        Simple::Return => Ok(Simple::Return),
    }
}
