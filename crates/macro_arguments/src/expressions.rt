//! Expressions and left sides, with what stands for names there.

ghost use Rattle.std.specs.Prelude.{◌≡◌, ◌<◌, ◌≤◌, length, map, IfOk, IfSome, IfNone};
ghost use Rattle.tla_tree.specs.Tree.{graft, grafts};
ghost use Rattle.tla_tree.specs.Pool.{at, trees_at, Keeps};
ghost use Rattle.pcal_tree.specs.Expand.{graft_left};
ghost use Rattle.pcal_tree.specs.InMemory.{past_numbers};
ghost use Rattle.expansion_size.specs.FramesIn.{put_by, past_frames, calls_around, found_tree};
ghost use Rattle.macro_arguments.specs.Expressions.{over_parts, StandNumbers};

use expansion_size::frames::{Found, Frames, lookup};
use std::alloc::{AllocError, Global};
use tla_pool::form::Form;
use tla_pool::graft::{Grafting, grafted};
use tla_pool::{Node, Pool};
use tla_token::Place;
use tla_tree::{Name, NodeId};

// What stands for an expression, if it is a name for which something does.
fn found<'a>(pool: &Pool, frames: &'a Frames<'a>, e: NodeId) -> Option<Found<'a>>
    requires there { e < length pool.now }
    ensures none { IfNone result (graft (put_by pool.now frames.now) (at pool.now e) ≡ over_parts (put_by pool.now frames.now) (at pool.now e)) }
    ensures some { IfSome result (λ f. found_tree pool.now f ≡ graft (put_by pool.now frames.now) (at pool.now e)) }
    ensures within { IfSome result (λ f. f.argument < past_frames frames.now) }
    ensures inner { IfSome result (λ f. past_frames f.around.now ≤ past_frames frames.now) }
    ensures fewer { IfSome result (λ f. calls_around f.around.now < calls_around frames.now) }
{
    let node = pool.node(e);
    match &node.form {
        Form::Name(name) => lookup(frames, name),
        _ => None,
    }
}

/// An expression. Outside macros it is the same one. It calls itself as deep as what it makes is deep, and once more for each call
/// around.
///
/// # Errors
///
/// Only for want of memory; the pool may then have more nodes than before.
#[cycle(trees)]
pub fn expression(
    alloc: Global,
    pool: &mut Pool,
    frames: &Frames<'_>,
    e: NodeId,
) -> Result<NodeId, AllocError>
    requires there { e < length pool.old }
    requires inner { past_frames frames.now ≤ length pool.old }
    ensures tree { IfOk result (λ r. at pool.new r ≡ graft (put_by pool.old frames.now) (at pool.old e)) }
    ensures within { IfOk result (λ r. r < length pool.new) }
    ensures kept { Keeps pool.old pool.new }
{
    match frames {
        Frames::Outside => Ok(e),
        _ => match found(&*pool, &*frames, e) {
            Some(found) => expression(alloc, pool, found.around, found.argument),
            None => {
                let Node { form, place, parts } = pool.node(e).copied(alloc)?;
                let others = expressions(alloc, pool, frames, &parts)?;
                pool.put(form, place, others)
            }
        },
    }
}

/// Expressions, one after another.
///
/// # Errors
///
/// Only for want of memory; the pool may then have more nodes than before.
#[cycle(trees)]
pub fn expressions(
    alloc: Global,
    pool: &mut Pool,
    frames: &Frames<'_>,
    list: &[NodeId],
) -> Result<Vec<NodeId>, AllocError>
    requires there { past_numbers list.now ≤ length pool.old }
    requires inner { past_frames frames.now ≤ length pool.old }
    ensures made { IfOk result (λ r. StandNumbers pool.new r.items (grafts (put_by pool.old frames.now) (trees_at pool.old list.now))) }
    ensures kept { Keeps pool.old pool.new }
{
    let mut made = Vec::new(alloc);
    for i in 0..list.len() {
        made.push(expression(alloc, pool, frames, list[i])?)?;
    }
    Ok(made)
}

// What stands for names, as it is put in for them.
#[derive(Drop)]
struct Standing<'a> {
    frames: &'a Frames<'a>,
}

impl<'a> Grafting for Standing<'a> {
    ghost use Rattle.std.specs.Prelude.{◌≤◌, length};
    ghost use Rattle.expansion_size.specs.FramesIn.{put_by, past_frames};
    ghost use Rattle.macro_arguments.specs.FramesStay.{frames_stay};

    ghost graft = { λ s ts. put_by ts s.frames.now };

    ghost fits = { λ s ts. past_frames s.frames.now ≤ length ts };

    fn put(
        &self,
        alloc: Global,
        pool: &mut Pool,
        x: &Name,
        _place: Place,
    ) -> Result<Option<NodeId>, AllocError> {
        match lookup(self.frames, x) {
            None => Ok(None),
            Some(found) => Ok(Some(expression(alloc, pool, found.around, found.argument)?)),
        }
    }

    ghost stays = { λ s old new h k. frames_stay s.frames.now old new h k };
}

/// A left side, which keeps its place. However many fields and subscripts it has, it goes through them without calling itself.
///
/// # Errors
///
/// Only for want of memory; the pool may then have more nodes than before.
pub fn left_side(
    alloc: Global,
    pool: &mut Pool,
    frames: &Frames<'_>,
    e: NodeId,
) -> Result<NodeId, AllocError>
    requires there { e < length pool.old }
    requires inner { past_frames frames.now ≤ length pool.old }
    ensures tree { IfOk result (λ r. at pool.new r ≡ graft_left (put_by pool.old frames.now) (at pool.old e)) }
    ensures within { IfOk result (λ r. r < length pool.new) }
    ensures kept { Keeps pool.old pool.new }
{
    match frames {
        Frames::Outside => Ok(e),
        _ => {
            let place = pool.node(e).place;
            let standing = Standing { frames: &*frames };
            let whole = grafted(alloc, pool, e, &standing)?;
            let Node { form, parts, .. } = pool.node(whole).copied(alloc)?;
            pool.put(form, place, parts)
        }
    }
}
