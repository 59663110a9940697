//! Expressions as they are written in a step: primed, and with what is put in after that.

ghost use Rattle.std.specs.Prelude.{◌≡◌, ◌<◌, length, IfOk};
ghost use Rattle.std.specs.Option.{option_map};
ghost use Rattle.tla_token.specs.Signs.{is_among};
ghost use Rattle.tla_tree.specs.Pool.{at, Keeps};
ghost use Rattle.module_write.specs.InMemory.{MaybeIn};
ghost use Rattle.name_bits.specs.NamesIn.{names_in};
ghost use Rattle.action_builder.specs.Written.{primed};
ghost use Rattle.right_sides.specs.After.{put_one, after_tree, AfterIn};

use name_bits::{Bits, Order};
use prime_subst::prime;
use std::alloc::{AllocError, Global};
use tla_pool::Pool;
use tla_pool::graft::{Grafting, grafted};
use tla_token::Place;
use tla_tree::{Name, NodeId};

/// What is put in after variables are primed.
#[derive(Clone, Copy)]
pub struct After {
    /// What stands for the name that the stack has in a step which still reads what it was.
    pub old: Option<NodeId>,
    /// The expression of a single process, which stands for `self`.
    pub single: Option<NodeId>,
}

// An expression in place of a name.
#[derive(Drop)]
struct InPlace<'a> {
    word: &'a [u8],
    e: NodeId,
}

impl<'a> Grafting for InPlace<'a> {
    ghost use Rattle.std.specs.Prelude.{◌<◌, length};
    ghost use Rattle.tla_tree.specs.Pool.{at};
    ghost use Rattle.action_builder.specs.SingleProcess.{in_place_of};
    ghost use Rattle.right_sides.specs.Stays.{place_stays};

    ghost graft = { λ s ts. in_place_of s.word.now (at ts s.e) };

    ghost fits = { λ s ts. s.e < length ts };

    fn put(
        &self,
        _alloc: Global,
        _pool: &mut Pool,
        x: &Name,
        _place: Place,
    ) -> Result<Option<NodeId>, AllocError> {
        if x.bytes() == self.word {
            Ok(Some(self.e))
        } else {
            Ok(None)
        }
    }

    ghost stays = { λ s old new h k. place_stays s.word.now s.e old new h k };
}

// The expression with what stands for a name, if anything does.
fn put_one(
    alloc: Global,
    pool: &mut Pool,
    word: &[u8],
    instead: Option<NodeId>,
    e: NodeId,
) -> Result<NodeId, AllocError>
    requires there { e < length pool.old }
    requires put { MaybeIn (length pool.old) instead }
    ensures tree { IfOk result (λ r. at pool.new r ≡ put_one word.now (option_map (at pool.old) instead) (at pool.old e)) }
    ensures within { IfOk result (λ r. r < length pool.new) }
    ensures kept { Keeps pool.old pool.new }
{
    match instead {
        None => Ok(e),
        Some(with) => grafted(alloc, pool, e, &InPlace { word, e: with }),
    }
}

/// An expression as it is written in a step where these variables are assigned already: with their names primed, and then with
/// what stands for the old stack and for `self`. It is the same one where it reads none of these.
///
/// # Errors
///
/// Only for want of memory; the pool may then have more nodes than before.
pub fn written(
    alloc: Global,
    pool: &mut Pool,
    order: &Order,
    assigned: &Bits,
    after: &After,
    e: NodeId,
) -> Result<NodeId, AllocError>
    requires there { e < length pool.old }
    requires put { AfterIn (length pool.old) after.now }
    ensures tree { IfOk result (λ r. at pool.new r ≡ after_tree pool.old after.now (primed (is_among (names_in order.now assigned.now)) (at pool.old e))) }
    ensures within { IfOk result (λ r. r < length pool.new) }
    ensures kept { Keeps pool.old pool.new }
{
    let next = prime(alloc, pool, e, assigned, order)?;
    let restored = put_one(alloc, pool, b"old stack", after.old, next)?;
    put_one(alloc, pool, b"self", after.single, restored)
}
