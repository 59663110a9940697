//! Assigned variables primed.

ghost use Rattle.std.specs.Prelude.{◌≡◌, ◌<◌, Bool, true, length, IfOk};
ghost use Rattle.tla_token.specs.Signs.{is_among};
ghost use Rattle.tla_tree.specs.Tree.{Word, Every, graft};
ghost use Rattle.tla_tree.specs.Pool.{at, Keeps};
ghost use Rattle.tla_value.specs.Grafts.{primes};
ghost use Rattle.name_bits.specs.NamesIn.{names_in};
ghost use Rattle.prime_subst.specs.Readers.{Lacks};

use name_bits::{Bits, Order};
use std::alloc::{AllocError, Global};
use tla_pool::Pool;
use tla_pool::form::Form;
use tla_pool::graft::{Grafting, grafted};
use tla_token::Place;
use tla_tree::{Name, NodeId};

// The variables of a set, primed.
#[derive(Drop)]
struct Primes<'a> {
    assigned: &'a Bits,
    order: &'a Order,
}

impl<'a> Grafting for Primes<'a> {
    ghost use Rattle.std.specs.Prelude.{refl};
    ghost use Rattle.tla_token.specs.Signs.{is_among};
    ghost use Rattle.tla_value.specs.Grafts.{primes};
    ghost use Rattle.name_bits.specs.NamesIn.{names_in};

    ghost graft = { λ s ts. primes (is_among (names_in s.order.now s.assigned.now)) };

    ghost fits = { λ s ts. Unit {0} };

    fn put(
        &self,
        alloc: Global,
        pool: &mut Pool,
        x: &Name,
        place: Place,
    ) -> Result<Option<NodeId>, AllocError> {
        if !self.assigned.has_name(self.order, x) {
            return Ok(None);
        }
        let next = Form::Next(x.copied()?);
        Ok(Some(pool.put(next, place, Vec::new(alloc))?))
    }

    ghost stays = { λ s old new h k. (h, refl) };
}

// Whether an expression is a number, a text or a truth value, which have no name.
fn is_literal(pool: &Pool, e: NodeId) -> bool
    requires { e < length pool.now }
    ensures { result ≡ true → (A : Word → Bool) → Every (Lacks A) (at pool.now e) }
{
    let node = pool.node(e);
    if !node.parts.is_empty() {
        return false;
    }
    match &node.form {
        Form::Number(_) => true,
        Form::String(_) => true,
        Form::Truth(_) => true,
        _ => false,
    }
}

/// The expression with each variable of a set primed; the same one where it reads none of them.
///
/// # Errors
///
/// Only for want of memory; the pool may then have more nodes than before.
pub fn prime(
    alloc: Global,
    pool: &mut Pool,
    e: NodeId,
    assigned: &Bits,
    order: &Order,
) -> Result<NodeId, AllocError>
    requires { e < length pool.old }
    ensures tree { IfOk result (λ r. at pool.new r ≡ graft (primes (is_among (names_in order.now assigned.now))) (at pool.old e)) }
    ensures within { IfOk result (λ r. r < length pool.new) }
    ensures kept { Keeps pool.old pool.new }
    ensures same { IfOk result (λ r. Every (Lacks (is_among (names_in order.now assigned.now))) (at pool.old e) → r ≡ e) }
{
    if assigned.is_empty() {
        return Ok(e);
    }
    if is_literal(pool, e) {
        return Ok(e);
    }
    grafted(alloc, pool, e, &Primes { assigned, order })
}
