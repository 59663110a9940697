//! Names as they are written, and the variables of a process as its own parts.

ghost use Rattle.std.specs.Prelude.{◌≡◌, ◌<◌, length, IfOk};
ghost use Rattle.tla_token.specs.Signs.{is_among};
ghost use Rattle.tla_tree.specs.Tree.{Every, graft, name, node, no_trees};
ghost use Rattle.tla_tree.specs.Pool.{at, Keeps};
ghost use Rattle.tla_value.specs.Grafts.{owned};
ghost use Rattle.name_bits.specs.NamesIn.{names_in};
ghost use Rattle.written_names.specs.Units.{naming_of};
ghost use Rattle.prime_subst.specs.Readers.{Lacks, renames_of};

use name_bits::{Bits, Order};
use std::alloc::{AllocError, Global};
use tla_pool::Pool;
use tla_pool::form::{Form, Strict};
use tla_pool::graft::{Grafting, grafted};
use tla_token::Place;
use tla_tree::{Name, NodeId};
use written_names::naming::Naming;

/// What stands for the names of a routine.
#[derive(Clone, Copy)]
pub struct Local<'a> {
    /// The number of the routine.
    pub unit: usize,
    /// Its own variables and parameters, as they stand in the text.
    pub locals: &'a Order,
    /// The written names.
    pub naming: &'a Naming,
}

/// The variables that each process has for itself, by their written names.
#[derive(Clone, Copy)]
pub struct Own<'a> {
    /// Which of the variables.
    pub own: &'a Bits,
    /// All variables.
    pub order: &'a Order,
    /// The name `self`.
    pub this: &'a Name,
}

// A name at a place.
fn name_at(alloc: Global, pool: &mut Pool, x: &Name, place: Place) -> Result<NodeId, AllocError>
    ensures tree { IfOk result (λ r. at pool.new r ≡ node (name x.now) place no_trees) }
    ensures within { IfOk result (λ r. r < length pool.new) }
    ensures kept { Keeps pool.old pool.new }
{
    pool.put(Form::Name(x.copied()?), place, Vec::new(alloc))
}

impl<'a> Grafting for Local<'a> {
    ghost use Rattle.std.specs.Prelude.{refl};
    ghost use Rattle.tla_token.specs.Signs.{is_among};
    ghost use Rattle.written_names.specs.Units.{naming_of};
    ghost use Rattle.prime_subst.specs.Readers.{renames_of};

    ghost graft = { λ s ts. renames_of (is_among s.locals.now) ((naming_of s.naming.now).local s.unit) };

    ghost fits = { λ s ts. Unit {0} };

    fn put(
        &self,
        alloc: Global,
        pool: &mut Pool,
        x: &Name,
        place: Place,
    ) -> Result<Option<NodeId>, AllocError> {
        if !self.locals.has(x) {
            return Ok(None);
        }
        let written = self.naming.local(self.unit, x);
        Ok(Some(name_at(alloc, pool, written, place)?))
    }

    ghost stays = { λ s old new h k. (h, refl) };
}

impl<'a> Grafting for Own<'a> {
    ghost use Rattle.std.specs.Prelude.{refl};
    ghost use Rattle.tla_token.specs.Signs.{is_among};
    ghost use Rattle.tla_value.specs.Grafts.{owned};
    ghost use Rattle.name_bits.specs.NamesIn.{names_in};

    ghost graft = { λ s ts. owned s.this.now (is_among (names_in s.order.now s.own.now)) };

    ghost fits = { λ s ts. Unit {0} };

    fn put(
        &self,
        alloc: Global,
        pool: &mut Pool,
        x: &Name,
        place: Place,
    ) -> Result<Option<NodeId>, AllocError> {
        if !self.own.has_name(self.order, x) {
            return Ok(None);
        }
        let all = name_at(alloc, pool, x, place)?;
        let this = name_at(alloc, pool, self.this, place)?;
        let parts = vec![in alloc; all, this]?;
        Ok(Some(pool.put(Form::Strict(Strict::Apply), place, parts)?))
    }

    ghost stays = { λ s old new h k. (h, refl) };
}

/// The expression of a routine with names as they are written; the same one where it reads none of them.
///
/// # Errors
///
/// Only for want of memory; the pool may then have more nodes than before.
pub fn with_names(
    alloc: Global,
    pool: &mut Pool,
    e: NodeId,
    local: &Local<'_>,
) -> Result<NodeId, AllocError>
    requires { e < length pool.old }
    ensures tree { IfOk result (λ r. at pool.new r ≡ graft (renames_of (is_among local.now.locals.now) ((naming_of local.now.naming.now).local local.now.unit)) (at pool.old e)) }
    ensures within { IfOk result (λ r. r < length pool.new) }
    ensures kept { Keeps pool.old pool.new }
    ensures same { IfOk result (λ r. Every (Lacks (is_among local.now.locals.now)) (at pool.old e) → r ≡ e) }
{
    if local.locals.len() == 0 {
        return Ok(e);
    }
    grafted(alloc, pool, e, local)
}

/// The expression with each variable that a process has for itself as the part of it that is that process' own; the same one
/// where it reads none of these.
///
/// # Errors
///
/// Only for want of memory; the pool may then have more nodes than before.
pub fn with_own(
    alloc: Global,
    pool: &mut Pool,
    e: NodeId,
    own: &Own<'_>,
) -> Result<NodeId, AllocError>
    requires { e < length pool.old }
    ensures tree { IfOk result (λ r. at pool.new r ≡ graft (owned own.now.this.now (is_among (names_in own.now.order.now own.now.own.now))) (at pool.old e)) }
    ensures within { IfOk result (λ r. r < length pool.new) }
    ensures kept { Keeps pool.old pool.new }
    ensures same { IfOk result (λ r. Every (Lacks (is_among (names_in own.now.order.now own.now.own.now))) (at pool.old e) → r ≡ e) }
{
    if own.own.is_empty() {
        return Ok(e);
    }
    grafted(alloc, pool, e, own)
}

/// The expression of a routine with names as they are written, and each variable that a process has for itself as the part of
/// it that is that process' own; the same one where it reads none of these.
///
/// # Errors
///
/// Only for want of memory; the pool may then have more nodes than before.
pub fn localise(
    alloc: Global,
    pool: &mut Pool,
    e: NodeId,
    local: &Local<'_>,
    own: &Own<'_>,
) -> Result<NodeId, AllocError>
    requires { e < length pool.old }
    ensures tree { IfOk result (λ r. at pool.new r ≡ graft (owned own.now.this.now (is_among (names_in own.now.order.now own.now.own.now))) (graft (renames_of (is_among local.now.locals.now) ((naming_of local.now.naming.now).local local.now.unit)) (at pool.old e))) }
    ensures within { IfOk result (λ r. r < length pool.new) }
    ensures kept { Keeps pool.old pool.new }
    ensures same { IfOk result (λ r. Every (Lacks (is_among local.now.locals.now)) (at pool.old e) → Every (Lacks (is_among (names_in own.now.order.now own.now.own.now))) (at pool.old e) → r ≡ e) }
{
    let renamed = with_names(alloc, pool, e, local)?;
    with_own(alloc, pool, renamed, own)
}
