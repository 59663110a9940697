//! Declarations with what stands for names in their first values.

ghost use Rattle.std.specs.Prelude.{◌≡◌, ◌≤◌, length, IfOk};
ghost use Rattle.tla_tree.specs.Pool.{Keeps};
ghost use Rattle.pcal_tree.specs.InMemory.{start_at, declaration_at, declarations_at, past_start, past_declaration, past_declarations};
ghost use Rattle.running.specs.Prepared.{names_put, own_put, graft_start, graft_declaration, graft_declarations};

use crate::grafts::expression;
use crate::places::Places;
use pcal_tree::algorithm::{Declaration, Start};
use std::alloc::{AllocError, Global};
use tla_pool::Pool;

// A first value.
fn start(
    alloc: Global,
    pool: &mut Pool,
    places: &Places<'_>,
    one: &Start,
) -> Result<Start, AllocError>
    requires { past_start one.now ≤ length pool.old }
    ensures made { IfOk result (λ r. start_at pool.new r ≡ graft_start (own_put places.now.own) (graft_start (names_put places.now.local) (start_at pool.old one.now))) }
    ensures within { IfOk result (λ r. past_start r ≤ length pool.new) }
    ensures kept { Keeps pool.old pool.new }
{
    match one {
        Start::Unset => Ok(Start::Unset),
        Start::Equals(e) => Ok(Start::Equals(expression(alloc, pool, places, *e)?)),
        Start::Among(e) => Ok(Start::Among(expression(alloc, pool, places, *e)?)),
    }
}

// A declaration. Its name is as it was.
fn declaration(
    alloc: Global,
    pool: &mut Pool,
    places: &Places<'_>,
    one: &Declaration,
) -> Result<Declaration, AllocError>
    requires { past_declaration one.now ≤ length pool.old }
    ensures made { IfOk result (λ r. declaration_at pool.new r ≡ graft_declaration (own_put places.now.own) (graft_declaration (names_put places.now.local) (declaration_at pool.old one.now))) }
    ensures within { IfOk result (λ r. past_declaration r ≤ length pool.new) }
    ensures kept { Keeps pool.old pool.new }
{
    let name = one.name.copied()?;
    let start = start(alloc, pool, places, &one.start)?;
    Ok(Declaration { name, start })
}

/// Declarations, each expression of a first value with what stands for its names. The names that are declared are as they were.
///
/// # Errors
///
/// Only for want of memory; the pool may then have more nodes than before.
pub fn prepared_declarations(
    alloc: Global,
    pool: &mut Pool,
    places: &Places<'_>,
    list: &[Declaration],
) -> Result<Vec<Declaration>, AllocError>
    requires { past_declarations list.now ≤ length pool.old }
    ensures tree { IfOk result (λ r. declarations_at pool.new r.items ≡ graft_declarations (own_put places.now.own) (graft_declarations (names_put places.now.local) (declarations_at pool.old list.now))) }
    ensures within { IfOk result (λ r. past_declarations r.items ≤ length pool.new) }
    ensures kept { Keeps pool.old pool.new }
{
    let mut made = Vec::new(alloc);
    for one in list {
        made.push(declaration(alloc, pool, places, one)?)?;
    }
    Ok(made)
}
