//! Definitions that are read.

ghost use Rattle.std.specs.Prelude.{◌≡◌, ◌<◌, ◌≤◌, length, true, IfOk, IfSome};
ghost use Rattle.tla_tree.specs.Pool.{Keeps};
ghost use Rattle.expr_nodes.specs.Ahead.{ahead};
ghost use Rattle.module_tree.specs.Outside as pure;
ghost use Rattle.outside_reading.specs.PlainUnits.{body_in, defined_in, spelled_in, if_reads};
ghost use Rattle.outside_reading.specs.SmallNumbers.{all_small};
ghost use Rattle.module_outside.specs.SightIn.{Sees};
ghost use Rattle.module_outside.specs.OutsideAt.{title_in, made, definition_seen, definition_found, with_found};

use crate::body::{are_small, body_at};
use crate::depth::definition_depth;
use crate::front::token_at;
use crate::names::head_at;
use crate::sight::Sight;
use expr_nodes::cursor::Word;
use expr_nodes::gather::placed;
use expr_nodes::view::View;
use std::alloc::{AllocError, Global};
use tla_pool::Pool;
use tla_token::Tokens;
use tla_tree::{NodeId, PlacedName};

/// A definition that was read: its name, its parameters, and its body by its number in a pool.
#[derive(Drop)]
pub struct ReadDefinition {
    pub title: PlacedName,
    pub params: Vec<PlacedName>,
    pub body: NodeId,
}

// The name with which a unit begins, in any column.
fn title(alloc: Global, unit: &Tokens) -> Result<Option<PlacedName>, AllocError>
    requires { 0 < length unit.now.items.items }
    ensures { IfOk result (λ r. r ≡ title_in (ahead unit.now 0)) }
{
    let token = token_at(unit, 0);
    match token.view {
        View::Word(span) => {
            let word = Word {
                place: token.place,
                span,
            };
            Ok(Some(placed(alloc, unit, word)?))
        }
        _ => Ok(None),
    }
}

// With the body from a token on, if it is one.
fn with_body(
    alloc: Global,
    pool: &mut Pool,
    unit: &Tokens,
    title: PlacedName,
    params: Vec<PlacedName>,
    at: usize,
) -> Result<Option<ReadDefinition>, AllocError>
    requires there { at ≤ length unit.now.items.items }
    requires small { all_small (ahead unit.now 0) ≡ true }
    ensures value { IfOk result (λ r. definition_found pool.new r ≡ made title params.items (body_in (ahead unit.now at))) }
    ensures within { IfOk result (λ r. IfSome r (λ d. d.body < length pool.new)) }
    ensures kept { Keeps pool.old pool.new }
{
    match body_at(alloc, unit, pool, at)? {
        Some(body) => Ok(Some(ReadDefinition {
            title,
            params,
            body,
        })),
        None => Ok(None),
    }
}

// The definition that a unit is spelled as.
fn spelled(
    alloc: Global,
    pool: &mut Pool,
    unit: &Tokens,
) -> Result<Option<ReadDefinition>, AllocError>
    requires some { 0 < length unit.now.items.items }
    requires small { all_small (ahead unit.now 0) ≡ true }
    ensures value { IfOk result (λ r. definition_found pool.new r ≡ spelled_in (ahead unit.now 0)) }
    ensures within { IfOk result (λ r. IfSome r (λ d. d.body < length pool.new)) }
    ensures kept { Keeps pool.old pool.new }
{
    let Some(name) = title(alloc, unit)? else {
        return Ok(None);
    };
    if unit.items.len() < 2 {
        return Ok(None);
    }
    match head_at(alloc, unit, 1)? {
        Some((params, at)) => with_body(alloc, pool, unit, name, params, at),
        None => Ok(None),
    }
}

// It is read if all that it uses may be used, and it is seen then.
fn if_read(
    alloc: Global,
    pool: &Pool,
    sight: &mut Sight,
    found: ReadDefinition,
) -> Result<Option<ReadDefinition>, AllocError>
    requires { found.body < length pool.now }
    ensures value { IfOk result (λ r. (v : pure.Sight) → Sees sight.old v → definition_found pool.now r ≡ if_reads v (definition_seen pool.now found)) }
    ensures within { IfOk result (λ r. IfSome r (λ d. d.body < length pool.now)) }
    ensures sees { IfOk result (λ r. (v : pure.Sight) → Sees sight.old v → Sees sight.new (with_found v (definition_found pool.now r))) }
{
    let params: &[PlacedName] = &found.params;
    match definition_depth(alloc, pool, sight, &found.title.name, params, found.body)? {
        Some(depth) => {
            sight.define(&found.title.name, params.len(), depth)?;
            Ok(Some(found))
        }
        None => Ok(None),
    }
}

/// The definition that a unit is, if it is read; it is seen then.
///
/// # Errors
///
/// Only for want of memory.
pub fn definition(
    alloc: Global,
    pool: &mut Pool,
    sight: &mut Sight,
    unit: &Tokens,
) -> Result<Option<ReadDefinition>, AllocError>
    requires { 0 < length unit.now.items.items }
    ensures value { IfOk result (λ r. (v : pure.Sight) → Sees sight.old v → definition_found pool.new r ≡ defined_in v (ahead unit.now 0)) }
    ensures within { IfOk result (λ r. IfSome r (λ d. d.body < length pool.new)) }
    ensures sees { IfOk result (λ r. (v : pure.Sight) → Sees sight.old v → Sees sight.new (with_found v (definition_found pool.new r))) }
    ensures kept { Keeps pool.old pool.new }
{
    if !are_small(unit) {
        return Ok(None);
    }
    match spelled(alloc, pool, unit)? {
        Some(found) => if_read(alloc, pool, sight, found),
        None => Ok(None),
    }
}
