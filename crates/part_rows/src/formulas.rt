//! Formulas that are put into a pool in memory, and how they are written.

ghost use Rattle.std.specs.Prelude.{◌<◌, length};

use module_write::formulas::{at, binds_self, equal, functions_from, is_in, named, quoted, set};
use std::alloc::{AllocError, Global};
use tla_pool::Pool;
use tla_tree::{Binder, Name, NodeId, Text};
use tla_write::write_expr;

fn put_written(
    alloc: Global,
    told: &mut Vec<u8>,
    pool: &Pool,
    e: NodeId,
) -> Result<(), AllocError> {
    let mut text = Text::new(Vec::new(alloc));
    if e < pool.len() {
        write_expr(alloc, pool, e, &mut text)?;
    }
    told.extend_from_slice(text.bytes())
}

fn name(alloc: Global, bytes: &[u8]) -> Result<Name, AllocError> {
    Ok(Name::new(Vec::from_slice(alloc, bytes)?))
}

/// Appends a formula over `self`.
pub fn put_over_self(alloc: Global, told: &mut Vec<u8>) -> Result<(), AllocError> {
    let mut pool = Pool::new(alloc);
    let pc = named(alloc, &mut pool, name(alloc, b"pc")?)?;
    let here = named(alloc, &mut pool, name(alloc, b"self")?)?;
    if pc >= pool.len() || here >= pool.len() {
        return Ok(());
    }
    let place = at(alloc, &mut pool, pc, here)?;
    if place >= pool.len() || pc >= pool.len() {
        return Ok(());
    }
    let ended = equal(alloc, &mut pool, place, pc)?;
    if ended >= pool.len() || pc >= pool.len() {
        return Ok(());
    }
    let each = binds_self(alloc, &mut pool, Binder::ForAll, pc, ended)?;
    put_written(alloc, told, &pool, each)
}

/// Appends a set of functions over sets of texts.
pub fn put_functions(alloc: Global, told: &mut Vec<u8>) -> Result<(), AllocError> {
    let mut pool = Pool::new(alloc);
    let text = Text::new(Vec::from_slice(alloc, b"Done")?);
    let done = quoted(alloc, &mut pool, text)?;
    if done >= pool.len() {
        return Ok(());
    }
    let labels = set(&mut pool, Vec::from_array(alloc, [done, done])?)?;
    if labels >= pool.len() || done >= pool.len() {
        return Ok(());
    }
    let other = is_in(alloc, &mut pool, false, done, labels)?;
    if other >= pool.len() || labels >= pool.len() {
        return Ok(());
    }
    let whole = functions_from(alloc, &mut pool, other, labels)?;
    put_written(alloc, told, &pool, whole)
}
