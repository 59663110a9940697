//! Statements with what stands for the names of their routine.

ghost use Rattle.std.specs.Prelude.{◌≡◌, ◌≤◌, length, IfOk};
ghost use Rattle.tla_tree.specs.Pool.{Keeps};
ghost use Rattle.pcal_tree.specs.Algorithm as pure;
ghost use Rattle.pcal_tree.specs.Expand.{graft_all, graft_some};
ghost use Rattle.pcal_tree.specs.InMemory.{stmt_at, statements_at, branches_at, past_stmt, past_statements, past_branches};
ghost use Rattle.running.specs.Prepared.{names_put, own_put};

use crate::grafts::{binds, expression, simple};
use crate::places::Places;
use pcal_tree::algorithm::Stmt;
use std::alloc::{AllocError, Global};
use tla_pool::Pool;

// A statement or label.
#[cycle(statements)]
fn stmt(alloc: Global, pool: &mut Pool, places: &Places<'_>, one: &Stmt) -> Result<Stmt, AllocError>
    requires { past_stmt one.now ≤ length pool.old }
    ensures made { IfOk result (λ r. (rest : pure.Statements) → stmt_at pool.new r (graft_all (own_put places.now.own) (graft_all (names_put places.now.local) rest)) ≡ graft_all (own_put places.now.own) (graft_all (names_put places.now.local) (stmt_at pool.old one.now rest))) }
    ensures within { IfOk result (λ r. past_stmt r ≤ length pool.new) }
    ensures kept { Keeps pool.old pool.new }
{
    match one {
        Stmt::Label(name, mark) => Ok(Stmt::Label(name.copied()?, *mark)),
        Stmt::Simple(span, one) => Ok(Stmt::Simple(*span, simple(alloc, pool, places, one)?)),
        Stmt::If(span, e, then, otherwise) => {
            let test = expression(alloc, pool, places, *e)?;
            let first = prepared_statements(alloc, pool, places, then)?;
            let second = prepared_statements(alloc, pool, places, otherwise)?;
            Ok(Stmt::If(*span, test, first, second))
        }
        Stmt::Either(span, list) => {
            let rows = branches(alloc, pool, places, list)?;
            Ok(Stmt::Either(*span, rows))
        }
        Stmt::With(span, list, stmts) => {
            let bound = binds(alloc, pool, places, list)?;
            let inner = prepared_statements(alloc, pool, places, stmts)?;
            Ok(Stmt::With(*span, bound, inner))
        }
        Stmt::While(span, e, stmts) => {
            let test = expression(alloc, pool, places, *e)?;
            let inner = prepared_statements(alloc, pool, places, stmts)?;
            Ok(Stmt::While(*span, test, inner))
        }
    }
}

// The branches of an `either`.
#[cycle(statements)]
fn branches(
    alloc: Global,
    pool: &mut Pool,
    places: &Places<'_>,
    list: &[Vec<Stmt>],
) -> Result<Vec<Vec<Stmt>>, AllocError>
    requires { past_branches list.now ≤ length pool.old }
    ensures made { IfOk result (λ r. branches_at pool.new r.items ≡ graft_some (own_put places.now.own) (graft_some (names_put places.now.local) (branches_at pool.old list.now))) }
    ensures within { IfOk result (λ r. past_branches r.items ≤ length pool.new) }
    ensures kept { Keeps pool.old pool.new }
{
    let mut rows = Vec::new(alloc);
    for i in 0..list.len() {
        rows.push(prepared_statements(alloc, pool, places, &list[i])?)?;
    }
    Ok(rows)
}

/// The statements of a list in a routine, each expression with what stands for its names. It calls itself as deep as statements are
/// in statements.
///
/// # Errors
///
/// Only for want of memory; the pool may then have more nodes than before.
#[cycle(statements)]
pub fn prepared_statements(
    alloc: Global,
    pool: &mut Pool,
    places: &Places<'_>,
    list: &[Stmt],
) -> Result<Vec<Stmt>, AllocError>
    requires { past_statements list.now ≤ length pool.old }
    ensures tree { IfOk result (λ r. statements_at pool.new r.items ≡ graft_all (own_put places.now.own) (graft_all (names_put places.now.local) (statements_at pool.old list.now))) }
    ensures within { IfOk result (λ r. past_statements r.items ≤ length pool.new) }
    ensures kept { Keeps pool.old pool.new }
{
    let mut made = Vec::new(alloc);
    for one in list {
        made.push(stmt(alloc, pool, places, one)?)?;
    }
    Ok(made)
}
