//! Statements with their macro calls written out.

ghost use Rattle.std.specs.Prelude.{◌≡◌, ◌≤◌, [], ◌∷◌, List, length, map, IfOk, OnOk, IfSome, IfNone};
ghost use Rattle.tla_tree.specs.Tree.{Tree};
ghost use Rattle.tla_tree.specs.Pool.{trees_at, Keeps};
ghost use Rattle.tla_tree.specs.Nesting.{greatest};
ghost use Rattle.pcal_tree.specs.Algorithm as pure;
ghost use Rattle.pcal_tree.specs.Expand.{Writing, graft_all, followed_by, expand, written_out};
ghost use Rattle.pcal_tree.specs.InMemory.{span_of, stmt_at, past_numbers, past_stmt, past_statements, past_branches, past_macro};
ghost use Rattle.expansion_size.specs.FramesIn.{put_by, past_frames, newest_first};
ghost use Rattle.expansion.specs.Written.{expand_first, inside_written, written, written_some, Stand, StandSome};

use crate::macros::newest;
use crate::parts::{binds, simple};
use expansion_size::frames::Frames;
use macro_arguments::expressions::expression;
use pcal_tree::algorithm::{Macro, Simple, Span, Stmt};
use std::alloc::{AllocError, Global};
use tla_pool::Pool;
use tla_tree::{Name, NodeId};

// A macro call.
#[derive(Clone, Copy)]
struct MacroCall<'a> {
    span: Span,
    name: &'a Name,
    arguments: &'a [NodeId],
}

// The macro call that a statement is, if it is one.
fn call_of(stmt: &Stmt) -> Option<MacroCall<'_>>
    ensures none { IfNone result ((ts : List Tree) (X : Writing) → expand X (stmt_at ts stmt.now pure.done) ≡ expand_first X (stmt_at ts stmt.now pure.done)) }
    ensures some { IfSome result (λ r. (ts : List Tree) → stmt_at ts stmt.now pure.done ≡ pure.then (span_of r.span) (pure.macro r.name.now (trees_at ts r.arguments.now)) pure.done) }
    ensures past { IfSome result (λ r. past_numbers r.arguments.now ≡ past_stmt stmt.now) }
{
    match stmt {
        Stmt::Simple(span, one) => match one {
            Simple::Macro(name, arguments) => Some(MacroCall {
                span: *span,
                name,
                arguments,
            }),
            _ => None,
        },
        _ => None,
    }
}

// What is written for a call, onto what was written before it. It calls itself once for each macro that calls an older one.
#[cycle(bodies)]
fn call(
    alloc: Global,
    pool: &mut Pool,
    macros: &[Macro],
    frames: &Frames<'_>,
    one: MacroCall<'_>,
    out: &mut Vec<Stmt>,
) -> Result<(), AllocError>
    requires there { past_numbers one.arguments.now ≤ length pool.old }
    requires called { greatest (map past_macro macros.now) ≤ length pool.old }
    requires inner { past_frames frames.now ≤ length pool.old }
    ensures made { (us : pure.Statements) → Stand pool.old out.old.items us → OnOk result (Stand pool.new out.new.items (followed_by us (graft_all (put_by pool.old frames.now) (written_out (newest_first pool.old macros.now) (span_of one.entry.span) one.entry.name.now (trees_at pool.old one.entry.arguments.now))))) }
    ensures kept { Keeps pool.old pool.new }
{
    match newest(macros, one.name) {
        None => {
            out.push(Stmt::Either(one.span, Vec::new(alloc)))?;
            Ok(())
        }
        Some(i) => {
            let found = &macros[i];
            let inner = Frames::Called(&found.params, &*one.arguments, &*frames);
            statements(alloc, pool, &macros[..i], &inner, &found.body, out)
        }
    }
}

// A statement or label that is no macro call.
#[cycle(bodies)]
fn inside(
    alloc: Global,
    pool: &mut Pool,
    macros: &[Macro],
    frames: &Frames<'_>,
    stmt: &Stmt,
) -> Result<Stmt, AllocError>
    requires there { past_stmt stmt.now ≤ length pool.old }
    requires called { greatest (map past_macro macros.now) ≤ length pool.old }
    requires inner { past_frames frames.now ≤ length pool.old }
    ensures made { IfOk result (λ r. Stand pool.new (r ∷ []) (inside_written pool.old macros.now frames.now stmt.now)) }
    ensures kept { Keeps pool.old pool.new }
{
    match stmt {
        Stmt::Label(name, mark) => Ok(Stmt::Label(name.copied()?, *mark)),
        Stmt::Simple(span, one) => Ok(Stmt::Simple(*span, simple(alloc, pool, frames, one)?)),
        Stmt::If(span, e, then, otherwise) => {
            let test = expression(alloc, pool, frames, *e)?;
            let first = body(alloc, pool, macros, frames, then)?;
            let second = body(alloc, pool, macros, frames, otherwise)?;
            Ok(Stmt::If(*span, test, first, second))
        }
        Stmt::Either(span, list) => {
            let rows = branches(alloc, pool, macros, frames, list)?;
            Ok(Stmt::Either(*span, rows))
        }
        Stmt::With(span, list, stmts) => {
            let bound = binds(alloc, pool, frames, list)?;
            let inner = body(alloc, pool, macros, frames, stmts)?;
            Ok(Stmt::With(*span, bound, inner))
        }
        Stmt::While(span, e, stmts) => {
            let test = expression(alloc, pool, frames, *e)?;
            let inner = body(alloc, pool, macros, frames, stmts)?;
            Ok(Stmt::While(*span, test, inner))
        }
    }
}

// A statement or label, onto what was written before it.
#[cycle(bodies)]
fn stmt(
    alloc: Global,
    pool: &mut Pool,
    macros: &[Macro],
    frames: &Frames<'_>,
    stmt: &Stmt,
    out: &mut Vec<Stmt>,
) -> Result<(), AllocError>
    requires there { past_stmt stmt.now ≤ length pool.old }
    requires called { greatest (map past_macro macros.now) ≤ length pool.old }
    requires inner { past_frames frames.now ≤ length pool.old }
    ensures made { (us : pure.Statements) → Stand pool.old out.old.items us → OnOk result (Stand pool.new out.new.items (followed_by us (written pool.old macros.now frames.now (stmt.now ∷ [])))) }
    ensures kept { Keeps pool.old pool.new }
{
    match call_of(stmt) {
        Some(one) => call(alloc, pool, macros, frames, one, out),
        None => {
            let one = inside(alloc, pool, macros, frames, stmt)?;
            out.push(one)?;
            Ok(())
        }
    }
}

// The branches of an `either`.
#[cycle(bodies)]
fn branches(
    alloc: Global,
    pool: &mut Pool,
    macros: &[Macro],
    frames: &Frames<'_>,
    list: &[Vec<Stmt>],
) -> Result<Vec<Vec<Stmt>>, AllocError>
    requires there { past_branches list.now ≤ length pool.old }
    requires called { greatest (map past_macro macros.now) ≤ length pool.old }
    requires inner { past_frames frames.now ≤ length pool.old }
    ensures made { IfOk result (λ r. StandSome pool.new r.items (written_some pool.old macros.now frames.now list.now)) }
    ensures kept { Keeps pool.old pool.new }
{
    let mut rows = Vec::new(alloc);
    for i in 0..list.len() {
        rows.push(body(alloc, pool, macros, frames, &list[i])?)?;
    }
    Ok(rows)
}

// Statements, onto what was written before them.
#[cycle(bodies)]
fn statements(
    alloc: Global,
    pool: &mut Pool,
    macros: &[Macro],
    frames: &Frames<'_>,
    stmts: &[Stmt],
    out: &mut Vec<Stmt>,
) -> Result<(), AllocError>
    requires there { past_statements stmts.now ≤ length pool.old }
    requires called { greatest (map past_macro macros.now) ≤ length pool.old }
    requires inner { past_frames frames.now ≤ length pool.old }
    ensures made { (us : pure.Statements) → Stand pool.old out.old.items us → OnOk result (Stand pool.new out.new.items (followed_by us (written pool.old macros.now frames.now stmts.now))) }
    ensures kept { Keeps pool.old pool.new }
{
    for one in stmts {
        stmt(alloc, pool, macros, frames, one, out)?;
    }
    Ok(())
}

/// The statements of a list in a macro's body with these calls around it, or outside, by these macros. It calls itself as deep as
/// statements are in statements, and once more for each macro that calls an older one.
///
/// # Errors
///
/// Only for want of memory; the pool may then have more nodes than before.
#[cycle(bodies)]
pub fn body(
    alloc: Global,
    pool: &mut Pool,
    macros: &[Macro],
    frames: &Frames<'_>,
    stmts: &[Stmt],
) -> Result<Vec<Stmt>, AllocError>
    requires there { past_statements stmts.now ≤ length pool.old }
    requires called { greatest (map past_macro macros.now) ≤ length pool.old }
    requires inner { past_frames frames.now ≤ length pool.old }
    ensures made { IfOk result (λ r. Stand pool.new r.items (written pool.old macros.now frames.now stmts.now)) }
    ensures kept { Keeps pool.old pool.new }
{
    let mut out = Vec::new(alloc);
    statements(alloc, pool, macros, frames, stmts, &mut out)?;
    Ok(out)
}
