//! What is left after statements.

ghost use Rattle.std.specs.Prelude.{◌≡◌, ◌+◌, ◌≤◌, List, [], ℕ, length, map};
ghost use Rattle.tla_tree.specs.Tree.{Tree, Graft};
ghost use Rattle.tla_tree.specs.Pool.{at, trees_at};
ghost use Rattle.tla_tree.specs.Nesting.{greatest};
ghost use Rattle.pcal_tree.specs.Algorithm as pure;
ghost use Rattle.pcal_tree.specs.InMemory.{assignments_at, bind_at, binds_at, simple_at, stmt_at, statements_at, branches_at, past_numbers, past_assignment, past_bind, past_simple, past_stmt, past_statements, past_branches, past_macro};
ghost use Rattle.macro_expand.specs.Measured.{of_assignments, of_binds};
ghost use Rattle.expansion_size.specs.Budget.{inside as inside_of, budget, calls};
ghost use Rattle.expansion_size.specs.FramesIn.{put_by, past_frames, newest_first, after_one, after_all, after_some};

use crate::expressions::{expressions, subscripts, whole};
use crate::frames::Frames;
use crate::left::Left;
use crate::macros::newest;
use pcal_tree::algorithm::{Assignment, Bind, Macro, Simple, Stmt};
use tla_pool::Pool;
use tla_tree::{Name, NodeId};

/// How deep statements may nest.
pub const DEEPEST_STATEMENT: u64 = 100;

// Left and right sides.
fn assignments(pool: &Pool, frames: &Frames<'_>, list: &[Assignment], left: Left) -> Left
    requires there { greatest (map past_assignment list.now) ≤ length pool.now }
    requires inner { past_frames frames.now ≤ length pool.now }
    ensures { (d : ℕ) → result ≡ of_assignments (budget (put_by pool.now frames.now)) (assignments_at pool.now list.now) d left }
{
    let mut so_far = left;
    for one in list {
        let sides = subscripts(pool, frames, one.left, so_far.with_nodes(1));
        so_far = whole(pool, frames, one.right, sides);
    }
    so_far
}

// The expression of what a `with` names.
fn bound_to(bind: &Bind) -> NodeId
    ensures bound { (ts : List Tree) (g : Graft) (bs : pure.Binds) (d : ℕ) (l : _) → of_binds (budget g) (bind_at ts bind.now bs) d l ≡ of_binds (budget g) bs d ((budget g).expression (at ts result) d l) }
    ensures past { result + 1 ≡ past_bind bind.now }
{
    match bind {
        Bind::Among(_, e) => *e,
        Bind::Is(_, e) => *e,
    }
}

// What a `with` names.
fn binds(pool: &Pool, frames: &Frames<'_>, list: &[Bind], left: Left) -> Left
    requires there { greatest (map past_bind list.now) ≤ length pool.now }
    requires inner { past_frames frames.now ≤ length pool.now }
    ensures { (d : ℕ) → result ≡ of_binds (budget (put_by pool.now frames.now)) (binds_at pool.now list.now) d left }
{
    let mut so_far = left;
    for bind in list {
        so_far = whole(pool, frames, bound_to(bind), so_far);
    }
    so_far
}

// A call of no macro: a statement that can't be taken.
fn unknown(depth: u64, left: Left) -> Left
    ensures { (g : Graft) (m : List ℕ) (us : _) → result ≡ calls [] g m us depth left }
{
    let so_far = left.with_nodes(1);
    if depth < 1 { so_far.past() } else { so_far }
}

// A call of a macro, by its body. It calls itself once for each macro that calls an older one.
#[cycle(bodies)]
fn call(
    pool: &Pool,
    macros: &[Macro],
    frames: &Frames<'_>,
    name: &Name,
    arguments: &[NodeId],
    depth: u64,
    left: Left,
) -> Left
    requires there { past_numbers arguments.now ≤ length pool.now }
    requires called { greatest (map past_macro macros.now) ≤ length pool.now }
    requires inner { past_frames frames.now ≤ length pool.now }
    ensures { result ≡ calls (newest_first pool.now macros.now) (put_by pool.now frames.now) name.now (trees_at pool.now arguments.now) depth left }
{
    if left.nodes == 0 {
        return left;
    }
    match newest(macros, name) {
        None => unknown(depth, left),
        Some(i) => {
            let one = &macros[i];
            let inner = Frames::Called(&one.params, &*arguments, &*frames);
            statements(pool, &macros[..i], &inner, &one.body, depth, left)
        }
    }
}

// A statement with none in it.
#[cycle(bodies)]
fn simple(
    pool: &Pool,
    macros: &[Macro],
    frames: &Frames<'_>,
    simple: &Simple,
    depth: u64,
    left: Left,
) -> Left
    requires there { past_simple simple.now ≤ length pool.now }
    requires called { greatest (map past_macro macros.now) ≤ length pool.now }
    requires inner { past_frames frames.now ≤ length pool.now }
    ensures { result ≡ after_one pool.now macros.now frames.now (simple_at pool.now simple.now) depth left }
{
    match simple {
        Simple::Assign(list) => assignments(pool, frames, list, left.with_nodes(1)),
        Simple::Await(e) => whole(pool, frames, *e, left.with_nodes(1)),
        Simple::Print(e) => whole(pool, frames, *e, left.with_nodes(1)),
        Simple::Assert(e) => whole(pool, frames, *e, left.with_nodes(1)),
        Simple::Macro(name, es) => call(pool, macros, frames, name, es, depth, left),
        Simple::Call(_, es) => expressions(pool, frames, es, left.with_nodes(1)),
        _ => left.with_nodes(1),
    }
}

// A statement or a label.
#[cycle(bodies)]
fn stmt(
    pool: &Pool,
    macros: &[Macro],
    frames: &Frames<'_>,
    stmt: &Stmt,
    depth: u64,
    left: Left,
) -> Left
    requires there { past_stmt stmt.now ≤ length pool.now }
    requires called { greatest (map past_macro macros.now) ≤ length pool.now }
    requires inner { past_frames frames.now ≤ length pool.now }
    ensures { (rest : pure.Statements) → after_all pool.now macros.now frames.now rest depth result ≡ after_all pool.now macros.now frames.now (stmt_at pool.now stmt.now rest) depth left }
{
    match stmt {
        Stmt::Label(_, _) => left.with_label(),
        Stmt::Simple(_, one) => simple(pool, macros, frames, one, depth, left),
        Stmt::If(_, e, then, otherwise) => {
            let tested = whole(pool, frames, *e, left.with_nodes(1));
            let first = inside(pool, macros, frames, then, 1, depth, tested);
            inside(pool, macros, frames, otherwise, 1, depth, first)
        }
        Stmt::Either(_, list) => branches(pool, macros, frames, list, depth, left.with_nodes(1)),
        Stmt::With(_, list, body) => {
            let bound = binds(pool, frames, list, left.with_nodes(1));
            inside(pool, macros, frames, body, list.len() as u64, depth, bound)
        }
        Stmt::While(_, e, body) => {
            let tested = whole(pool, frames, *e, left.with_nodes(1));
            inside(pool, macros, frames, body, 1, depth, tested)
        }
    }
}

// Branches, inside one form of statement.
#[cycle(bodies)]
fn branches(
    pool: &Pool,
    macros: &[Macro],
    frames: &Frames<'_>,
    list: &[Vec<Stmt>],
    depth: u64,
    left: Left,
) -> Left
    requires there { past_branches list.now ≤ length pool.now }
    requires called { greatest (map past_macro macros.now) ≤ length pool.now }
    requires inner { past_frames frames.now ≤ length pool.now }
    ensures { result ≡ inside_of 1 (after_some pool.now macros.now frames.now (branches_at pool.now list.now)) depth left }
{
    if depth < 1 {
        return left.past();
    }
    let mut so_far = left;
    for i in 0..list.len() {
        so_far = statements(pool, macros, frames, &list[i], depth - 1, so_far);
    }
    so_far
}

// Statements that are inside so many forms of statements.
#[cycle(bodies)]
fn inside(
    pool: &Pool,
    macros: &[Macro],
    frames: &Frames<'_>,
    stmts: &[Stmt],
    by: u64,
    depth: u64,
    left: Left,
) -> Left
    requires there { past_statements stmts.now ≤ length pool.now }
    requires called { greatest (map past_macro macros.now) ≤ length pool.now }
    requires inner { past_frames frames.now ≤ length pool.now }
    ensures { result ≡ inside_of by (after_all pool.now macros.now frames.now (statements_at pool.now stmts.now)) depth left }
{
    if depth < by {
        return left.past();
    }
    statements(pool, macros, frames, stmts, depth - by, left)
}

/// Statements in a macro that is called by these calls, or outside, by the macros before them. It calls itself as deep as statements
/// are in statements, and once more for each macro that calls an older one.
#[cycle(bodies)]
pub fn statements(
    pool: &Pool,
    macros: &[Macro],
    frames: &Frames<'_>,
    stmts: &[Stmt],
    depth: u64,
    left: Left,
) -> Left
    requires there { past_statements stmts.now ≤ length pool.now }
    requires called { greatest (map past_macro macros.now) ≤ length pool.now }
    requires inner { past_frames frames.now ≤ length pool.now }
    ensures { result ≡ after_all pool.now macros.now frames.now (statements_at pool.now stmts.now) depth left }
{
    let mut so_far = left;
    for one in stmts {
        so_far = stmt(pool, macros, frames, one, depth, so_far);
    }
    so_far
}
