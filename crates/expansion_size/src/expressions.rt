//! What is left after expressions and left sides.

ghost use Rattle.std.specs.Prelude.{◌≡◌, ◌<◌, ◌≤◌, ◌*◌, ℕ, min, length, get_or};
ghost use Rattle.tla_token.specs.declared.place.Place.{Place};
ghost use Rattle.tla_tree.specs.Tree.{node, strict, graft, grafts};
ghost use Rattle.tla_tree.specs.Shapes.{StrictShaped};
ghost use Rattle.tla_tree.specs.Pool.{at, trees_at, AllBelow};
ghost use Rattle.tla_pool.specs.FormOf.{strict_of, form_of};
ghost use Rattle.pcal_tree.specs.InMemory.{past_numbers};
ghost use Rattle.macro_expand.specs.Measured.{of_trees};
ghost use Rattle.macro_expand.specs.Size.{weights};
ghost use Rattle.expansion_size.specs.Budget.{budget};
ghost use Rattle.expansion_size.specs.FramesIn.{put_by, past_frames};
ghost use Rattle.expansion_size.specs.TreesSpent.{lengths, tree_spent, parts_spent, left_spent};

use crate::frames::{Frames, lookup};
use crate::left::Left;
use tla_pool::Pool;
use tla_pool::form::{Form, Strict};
use tla_tree::{NodeId, PlacedName};

/// How deep an expression may nest.
pub const DEEPEST_EXPRESSION: u64 = 200;

// The groups of names that a form binds.
fn groups(form: &Form) -> &[Vec<PlacedName>]
    ensures { lengths result.now ≡ weights (form_of form.now) }
{
    match form {
        Form::Binding(_, groups) => groups,
        _ => &[],
    }
}

// How often a part counts: the set of a group once for each of its names.
fn times(groups: &[Vec<PlacedName>], part: usize) -> u64
    ensures { result ≡ get_or (lengths groups.now) part 1 }
{
    if part < groups.len() {
        groups[part].len() as u64
    } else {
        1
    }
}

// A product, as far as it is less than what is left.
fn product(a: u64, b: u64, left: u64) -> u64
    ensures { min result left ≡ min (a * b) left }
{
    a.saturating_mul(b)
}

// An expression, of which each node counts so often and which may nest so deep. It calls itself as deep as forms may be in forms,
// and once more for each call around.
#[cycle(trees)]
fn expression(
    pool: &Pool,
    frames: &Frames<'_>,
    e: NodeId,
    weight: u64,
    depth: u64,
    left: Left,
) -> Left
    requires there { e < length pool.now }
    requires inner { past_frames frames.now ≤ length pool.now }
    ensures { result ≡ tree_spent weight depth (graft (put_by pool.now frames.now) (at pool.now e)) left }
{
    if left.nodes == 0 {
        return left;
    }
    let node = pool.node(e);
    match &node.form {
        Form::Name(name) => match lookup(&*frames, name) {
            None => left.with_nodes(weight),
            Some(found) => expression(pool, found.around, found.argument, weight, depth, left),
        },
        form => {
            let so_far = left.with_nodes(weight);
            parts(
                pool,
                frames,
                groups(form),
                &node.parts,
                weight,
                depth,
                so_far,
            )
        }
    }
}

// The parts of a form that may nest so deep.
#[cycle(trees)]
fn parts(
    pool: &Pool,
    frames: &Frames<'_>,
    groups: &[Vec<PlacedName>],
    parts: &[NodeId],
    weight: u64,
    depth: u64,
    left: Left,
) -> Left
    requires there { past_numbers parts.now ≤ length pool.now }
    requires inner { past_frames frames.now ≤ length pool.now }
    ensures { result ≡ parts_spent weight depth (lengths groups.now) (grafts (put_by pool.now frames.now) (trees_at pool.now parts.now)) left }
{
    if parts.is_empty() {
        return left;
    }
    if depth == 0 {
        return left.past();
    }
    let mut so_far = left;
    for i in 0..parts.len() {
        let each = product(weight, times(groups, i), so_far.nodes);
        so_far = expression(pool, frames, parts[i], each, depth - 1, so_far);
    }
    so_far
}

/// An expression.
pub fn whole(pool: &Pool, frames: &Frames<'_>, e: NodeId, left: Left) -> Left
    requires there { e < length pool.now }
    requires inner { past_frames frames.now ≤ length pool.now }
    ensures { (d : ℕ) → result ≡ (budget (put_by pool.now frames.now)).expression (at pool.now e) d left }
{
    expression(pool, frames, e, 1, DEEPEST_EXPRESSION, left)
}

/// Expressions, one after another.
pub fn expressions(pool: &Pool, frames: &Frames<'_>, es: &[NodeId], left: Left) -> Left
    requires there { past_numbers es.now ≤ length pool.now }
    requires inner { past_frames frames.now ≤ length pool.now }
    ensures { (d : ℕ) → result ≡ of_trees (budget (put_by pool.now frames.now)) (trees_at pool.now es.now) d left }
{
    let mut so_far = left;
    for i in 0..es.len() {
        so_far = whole(pool, frames, es[i], so_far);
    }
    so_far
}

/// The subscripts of a left side. It calls itself once for each subscript and field, and once more for each call around.
#[cycle(lefts)]
pub fn subscripts(pool: &Pool, frames: &Frames<'_>, e: NodeId, left: Left) -> Left
    requires there { e < length pool.now }
    requires inner { past_frames frames.now ≤ length pool.now }
    ensures { result ≡ left_spent (graft (put_by pool.now frames.now) (at pool.now e)) left }
{
    let node = pool.node(e);
    match &node.form {
        Form::Name(name) => match lookup(&*frames, name) {
            None => left,
            Some(found) => subscripts(pool, found.around, found.argument, left),
        },
        Form::Strict(strict) => { strict_subscripts(pool, frames, strict, &node.parts, e, left) }
        _ => left,
    }
}

// Those of a left side with a subscript or a field, by its parts, which have smaller numbers than this.
#[cycle(lefts)]
fn strict_subscripts(
    pool: &Pool,
    frames: &Frames<'_>,
    form: &Strict,
    parts: &[NodeId],
    past: NodeId,
    left: Left,
) -> Left
    requires below { AllBelow past parts.now }
    requires shaped { StrictShaped (strict_of form.now) (length parts.now) }
    requires there { past ≤ length pool.now }
    requires inner { past_frames frames.now ≤ length pool.now }
    ensures { (p : Place) → result ≡ left_spent (node (strict (strict_of form.now)) p (grafts (put_by pool.now frames.now) (trees_at pool.now parts.now))) left }
{
    match form {
        Strict::Apply => {
            let so_far = subscripts(pool, frames, parts[0], left);
            self::parts(
                pool,
                frames,
                &[],
                &parts[1..],
                1,
                DEEPEST_EXPRESSION,
                so_far,
            )
        }
        Strict::Select(_) => subscripts(pool, frames, parts[0], left),
        _ => left,
    }
}
