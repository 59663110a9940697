//! Left sides of assignments: their variables, and the subscripts and fields behind these.

ghost use Rattle.std.specs.Prelude.{◌≡◌, ◌<◌, ◌++◌, [], length, map, IfOk, OnOk, IfSome, IfNone, None};
ghost use Rattle.tla_tree.specs.Pool.{at, AllBelow};
ghost use Rattle.tla_tree.specs.TreeOf.{root_form as form_at};
ghost use Rattle.tla_pool.specs.FormOf.{steps_of as path_of};
ghost use Rattle.pcal_tree.specs.Paths.{root, root_form};
ghost use Rattle.action_builder.specs.Assigned.{head_of};
ghost use Rattle.action_builder.specs.Written.{steps_of};
ghost use Rattle.right_sides.specs.Keys.{own_keys, left_keys, keys_along, key_trees};

use std::alloc::{AllocError, Global};
use tla_pool::Pool;
use tla_pool::form::{Form, Step, Strict};
use tla_tree::{Name, NodeId};

// What a subscript or a field is of.
fn inner(pool: &Pool, e: NodeId) -> Option<NodeId>
    requires { e < length pool.now }
    ensures smaller { IfSome result (λ f. f < e) }
    ensures root { IfSome result (λ f. root (at pool.now e) ≡ root (at pool.now f)) }
    ensures keys { IfSome result (λ f. left_keys (at pool.now e) ≡ left_keys (at pool.now f) ++ own_keys (at pool.now e)) }
    ensures no_root { IfNone result (root (at pool.now e) ≡ root_form (form_at (at pool.now e)) None) }
    ensures no_keys { IfNone result (left_keys (at pool.now e) ≡ []) }
{
    let node = pool.node(e);
    match &node.form {
        Form::Strict(strict) => match strict {
            Strict::Apply => Some(node.parts[0]),
            Strict::Select(_) => Some(node.parts[0]),
            _ => None,
        },
        _ => None,
    }
}

/// The variable of a left side; no name where it has none.
///
/// # Errors
///
/// Only for want of memory.
pub fn variable(alloc: Global, pool: &Pool, e: NodeId) -> Result<Name, AllocError>
    requires { e < length pool.now }
    ensures { IfOk result (λ x. x ≡ head_of (at pool.now e)) }
{
    let mut innermost = e;
    while let Some(first) = inner(pool, innermost) {
        innermost = first;
    }
    let node = pool.node(innermost);
    match &node.form {
        Form::Name(name) => name.copied(),
        _ => Ok(Name::new(Vec::new(alloc))),
    }
}

// The nodes of a left side that have a subscript or a field, from the outermost one in.
fn spine(alloc: Global, pool: &Pool, e: NodeId) -> Result<Vec<NodeId>, AllocError>
    requires { e < length pool.now }
    ensures keys { IfOk result (λ r. keys_along pool.now r.items ≡ left_keys (at pool.now e)) }
    ensures below { IfOk result (λ r. AllBelow (length pool.now) r.items) }
{
    let mut nodes = Vec::new(alloc);
    let mut outer = e;
    while let Some(first) = inner(pool, outer) {
        nodes.push(outer)?;
        outer = first;
    }
    Ok(nodes)
}

// The subscript or the field of a node, onto those before it: a step of the path, and a subscript's number.
fn add_key(
    pool: &Pool,
    e: NodeId,
    path: &mut Vec<Step>,
    subscripts: &mut Vec<NodeId>,
) -> Result<(), AllocError>
    requires there { e < length pool.now }
    requires below { AllBelow (length pool.now) subscripts.old.items }
    ensures path { OnOk result (path_of path.new.items ≡ path_of path.old.items ++ steps_of (own_keys (at pool.now e))) }
    ensures subscripts { OnOk result (map (at pool.now) subscripts.new.items ≡ map (at pool.now) subscripts.old.items ++ key_trees (own_keys (at pool.now e))) }
    ensures within { OnOk result (AllBelow (length pool.now) subscripts.new.items) }
{
    let node = pool.node(e);
    match &node.form {
        Form::Strict(strict) => match strict {
            Strict::Apply => {
                path.push(Step::Index)?;
                subscripts.push(node.parts[1])?;
                Ok(())
            }
            Strict::Select(field) => {
                path.push(Step::Field(field.copied()?))?;
                Ok(())
            }
            _ => Ok(()),
        },
        _ => Ok(()),
    }
}

/// The path of a left side behind its variable; the numbers of its subscripts go onto others.
///
/// # Errors
///
/// Only for want of memory.
pub fn path(
    alloc: Global,
    pool: &Pool,
    e: NodeId,
    subscripts: &mut Vec<NodeId>,
) -> Result<Vec<Step>, AllocError>
    requires there { e < length pool.now }
    requires below { AllBelow (length pool.now) subscripts.old.items }
    ensures path { IfOk result (λ r. path_of r.items ≡ steps_of (left_keys (at pool.now e))) }
    ensures subscripts { OnOk result (map (at pool.now) subscripts.new.items ≡ map (at pool.now) subscripts.old.items ++ key_trees (left_keys (at pool.now e))) }
    ensures within { OnOk result (AllBelow (length pool.now) subscripts.new.items) }
{
    let mut nodes = spine(alloc, pool, e)?;
    let mut path = Vec::new(alloc);
    while let Some(node) = nodes.pop() {
        add_key(pool, node, &mut path, subscripts)?;
    }
    Ok(path)
}
