//! Trees put in for names: priming, locals and the arguments of macros are all of this kind.

ghost use Rattle.std.specs.Prelude.{◌≡◌, ◌<◌, length, List, IfOk, OnOk, MatchOption, Some, None};
ghost use Rattle.tla_pool.specs.FormOf.{form_of};
ghost use Rattle.tla_tree.specs.Tree.{Tree, Trees, Graft, graft as grafted_tree, grafted_node, node};
ghost use Rattle.tla_tree.specs.Pool.{at, Keeps, tree_in};
ghost use Rattle.tla_tree.specs.Shapes.{Shaped};
ghost use Rattle.tla_pool.specs.Done.{AreMade, AreDone};
ghost use Rattle.tla_pool.specs.Visits.{Enters};

use crate::done::Done;
use crate::form::Form;
use crate::node::Node;
use crate::pool::Pool;
use std::alloc::{AllocError, Global};
use tla_token::Place;
use tla_tree::{Name, NodeId};

/// What is put in for a name that is at a place.
pub trait Grafting {
    /// The tree for a name at a place, or none where the name is left alone, over the trees of the pool.
    ghost graft: { Self → List Tree → Graft };

    /// Its numbers are of the pool.
    ghost fits: { Self → List Tree → Type 0 };

    /// The number for the name at the place, or none where the name is left alone.
    fn put(
        &self,
        alloc: Global,
        pool: &mut Pool,
        x: &Name,
        place: Place,
    ) -> Result<Option<NodeId>, AllocError>
        requires { fits self.now pool.old }
        ensures tree { IfOk result (λ o. MatchOption o (graft self.now pool.old x.now place ≡ None) (λ id. (id < length pool.new) × (graft self.now pool.old x.now place ≡ Some (at pool.new id)))) }
        ensures kept { Keeps pool.old pool.new };

    /// A pool that grows doesn't change it.
    ghost stays: { (s : Self) (old new : List Tree) → fits s old → Keeps old new → (fits s new) × (graft s new ≡ graft s old) };
}

// A visit that is still to be made: to a number, or to its node when its parts are done.
#[derive(Drop)]
enum Visit {
    Enter(NodeId),
    Leave(NodeId, Node),
}

/// The expression with what is put in for its names; the same number where that changes nothing. It goes to each number
/// once. Names that it binds are names like any: the caller sees to it that none of them is meant.
///
/// # Errors
///
/// Only for want of memory; the pool may then have more nodes than before.
pub fn grafted<G: Grafting>(
    alloc: Global,
    pool: &mut Pool,
    e: NodeId,
    g: &G,
) -> Result<NodeId, AllocError>
    requires e_in { e < length pool.old }
    requires fits { G.fits g.now pool.old }
    ensures tree { IfOk result (λ r. at pool.new r ≡ grafted_tree (G.graft g.now pool.old) (at pool.old e)) }
    ensures within { IfOk result (λ r. r < length pool.new) }
    ensures kept { Keeps pool.old pool.new }
    ensures same { IfOk result (λ r. grafted_tree (G.graft g.now pool.old) (at pool.old e) ≡ at pool.old e → r ≡ e) }
{
    let mut done = Done::new(alloc);
    let mut ahead = Vec::new(alloc);
    ahead.push(Visit::Enter(e))?;
    while let Some(visit) = ahead.pop() {
        match visit {
            Visit::Enter(i) => enter(alloc, pool, i, &done, &mut ahead)?,
            Visit::Leave(i, node) => {
                let made = over_made_parts(alloc, pool, node, g, &done)?;
                done.keep(i, made)?;
            }
        }
    }
    pool.differ();
    Ok(done.get(e).unwrap())
}

// The visits that a number needs: none where it is done, else to its parts and then to its node.
fn enter(
    alloc: Global,
    pool: &Pool,
    i: NodeId,
    done: &Done,
    ahead: &mut Vec<Visit>,
) -> Result<(), AllocError>
    requires { i < length pool.now }
    ensures { OnOk result (Enters pool.now done.now i ahead.old.items ahead.new.items) }
{
    if done.get(i).is_some() {
        return Ok(());
    }
    let node = pool.node(i);
    ahead.push(Visit::Leave(i, node.copied(alloc)?))?;
    for part in &node.parts {
        ahead.push(Visit::Enter(*part))?;
    }
    Ok(())
}

// The grafted node: what is put in for it, or the node over what was made of its parts, which are done.
fn over_made_parts<G: Grafting>(
    alloc: Global,
    pool: &mut Pool,
    node: Node,
    g: &G,
    done: &Done,
) -> Result<NodeId, AllocError>
    requires fits { G.fits g.now pool.old }
    requires shaped { Shaped node.form (length node.parts) }
    requires made { AreMade (G.graft g.now pool.old) pool.old done.now }
    requires parts { AreDone done.now node.parts }
    ensures tree { IfOk result (λ r. at pool.new r ≡ grafted_tree (G.graft g.now pool.old) (tree_in pool.old node)) }
    ensures within { IfOk result (λ r. r < length pool.new) }
    ensures kept { Keeps pool.old pool.new }
{
    let Node { form, place, parts } = node;
    if let Some(whole) = instead(alloc, pool, &form, place, g)? {
        return Ok(whole);
    }
    let mut others = Vec::new(alloc);
    for part in &parts {
        others.push(done.get(*part).unwrap())?;
    }
    pool.put(form, place, others)
}

// What is put in for a node of this form and place, whatever its parts.
fn instead<G: Grafting>(
    alloc: Global,
    pool: &mut Pool,
    form: &Form,
    place: Place,
    g: &G,
) -> Result<Option<NodeId>, AllocError>
    requires { G.fits g.now pool.old }
    ensures tree { IfOk result (λ o. MatchOption o ((us : Trees) → grafted_node (G.graft g.now pool.old) (form_of form.now) place us ≡ node (form_of form.now) place us) (λ id. (id < length pool.new) × ((us : Trees) → grafted_node (G.graft g.now pool.old) (form_of form.now) place us ≡ at pool.new id))) }
    ensures kept { Keeps pool.old pool.new }
{
    match form {
        Form::Name(x) => g.put(alloc, pool, x, place),
        _ => Ok(None),
    }
}
