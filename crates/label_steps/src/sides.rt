//! What an assignment assigns: the variables of its left sides, and whether one of them is assigned twice.

ghost use Rattle.std.specs.Prelude.{◌≡◌, ◌||◌, ◌<◌, ◌≤◌, length, map, IfOk, OnOk};
ghost use Rattle.tla_tree.specs.Tree.{Tree};
ghost use Rattle.tla_tree.specs.Nesting.{greatest};
ghost use Rattle.tla_tree.specs.Pool.{at, trees_at, AllBelow};
ghost use Rattle.pcal_tree.specs.InMemory.{assignments_at, past_assignment};
ghost use Rattle.pcal_tree.specs.Algorithm.{Assignments, assignment};
ghost use Rattle.pcal_tree.specs.Paths.{root, root_of_first, roots, is_whole, clashes};
ghost use Rattle.pcal_tree.proofs.SetLaws.{Same};
ghost use Rattle.label_steps.specs.SidesIn.{rank_with, rank_clashes, Passed, AreSides};

use crate::truths::either;
use algorithm_limits::table::Table;
use pcal_tree::algorithm::Assignment;
use std::alloc::{AllocError, Global};
use tla_pool::Pool;
use tla_pool::form::{Form, Strict};
use tla_tree::{Name, NodeId};

/// What a statement assigns.
#[derive(Drop)]
pub struct Step {
    /// The variables.
    pub names: Vec<Name>,
    /// Whether it assigns one of them twice.
    pub twice: bool,
}

/// The left sides that were passed.
#[derive(Drop)]
pub struct Sides {
    /// What they assign.
    pub step: Step,
    /// Of each variable: 2 where the whole of it is assigned, 1 where a part is, and 0 where nothing is.
    pub ranks: Table,
}

/// The variable with which a left side begins.
///
/// # Errors
///
/// Only for want of memory.
#[cycle(roots)]
pub fn root(pool: &Pool, e: NodeId) -> Result<Option<Name>, AllocError>
    requires { e < length pool.now }
    ensures { IfOk result (λ r. r ≡ root (at pool.now e)) }
{
    let node = pool.node(e);
    match &node.form {
        Form::Name(name) => Ok(Some(name.copied()?)),
        Form::Strict(strict) => match strict {
            Strict::Apply => root_of_first(pool, &node.parts, e),
            Strict::Select(_) => root_of_first(pool, &node.parts, e),
            _ => Ok(None),
        },
        _ => Ok(None),
    }
}

// That of the first part of an expression; the parts have smaller numbers than this.
#[cycle(roots)]
fn root_of_first(pool: &Pool, parts: &[NodeId], past: NodeId) -> Result<Option<Name>, AllocError>
    requires there { AllBelow past parts.now }
    requires inside { past ≤ length pool.now }
    ensures { IfOk result (λ r. r ≡ root_of_first (trees_at pool.now parts.now)) }
{
    if parts.len() > 0 {
        root(pool, parts[0])
    } else {
        Ok(None)
    }
}

/// Whether a left side is the whole of a variable.
pub fn is_whole(pool: &Pool, e: NodeId) -> bool
    requires { e < length pool.now }
    ensures { result ≡ is_whole (at pool.now e) }
{
    let node = pool.node(e);
    matches!(&node.form, Form::Name(_))
}

// Whether a left side clashes with those of its variable that have this rank; true where it is the whole.
fn clashes(whole: bool, rank: usize) -> bool
    ensures { result ≡ rank_clashes whole rank }
{
    if whole { rank > 0 } else { rank > 1 }
}

// The rank of a variable with one more left side.
fn rank_with(whole: bool, rank: usize) -> usize
    ensures { result ≡ rank_with whole rank }
{
    if whole { 2 } else { rank.max(1) }
}

impl Sides {
    // One more left side, of this variable.
    fn add(&mut self, name: Name, whole: bool) -> Result<(), AllocError>
        ensures { OnOk result (Passed self.old self.new name whole) }
    {
        let rank = self.ranks.get(&name);
        self.step.twice = either(clashes(whole, rank), self.step.twice);
        self.ranks.set(name.copied()?, rank_with(whole, rank))?;
        self.step.names.push(name)?;
        Ok(())
    }

    // One more left side.
    #[tactic(auto, using(crate::proofs::SideLaws::side_added, crate::proofs::SideLaws::side_passed))]
    fn side(&mut self, pool: &Pool, left: NodeId) -> Result<(), AllocError>
        requires { left < length pool.now }
        ensures { OnOk result ((t : Tree) (ms : Assignments) → AreSides self.old ms → AreSides self.new (assignment (at pool.now left) t ms)) }
    {
        match root(pool, left)? {
            None => {}
            Some(name) => self.add(name, is_whole(pool, left))?,
        }
        Ok(())
    }
}

/// What an assignment assigns, and whether it assigns one variable twice.
///
/// # Errors
///
/// Only for want of memory.
pub fn assigned(alloc: Global, pool: &Pool, list: &[Assignment]) -> Result<Step, AllocError>
    requires { greatest (map past_assignment list.now) ≤ length pool.now }
    ensures names { IfOk result (λ r. Same r.names.items (roots (assignments_at pool.now list.now))) }
    ensures twice { IfOk result (λ r. r.twice ≡ clashes (assignments_at pool.now list.now)) }
{
    let mut sides = Sides {
        step: Step {
            names: Vec::new(alloc),
            twice: false,
        },
        ranks: Table::new(alloc),
    };
    for i in 0..list.len() {
        let one = &list[list.len() - 1 - i];
        sides.side(pool, one.left)?;
    }
    let Sides { step, .. } = sides;
    Ok(step)
}
