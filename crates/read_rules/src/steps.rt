//! What statements do that have none in them: what they use, and what they assign.

ghost use Rattle.std.specs.Prelude.{◌≡◌, List, [], ◌∷◌, ◌++◌, IfOk, OnOk};
ghost use Rattle.tla_tree.specs.Tree.{Tree, words};
ghost use Rattle.tla_tree.specs.Pool.{at};
ghost use Rattle.pcal_tree.specs.Algorithm.{Procedure};
ghost use Rattle.pcal_tree.specs.InMemory.{assignments_at, binds_at, simple_at};
ghost use Rattle.pcal_tree.specs.OffencesStale.{self_at};
ghost use Rattle.pcal_tree.specs.Paths.{root, roots, some_word};
ghost use Rattle.pcal_tree.specs.laws.MacroSpots.{other, left_uses, uses_of_assignments, uses_of_binds};
ghost use Rattle.read_rules.specs.Joins.{Joins};
ghost use Rattle.read_rules.specs.StepsIn.{AreJumps, jump_words, others_at, simple_uses, simple_roots, simple_stops, DoesSimple};
ghost use Rattle.read_rules.specs.UsesIn.{uses_of};

use crate::names::Names;
use crate::put::{root, same};
use crate::uses::{Kind, Use, add_all_uses, add_use, add_uses, add_uses_as};
use crate::walk::Step;
use pcal_tree::algorithm::{Assignment, Bind, Simple};
use std::alloc::{AllocError, Global};
use tla_pool::Pool;
use tla_token::Place;
use tla_tree::{Name, NodeId, PlacedName};

/// What a call of a procedure uses: the names of the initial values of its variables.
#[derive(Drop)]
pub struct Jump {
    /// The procedure.
    pub name: Name,
    /// The names.
    pub uses: Vec<PlacedName>,
}

// Uses of a left side.
fn add_left(list: &mut Vec<Use>, pool: &Pool, e: NodeId) -> Result<(), AllocError>
    ensures { OnOk result (uses_of list.new.items ≡ uses_of list.old.items ++ left_uses (at pool.now e)) }
{
    let place = pool.place(e);
    add_uses_as(list, pool, Kind::Left, place, e)
}

// Uses of left and right sides.
fn add_assignments(
    list: &mut Vec<Use>,
    pool: &Pool,
    assignments: &[Assignment],
) -> Result<(), AllocError>
    ensures { OnOk result (uses_of list.new.items ≡ uses_of list.old.items ++ uses_of_assignments (assignments_at pool.now assignments.now)) }
{
    for assignment in assignments {
        add_left(list, pool, assignment.left)?;
        add_uses(list, pool, assignment.right)?;
    }
    Ok(())
}

// Uses of one expression of a `with`.
fn add_bind(list: &mut Vec<Use>, pool: &Pool, bind: &Bind) -> Result<(), AllocError>
    ensures { OnOk result (uses_of list.new.items ≡ uses_of list.old.items ++ uses_of_binds (binds_at pool.now (bind.now ∷ []))) }
{
    match bind {
        Bind::Among(_, e) => add_uses(list, pool, *e),
        Bind::Is(_, e) => add_uses(list, pool, *e),
    }
}

/// Uses of the expressions of a `with`.
///
/// # Errors
///
/// Only for want of memory.
pub fn add_binds(list: &mut Vec<Use>, pool: &Pool, binds: &[Bind]) -> Result<(), AllocError>
    ensures { OnOk result (uses_of list.new.items ≡ uses_of list.old.items ++ uses_of_binds (binds_at pool.now binds.now)) }
{
    for bind in binds {
        add_bind(list, pool, bind)?;
    }
    Ok(())
}

// The variables of left sides.
fn add_roots(names: &mut Names, pool: &Pool, assignments: &[Assignment]) -> Result<(), AllocError>
    ensures { OnOk result (Joins names.old names.new (roots (assignments_at pool.now assignments.now))) }
{
    for assignment in assignments {
        add_root(names, pool, assignment.left)?;
    }
    Ok(())
}

// That of one.
fn add_root(names: &mut Names, pool: &Pool, e: NodeId) -> Result<(), AllocError>
    ensures { OnOk result (Joins names.old names.new (some_word (root (at pool.now e)))) }
{
    match root(pool, e)? {
        None => {}
        Some(variable) => names.add(&variable)?,
    }
    Ok(())
}

// `self`, which a jump uses.
fn add_self(alloc: Global, list: &mut Vec<Use>, place: Place) -> Result<(), AllocError>
    ensures { OnOk result (uses_of list.new.items ≡ uses_of list.old.items ++ other (self_at place) ∷ []) }
{
    let name = Name::new(Vec::from_slice(alloc, b"self")?);
    add_use(list, Kind::Other, &name, place)
}

// These names, as uses at a place.
fn add_others(list: &mut Vec<Use>, names: &[PlacedName], place: Place) -> Result<(), AllocError>
    ensures { OnOk result (uses_of list.new.items ≡ uses_of list.old.items ++ others_at place (words names.now)) }
{
    for one in names {
        add_use(list, Kind::Other, &one.name, place)?;
    }
    Ok(())
}

// What a call of a procedure uses.
fn add_jump(
    list: &mut Vec<Use>,
    jumps: &[Jump],
    name: &Name,
    place: Place,
) -> Result<(), AllocError>
    ensures { OnOk result (uses_of list.new.items ≡ uses_of list.old.items ++ others_at place (jump_words jumps.now name.now)) }
{
    for i in 0..jumps.len() {
        let jump = &jumps[i];
        if same(&jump.name, name) {
            return add_others(list, &jump.uses, place);
        }
    }
    Ok(())
}

// What a statement uses; of a macro call nothing here.
fn add_simple(
    alloc: Global,
    list: &mut Vec<Use>,
    pool: &Pool,
    jumps: &[Jump],
    place: Place,
    simple: &Simple,
) -> Result<(), AllocError>
    ensures { OnOk result ((ps : List Procedure) → AreJumps jumps.now ps → uses_of list.new.items ≡ uses_of list.old.items ++ simple_uses ps place (simple_at pool.now simple.now)) }
{
    match simple {
        Simple::Assign(assignments) => add_assignments(list, pool, assignments),
        Simple::Await(e) => add_uses(list, pool, *e),
        Simple::Print(e) => add_uses(list, pool, *e),
        Simple::Assert(e) => add_uses(list, pool, *e),
        Simple::Skip => Ok(()),
        Simple::Goto(_) => add_self(alloc, list, place),
        Simple::Macro(_, _) => Ok(()),
        Simple::Call(name, args) => {
            add_all_uses(list, pool, args)?;
            add_self(alloc, list, place)?;
            add_jump(list, jumps, &name.name, place)
        }
        Simple::Return => Ok(()),
    }
}

// Whether no path goes on behind a statement.
fn stops(simple: &Simple) -> bool
    ensures { (ts : List Tree) → result ≡ simple_stops (simple_at ts simple.now) }
{
    match simple {
        Simple::Goto(_) => true,
        Simple::Call(_, _) => true,
        Simple::Return => true,
        _ => false,
    }
}

// What a statement assigns.
fn assigned_names(alloc: Global, pool: &Pool, simple: &Simple) -> Result<Names, AllocError>
    ensures { IfOk result (λ r. Joins [] r (simple_roots (simple_at pool.now simple.now))) }
{
    let mut names = Names::new(alloc);
    match simple {
        Simple::Assign(assignments) => add_roots(&mut names, pool, assignments)?,
        _ => {}
    }
    Ok(names)
}

/// What a statement does that has none in it.
///
/// # Errors
///
/// Only for want of memory.
pub fn step(
    alloc: Global,
    pool: &Pool,
    jumps: &[Jump],
    place: Place,
    simple: &Simple,
) -> Result<Step, AllocError>
    ensures { IfOk result (λ r. (ps : List Procedure) → AreJumps jumps.now ps → DoesSimple ps place (simple_at pool.now simple.now) r) }
{
    let mut uses = Vec::new(alloc);
    add_simple(alloc, &mut uses, pool, jumps, place, simple)?;
    let names = assigned_names(alloc, pool, simple)?;
    Ok(Step {
        uses,
        names,
        stops: stops(simple),
    })
}
