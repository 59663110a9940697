//! What is seen on paths through statements, and where they end.

ghost use Rattle.std.specs.Prelude.{◌≡◌, [], Some, cond, IfOk, OnOk};
ghost use Rattle.std.specs.List.{flat_map};
ghost use Rattle.tla_tree.specs.Pool.{trees_at};
ghost use Rattle.pcal_tree.specs.laws.MacroSpots.{Called, Trail, before_on, put_called, put_seen, put_trail, on_trail};
ghost use Rattle.pcal_tree.specs.Paths.{again};
ghost use Rattle.pcal_tree.proofs.SpotCalls.{LikeTrail, SeenLike};
ghost use Rattle.pcal_tree.proofs.SpotGrafts.{putting};
ghost use Rattle.read_rules.specs.PlainPuts.{way};
ghost use Rattle.read_rules.specs.SeenIn.{group_seen, seen_of, Gains, Sees, IsWay, IsLoop, Walks, trail_stepped, stepping, looping, rounds_of};
ghost use Rattle.read_rules.specs.Sets.{origins, trail_of};
ghost use Rattle.read_rules.specs.UsesIn.{uses_of};

use crate::assigned::{Assigned, copied, join};
use crate::names::Names;
use crate::put::{put_assigned, put_uses};
use crate::uses::Use;
use std::alloc::{AllocError, Global};
use tla_pool::Pool;
use tla_tree::{NodeId, PlacedName};

/// Uses that are on one path.
#[derive(Drop)]
pub struct Group {
    /// The uses.
    pub uses: Vec<Use>,
    /// What the path has assigned before.
    pub after: Assigned,
}

/// What was seen, and the path to where it ended.
#[derive(Drop)]
pub struct Walk {
    /// What was seen.
    pub seen: Vec<Group>,
    /// Whether a label is right before this place.
    pub labelled: bool,
    /// What paths to this place have assigned; none where none leads there.
    pub path: Option<Assigned>,
}

/// What a statement does that has none in it.
#[derive(Drop)]
pub struct Step {
    /// What it uses.
    pub uses: Vec<Use>,
    /// What it assigns.
    pub names: Names,
    /// Whether no path goes on behind it.
    pub stops: bool,
}

/// What is seen in statements where no path leads to them, and where one does.
#[derive(Drop)]
pub struct Ways {
    /// Where none does.
    pub unreached: Walk,
    /// Where one does, with what it has assigned before.
    pub reached: Walk,
}

// What is there with arguments put in.
fn put_path(
    alloc: Global,
    pool: &Pool,
    params: &[PlacedName],
    args: &[NodeId],
    before: &Option<Assigned>,
    path: &Option<Assigned>,
) -> Result<Option<Assigned>, AllocError>
    ensures { IfOk result (λ r. LikeTrail (trail_of r) (put_trail (putting params.now (trees_at pool.now args.now) (before_on (trail_of before.now))) (trail_of path.now))) }
{
    match path {
        None => Ok(None),
        Some(all) => {
            let after = put_assigned(alloc, pool, params, args, before, all)?;
            Ok(Some(after))
        }
    }
}

// Uses on a path that has assigned this.
fn group_here(
    alloc: Global,
    pool: &Pool,
    uses: &[Use],
    after: &Assigned,
) -> Result<Group, AllocError>
    ensures { IfOk result (λ g. SeenLike (group_seen g) (on_trail (Some (origins after.now)) (uses_of uses.now))) }
{
    let mut list = Vec::new(alloc);
    put_uses(&mut list, pool, &[], &[], uses)?;
    Ok(Group {
        uses: list,
        after: after.copied()?,
    })
}

// What is seen on one path, with arguments put in.
fn put_group(
    alloc: Global,
    pool: &Pool,
    params: &[PlacedName],
    args: &[NodeId],
    before: &Option<Assigned>,
    group: &Group,
) -> Result<Group, AllocError>
    ensures { IfOk result (λ g. SeenLike (group_seen g) (flat_map (put_seen (putting params.now (trees_at pool.now args.now) (before_on (trail_of before.now)))) (group_seen group.now))) }
{
    let mut uses = Vec::new(alloc);
    put_uses(&mut uses, pool, params, args, &group.uses)?;
    Ok(Group {
        uses,
        after: put_assigned(alloc, pool, params, args, before, &group.after)?,
    })
}

// All that is seen, with arguments put in.
fn add_groups(
    seen: &mut Vec<Group>,
    pool: &Pool,
    params: &[PlacedName],
    args: &[NodeId],
    before: &Option<Assigned>,
    groups: &[Group],
    alloc: Global,
) -> Result<(), AllocError>
    ensures { OnOk result (Gains seen.old.items seen.new.items (flat_map (put_seen (putting params.now (trees_at pool.now args.now) (before_on (trail_of before.now)))) (seen_of groups.now))) }
{
    for group in groups {
        seen.push(put_group(alloc, pool, params, args, before, group)?)?;
    }
    Ok(())
}

// A path once more round a loop.
fn round(
    alloc: Global,
    pool: &Pool,
    inner: &Ways,
    path: &Option<Assigned>,
) -> Result<Option<Assigned>, AllocError>
    ensures { IfOk result (λ r. (g : Trail → Called) → IsLoop inner.now g → LikeTrail (trail_of r) (again (λ q. (g q).end.trail) (trail_of path.now))) }
{
    match path {
        None => Ok(None),
        Some(_) => put_path(alloc, pool, &[], &[], path, &inner.reached.path),
    }
}

// Any number of rounds.
fn all_rounds(
    alloc: Global,
    pool: &Pool,
    inner: &Ways,
    path: Option<Assigned>,
) -> Result<Option<Assigned>, AllocError>
    ensures { IfOk result (λ r. (g : Trail → Called) → IsLoop inner.now g → LikeTrail (trail_of r) (rounds_of g (trail_of path))) }
{
    match path {
        None => round(alloc, pool, inner, &inner.unreached.path),
        Some(all) => {
            let before = Some(all);
            let once = round(alloc, pool, inner, &before)?;
            join(once, before)
        }
    }
}

// The path into a loop. With a label at the loop no path goes round it without one.
fn rounds(
    alloc: Global,
    pool: &Pool,
    inner: &Ways,
    labelled: bool,
    path: Option<Assigned>,
) -> Result<Option<Assigned>, AllocError>
    ensures { IfOk result (λ r. (g : Trail → Called) → IsLoop inner.now g → LikeTrail (trail_of r) (cond labelled (trail_of path) (rounds_of g (trail_of path)))) }
{
    if labelled {
        Ok(path)
    } else {
        all_rounds(alloc, pool, inner, path)
    }
}

// The path behind a statement that has none in it.
fn stepped(path: Option<Assigned>, step: &Step) -> Result<Option<Assigned>, AllocError>
    ensures { IfOk result (λ r. LikeTrail (trail_of r) (trail_stepped step.now.names step.now.stops (trail_of path))) }
{
    if step.stops {
        return Ok(None);
    }
    match path {
        None => Ok(None),
        Some(mut all) => {
            all.names.add_all(&step.names)?;
            Ok(Some(all))
        }
    }
}

impl Walk {
    /// Nothing is seen yet.
    pub fn new(alloc: Global, labelled: bool, path: Option<Assigned>) -> Walk
        ensures seen { result.seen.items ≡ [] }
        ensures labelled { result.labelled ≡ labelled }
        ensures path { result.path ≡ path }
    {
        Walk {
            seen: Vec::new(alloc),
            labelled,
            path,
        }
    }

    // Uses are seen here.
    fn see(&mut self, alloc: Global, pool: &Pool, uses: &[Use]) -> Result<(), AllocError>
        ensures { OnOk result (Sees self.old self.new (on_trail (trail_of self.old.path) (uses_of uses.now))) }
    {
        match &self.path {
            None => Ok(()),
            Some(all) => {
                self.seen.push(group_here(alloc, pool, uses, all)?)?;
                Ok(())
            }
        }
    }

    /// A statement that has none in it.
    ///
    /// # Errors
    ///
    /// Only for want of memory.
    pub fn pass(&mut self, alloc: Global, pool: &Pool, step: &Step) -> Result<(), AllocError>
        ensures { OnOk result (Walks self.old self.new (stepping (uses_of step.now.uses.items) step.now.names step.now.stops)) }
    {
        self.see(alloc, pool, &step.uses)?;
        let before = self.path.take();
        self.path = stepped(before, step)?;
        self.labelled = false;
        Ok(())
    }

    /// What is seen in a body, with arguments put in, and where it ends.
    ///
    /// # Errors
    ///
    /// Only for want of memory.
    pub fn take(
        &mut self,
        alloc: Global,
        pool: &Pool,
        params: &[PlacedName],
        args: &[NodeId],
        way: &Walk,
    ) -> Result<(), AllocError>
        ensures { OnOk result ((c : Called) → IsWay way.now c → Walks self.old self.new (λ z. put_called (putting params.now (trees_at pool.now args.now) (before_on z.trail)) c)) }
    {
        add_groups(
            &mut self.seen,
            pool,
            params,
            args,
            &self.path,
            &way.seen,
            alloc,
        )?;
        self.path = put_path(alloc, pool, params, args, &self.path, &way.path)?;
        self.labelled = way.labelled;
        Ok(())
    }

    /// The same of the one of two ways that is taken here.
    ///
    /// # Errors
    ///
    /// Only for want of memory.
    pub fn take_ways(
        &mut self,
        alloc: Global,
        pool: &Pool,
        params: &[PlacedName],
        args: &[NodeId],
        ways: &Ways,
    ) -> Result<(), AllocError>
        ensures { OnOk result ((u r : Called) → IsWay ways.now.unreached u → IsWay ways.now.reached r → Walks self.old self.new (λ z. put_called (putting params.now (trees_at pool.now args.now) (before_on z.trail)) (way u r z.trail))) }
    {
        if self.path.is_some() {
            self.take(alloc, pool, params, args, &ways.reached)
        } else {
            self.take(alloc, pool, params, args, &ways.unreached)
        }
    }

    /// A loop, of which these are the uses of its test, and what is seen in its body.
    ///
    /// # Errors
    ///
    /// Only for want of memory.
    pub fn go_round(
        &mut self,
        alloc: Global,
        pool: &Pool,
        uses: &[Use],
        inner: &Ways,
    ) -> Result<(), AllocError>
        ensures { OnOk result ((g : Trail → Called) → IsLoop inner.now g → Walks self.old self.new (looping (uses_of uses.now) g)) }
    {
        let before = self.path.take();
        self.path = rounds(alloc, pool, inner, self.labelled, before)?;
        self.see(alloc, pool, uses)?;
        let after = copied(&self.path)?;
        match self.take_ways(alloc, pool, &[], &[], inner) {
            Ok(()) => {
                self.path = after;
                self.labelled = false;
                Ok(())
            }
            Err(error) => {
                drop(after);
                Err(error)
            }
        }
    }
}
