//! Arguments put in for the parameters of macros.

ghost use Rattle.std.specs.Prelude.{◌≡◌, ◌+◌, List, [], ◌++◌, bytes_eq, IfOk, OnOk};
ghost use Rattle.std.specs.List.{flat_map};
ghost use Rattle.std.specs.Option.{option_map};
ghost use Rattle.tla_tree.specs.Tree.{Tree};
ghost use Rattle.tla_tree.specs.Pool.{at, trees_at, AllBelow};
ghost use Rattle.pcal_tree.specs.Paths.{root, root_of_first};
ghost use Rattle.pcal_tree.specs.laws.MacroSpots.{before_on, put_origin, put_use};
ghost use Rattle.pcal_tree.specs.laws.MacroSummaries.{argument};
ghost use Rattle.pcal_tree.proofs.SetLaws.{Same};
ghost use Rattle.pcal_tree.proofs.SpotGrafts.{putting};
ghost use Rattle.read_rules.specs.Joins.{Joins};
ghost use Rattle.read_rules.specs.PutIn.{word_put, words_put, before_if};
ghost use Rattle.read_rules.specs.Sets.{origins, trail_of};
ghost use Rattle.read_rules.specs.UsesIn.{use_of, uses_of};

use crate::assigned::Assigned;
use crate::names::Names;
use crate::uses::{Kind, Use, add_use, add_uses, add_uses_as};
use std::alloc::{AllocError, Global};
use tla_pool::Pool;
use tla_pool::form::{Form, Strict};
use tla_tree::{Name, NodeId, PlacedName};

/// Whether the two are the same name.
#[tactic(auto, using(algorithm_limits::proofs::Tables::same_test))]
pub fn same(a: &Name, b: &Name) -> bool
    ensures { result ≡ bytes_eq a.now b.now }
{
    b == a
}

/// The variable with which a left side begins.
///
/// # Errors
///
/// Only for want of memory.
#[cycle(roots)]
pub fn root(pool: &Pool, e: NodeId) -> Result<Option<Name>, AllocError>
    ensures { IfOk result (λ r. r ≡ root (at pool.now e)) }
{
    let Some(node) = pool.get(e) else {
        return Ok(None);
    };
    match &node.form {
        Form::Name(name) => Ok(Some(name.copied()?)),
        Form::Strict(strict) => match strict {
            Strict::Apply => root_of_first(pool, &node.parts, e),
            Strict::Select(_) => root_of_first(pool, &node.parts, e),
            _ => Ok(None),
        },
        _ => Ok(None),
    }
}

// That of the first part of an expression; the parts have smaller numbers than this.
#[cycle(roots)]
fn root_of_first(pool: &Pool, parts: &[NodeId], past: NodeId) -> Result<Option<Name>, AllocError>
    requires { AllBelow past parts.now }
    ensures { IfOk result (λ r. r ≡ root_of_first (trees_at pool.now parts.now)) }
{
    if parts.len() > 0 {
        root(pool, parts[0])
    } else {
        Ok(None)
    }
}

/// The argument that stands for a name, if one does.
pub fn argument(params: &[PlacedName], args: &[NodeId], name: &Name) -> Option<NodeId>
    ensures { (ts : List Tree) → option_map (at ts) result ≡ argument params.now (trees_at ts args.now) name.now }
{
    for i in 0..params.len() {
        if i >= args.len() {
            return None;
        }
        let param = &params[i];
        if same(&param.name, name) {
            return Some(args[i]);
        }
    }
    None
}

// A use, with its argument put in.
fn put_use(
    list: &mut Vec<Use>,
    pool: &Pool,
    params: &[PlacedName],
    args: &[NodeId],
    one: &Use,
) -> Result<(), AllocError>
    ensures { OnOk result (uses_of list.new.items ≡ uses_of list.old.items ++ put_use (putting params.now (trees_at pool.now args.now) []) (use_of one.now)) }
{
    let name = &one.name;
    match argument(params, args, &name.name) {
        None => add_use(list, one.kind, &name.name, name.place),
        Some(e) => match one.kind {
            Kind::Value => add_uses(list, pool, e),
            Kind::Left => add_uses_as(list, pool, Kind::Left, name.place, e),
            Kind::Other => add_use(list, Kind::Other, &name.name, name.place),
        },
    }
}

/// Uses, with arguments put in.
///
/// # Errors
///
/// Only for want of memory.
pub fn put_uses(
    list: &mut Vec<Use>,
    pool: &Pool,
    params: &[PlacedName],
    args: &[NodeId],
    uses: &[Use],
) -> Result<(), AllocError>
    ensures { OnOk result (uses_of list.new.items ≡ uses_of list.old.items ++ flat_map (put_use (putting params.now (trees_at pool.now args.now) [])) (uses_of uses.now)) }
{
    for one in uses {
        put_use(list, pool, params, args, one)?;
    }
    Ok(())
}

// The variable of what stands for a name that was assigned.
fn put_name(
    names: &mut Names,
    pool: &Pool,
    params: &[PlacedName],
    args: &[NodeId],
    name: &Name,
) -> Result<(), AllocError>
    ensures { OnOk result (Joins names.old names.new (word_put params.now (trees_at pool.now args.now) name.now)) }
{
    match argument(params, args, name) {
        None => names.add(name),
        Some(e) => match root(pool, e)? {
            None => Ok(()),
            Some(variable) => names.add(&variable),
        },
    }
}

// Those of names that were assigned.
fn put_names(
    names: &mut Names,
    pool: &Pool,
    params: &[PlacedName],
    args: &[NodeId],
    from: &[Name],
) -> Result<(), AllocError>
    ensures { OnOk result (Joins names.old names.new (words_put params.now (trees_at pool.now args.now) from.now)) }
{
    for name in from {
        put_name(names, pool, params, args, name)?;
    }
    Ok(())
}

// What was assigned before, where it is to be.
fn with_before(
    alloc: Global,
    is_there: bool,
    before: &Option<Assigned>,
) -> Result<Assigned, AllocError>
    ensures { IfOk result (λ r. Same (origins r) (before_if is_there (trail_of before.now))) }
{
    if !is_there {
        return Ok(Assigned::new(alloc, false));
    }
    match before {
        None => Ok(Assigned::new(alloc, false)),
        Some(all) => Ok(all.copied()?),
    }
}

/// What was assigned, with arguments put in, and what was assigned before.
///
/// # Errors
///
/// Only for want of memory.
pub fn put_assigned(
    alloc: Global,
    pool: &Pool,
    params: &[PlacedName],
    args: &[NodeId],
    before: &Option<Assigned>,
    from: &Assigned,
) -> Result<Assigned, AllocError>
    ensures { IfOk result (λ r. Same (origins r) (flat_map (put_origin (putting params.now (trees_at pool.now args.now) (before_on (trail_of before.now)))) (origins from.now))) }
{
    let mut into = with_before(alloc, from.earlier, before)?;
    put_names(&mut into.names, pool, params, args, from.names.as_slice())?;
    Ok(into)
}
