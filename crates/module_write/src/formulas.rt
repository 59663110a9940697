//! Formulas that translations are made of, put in a pool. None has a place.

ghost use Rattle.std.specs.Prelude.{◌≡◌, ◌<◌, codes, map, length, IfOk, OnErr};
ghost use Rattle.tla_tree.specs.Pool.{at as tree_at, AllBelow, Keeps};
ghost use Rattle.module_tree.specs.Formulas as pure;

use std::alloc::{AllocError, Global};
use tla_pool::Pool;
use tla_pool::form::{Form, Strict};
use tla_token::Place;
use tla_tree::{Binder, Name, NodeId, Op, PlacedName, Text};

const NOWHERE: Place = Place { line: 0, col: 0 };

/// A name.
///
/// # Errors
///
/// Only for want of memory; the pool is then as before.
pub fn named(alloc: Global, pool: &mut Pool, x: Name) -> Result<NodeId, AllocError>
    ensures tree { IfOk result (λ id. tree_at pool.new id ≡ pure.named x) }
    ensures within { IfOk result (λ id. id < length pool.new) }
    ensures kept { Keeps pool.old pool.new }
    ensures err { OnErr result (pool.new ≡ pool.old) }
{
    pool.put(Form::Name(x), NOWHERE, Vec::new(alloc))
}

/// A string.
///
/// # Errors
///
/// Only for want of memory; the pool is then as before.
pub fn quoted(alloc: Global, pool: &mut Pool, w: Text) -> Result<NodeId, AllocError>
    ensures tree { IfOk result (λ id. tree_at pool.new id ≡ pure.quoted w) }
    ensures within { IfOk result (λ id. id < length pool.new) }
    ensures kept { Keeps pool.old pool.new }
    ensures err { OnErr result (pool.new ≡ pool.old) }
{
    pool.put(Form::String(w), NOWHERE, Vec::new(alloc))
}

/// `a = b`
///
/// # Errors
///
/// Only for want of memory; the pool is then as before.
pub fn equal(alloc: Global, pool: &mut Pool, a: NodeId, b: NodeId) -> Result<NodeId, AllocError>
    requires below { (a < length pool.old) × (b < length pool.old) }
    ensures tree { IfOk result (λ id. tree_at pool.new id ≡ pure.equal (tree_at pool.old a) (tree_at pool.old b)) }
    ensures within { IfOk result (λ id. id < length pool.new) }
    ensures kept { Keeps pool.old pool.new }
    ensures err { OnErr result (pool.new ≡ pool.old) }
{
    let sides = Vec::from_array(alloc, [a, b])?;
    pool.put(Form::Strict(Strict::Operator(Op::Equal)), NOWHERE, sides)
}

/// `a \in s`; with false, `a \notin s`
///
/// # Errors
///
/// Only for want of memory; the pool is then as before.
pub fn is_in(
    alloc: Global,
    pool: &mut Pool,
    sense: bool,
    a: NodeId,
    s: NodeId,
) -> Result<NodeId, AllocError>
    requires below { (a < length pool.old) × (s < length pool.old) }
    ensures tree { IfOk result (λ id. tree_at pool.new id ≡ pure.is_in sense (tree_at pool.old a) (tree_at pool.old s)) }
    ensures within { IfOk result (λ id. id < length pool.new) }
    ensures kept { Keeps pool.old pool.new }
    ensures err { OnErr result (pool.new ≡ pool.old) }
{
    let sides = Vec::from_array(alloc, [a, s])?;
    pool.put(Form::Member(sense), NOWHERE, sides)
}

/// `f[a]`
///
/// # Errors
///
/// Only for want of memory; the pool is then as before.
pub fn at(alloc: Global, pool: &mut Pool, f: NodeId, a: NodeId) -> Result<NodeId, AllocError>
    requires below { (f < length pool.old) × (a < length pool.old) }
    ensures tree { IfOk result (λ id. tree_at pool.new id ≡ pure.at (tree_at pool.old f) (tree_at pool.old a)) }
    ensures within { IfOk result (λ id. id < length pool.new) }
    ensures kept { Keeps pool.old pool.new }
    ensures err { OnErr result (pool.new ≡ pool.old) }
{
    let parts = Vec::from_array(alloc, [f, a])?;
    pool.put(Form::Strict(Strict::Apply), NOWHERE, parts)
}

/// `{a, b}`
///
/// # Errors
///
/// Only for want of memory; the pool is then as before.
pub fn set(pool: &mut Pool, members: Vec<NodeId>) -> Result<NodeId, AllocError>
    requires below { AllBelow (length pool.old) members.items }
    ensures tree { IfOk result (λ id. tree_at pool.new id ≡ pure.set (map (tree_at pool.old) members.items)) }
    ensures within { IfOk result (λ id. id < length pool.new) }
    ensures kept { Keeps pool.old pool.new }
    ensures err { OnErr result (pool.new ≡ pool.old) }
{
    pool.put(Form::Strict(Strict::SetOf), NOWHERE, members)
}

/// `[S -> T]`
///
/// # Errors
///
/// Only for want of memory; the pool is then as before.
pub fn functions_from(
    alloc: Global,
    pool: &mut Pool,
    s: NodeId,
    t: NodeId,
) -> Result<NodeId, AllocError>
    requires below { (s < length pool.old) × (t < length pool.old) }
    ensures tree { IfOk result (λ id. tree_at pool.new id ≡ pure.functions_from (tree_at pool.old s) (tree_at pool.old t)) }
    ensures within { IfOk result (λ id. id < length pool.new) }
    ensures kept { Keeps pool.old pool.new }
    ensures err { OnErr result (pool.new ≡ pool.old) }
{
    let sets = Vec::from_array(alloc, [s, t])?;
    pool.put(Form::Strict(Strict::Functions), NOWHERE, sets)
}

/// A binder of `self` over a set, as `\A self \in S : e` and `[self \in S |-> e]`.
///
/// # Errors
///
/// Only for want of memory; the pool is then as before.
pub fn binds_self(
    alloc: Global,
    pool: &mut Pool,
    binder: Binder,
    s: NodeId,
    e: NodeId,
) -> Result<NodeId, AllocError>
    requires below { (s < length pool.old) × (e < length pool.old) }
    ensures tree { IfOk result (λ id. tree_at pool.new id ≡ pure.binds_self binder (tree_at pool.old s) (tree_at pool.old e)) }
    ensures within { IfOk result (λ id. id < length pool.new) }
    ensures kept { Keeps pool.old pool.new }
    ensures err { OnErr result (pool.new ≡ pool.old) }
{
    let name = Name::new(Vec::from_slice(alloc, b"self")?);
    let group = Vec::from_array(
        alloc,
        [PlacedName {
            name,
            place: NOWHERE,
        }],
    )?;
    let groups = Vec::from_array(alloc, [group])?;
    let parts = Vec::from_array(alloc, [s, e])?;
    pool.put(Form::Binding(binder, groups), NOWHERE, parts)
}
