//! What a call of a macro assigns, with its arguments put in.

ghost use Rattle.std.specs.Prelude.{◌≡◌, ◌+◌, ◌≤◌, List, ◌++◌, ◌||◌, ◌&&◌, bytes_eq, length, map, IfOk, IfSome, OnOk};
ghost use Rattle.std.specs.List.{flat_map, list_any};
ghost use Rattle.std.specs.Option.{option_map};
ghost use Rattle.tla_tree.specs.Tree.{Tree};
ghost use Rattle.tla_tree.specs.Pool.{at, trees_at};
ghost use Rattle.pcal_tree.specs.InMemory.{past_numbers};
ghost use Rattle.pcal_tree.specs.Paths.{some_word, same_word};
ghost use Rattle.pcal_tree.specs.laws.MacroSummaries.{argument, resolved, resolved_whole, is_broken};
ghost use Rattle.label_steps.specs.PutIn.{side_of, pair_of, variable_put};

use crate::params::Params;
use crate::sides::{Step, is_whole, root};
use crate::truths::{both, either};
use indexmap::IndexSet;
use std::alloc::{AllocError, Global};
use tla_pool::Pool;
use tla_tree::{Name, NodeId};

/// A left side of a macro: the name with which it begins, and whether it is the whole of it.
#[derive(Drop, PartialEq, Eq, Hash)]
pub struct Side {
    /// A parameter, or another name.
    pub name: Name,
    /// Whether it is the whole.
    pub whole: bool,
}

impl Side {
    /// The same once more.
    ///
    /// # Errors
    ///
    /// Only for want of memory.
    pub fn copied(&self) -> Result<Side, AllocError>
        ensures { IfOk result (λ s. side_of s ≡ side_of self.now) }
    {
        Ok(Side {
            name: self.name.copied()?,
            whole: self.whole,
        })
    }
}

/// Names of a macro that must not be one variable.
#[derive(Drop, PartialEq, Eq, Hash)]
pub enum Pair {
    /// The second is assigned after the first.
    InTurn(Name, Name),
    /// One statement assigns both, and may do so where neither is the whole.
    AtOnce(Side, Side),
}

/// What a macro assigns.
#[derive(Drop)]
pub struct Summary {
    /// Its parameters.
    pub params: Params,
    /// The names that it assigns.
    pub names: IndexSet<Name>,
    /// Those that must not be one variable, where they may be.
    pub pairs: IndexSet<Pair>,
}

/// Whether the two are the same name.
#[tactic(auto, using(algorithm_limits::proofs::Tables::same_test))]
pub fn same(a: &Name, b: &Name) -> bool
    ensures { result ≡ bytes_eq a.now b.now }
{
    b == a
}

/// The variable that a name is where the macro is called, if it is one.
///
/// # Errors
///
/// Only for want of memory.
pub fn variable(
    pool: &Pool,
    params: &Params,
    args: &[NodeId],
    name: &Name,
) -> Result<Option<Name>, AllocError>
    requires { past_numbers args.now ≤ length pool.now }
    ensures { IfOk result (λ r. r ≡ resolved (argument params.now (trees_at pool.now args.now)) name.now) }
{
    match params.argument(args, name) {
        None => Ok(Some(name.copied()?)),
        Some(e) => root(pool, e),
    }
}

/// Whether a left side is the whole of a variable where the macro is called.
pub fn stays_whole(pool: &Pool, params: &Params, args: &[NodeId], side: &Side) -> bool
    requires { past_numbers args.now ≤ length pool.now }
    ensures { result ≡ resolved_whole (argument params.now (trees_at pool.now args.now)) (side_of side.now) }
{
    match params.argument(args, &side.name) {
        None => side.whole,
        Some(e) => both(side.whole, is_whole(pool, e)),
    }
}

// Whether two names are one variable where the macro is called.
fn same_variable(
    pool: &Pool,
    params: &Params,
    args: &[NodeId],
    first: &Name,
    second: &Name,
) -> Result<bool, AllocError>
    requires { past_numbers args.now ≤ length pool.now }
    ensures { IfOk result (λ r. r ≡ same_word (resolved (argument params.now (trees_at pool.now args.now)) first.now) (resolved (argument params.now (trees_at pool.now args.now)) second.now)) }
{
    let one = variable(pool, params, args, first)?;
    let other = variable(pool, params, args, second)?;
    match one {
        None => Ok(false),
        Some(x) => match other {
            None => Ok(false),
            Some(y) => Ok(same(&x, &y)),
        },
    }
}

// Whether names are one variable that must not be.
fn breaks(pool: &Pool, params: &Params, args: &[NodeId], pair: &Pair) -> Result<bool, AllocError>
    requires { past_numbers args.now ≤ length pool.now }
    ensures { IfOk result (λ r. r ≡ is_broken (argument params.now (trees_at pool.now args.now)) (pair_of pair.now)) }
{
    match pair {
        Pair::InTurn(first, second) => same_variable(pool, params, args, first, second),
        Pair::AtOnce(first, second) => {
            let one = same_variable(pool, params, args, &first.name, &second.name)?;
            let whole = stays_whole(pool, params, args, first);
            let other = stays_whole(pool, params, args, second);
            Ok(both(one, either(whole, other)))
        }
    }
}

// The variable that a name is too, if it is one.
#[tactic(auto, using(crate::proofs::PutLaws::put_none, crate::proofs::PutLaws::put_some))]
fn add_variable(
    list: &mut Vec<Name>,
    pool: &Pool,
    params: &Params,
    args: &[NodeId],
    name: &Name,
) -> Result<(), AllocError>
    requires { past_numbers args.now ≤ length pool.now }
    ensures { OnOk result (list.new.items ≡ list.old.items ++ variable_put params.now (trees_at pool.now args.now) name.now) }
{
    match variable(pool, params, args, name)? {
        None => Ok(()),
        Some(x) => {
            list.push(x)?;
            Ok(())
        }
    }
}

// The variables that these names are.
#[tactic(auto, using(crate::proofs::PutLaws::variables_more, crate::proofs::PutLaws::variables_all))]
fn variables(
    alloc: Global,
    pool: &Pool,
    params: &Params,
    args: &[NodeId],
    names: &[Name],
) -> Result<Vec<Name>, AllocError>
    requires { past_numbers args.now ≤ length pool.now }
    ensures { IfOk result (λ r. r.items ≡ flat_map (variable_put params.now (trees_at pool.now args.now)) names.now) }
{
    let mut list = Vec::new(alloc);
    for name in names {
        add_variable(&mut list, pool, params, args, name)?;
    }
    Ok(list)
}

// Whether some of these names are one variable that must not be.
#[tactic(auto, using(crate::proofs::PutLaws::pair_more, crate::proofs::PutLaws::pairs_all))]
fn breaks_one(
    pool: &Pool,
    params: &Params,
    args: &[NodeId],
    pairs: &[Pair],
) -> Result<bool, AllocError>
    requires { past_numbers args.now ≤ length pool.now }
    ensures { IfOk result (λ r. r ≡ list_any (is_broken (argument params.now (trees_at pool.now args.now))) (map pair_of pairs.now)) }
{
    let mut found = false;
    for i in 0..pairs.len() {
        found = either(found, breaks(pool, params, args, &pairs[i])?);
    }
    Ok(found)
}

impl Summary {
    /// What a call of the macro with these arguments assigns.
    ///
    /// # Errors
    ///
    /// Only for want of memory.
    pub fn step(&self, alloc: Global, pool: &Pool, args: &[NodeId]) -> Result<Step, AllocError>
        requires { past_numbers args.now ≤ length pool.now }
        ensures names { IfOk result (λ r. r.names.items ≡ flat_map (variable_put self.now.params (trees_at pool.now args.now)) self.now.names.keys) }
        ensures twice { IfOk result (λ r. r.twice ≡ list_any (is_broken (argument self.now.params (trees_at pool.now args.now))) (map pair_of self.now.pairs.keys)) }
    {
        let names = variables(alloc, pool, &self.params, args, self.names.as_slice())?;
        let twice = breaks_one(pool, &self.params, args, self.pairs.as_slice())?;
        Ok(Step { names, twice })
    }
}
