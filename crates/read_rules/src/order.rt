//! Variables that are read before they are declared, in initial values.

ghost use Rattle.std.specs.Prelude.{◌≡◌, List, IfOk, OnOk};
ghost use Rattle.std.specs.List.{list_any};
ghost use Rattle.tla_tree.specs.Tree.{Word};
ghost use Rattle.tla_tree.specs.Pool.{at};
ghost use Rattle.pcal_tree.specs.InMemory.{start_at, declarations_at};
ghost use Rattle.pcal_tree.specs.Offences.{first};
ghost use Rattle.algorithm_limits.specs.DepthsIn.{Hides};
ghost use Rattle.algorithm_answer.specs.Joined.{joined};
ghost use Rattle.read_rules.specs.Levels.{Levels};
ghost use Rattle.read_rules.specs.EarlyReads.{is_early, early_in_tree, early_in_start, early_in};
ghost use Rattle.read_rules.specs.NumbersIn.{declared_in};
ghost use Rattle.read_rules.specs.Order.{Knows};

use crate::used::free_names;
use algorithm_limits::bound::Bound;
use algorithm_limits::order::or_offence;
use algorithm_limits::table::Table;
use pcal_tree::algorithm::{Declaration, Start};
use std::alloc::{AllocError, Global};
use tla_pool::Pool;
use tla_token::{Refusal, Rule};
use tla_tree::{NodeId, PlacedName};

/// All variables, those that are declared before, and the levels of definitions.
#[derive(Drop)]
pub struct Known {
    /// All variables.
    pub all: Bound,
    /// Those that are declared before.
    pub before: Bound,
    /// The levels of definitions.
    pub levels: Table,
}

// Whether a name is a variable that isn't declared before, or reads one, where so many globals are.
fn is_early(known: &Known, count: usize, one: &PlacedName) -> bool
    ensures { (all : List Word) (ls : Levels) (before : List Word) → Knows known.now all ls before → result ≡ is_early all ls before count one.now }
{
    (known.all.has(&one.name) && !known.before.has(&one.name))
        || count < known.levels.get(&one.name)
}

// Whether one of these names is.
fn are_early(known: &Known, count: usize, names: &[PlacedName]) -> bool
    ensures { (all : List Word) (ls : Levels) (before : List Word) → Knows known.now all ls before → result ≡ list_any (is_early all ls before count) names.now }
{
    for one in names {
        if is_early(known, count, one) {
            return true;
        }
    }
    false
}

// The first of what was found and of the offence of an expression.
fn with_tree(
    alloc: Global,
    pool: &Pool,
    known: &Known,
    count: usize,
    so_far: Option<Refusal>,
    e: NodeId,
) -> Result<Option<Refusal>, AllocError>
    ensures { IfOk result (λ r. (all : List Word) (ls : Levels) (before : List Word) → Knows known.now all ls before → r ≡ joined so_far (first (early_in_tree all ls before count (at pool.now e)))) }
{
    let names = free_names(alloc, pool, e)?;
    let early = are_early(known, count, &names);
    Ok(or_offence(so_far, early, Rule::InitLater, pool.place(e)))
}

// The same of a first value.
fn with_start(
    alloc: Global,
    pool: &Pool,
    known: &Known,
    count: usize,
    so_far: Option<Refusal>,
    start: &Start,
) -> Result<Option<Refusal>, AllocError>
    ensures { IfOk result (λ r. (all : List Word) (ls : Levels) (before : List Word) → Knows known.now all ls before → r ≡ joined so_far (first (early_in_start all ls before count (start_at pool.now start.now)))) }
{
    match start {
        Start::Unset => Ok(so_far),
        Start::Equals(e) => with_tree(alloc, pool, known, count, so_far, *e),
        Start::Among(e) => with_tree(alloc, pool, known, count, so_far, *e),
    }
}

/// The first of what was found and of the offences of declarations; each is declared before those after it.
///
/// # Errors
///
/// Only for want of memory.
pub fn with_declarations(
    alloc: Global,
    pool: &Pool,
    known: &mut Known,
    so_far: Option<Refusal>,
    list: &[Declaration],
) -> Result<Option<Refusal>, AllocError>
    ensures found { IfOk result (λ r. (all : List Word) (ls : Levels) (before : List Word) → Knows known.old all ls before → r ≡ joined so_far (first (early_in all ls before 0 (declarations_at pool.now list.now)))) }
    ensures all { OnOk result (known.new.all ≡ known.old.all) }
    ensures levels { OnOk result (known.new.levels ≡ known.old.levels) }
    ensures hides { OnOk result (Hides known.old.before known.new.before (declared_in list.now)) }
{
    let mut found = so_far;
    for i in 0..list.len() {
        let declaration = &list[i];
        found = with_start(alloc, pool, known, i, found, &declaration.start)?;
        known.before.add(&declaration.name.name)?;
    }
    Ok(found)
}
