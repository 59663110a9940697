//! The levels of definitions: which of the variables that each reads, itself or through others, is declared last.

ghost use Rattle.std.specs.Prelude.{◌≡◌, ◌+◌, List, [], ◌∷◌, ◌++◌, length, reverse, IfOk, OnOk};
ghost use Rattle.tla_tree.specs.Tree.{Word, words};
ghost use Rattle.tla_tree.specs.Pool.{at};
ghost use Rattle.pcal_tree.specs.InMemory.{definitions_at};
ghost use Rattle.pcal_tree.specs.Reads.{used};
ghost use Rattle.algorithm_limits.specs.Numbers.{with_number};
ghost use Rattle.read_rules.specs.Levels.{Levels, furthest, levels};
ghost use Rattle.read_rules.specs.NumbersIn.{declared_in, AreNumbers, AreLevels};

use crate::used::used_names;
use algorithm_limits::table::Table;
use pcal_tree::algorithm::{Declaration, Definition};
use std::alloc::{AllocError, Global};
use tla_pool::Pool;
use tla_tree::{Name, PlacedName};

// A variable behind others gets this number, if it isn't one of them.
fn number_next(numbers: &mut Table, name: &Name, number: usize) -> Result<(), AllocError>
    ensures { OnOk result ((gs : List Word) → number ≡ length gs + 1 → AreNumbers numbers.old gs → AreNumbers numbers.new (gs ++ name.now ∷ [])) }
{
    if numbers.get(name) == 0 {
        numbers.set(name.copied()?, number)?;
    }
    Ok(())
}

/// The numbers of variables, from 1 on, in the order of their declaration.
///
/// # Errors
///
/// Only for want of memory.
pub fn number_variables(alloc: Global, list: &[Declaration]) -> Result<Table, AllocError>
    ensures { IfOk result (λ t. AreNumbers t (declared_in list.now)) }
{
    let mut numbers = Table::new(alloc);
    for i in 0..list.len() {
        let declaration = &list[i];
        number_next(&mut numbers, &declaration.name.name, i + 1)?;
    }
    Ok(numbers)
}

// The number of the last variable that these names may be or read.
fn furthest(numbers: &Table, levels: &Table, names: &[PlacedName]) -> usize
    ensures { (gs : List Word) (ls : Levels) → AreNumbers numbers.now gs → AreLevels levels.now ls → result ≡ furthest gs ls names.now }
{
    let mut so_far = 0;
    for one in names {
        let number = numbers.get(&one.name);
        let level = levels.get(&one.name);
        so_far = number.max(level).max(so_far);
    }
    so_far
}

// The level of one more definition, which comes after those that have theirs.
fn add_level(
    alloc: Global,
    pool: &Pool,
    numbers: &Table,
    levels: &mut Table,
    definition: &Definition,
) -> Result<(), AllocError>
    ensures { OnOk result ((gs : List Word) (ls : Levels) → AreNumbers numbers.now gs → AreLevels levels.old ls → levels.new ≡ with_number levels.old definition.now.name.word (furthest gs ls (used (at pool.now definition.now.body) (words definition.now.params.items)))) }
{
    let names = used_names(alloc, pool, &definition.params, definition.body)?;
    let level = furthest(numbers, &*levels, &names);
    levels.set(definition.name.name.copied()?, level)
}

/// The levels of definitions, by the numbers of globals.
///
/// # Errors
///
/// Only for want of memory.
pub fn levels(
    alloc: Global,
    pool: &Pool,
    numbers: &Table,
    definitions: &[Definition],
) -> Result<Table, AllocError>
    ensures { IfOk result (λ t. (gs : List Word) → AreNumbers numbers.now gs → AreLevels t (levels gs (reverse (definitions_at pool.now definitions.now)))) }
{
    let mut levels = Table::new(alloc);
    for definition in definitions {
        add_level(alloc, pool, numbers, &mut levels, definition)?;
    }
    Ok(levels)
}
