//! The variables that definitions read.

ghost use Rattle.std.specs.Prelude.{◌≡◌, List, [], reverse, IfOk, OnOk};
ghost use Rattle.tla_tree.specs.Tree.{Word, words};
ghost use Rattle.tla_tree.specs.Pool.{at};
ghost use Rattle.pcal_tree.specs.InMemory.{definitions_at};
ghost use Rattle.pcal_tree.specs.Paths.{meets};
ghost use Rattle.pcal_tree.specs.Reads.{Reading, through, readings, used};
ghost use Rattle.pcal_tree.proofs.SetLaws.{Same};
ghost use Rattle.read_rules.specs.NumbersIn.{declared_in};
ghost use Rattle.read_rules.specs.Joins.{Joins};
ghost use Rattle.algorithm_limits.specs.Numbers.{number_of};
ghost use Rattle.read_rules.specs.ReadsIn.{AreReads, HasRead, read_with, reads_all, reads_at};
ghost use Rattle.read_rules.specs.WantedIn.{has_some};

use crate::names::Names;
use crate::used::used_names;
use algorithm_limits::table::Table;
use pcal_tree::algorithm::{Declaration, Definition};
use std::alloc::{AllocError, Global};
use tla_pool::Pool;
use tla_tree::{Name, PlacedName};

/// The variables that definitions read.
#[derive(Drop)]
pub struct Reads {
    /// One more than the place of a definition's variables in their list, by its name.
    pub numbers: Table,
    /// The variables of definitions.
    pub lists: Vec<Names>,
}

// Whether one of these names is in a set.
fn has_one(names: &Names, list: &[Name]) -> bool
    ensures { result ≡ meets names.now list.now }
{
    for one in list {
        if names.has(one) {
            return true;
        }
    }
    false
}

// Whether there is a name.
fn is_some(list: &[Name]) -> bool
    ensures { result ≡ has_some list.now }
{
    list.len() > 0
}

impl Reads {
    /// Whether one of these variables is read by a name.
    pub fn meets(&self, names: &Names, name: &Name) -> bool
        ensures { (ds : List Reading) → AreReads self.now ds → result ≡ meets names.now (through ds name.now) }
    {
        let number = self.numbers.get(name);
        if number == 0 {
            return false;
        }
        let lists = self.lists.as_slice();
        if number > lists.len() {
            return false;
        }
        let place = number - 1;
        let list = &lists[place];
        has_one(names, list.as_slice())
    }

    /// Whether a name reads a variable, as a definition.
    pub fn has_some(&self, name: &Name) -> bool
        ensures { result ≡ has_some (reads_at self.now.lists.items (number_of self.now.numbers name.now)) }
    {
        let number = self.numbers.get(name);
        if number == 0 {
            return false;
        }
        let lists = self.lists.as_slice();
        if number > lists.len() {
            return false;
        }
        let place = number - 1;
        let list = &lists[place];
        is_some(list.as_slice())
    }

    // The variables that a name reads, as a definition.
    fn add_through(&self, into: &mut Names, name: &Name) -> Result<(), AllocError>
        ensures { OnOk result ((ds : List Reading) → AreReads self.now ds → Joins into.old into.new (through ds name.now)) }
    {
        let number = self.numbers.get(name);
        if number == 0 {
            return Ok(());
        }
        let lists = self.lists.as_slice();
        if number > lists.len() {
            return Ok(());
        }
        let place = number - 1;
        let list = &lists[place];
        into.add_all(list)
    }

    // The variables that a name is or reads.
    fn add_read(&self, into: &mut Names, globals: &Names, name: &Name) -> Result<(), AllocError>
        ensures { OnOk result ((ds : List Reading) → AreReads self.now ds → Joins into.old into.new (read_with globals.now ds name.now)) }
    {
        if globals.has(name) {
            into.add(name)?;
        }
        self.add_through(into, name)
    }

    // Those of several names.
    fn add_reads(
        &self,
        into: &mut Names,
        globals: &Names,
        names: &[PlacedName],
    ) -> Result<(), AllocError>
        ensures { OnOk result ((ds : List Reading) → AreReads self.now ds → Joins into.old into.new (reads_all globals.now ds names.now)) }
    {
        for one in names {
            self.add_read(into, globals, &one.name)?;
        }
        Ok(())
    }
}

// The variables that a definition reads, by what older ones read.
fn variables_of(
    alloc: Global,
    pool: &Pool,
    reads: &Reads,
    globals: &Names,
    definition: &Definition,
) -> Result<Names, AllocError>
    ensures { IfOk result (λ r. (ds : List Reading) → AreReads reads.now ds → Joins [] r (reads_all globals.now ds (used (at pool.now definition.now.body) (words definition.now.params.items)))) }
{
    let names = used_names(alloc, pool, &definition.params, definition.body)?;
    let mut variables = Names::new(alloc);
    reads.add_reads(&mut variables, globals, &names)?;
    Ok(variables)
}

impl Reads {
    // These are the variables that a definition reads; it is newer than the others.
    fn add_definition(&mut self, name: &Name, variables: Names) -> Result<(), AllocError>
        ensures { OnOk result (HasRead self.old self.new name.now variables) }
    {
        self.lists.push(variables)?;
        let lists = self.lists.as_slice();
        let number = lists.len();
        self.numbers.set(name.copied()?, number)
    }

    // What definitions read, each newer than those before, where these are the variables.
    fn add_definitions(
        &mut self,
        alloc: Global,
        pool: &Pool,
        globals: &Names,
        definitions: &[Definition],
    ) -> Result<(), AllocError>
        ensures { OnOk result ((gs : List Word) → Same globals.now gs → AreReads self.old [] → AreReads self.new (readings gs (reverse (definitions_at pool.now definitions.now)))) }
    {
        for definition in definitions {
            let variables = variables_of(alloc, pool, &*self, globals, definition)?;
            self.add_definition(&definition.name.name, variables)?;
        }
        Ok(())
    }
}

/// The variables that definitions read, where these are the variables.
///
/// # Errors
///
/// Only for want of memory.
pub fn all_reads(
    alloc: Global,
    pool: &Pool,
    globals: &Names,
    definitions: &[Definition],
) -> Result<Reads, AllocError>
    ensures { IfOk result (λ r. (gs : List Word) → Same globals.now gs → AreReads r (readings gs (reverse (definitions_at pool.now definitions.now)))) }
{
    let mut reads = Reads {
        numbers: Table::new(alloc),
        lists: Vec::new(alloc),
    };
    match reads.add_definitions(alloc, pool, globals, definitions) {
        Ok(()) => Ok(reads),
        Err(error) => {
            drop(reads);
            Err(error)
        }
    }
}

/// The names of variables that are declared.
///
/// # Errors
///
/// Only for want of memory.
pub fn global_names(alloc: Global, list: &[Declaration]) -> Result<Names, AllocError>
    ensures { IfOk result (λ r. Same r (declared_in list.now)) }
{
    let mut names = Names::new(alloc);
    for i in 0..list.len() {
        let declaration = &list[i];
        names.add(&declaration.name.name)?;
    }
    Ok(names)
}
