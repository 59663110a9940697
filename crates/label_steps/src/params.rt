//! The parameters of a macro, which are found by their names.

ghost use Rattle.std.specs.Prelude.{◌≡◌, ◌+◌, ◌≤◌, List, IfOk, IfSome};
ghost use Rattle.std.specs.Option.{option_map};
ghost use Rattle.tla_tree.specs.Tree.{Tree};
ghost use Rattle.tla_tree.specs.Pool.{at, trees_at};
ghost use Rattle.pcal_tree.specs.InMemory.{past_numbers};
ghost use Rattle.pcal_tree.specs.laws.MacroSummaries.{argument};
ghost use Rattle.label_steps.specs.ParamsIn.{ArePlaces};

use algorithm_limits::table::Table;
use std::alloc::{AllocError, Global};
use std::marker::Model;
use tla_tree::{Name, NodeId, PlacedName};

/// The parameters of a macro. Contracts see the list of them.
#[derive(Drop)]
pub struct Params {
    names: Vec<PlacedName>,
    places: Table,
}

impl Model for Params {
    ghost use Rattle.std.specs.Prelude.{List};
    ghost use Rattle.std.specs.Coded.{coded_list};
    ghost use Rattle.tla_tree.specs.Tree as pure;
    ghost use Rattle.tla_tree.specs.Code.{name_code};
    ghost use Rattle.label_steps.specs.ParamsIn.{ArePlaces};

    ghost Value = { List pure.Name };

    ghost coded = { coded_list name_code };

    ghost view = { λ p. p.names.items };

    ghost invariant = { λ p. ArePlaces p.places p.names.items };
}

// The same names once more.
fn copies(alloc: Global, names: &[PlacedName]) -> Result<Vec<PlacedName>, AllocError>
    ensures { IfOk result (λ r. r.items ≡ names.now) }
{
    let mut list = Vec::new(alloc);
    for one in names {
        list.push(one.copied()?)?;
    }
    Ok(list)
}

/// The name alone.
///
/// # Errors
///
/// Only for want of memory.
pub fn name_of(one: &PlacedName) -> Result<Name, AllocError>
    ensures { IfOk result (λ r. r ≡ one.now.word) }
{
    one.name.copied()
}

// One more than the place of each name in a list; where it is there more than once, the first counts.
fn places_of(alloc: Global, names: &[PlacedName]) -> Result<Table, AllocError>
    ensures { IfOk result (λ r. ArePlaces r names.now) }
{
    let mut places = Table::new(alloc);
    for i in 0..names.len() {
        let place = names.len() - i;
        let one = &names[place - 1];
        places.set(name_of(one)?, place)?;
    }
    Ok(places)
}

impl Params {
    /// These parameters.
    ///
    /// # Errors
    ///
    /// Only for want of memory.
    pub fn new(alloc: Global, list: &[PlacedName]) -> Result<Params, AllocError>
        ensures { IfOk result (λ r. r ≡ list.now) }
    {
        let names = copies(alloc, list)?;
        let places = places_of(alloc, &names)?;
        Ok(Params { names, places })
    }

    /// The argument that stands for a name, if one does.
    pub fn argument(&self, args: &[NodeId], name: &Name) -> Option<NodeId>
        ensures value { (ts : List Tree) → option_map (at ts) result ≡ argument self.now (trees_at ts args.now) name.now }
        ensures within { IfSome result (λ e. e + 1 ≤ past_numbers args.now) }
    {
        let place = self.places.get(name);
        if place == 0 {
            return None;
        }
        if place > args.len() {
            return None;
        }
        Some(args[place - 1])
    }
}
