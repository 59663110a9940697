//! What is seen in a macro, each use once.

ghost use Rattle.std.specs.Prelude.{◌≡◌, ◌<◌, [], ◌∷◌, Some, unwrap_or, length, slice_get, IfOk, OnOk};
ghost use Rattle.std.specs.Option.{option_copied, option_map};
ghost use Rattle.pcal_tree.specs.laws.MacroSpots.{Called, on_trail};
ghost use Rattle.pcal_tree.proofs.SpotCalls.{SeenLike};
ghost use Rattle.read_rules.specs.Joins.{Joins};
ghost use Rattle.read_rules.specs.Pruned.{only, pruned};
ghost use Rattle.read_rules.specs.WantedIn.{wants};
ghost use Rattle.read_rules.specs.OnceIn.{Entry, entry_seen, entries_seen, key_use, Keeps};
ghost use Rattle.read_rules.specs.SeenIn.{group_seen, seen_of, IsWay};
ghost use Rattle.read_rules.specs.Sets.{origins};
ghost use Rattle.read_rules.specs.UsesIn.{use_of, uses_of};

use crate::assigned::Assigned;
use crate::uses::{Kind, Use};
use crate::walk::{Group, Walk};
use crate::wanted::Wanted;
use indexmap::IndexMap;
use std::alloc::{AllocError, Global};
use tla_token::Place;
use tla_tree::{Name, PlacedName};

/// A use of a name, by which it is found again.
#[derive(Drop, PartialEq, Eq, Hash)]
pub struct Key {
    /// The name.
    pub name: Name,
    /// How it is used.
    pub kind: Kind,
    /// The line that it is on.
    pub line: u32,
    /// The column.
    pub col: u32,
}

/// Uses, each once, with what paths to it have assigned.
#[derive(Drop)]
pub struct Kept {
    /// The uses.
    pub uses: IndexMap<Key, Assigned>,
}

// By what a use is found.
fn key_of(one: &Use) -> Result<Key, AllocError>
    ensures { IfOk result (λ k. key_use k ≡ use_of one.now) }
{
    Ok(Key {
        name: one.name.name.copied()?,
        kind: one.kind,
        line: one.name.place.line,
        col: one.name.place.col,
    })
}

// The use that is found by this, on one path.
fn group_of(alloc: Global, key: &Key, after: &Assigned) -> Result<Group, AllocError>
    ensures { IfOk result (λ g. SeenLike (group_seen g) (entry_seen (key.now, after.now))) }
{
    let place = Place {
        line: key.line,
        col: key.col,
    };
    let name = PlacedName {
        name: key.name.copied()?,
        place,
    };
    let mut uses = Vec::new(alloc);
    uses.push(Use {
        kind: key.kind,
        name,
    })?;
    Ok(Group {
        uses,
        after: after.copied()?,
    })
}

// What paths to a use have assigned, if there were some, with one path more.
fn one_more(before: Option<&Assigned>, after: &Assigned) -> Result<Assigned, AllocError>
    ensures { IfOk result (λ a. Joins (unwrap_or (option_map origins (option_copied before.entry)) []) (origins a) (origins after.now)) }
{
    match before {
        None => after.copied(),
        Some(before) => before.copied()?.with(after),
    }
}

impl Kept {
    // No uses.
    fn new(alloc: Global) -> Kept
        ensures { result.uses.entries ≡ [] }
    {
        Kept {
            uses: IndexMap::new(alloc),
        }
    }

    // A use, with what a path to it has assigned.
    fn keep(&mut self, one: &Use, after: &Assigned) -> Result<(), AllocError>
        ensures { OnOk result (Keeps self.old.uses.entries self.new.uses.entries (on_trail (Some (origins after.now)) (use_of one.now ∷ []))) }
    {
        let key = key_of(one)?;
        match one_more(self.uses.get(&key), after) {
            Ok(all) => {
                let before = self.uses.insert(key, all)?;
                drop(before);
                Ok(())
            }
            Err(error) => {
                drop(key);
                Err(error)
            }
        }
    }

    // The same, where its name may matter.
    fn keep_wanted(
        &mut self,
        wanted: &Wanted,
        one: &Use,
        after: &Assigned,
    ) -> Result<(), AllocError>
        ensures { OnOk result (Keeps self.old.uses.entries self.new.uses.entries (only (wants wanted.now) (on_trail (Some (origins after.now)) (use_of one.now ∷ [])))) }
    {
        if !wanted.has(&one.name.name) {
            return Ok(());
        }
        self.keep(one, after)
    }

    // Uses that are on one path.
    fn keep_uses(
        &mut self,
        wanted: &Wanted,
        uses: &[Use],
        after: &Assigned,
    ) -> Result<(), AllocError>
        ensures { OnOk result (Keeps self.old.uses.entries self.new.uses.entries (only (wants wanted.now) (on_trail (Some (origins after.now)) (uses_of uses.now)))) }
    {
        for one in uses {
            self.keep_wanted(wanted, one, after)?;
        }
        Ok(())
    }

    // All that is seen.
    fn keep_groups(&mut self, wanted: &Wanted, groups: &[Group]) -> Result<(), AllocError>
        ensures { OnOk result (Keeps self.old.uses.entries self.new.uses.entries (only (wants wanted.now) (seen_of groups.now))) }
    {
        for group in groups {
            self.keep_uses(wanted, &group.uses, &group.after)?;
        }
        Ok(())
    }

    // The use of this number, on one path.
    fn group_at(&self, alloc: Global, number: usize) -> Result<Group, AllocError>
        requires { number < length self.now.uses.entries }
        ensures { IfOk result (λ g. (e : Entry) → slice_get self.now.uses.entries number ≡ Some e → SeenLike (group_seen g) (entry_seen e)) }
    {
        let (key, after) = self.uses.get_index(number).unwrap();
        group_of(alloc, key, after)
    }

    // All uses, each on one path.
    fn groups(&self, alloc: Global) -> Result<Vec<Group>, AllocError>
        ensures { IfOk result (λ r. SeenLike (seen_of r.items) (entries_seen self.now.uses.entries)) }
    {
        let mut list = Vec::new(alloc);
        for number in 0..self.uses.len() {
            list.push(self.group_at(alloc, number)?)?;
        }
        Ok(list)
    }
}

impl Walk {
    /// Each use is seen once that may matter, on a path that has assigned what some path to it has.
    ///
    /// # Errors
    ///
    /// Only for want of memory.
    pub fn keep_once(&mut self, alloc: Global, wanted: &Wanted) -> Result<(), AllocError>
        ensures { OnOk result ((c : Called) → IsWay self.old c → IsWay self.new (pruned (wants wanted.now) c)) }
    {
        let mut kept = Kept::new(alloc);
        kept.keep_groups(wanted, &self.seen)?;
        self.seen = kept.groups(alloc)?;
        Ok(())
    }
}
