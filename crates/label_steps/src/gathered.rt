//! What is gathered of a macro: the names that it assigns, and which of them must not be one variable.

ghost use Rattle.std.specs.Prelude.{◌≡◌, ◌≤◌, ◌<◌, ◌++◌, List, [], ◌∷◌, length, map, IfOk, OnOk};
ghost use Rattle.std.specs.List.{flat_map};
ghost use Rattle.std.specs.Option.{option_map};
ghost use Rattle.tla_tree.specs.Nesting.{greatest};
ghost use Rattle.tla_tree.specs.Pool.{at, trees_at};
ghost use Rattle.pcal_tree.specs.InMemory.{simple_at, assignments_at, past_numbers, past_assignment, past_simple};
ghost use Rattle.pcal_tree.specs.Paths.{root, is_whole};
ghost use Rattle.pcal_tree.specs.laws.MacroSummaries.{Summary as Found, in_turn, at_once, argument, put_pair, sides_of, sides, pairs_of, found_in_call, found_here};
ghost use Rattle.label_steps.specs.GatheredIn.{Adds, PassesSide, turn_of, once_of, names_on, turns_on, sides_put};
ghost use Rattle.label_steps.specs.KnownIn.{AreMacros};
ghost use Rattle.label_steps.specs.PathsIn.{path_of};
ghost use Rattle.label_steps.specs.PutIn.{side_of, pair_of};

use crate::known::Known;
use crate::params::Params;
use crate::path::Path;
use crate::put::{Pair, Side, stays_whole, variable};
use crate::sides::{is_whole, root};
use indexmap::IndexSet;
use pcal_tree::algorithm::{Assignment, Simple};
use std::alloc::{AllocError, Global};
use tla_pool::Pool;
use tla_tree::{Name, NodeId};

/// What is gathered of a macro.
#[derive(Drop)]
pub struct Gathered {
    /// The names that it assigns.
    pub names: IndexSet<Name>,
    /// Those that must not be one variable, where they may be.
    pub pairs: IndexSet<Pair>,
}

// What a left side is where the macro is called.
fn side_put(
    pool: &Pool,
    params: &Params,
    args: &[NodeId],
    side: &Side,
) -> Result<Option<Side>, AllocError>
    requires { past_numbers args.now ≤ length pool.now }
    ensures { IfOk result (λ r. option_map side_of r ≡ sides_put (argument params.now (trees_at pool.now args.now)) (side_of side.now)) }
{
    match variable(pool, params, args, &side.name)? {
        None => Ok(None),
        Some(name) => Ok(Some(Side {
            name,
            whole: stays_whole(pool, params, args, side),
        })),
    }
}

impl Gathered {
    /// Nothing.
    pub fn new(alloc: Global) -> Gathered
        ensures names { result.names.keys ≡ [] }
        ensures pairs { result.pairs.keys ≡ [] }
    {
        Gathered {
            names: IndexSet::new(alloc),
            pairs: IndexSet::new(alloc),
        }
    }

    // The second name is assigned after the first.
    fn turn(&mut self, known: &Known, first: &Name, second: &Name) -> Result<(), AllocError>
        ensures { OnOk result (Adds known.now self.old self.new [] (in_turn first.now second.now ∷ [])) }
    {
        if !known.may_be_one(first, second) {
            return Ok(());
        }
        let pair = Pair::InTurn(first.copied()?, second.copied()?);
        self.pairs.insert(pair)?;
        Ok(())
    }

    // One statement assigns both.
    fn once(&mut self, known: &Known, first: &Side, second: &Side) -> Result<(), AllocError>
        ensures { OnOk result (Adds known.now self.old self.new [] (at_once (side_of first.now) (side_of second.now) ∷ [])) }
    {
        if !known.may_be_one(&first.name, &second.name) {
            return Ok(());
        }
        let pair = Pair::AtOnce(first.copied()?, second.copied()?);
        self.pairs.insert(pair)?;
        Ok(())
    }

    // The second name is assigned after each of these.
    fn turns(&mut self, known: &Known, before: &[Name], name: &Name) -> Result<(), AllocError>
        ensures { OnOk result (Adds known.now self.old self.new [] (map (λ x. in_turn x name.now) before.now)) }
    {
        for one in before {
            self.turn(known, one, name)?;
        }
        Ok(())
    }

    // Each of the second names is assigned after each of the first.
    fn all_turns(
        &mut self,
        known: &Known,
        before: &[Name],
        names: &[Name],
    ) -> Result<(), AllocError>
        ensures { OnOk result (Adds known.now self.old self.new [] (flat_map (λ y. map (λ x. in_turn x y) before.now) names.now)) }
    {
        for one in names {
            self.turns(known, before, one)?;
        }
        Ok(())
    }

    // One of two names is assigned after the other, where they are these.
    fn turn_of(
        &mut self,
        known: &Known,
        first: Option<Name>,
        second: Option<Name>,
    ) -> Result<(), AllocError>
        ensures { OnOk result (Adds known.now self.old self.new [] (turn_of first second)) }
    {
        match first {
            None => Ok(()),
            Some(x) => match second {
                None => Ok(()),
                Some(y) => self.turn(known, &x, &y),
            },
        }
    }

    // One statement assigns both, where they are left sides.
    fn once_of(
        &mut self,
        known: &Known,
        first: Option<Side>,
        second: Option<Side>,
    ) -> Result<(), AllocError>
        ensures { OnOk result (Adds known.now self.old self.new [] (once_of (option_map side_of first) (option_map side_of second))) }
    {
        match first {
            None => Ok(()),
            Some(r) => match second {
                None => Ok(()),
                Some(s) => self.once(known, &r, &s),
            },
        }
    }

    // What names that must not be one variable are where the macro is called.
    fn put_pair(
        &mut self,
        known: &Known,
        pool: &Pool,
        params: &Params,
        args: &[NodeId],
        pair: &Pair,
    ) -> Result<(), AllocError>
        requires { past_numbers args.now ≤ length pool.now }
        ensures { OnOk result (Adds known.now self.old self.new [] (put_pair (argument params.now (trees_at pool.now args.now)) (pair_of pair.now))) }
    {
        match pair {
            Pair::InTurn(first, second) => {
                let one = variable(pool, params, args, first)?;
                let other = variable(pool, params, args, second)?;
                self.turn_of(known, one, other)
            }
            Pair::AtOnce(first, second) => {
                let one = side_put(pool, params, args, first)?;
                let other = side_put(pool, params, args, second)?;
                self.once_of(known, one, other)
            }
        }
    }

    // The same of each of these.
    fn put_pairs(
        &mut self,
        known: &Known,
        pool: &Pool,
        params: &Params,
        args: &[NodeId],
        pairs: &[Pair],
    ) -> Result<(), AllocError>
        requires { past_numbers args.now ≤ length pool.now }
        ensures { OnOk result (Adds known.now self.old self.new [] (flat_map (λ p. put_pair (argument params.now (trees_at pool.now args.now)) (pair_of p)) pairs.now)) }
    {
        for one in pairs {
            self.put_pair(known, pool, params, args, one)?;
        }
        Ok(())
    }

    // What a call of a macro of this name has in pairs.
    fn call(
        &mut self,
        known: &Known,
        pool: &Pool,
        name: &Name,
        args: &[NodeId],
    ) -> Result<(), AllocError>
        requires { past_numbers args.now ≤ length pool.now }
        ensures { OnOk result ((ms : List Found) → AreMacros known.now ms → Adds known.now self.old self.new [] (found_in_call ms name.now (trees_at pool.now args.now)).pairs) }
    {
        match known.find(name) {
            None => Ok(()),
            Some(summary) => self.put_pairs(
                known,
                pool,
                &summary.params,
                args,
                summary.pairs.as_slice(),
            ),
        }
    }

    // A left side, before these in one statement.
    fn before_sides(&mut self, known: &Known, side: &Side, sides: &[Side]) -> Result<(), AllocError>
        ensures { OnOk result (Adds known.now self.old self.new [] (flat_map (λ s. at_once (side_of side.now) (side_of s) ∷ []) sides.now)) }
    {
        for one in sides {
            self.once(known, side, one)?;
        }
        Ok(())
    }

    // The same, which is then one of them.
    fn side(
        &mut self,
        known: &Known,
        pool: &Pool,
        sides: &mut IndexSet<Side>,
        left: NodeId,
    ) -> Result<(), AllocError>
        requires { left < length pool.now }
        ensures { OnOk result (PassesSide known.now self.old self.new sides.old.keys sides.new.keys (sides_of (is_whole (at pool.now left)) (root (at pool.now left)))) }
    {
        match root(pool, left)? {
            None => Ok(()),
            Some(name) => {
                let side = Side {
                    name,
                    whole: is_whole(pool, left),
                };
                self.before_sides(known, &side, sides.as_slice())?;
                sides.insert(side)?;
                Ok(())
            }
        }
    }

    // The left sides of an assignment.
    fn sides(
        &mut self,
        alloc: Global,
        known: &Known,
        pool: &Pool,
        list: &[Assignment],
    ) -> Result<(), AllocError>
        requires { greatest (map past_assignment list.now) ≤ length pool.now }
        ensures { OnOk result (Adds known.now self.old self.new [] (pairs_of (sides (assignments_at pool.now list.now)))) }
    {
        let mut met = IndexSet::new(alloc);
        for i in 0..list.len() {
            let one = &list[list.len() - 1 - i];
            self.side(known, pool, &mut met, one.left)?;
        }
        Ok(())
    }

    // These names are assigned.
    fn add(&mut self, known: &Known, names: &[Name]) -> Result<(), AllocError>
        ensures { OnOk result (Adds known.now self.old self.new names.now []) }
    {
        for name in names {
            self.names.insert(name.copied()?)?;
        }
        Ok(())
    }

    // These names are assigned by a statement to which this path leads.
    fn on_path(&mut self, known: &Known, path: &Path, names: &[Name]) -> Result<(), AllocError>
        ensures { OnOk result (Adds known.now self.old self.new (names_on (path_of path.now) names.now) (turns_on (path_of path.now) names.now)) }
    {
        if !path.reached {
            return Ok(());
        }
        self.add(known, names)?;
        self.all_turns(known, path.names.as_slice(), names)
    }

    /// A statement to which this path leads, and which assigns so.
    ///
    /// # Errors
    ///
    /// Only for want of memory.
    pub fn meet(
        &mut self,
        alloc: Global,
        known: &Known,
        pool: &Pool,
        path: &Path,
        simple: &Simple,
        names: &[Name],
    ) -> Result<(), AllocError>
        requires { past_simple simple.now ≤ length pool.now }
        ensures { OnOk result ((ms : List Found) → AreMacros known.now ms → Adds known.now self.old self.new (names_on (path_of path.now) names.now) (turns_on (path_of path.now) names.now ++ (found_here ms (simple_at pool.now simple.now)).pairs)) }
    {
        self.on_path(known, path, names)?;
        match simple {
            Simple::Assign(list) => self.sides(alloc, known, pool, list),
            Simple::Macro(name, args) => self.call(known, pool, name, args),
            _ => Ok(()),
        }
    }
}
