//! What is seen in macros.

ghost use Rattle.std.specs.Prelude.{◌≡◌, List, [], ◌∷◌, None, Some, map, reverse, IfOk, OnOk};
ghost use Rattle.pcal_tree.specs.Algorithm.{Procedure};
ghost use Rattle.pcal_tree.specs.InMemory.{macro_at, statements_at};
ghost use Rattle.pcal_tree.specs.laws.MacroSpots.{At, earlier, MacroSeen, starting};
ghost use Rattle.read_rules.specs.KnownIn.{AreWays, IsSummary, Knows};
ghost use Rattle.read_rules.specs.MacrosIn.{macro_seen};
ghost use Rattle.read_rules.specs.Pruned.{kept_from, macro_pruned, macros_pruned};
ghost use Rattle.read_rules.specs.WantedIn.{wants};
ghost use Rattle.read_rules.specs.WaysIn.{Begins};
ghost use Rattle.read_rules.specs.StepsIn.{AreJumps};

use crate::known::{Known, Summary};
use crate::steps::Jump;
use crate::walk::Ways;
use crate::wanted::Wanted;
use algorithm_limits::table::Table;
use pcal_tree::algorithm::{Macro, Stmt};
use std::alloc::{AllocError, Global};
use tla_pool::Pool;
use tla_tree::PlacedName;

// The same names once more.
fn copied_names(alloc: Global, names: &[PlacedName]) -> Result<Vec<PlacedName>, AllocError>
    ensures { IfOk result (λ r. r.items ≡ names.now) }
{
    let mut list = Vec::new(alloc);
    for one in names {
        list.push(one.copied()?)?;
    }
    Ok(list)
}

// What is seen in a macro's body, by what is known of the older ones, where nothing was seen yet.
fn see_once(
    alloc: Global,
    pool: &Pool,
    wanted: &Wanted,
    known: &Known,
    ways: &mut Ways,
    body: &[Stmt],
) -> Result<(), AllocError>
    ensures { OnOk result ((u r : At) (ms : List MacroSeen) (ps : List Procedure) → Begins ways.old.unreached u → Begins ways.old.reached r → Knows known.now ms ps → AreWays ways.new (kept_from (wants wanted.now) ms ps (statements_at pool.now body.now) u) (kept_from (wants wanted.now) ms ps (statements_at pool.now body.now) r)) }
{
    known.body(alloc, pool, ways, body)?;
    ways.unreached.keep_once(alloc, wanted)?;
    ways.reached.keep_once(alloc, wanted)
}

// What is seen in a macro's body, by what is known of the older ones.
fn seen_once(
    alloc: Global,
    pool: &Pool,
    wanted: &Wanted,
    known: &Known,
    labelled: bool,
    body: &[Stmt],
) -> Result<Ways, AllocError>
    ensures { IfOk result (λ r. (ms : List MacroSeen) (ps : List Procedure) → Knows known.now ms ps → AreWays r (kept_from (wants wanted.now) ms ps (statements_at pool.now body.now) (starting labelled None)) (kept_from (wants wanted.now) ms ps (statements_at pool.now body.now) (starting labelled (Some (earlier ∷ []))))) }
{
    let mut ways = Ways::new(alloc, labelled);
    match see_once(alloc, pool, wanted, known, &mut ways, body) {
        Ok(()) => Ok(ways),
        Err(error) => {
            drop(ways);
            Err(error)
        }
    }
}

// What is seen in a macro, by what is known of the older ones. Each use is kept once, so that what is kept doesn't grow with
// the number of ways on which macros call a macro.
fn summary(
    alloc: Global,
    pool: &Pool,
    wanted: &Wanted,
    known: &Known,
    one: &Macro,
) -> Result<Summary, AllocError>
    ensures { IfOk result (λ r. (ms : List MacroSeen) (ps : List Procedure) → Knows known.now ms ps → IsSummary r (macro_pruned (wants wanted.now) (macro_seen ps ms (macro_at pool.now one.now)))) }
{
    let params = copied_names(alloc, &one.params)?;
    let plain = seen_once(alloc, pool, wanted, known, false, &one.body)?;
    match seen_once(alloc, pool, wanted, known, true, &one.body) {
        Ok(labelled) => Ok(Summary {
            params,
            plain,
            labelled,
        }),
        Err(error) => {
            drop(plain);
            Err(error)
        }
    }
}

impl Known {
    // What is seen in macros, each newer than those before.
    fn add_macros(
        &mut self,
        alloc: Global,
        pool: &Pool,
        wanted: &Wanted,
        macros: &[Macro],
    ) -> Result<(), AllocError>
        ensures { OnOk result ((ps : List Procedure) → Knows self.old [] ps → Knows self.new (macros_pruned (wants wanted.now) ps (reverse (map (macro_at pool.now) macros.now))) ps) }
    {
        for one in macros {
            let summary = summary(alloc, pool, wanted, &*self, one)?;
            self.add_macro(&one.name.name, summary)?;
        }
        Ok(())
    }
}

/// What is seen in macros, where this is what calls of procedures use.
///
/// # Errors
///
/// Only for want of memory.
pub fn known_macros(
    alloc: Global,
    pool: &Pool,
    wanted: &Wanted,
    macros: &[Macro],
    jumps: Vec<Jump>,
) -> Result<Known, AllocError>
    ensures { IfOk result (λ r. (ps : List Procedure) → AreJumps jumps.items ps → Knows r (macros_pruned (wants wanted.now) ps (reverse (map (macro_at pool.now) macros.now))) ps) }
{
    let mut known = Known {
        numbers: Table::new(alloc),
        summaries: Vec::new(alloc),
        jumps,
    };
    match known.add_macros(alloc, pool, wanted, macros) {
        Ok(()) => Ok(known),
        Err(error) => {
            drop(known);
            Err(error)
        }
    }
}
