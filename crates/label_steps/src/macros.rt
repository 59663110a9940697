//! What is known of the macros of an algorithm.

ghost use Rattle.std.specs.Prelude.{◌≡◌, ◌≤◌, ◌∷◌, ◌||◌, List, [], false, Some, None, length, map, reverse, IfOk, OnOk};
ghost use Rattle.std.specs.List.{list_any};
ghost use Rattle.tla_token.specs.Signs.{is_among};
ghost use Rattle.tla_tree.specs.Nesting.{greatest};
ghost use Rattle.tla_tree.specs.Tree.{Word};
ghost use Rattle.pcal_tree.specs.InMemory.{statements_at, macro_at, past_statements, past_macro};
ghost use Rattle.pcal_tree.specs.laws.MacroSummaries.{Summary as Found, summaries};
ghost use Rattle.label_steps.specs.KnownIn.{AreMacros, IsSummary};
ghost use Rattle.label_steps.specs.MacrosIn.{params_of, AreInside, IsGathered, summary_after, StaysAround};
ghost use Rattle.label_steps.specs.declared.gathered.Gathered.{Gathered as PureGathered};
ghost use Rattle.label_steps.specs.MissingLabels.{due_in};

use crate::around::Around;
use crate::due::due_in_macro;
use crate::gathered::Gathered;
use crate::known::Known;
use crate::params::{Params, name_of};
use crate::path::Path;
use crate::put::Summary;
use crate::walk::Met;
use crate::ways::Ways;
use algorithm_limits::table::Table;
use indexmap::IndexSet;
use pcal_tree::algorithm::{Macro, Stmt};
use std::alloc::{AllocError, Global};
use tla_pool::Pool;
use tla_tree::{Name, PlacedName};

// What was gathered; nothing where nothing was to be.
fn taken(alloc: Global, found: Option<Gathered>) -> Gathered
    ensures { (a : PureGathered) → found ≡ Some a → result ≡ a }
{
    match found {
        None => Gathered::new(alloc),
        Some(gathered) => gathered,
    }
}

// These parameters are there too.
fn add_params(set: &mut IndexSet<Name>, params: &[PlacedName]) -> Result<(), AllocError>
    ensures { OnOk result ((x : Word) → is_among set.new.keys x ≡ (is_among set.old.keys x || is_among (params_of params.now) x)) }
{
    for one in params {
        set.insert(name_of(one)?)?;
    }
    Ok(())
}

// The names that are a parameter of some macro.
fn all_params(alloc: Global, macros: &[Macro]) -> Result<IndexSet<Name>, AllocError>
    ensures { IfOk result (λ r. (x : Word) → is_among r.keys x ≡ list_any (λ d. is_among (params_of d.params.items) x) macros.now) }
{
    let mut set = IndexSet::new(alloc);
    for one in macros {
        add_params(&mut set, &one.params)?;
    }
    Ok(set)
}

impl Around {
    // What is gathered of a macro's body in which no label is missing.
    fn straight(&self, alloc: Global, pool: &Pool, stmts: &[Stmt]) -> Result<Gathered, AllocError>
        requires { past_statements stmts.now ≤ length pool.now }
        ensures { IfOk result (λ r. (ms : List Found) → AreMacros self.now.known ms → self.now.name ≡ None → self.now.own.items ≡ [] → due_in false None (statements_at pool.now stmts.now) ≡ [] → IsGathered self.now.known.params.keys r ms (statements_at pool.now stmts.now)) }
    {
        let mut path = Path::new(alloc);
        let mut met = Met {
            first: None,
            found: Some(Gathered::new(alloc)),
        };
        self.list(alloc, pool, &mut path, &mut met, stmts)?;
        let Met { found, .. } = met;
        Ok(taken(alloc, found))
    }

    // What is gathered of a macro's body along all paths.
    fn general(&self, alloc: Global, pool: &Pool, stmts: &[Stmt]) -> Result<Gathered, AllocError>
        requires { past_statements stmts.now ≤ length pool.now }
        ensures { IfOk result (λ r. (ms : List Found) → AreMacros self.now.known ms → self.now.name ≡ None → self.now.own.items ≡ [] → IsGathered self.now.known.params.keys r ms (statements_at pool.now stmts.now)) }
    {
        let mut ways = Ways::new(alloc);
        let mut found = Some(Gathered::new(alloc));
        self.along(alloc, pool, &mut ways, &mut found, stmts)?;
        Ok(taken(alloc, found))
    }

    // What is gathered of a macro's body.
    fn gathered(&self, alloc: Global, pool: &Pool, stmts: &[Stmt]) -> Result<Gathered, AllocError>
        requires { past_statements stmts.now ≤ length pool.now }
        ensures { IfOk result (λ r. (ms : List Found) → AreMacros self.now.known ms → self.now.name ≡ None → self.now.own.items ≡ [] → IsGathered self.now.known.params.keys r ms (statements_at pool.now stmts.now)) }
    {
        match due_in_macro(stmts) {
            None => self.straight(alloc, pool, stmts),
            Some(_) => self.general(alloc, pool, stmts),
        }
    }

    // A macro's summary.
    fn summary(&self, alloc: Global, pool: &Pool, one: &Macro) -> Result<Summary, AllocError>
        requires { past_macro one.now ≤ length pool.now }
        ensures { IfOk result (λ r. (ms : List Found) → AreMacros self.now.known ms → self.now.name ≡ None → self.now.own.items ≡ [] → AreInside self.now.known.params.keys one.now.params.items → IsSummary self.now.known.params.keys r (summary_after ms (macro_at pool.now one.now))) }
    {
        let Gathered { names, pairs } = self.gathered(alloc, pool, &one.body)?;
        Ok(Summary {
            params: Params::new(alloc, &one.params)?,
            names,
            pairs,
        })
    }

    // One more macro is known.
    fn learn(&mut self, alloc: Global, pool: &Pool, one: &Macro) -> Result<(), AllocError>
        requires { past_macro one.now ≤ length pool.now }
        ensures same { OnOk result (StaysAround self.old self.new) }
        ensures known { OnOk result ((ms : List Found) → AreMacros self.old.known ms → self.old.name ≡ None → self.old.own.items ≡ [] → AreInside self.old.known.params.keys one.now.params.items → AreMacros self.new.known (summary_after ms (macro_at pool.now one.now) ∷ ms)) }
    {
        let summary = self.summary(alloc, pool, one)?;
        self.known.summaries.push(summary)?;
        let number = self.known.summaries.len();
        self.known.numbers.set(name_of(&one.name)?, number)?;
        Ok(())
    }
}

/// What is known of the macros of an algorithm.
///
/// # Errors
///
/// Only for want of memory.
pub fn known_macros(alloc: Global, pool: &Pool, macros: &[Macro]) -> Result<Known, AllocError>
    requires { greatest (map past_macro macros.now) ≤ length pool.now }
    ensures { IfOk result (λ r. AreMacros r (summaries (reverse (map (macro_at pool.now) macros.now)))) }
{
    let known = Known {
        params: all_params(alloc, macros)?,
        numbers: Table::new(alloc),
        summaries: Vec::new(alloc),
    };
    let mut around = Around {
        known,
        name: None,
        own: Vec::new(alloc),
    };
    for i in 0..macros.len() {
        around.learn(alloc, pool, &macros[i])?;
    }
    let Around { known, .. } = around;
    Ok(known)
}
