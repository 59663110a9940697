//! Labels added to an algorithm: first to its macros, and then, where it is known what these assign, to what has steps.

ghost use Rattle.std.specs.Prelude.{◌≡◌, ◌≤◌, ◌&&◌, ◌||◌, List, length, map, reverse, codes, IfOk};
ghost use Rattle.tla_tree.specs.Tree.{Tree, Word};
ghost use Rattle.pcal_tree.specs.Algorithm as tree;
ghost use Rattle.pcal_tree.specs.InMemory.{macro_at, main_at, algorithm_at, past_algorithm};
ghost use Rattle.pcal_tree.specs.Labelled.{labelled, with_labels, is_alone, typed_labels};
ghost use Rattle.pcal_tree.specs.OffencesSteps.{call_effect};
ghost use Rattle.pcal_tree.specs.laws.MacroSummaries.{summaries};
ghost use Rattle.pcal_tree.specs.Tests.{is_empty};
ghost use Rattle.label_steps.specs.KnownIn.{AreMacros};
ghost use Rattle.added_labels.specs.WithLabels.{Begun};

use crate::bodies::{in_macros, in_main, in_procedures};
use crate::seen::Where;
use crate::typed::typed_names;
use algorithm_limits::labels::{MOST_LABELS, labels};
use algorithm_limits::table::Table;
use indexmap::IndexSet;
use label_steps::around::Around;
use label_steps::known::Known;
use label_steps::macros::known_macros;
use pcal_tree::algorithm::{Algorithm, Main};
use placed_labels::names::Names;
use placed_labels::place::Plan;
use std::alloc::{AllocError, Global};
use std::mem::replace;
use tla_pool::Pool;
use tla_tree::Name;

// Whether labels are added at all: where they are forced, and to a uniprocess algorithm without any.
fn are_added(algorithm: &Algorithm, forced: bool) -> bool
    ensures { (ts : List Tree) → result ≡ (forced || (is_alone (main_at ts algorithm.now.main) && is_empty (typed_labels (algorithm_at ts algorithm.now)))) }
{
    if forced {
        return true;
    }
    match &algorithm.main {
        Main::Alone(_) => labels(algorithm).left == MOST_LABELS,
        Main::Processes(_) => false,
    }
}

/// Adds labels with this root to the macros of an algorithm. The plan is for the rest of it.
///
/// # Errors
///
/// Only for want of memory.
pub fn with_macros(
    alloc: Global,
    pool: &Pool,
    algorithm: Algorithm,
    root: Name,
) -> Result<(Plan, Algorithm), AllocError>
    requires { past_algorithm algorithm ≤ length pool.now }
    ensures begun { IfOk result (λ r. Begun root pool.now r.0 r.1 (algorithm_at pool.now algorithm)) }
    ensures numbers { IfOk result (λ r. past_algorithm r.1 ≤ past_algorithm algorithm) }
{
    let typed = typed_names(alloc, &algorithm)?;
    let mut plan = Plan {
        wanted: Vec::new(alloc),
        passed: 0,
        names: Names {
            root,
            typed,
            from: 1,
        },
    };
    let known = Known {
        params: IndexSet::new(alloc),
        numbers: Table::new(alloc),
        summaries: Vec::new(alloc),
    };
    let around = Around {
        known,
        name: None,
        own: Vec::new(alloc),
    };
    let place = Where {
        around,
        silent: true,
    };
    let mut changed = algorithm;
    let macros = replace(&mut changed.macros, Vec::new(alloc));
    changed.macros = in_macros(alloc, pool, &mut plan, &place, macros)?;
    Ok((plan, changed))
}

/// Adds labels to the procedures of an algorithm and to what runs, where these are known to be its macros, which have theirs.
///
/// # Errors
///
/// Only for want of memory.
pub fn with_routines(
    alloc: Global,
    pool: &Pool,
    plan: Plan,
    known: Known,
    algorithm: Algorithm,
) -> Result<Algorithm, AllocError>
    requires { past_algorithm algorithm ≤ length pool.now }
    ensures macros { IfOk result (λ r. r.macros ≡ algorithm.macros) }
    ensures with { IfOk result (λ r. (root : Word) (a : tree.Algorithm) → Begun root pool.now plan algorithm a → AreMacros known (summaries (reverse (map (macro_at pool.now) algorithm.macros.items))) → algorithm_at pool.now r ≡ with_labels call_effect root a) }
    ensures numbers { IfOk result (λ r. past_algorithm r ≤ past_algorithm algorithm) }
{
    let mut plan = plan;
    let mut place = Where {
        around: Around {
            known,
            name: None,
            own: Vec::new(alloc),
        },
        silent: false,
    };
    let mut changed = algorithm;
    let procedures = replace(&mut changed.procedures, Vec::new(alloc));
    changed.procedures = in_procedures(alloc, pool, &mut plan, &mut place, procedures)?;
    place.around.name = None;
    place.around.own = Vec::new(alloc);
    let main = replace(&mut changed.main, Main::Alone(Vec::new(alloc)));
    changed.main = in_main(alloc, pool, &mut plan, &place, main)?;
    Ok(changed)
}

/// Adds labels with this root to an algorithm, everywhere where they are missing.
///
/// # Errors
///
/// Only for want of memory.
pub fn add_labels_of_root(
    alloc: Global,
    pool: &Pool,
    algorithm: Algorithm,
    root: Name,
) -> Result<Algorithm, AllocError>
    requires { past_algorithm algorithm ≤ length pool.now }
    ensures tree { IfOk result (λ r. algorithm_at pool.now r ≡ with_labels call_effect root (algorithm_at pool.now algorithm)) }
    ensures past { IfOk result (λ r. past_algorithm r ≤ length pool.now) }
{
    let (plan, begun) = with_macros(alloc, pool, algorithm, root)?;
    let known = known_macros(alloc, pool, &begun.macros)?;
    with_routines(alloc, pool, plan, known, begun)
}

// What the names of added labels begin with if nothing else is asked.
fn usual_root(alloc: Global) -> Result<Name, AllocError>
    ensures { IfOk result (λ n. n ≡ codes "Lbl_") }
{
    let mut bytes = Vec::new(alloc);
    bytes.extend_from_slice(b"Lbl_")?;
    Ok(Name::new(bytes))
}

/// Adds labels to an algorithm, everywhere where they are forced, or where it is a uniprocess algorithm without any.
///
/// # Errors
///
/// Only for want of memory.
pub fn add_labels(
    alloc: Global,
    pool: &Pool,
    algorithm: Algorithm,
    forced: bool,
) -> Result<Algorithm, AllocError>
    requires { past_algorithm algorithm ≤ length pool.now }
    ensures tree { IfOk result (λ r. algorithm_at pool.now r ≡ labelled forced (algorithm_at pool.now algorithm)) }
    ensures past { IfOk result (λ r. past_algorithm r ≤ length pool.now) }
{
    if !are_added(&algorithm, forced) {
        return Ok(algorithm);
    }
    let root = usual_root(alloc)?;
    add_labels_of_root(alloc, pool, algorithm, root)
}
