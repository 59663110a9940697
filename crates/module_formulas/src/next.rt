//! The disjuncts of Next.

ghost use Rattle.std.specs.Prelude.{◌≡◌, ◌<◌, ◌≤◌, ◌+◌, ◌∷◌, ◌++◌, [], ℕ, List, Bool, cond, codes, length, IfOk, OnOk};
ghost use Rattle.std.specs.Prelude as prelude;
ghost use Rattle.tla_tree.specs.Tree.{Tree};
ghost use Rattle.tla_tree.specs.Pool.{at, Keeps};
ghost use Rattle.module_tree.specs.Formulas.{self, named};
ghost use Rattle.module_tree.specs.Module.{call, one_way};
ghost use Rattle.pcal_tree.specs.InMemory.{past_main, past_algorithm};
ghost use Rattle.pcal_tree.specs.Program.{Program};
ghost use Rattle.module_write.specs.InMemory.{ways_at, WaysIn};
ghost use Rattle.written_names.specs.Units.{naming_of};
ghost use Rattle.action_builder.specs.NextFormula.{next as next_of};
ghost use Rattle.draft.specs.Drafts.{IsDraft};
ghost use Rattle.module_formulas.specs.TakersIn.{taker_at, TakerIn};
ghost use Rattle.module_formulas.specs.MainWays.{main_ways_at, ways_of};

use crate::names::{name_of, word};
use crate::numbers::{first_procedure, first_process};
use crate::takers::{Taker, procedure_taker};
use crate::ways::{Caller, add_label_ways, add_procedure_ways, add_process_ways};
use draft::Draft;
use module_write::module::{Call, Way};
use pcal_tree::algorithm::Main;
use std::alloc::{AllocError, Global};
use tla_pool::Pool;
use tla_tree::NodeId;

// Adds the disjuncts of what runs, of which the first has this number; `this` is the name `self`.
fn add_main(
    alloc: Global,
    draft: &Draft<'_>,
    this: NodeId,
    number: usize,
    main: &Main,
    out: &mut Vec<Way>,
) -> Result<(), AllocError>
    ensures made { OnOk result ((ts : List Tree) (P : Program) → at ts this ≡ named self → naming_of draft.now.naming.now ≡ P.naming → ways_at ts out.new.items ≡ ways_at ts out.old.items ++ main_ways_at P number ts main.now) }
    ensures within { OnOk result ((m : ℕ) → this < m → past_main main.now ≤ m → WaysIn m out.old.items → WaysIn m out.new.items) }
{
    match main {
        Main::Alone(body) => {
            let taker = Taker::Lone;
            add_label_ways(alloc, draft, Caller { this, taker }, number, body, out)
        }
        Main::Processes(list) => add_process_ways(alloc, draft, this, number, list, out),
    }
}

// Adds Terminating, which isn't there with the option `--no-terminating`.
fn add_terminating(
    alloc: Global,
    no_terminating: bool,
    out: &mut Vec<Way>,
) -> Result<(), AllocError>
    ensures made { OnOk result ((ts : List Tree) → ways_at ts out.new.items ≡ ways_at ts out.old.items ++ cond no_terminating [] (one_way (call (codes "Terminating")) ∷ [])) }
    ensures within { OnOk result ((m : ℕ) → WaysIn m out.old.items → WaysIn m out.new.items) }
{
    if no_terminating {
        return Ok(());
    }
    let title = word(alloc, b"Terminating")?;
    out.push(Way::One(Call::Bare(title)))?;
    Ok(())
}

// Adds all disjuncts; the caller takes the steps of procedures.
fn add_ways(
    alloc: Global,
    draft: &Draft<'_>,
    caller: Caller,
    no_terminating: bool,
    out: &mut Vec<Way>,
) -> Result<(), AllocError>
    ensures made { OnOk result ((ts : List Tree) (P : Program) → at ts caller.this ≡ named self → IsDraft ts draft.now P → ways_at ts out.new.items ≡ ways_at ts out.old.items ++ ways_of no_terminating P (taker_at ts caller.taker)) }
    ensures within { OnOk result ((m : ℕ) → caller.this < m → TakerIn m caller.taker → past_algorithm draft.now.algorithm.now ≤ m → WaysIn m out.old.items → WaysIn m out.new.items) }
{
    let algorithm = draft.algorithm;
    let first = first_procedure(algorithm);
    add_procedure_ways(alloc, draft, caller, first, &algorithm.procedures, out)?;
    let number = first_process(algorithm)?;
    add_main(alloc, draft, caller.this, number, &algorithm.main, out)?;
    add_terminating(alloc, no_terminating, out)
}

/// The disjuncts of Next.
///
/// # Errors
///
/// Only for want of memory; the pool may then have more nodes than before.
pub fn build_next(
    alloc: Global,
    pool: &mut Pool,
    draft: &Draft<'_>,
    no_terminating: bool,
) -> Result<Vec<Way>, AllocError>
    requires { past_algorithm draft.now.algorithm.now ≤ length pool.old }
    ensures made { IfOk result (λ r. (P : Program) → IsDraft pool.old draft.now P → ways_at pool.new r.items ≡ next_of no_terminating P) }
    ensures within { IfOk result (λ r. WaysIn (length pool.new) r.items) }
    ensures kept { Keeps pool.old pool.new }
{
    let this = name_of(alloc, pool, b"self")?;
    let taker = procedure_taker(alloc, pool, &draft.algorithm.main)?;
    let mut ways = Vec::new(alloc);
    add_ways(
        alloc,
        draft,
        Caller { this, taker },
        no_terminating,
        &mut ways,
    )?;
    Ok(ways)
}
