//! A translation, filled unit by unit from a draft.

ghost use Rattle.std.specs.Prelude.{◌≡◌, ◌<◌, ◌≤◌, ℕ, List, length, IfOk, OnOk};
ghost use Rattle.std.specs.Prelude as prelude;
ghost use Rattle.tla_tree.specs.Tree.{Tree};
ghost use Rattle.tla_tree.specs.Pool.{at, Keeps};
ghost use Rattle.module_tree.specs.Module as tree;
ghost use Rattle.pcal_tree.specs.InMemory.{past_algorithm};
ghost use Rattle.pcal_tree.specs.Program.{Program, inner};
ghost use Rattle.pcal_tree.specs.Variables.{vars};
ghost use Rattle.module_write.specs.InMemory.{region_at, RegionIn};
ghost use Rattle.action_builder.specs.InitialFormulas.{init};
ghost use Rattle.action_builder.specs.ModelValues as values;
ghost use Rattle.action_builder.specs.NextFormula as pure;
ghost use Rattle.action_builder.specs.ProcessSets.{process_set_of};
ghost use Rattle.fairness.specs.FairnessLines.{fairness_lines};
ghost use Rattle.step_forms.specs.Steps.{actions_by_steps};
ghost use Rattle.region_forms.specs.RegionBySteps.{region_by_steps};
ghost use Rattle.draft.specs.Drafts.{IsDraft};
ghost use Rattle.module_formulas.specs.TakersIn.{Runs};
ghost use Rattle.label_actions.specs.Fitting.{IsActable};

use crate::definitions::definitions;
use draft::Draft;
use draft::variables::variables;
use fairness_lines::spec_of;
use label_actions::actions;
use module_formulas::done::{all_done, ended};
use module_formulas::init::build_init;
use module_formulas::model_values::model_values;
use module_formulas::next::build_next;
use module_formulas::process_sets::process_set;
use module_write::module::Region;
use std::alloc::{AllocError, Global};
use tla_pool::Pool;
use tla_tree::{NameList, NodeId};
use tla_value::names::Defs;

// A translation with nothing in it but what Termination says.
fn begun(alloc: Global, termination: NodeId) -> Region
    ensures same { result.termination ≡ termination }
    ensures within { (m : ℕ) → termination < m → RegionIn m result }
{
    Region {
        model_values: NameList::new(alloc),
        variables: NameList::new(alloc),
        definitions: Defs::new(alloc),
        vars: NameList::new(alloc),
        process_set: None,
        init: Vec::new(alloc),
        actions: Vec::new(alloc),
        ended: None,
        next: Vec::new(alloc),
        fairness: Vec::new(alloc),
        termination,
    }
}

// ---- what is in no pool

// Puts the model values in.
fn add_model_values(alloc: Global, draft: &Draft<'_>, region: &mut Region) -> Result<(), AllocError>
    ensures made { OnOk result ((ts : List Tree) (P : Program) → IsDraft ts draft.now P → region_at ts region.new ≡ record (region_at ts region.old) { model_values = values.model_values P.algorithm }) }
    ensures within { OnOk result ((m : ℕ) → RegionIn m region.old → RegionIn m region.new) }
{
    region.model_values = model_values(alloc, draft)?;
    Ok(())
}

// Puts the variables in.
fn add_variables(alloc: Global, draft: &Draft<'_>, region: &mut Region) -> Result<(), AllocError>
    ensures made { OnOk result ((ts : List Tree) (P : Program) → IsDraft ts draft.now P → region_at ts region.new ≡ record (region_at ts region.old) { variables = vars P }) }
    ensures within { OnOk result ((m : ℕ) → RegionIn m region.old → RegionIn m region.new) }
{
    region.variables = variables(alloc, draft.algorithm, draft.naming)?;
    Ok(())
}

// Puts the tuple of the variables in.
fn add_vars(alloc: Global, draft: &Draft<'_>, region: &mut Region) -> Result<(), AllocError>
    ensures made { OnOk result ((ts : List Tree) (P : Program) → IsDraft ts draft.now P → region_at ts region.new ≡ record (region_at ts region.old) { vars = vars P }) }
    ensures within { OnOk result ((m : ℕ) → RegionIn m region.old → RegionIn m region.new) }
{
    region.vars = variables(alloc, draft.algorithm, draft.naming)?;
    Ok(())
}

// Puts the definitions of the `define` block in.
fn add_definitions(alloc: Global, draft: &Draft<'_>, region: &mut Region) -> Result<(), AllocError>
    ensures made { OnOk result ((ts : List Tree) (P : Program) → IsDraft ts draft.now P → region_at ts region.new ≡ record (region_at ts region.old) { definitions = prelude.map inner P.algorithm.definitions }) }
    ensures within { OnOk result ((m : ℕ) → past_algorithm draft.now.algorithm.now ≤ m → RegionIn m region.old → RegionIn m region.new) }
{
    region.definitions = definitions(alloc, &draft.algorithm.definitions)?;
    Ok(())
}

// Puts all these in.
fn add_declarations(alloc: Global, draft: &Draft<'_>, region: &mut Region) -> Result<(), AllocError>
    ensures made { OnOk result ((ts : List Tree) (P : Program) → IsDraft ts draft.now P → region_at ts region.new ≡ record (region_at ts region.old) { model_values = values.model_values P.algorithm; variables = vars P; definitions = prelude.map inner P.algorithm.definitions; vars = vars P }) }
    ensures within { OnOk result ((m : ℕ) → past_algorithm draft.now.algorithm.now ≤ m → RegionIn m region.old → RegionIn m region.new) }
{
    add_model_values(alloc, draft, region)?;
    add_variables(alloc, draft, region)?;
    add_definitions(alloc, draft, region)?;
    add_vars(alloc, draft, region)
}

// ---- what is in the pool

// Puts ProcSet in.
fn add_process_set(
    alloc: Global,
    pool: &mut Pool,
    draft: &Draft<'_>,
    region: &mut Region,
) -> Result<(), AllocError>
    requires { past_algorithm draft.now.algorithm.now ≤ length pool.old }
    ensures made { OnOk result ((P : Program) → IsDraft pool.old draft.now P → RegionIn (length pool.old) region.old → region_at pool.new region.new ≡ record (region_at pool.old region.old) { process_set = process_set_of P.algorithm.main }) }
    ensures within { OnOk result (RegionIn (length pool.old) region.old → RegionIn (length pool.new) region.new) }
    ensures kept { Keeps pool.old pool.new }
{
    region.process_set = process_set(alloc, pool, draft)?;
    Ok(())
}

// Puts the conjuncts of Init in.
fn add_init(
    alloc: Global,
    pool: &mut Pool,
    draft: &Draft<'_>,
    region: &mut Region,
) -> Result<(), AllocError>
    requires { past_algorithm draft.now.algorithm.now ≤ length pool.old }
    ensures made { OnOk result ((P : Program) → IsDraft pool.old draft.now P → Runs P.algorithm.main → RegionIn (length pool.old) region.old → region_at pool.new region.new ≡ record (region_at pool.old region.old) { init = init P }) }
    ensures within { OnOk result (RegionIn (length pool.old) region.old → RegionIn (length pool.new) region.new) }
    ensures kept { Keeps pool.old pool.new }
{
    region.init = build_init(alloc, pool, draft)?;
    Ok(())
}

// Puts the actions in.
fn add_actions(
    alloc: Global,
    pool: &mut Pool,
    draft: &Draft<'_>,
    region: &mut Region,
) -> Result<(), AllocError>
    requires { past_algorithm draft.now.algorithm.now ≤ length pool.old }
    ensures made { OnOk result ((P : Program) → IsDraft pool.old draft.now P → IsActable P → RegionIn (length pool.old) region.old → region_at pool.new region.new ≡ record (region_at pool.old region.old) { actions = actions_by_steps P }) }
    ensures within { OnOk result (RegionIn (length pool.old) region.old → RegionIn (length pool.new) region.new) }
    ensures kept { Keeps pool.old pool.new }
{
    region.actions = actions(alloc, pool, draft)?;
    Ok(())
}

// Puts the test of Terminating in, where there is to be one.
fn add_ended(
    alloc: Global,
    pool: &mut Pool,
    draft: &Draft<'_>,
    no_terminating: bool,
    region: &mut Region,
) -> Result<(), AllocError>
    ensures made { OnOk result ((P : Program) → IsDraft pool.old draft.now P → RegionIn (length pool.old) region.old → region_at pool.new region.new ≡ record (region_at pool.old region.old) { ended = pure.ended no_terminating P.algorithm.main }) }
    ensures within { OnOk result (RegionIn (length pool.old) region.old → RegionIn (length pool.new) region.new) }
    ensures kept { Keeps pool.old pool.new }
{
    region.ended = ended(alloc, pool, draft, no_terminating)?;
    Ok(())
}

// Puts the disjuncts of Next in.
fn add_next(
    alloc: Global,
    pool: &mut Pool,
    draft: &Draft<'_>,
    no_terminating: bool,
    region: &mut Region,
) -> Result<(), AllocError>
    requires { past_algorithm draft.now.algorithm.now ≤ length pool.old }
    ensures made { OnOk result ((P : Program) → IsDraft pool.old draft.now P → RegionIn (length pool.old) region.old → region_at pool.new region.new ≡ record (region_at pool.old region.old) { next = pure.next no_terminating P }) }
    ensures within { OnOk result (RegionIn (length pool.old) region.old → RegionIn (length pool.new) region.new) }
    ensures kept { Keeps pool.old pool.new }
{
    region.next = build_next(alloc, pool, draft, no_terminating)?;
    Ok(())
}

// Puts the formulas of fairness in.
fn add_fairness(
    alloc: Global,
    pool: &mut Pool,
    draft: &Draft<'_>,
    region: &mut Region,
) -> Result<(), AllocError>
    requires { past_algorithm draft.now.algorithm.now ≤ length pool.old }
    ensures made { OnOk result ((P : Program) → IsDraft pool.old draft.now P → RegionIn (length pool.old) region.old → region_at pool.new region.new ≡ record (region_at pool.old region.old) { fairness = fairness_lines P }) }
    ensures within { OnOk result (RegionIn (length pool.old) region.old → RegionIn (length pool.new) region.new) }
    ensures kept { Keeps pool.old pool.new }
{
    region.fairness = spec_of(alloc, pool, draft)?;
    Ok(())
}

// ---- all of it

// Puts in what a run begins with, and what processes there are.
fn add_start(
    alloc: Global,
    pool: &mut Pool,
    draft: &Draft<'_>,
    region: &mut Region,
) -> Result<(), AllocError>
    requires { past_algorithm draft.now.algorithm.now ≤ length pool.old }
    ensures made { OnOk result ((P : Program) → IsDraft pool.old draft.now P → Runs P.algorithm.main → RegionIn (length pool.old) region.old → region_at pool.new region.new ≡ record (region_at pool.old region.old) { model_values = values.model_values P.algorithm; variables = vars P; definitions = prelude.map inner P.algorithm.definitions; vars = vars P; process_set = process_set_of P.algorithm.main; init = init P }) }
    ensures within { OnOk result (RegionIn (length pool.old) region.old → RegionIn (length pool.new) region.new) }
    ensures kept { Keeps pool.old pool.new }
{
    add_declarations(alloc, draft, region)?;
    add_process_set(alloc, pool, draft, region)?;
    add_init(alloc, pool, draft, region)
}

// Puts in what each step is, and how steps go on.
fn add_steps(
    alloc: Global,
    pool: &mut Pool,
    draft: &Draft<'_>,
    no_terminating: bool,
    region: &mut Region,
) -> Result<(), AllocError>
    requires { past_algorithm draft.now.algorithm.now ≤ length pool.old }
    ensures made { OnOk result ((P : Program) → IsDraft pool.old draft.now P → IsActable P → RegionIn (length pool.old) region.old → region_at pool.new region.new ≡ record (region_at pool.old region.old) { actions = actions_by_steps P; ended = pure.ended no_terminating P.algorithm.main; next = pure.next no_terminating P; fairness = fairness_lines P }) }
    ensures within { OnOk result (RegionIn (length pool.old) region.old → RegionIn (length pool.new) region.new) }
    ensures kept { Keeps pool.old pool.new }
{
    add_actions(alloc, pool, draft, region)?;
    add_ended(alloc, pool, draft, no_terminating, region)?;
    add_next(alloc, pool, draft, no_terminating, region)?;
    add_fairness(alloc, pool, draft, region)
}

// Puts all in but what Termination says.
fn add_units(
    alloc: Global,
    pool: &mut Pool,
    draft: &Draft<'_>,
    no_terminating: bool,
    region: &mut Region,
) -> Result<(), AllocError>
    requires { past_algorithm draft.now.algorithm.now ≤ length pool.old }
    ensures made { OnOk result ((P : Program) → IsDraft pool.old draft.now P → Runs P.algorithm.main → IsActable P → RegionIn (length pool.old) region.old → region_at pool.new region.new ≡ record (region_by_steps no_terminating P) { termination = at pool.old region.old.termination }) }
    ensures within { OnOk result (RegionIn (length pool.old) region.old → RegionIn (length pool.new) region.new) }
    ensures kept { Keeps pool.old pool.new }
{
    add_start(alloc, pool, draft, region)?;
    add_steps(alloc, pool, draft, no_terminating, region)
}

/// The translation of a draft.
///
/// # Errors
///
/// Only for want of memory; the pool may then have more nodes than before.
pub fn region(
    alloc: Global,
    pool: &mut Pool,
    draft: &Draft<'_>,
    no_terminating: bool,
) -> Result<Region, AllocError>
    requires { past_algorithm draft.now.algorithm.now ≤ length pool.old }
    ensures made { (P : Program) → IsDraft pool.old draft.now P → Runs P.algorithm.main → IsActable P → IfOk result (λ r. region_at pool.new r ≡ region_by_steps no_terminating P) }
    ensures within { IfOk result (RegionIn (length pool.new)) }
    ensures kept { Keeps pool.old pool.new }
{
    let termination = all_done(alloc, pool, draft)?;
    let mut region = begun(alloc, termination);
    add_units(alloc, pool, draft, no_terminating, &mut region)?;
    Ok(region)
}
